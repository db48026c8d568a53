//! A server of a run, with the ranks of its entries.
ghost use Rattle.std.specs.Prelude.{◌≡◌, ◌≤◌, ◌+◌, max, Bool, false, [], ◌∷◌, ◌++◌, length, take, Some, Ok, IfOk, IfErr, OnOk, OnErr};
ghost use Rattle.alp_node.specs.NodeStates.{NodeState};
ghost use Rattle.alp_node.specs.DownStates.{DownState};
ghost use Rattle.alp_node.specs.Served.{IsServed};
ghost use Rattle.alp_node.specs.declared.start.StartFault.{StartFault as AStartFault};
ghost use Rattle.alp_fields.specs.Forms.{whole};
ghost use Rattle.alp_rpc.specs.Frames.{request};
ghost use Rattle.alp_course.specs.Courses.{last_rank};
ghost use Rattle.alp_course.specs.Happens.{ComesTo, Happens, stop_set, restarted, lifts};
ghost use Rattle.alp_cluster.specs.declared.fault.RunFault.TheVariants as run_fault;
ghost use Rattle.alp_cluster.specs.declared.server.Server.TheVariants.{Fallen};
ghost use Rattle.alp_cluster.specs.Exchanges.{IsHanded, EndsHanding};
ghost use Rattle.alp_cluster.specs.Fills.{OnEnd};
ghost use Rattle.alp_cluster.specs.Servers.{IsOn, HasComeTo, EndsStep, HasStopSet, StartsAgain, StaysDown};
ghost use Rattle.alp_cluster.specs.Station.{standing, HasVault, Keeps, WentBy, WasHanded, LeavesVault, EndsEvent, EndsFrame, EndsRestart};

use crate::exchange::{Handed, hand};
use crate::fault::RunFault;
use crate::restarts::start_again;
use crate::server::Server;
use crate::step::step;
use alp_base::OutOfMemory;
use alp_journal::Event;
use alp_node::Node;
use alp_vault::Vault;
use std::alloc::Global;

/// A server of a run, with a rank for each of its entries: one more than the greater of the last one here and, of a message that
/// arrives, the last one at its sender when it was taken.
#[derive(Drop)]
pub struct Station<V: Vault> {
    // Nothing only while the server starts again.
    pub(crate) server: Option<Server<V>>,
    pub(crate) ranks: Vec<u64>,
    // Whether a line lets its disk be stopped.
    pub(crate) is_fused: bool,
}

// The rank of the last entry, or 0.
fn last_of(ranks: &[u64]) -> u64
    ensures { result ≡ last_rank ranks.now }
{
    match ranks {
        [] => 0,
        [.., last] => *last,
    }
}

impl<V: Vault> Station<V> {
    /// A server that did nothing yet.
    pub(crate) fn new(alloc: Global, node: Node<V>) -> Station<V>
        ensures stands { result.server ≡ standing node }
        ensures ranks { result.ranks.items ≡ [] }
        ensures free { result.is_fused ≡ false }
    {
        Station {
            server: Some(Server::Up(node)),
            ranks: Vec::new(alloc),
            is_fused: false,
        }
    }

    /// The server that stands here.
    pub(crate) fn node(&self) -> &Node<V>
        requires stands { (n : NodeState V) × (self.now.server ≡ standing n) }
        ensures is { self.now.server ≡ standing result.now }
    {
        match &self.server {
            Some(Server::Up(node)) => node,
            Some(Server::Fallen(_)) => unreachable!(),
            None => unreachable!(),
        }
    }

    /// The rank of its last entry, or 0.
    pub(crate) fn last_rank(&self) -> u64
        ensures { result ≡ last_rank self.now.ranks.items }
    {
        last_of(&self.ranks)
    }

    // There is one rank more, above the last one here and above the one that was seen. Ranks are far fewer than their numbers.
    fn push_rank(&mut self, seen: u64) -> Result<(), OutOfMemory>
        ensures pushed { OnOk result (self.new.ranks.items ≡ self.old.ranks.items ++ (max (last_rank self.old.ranks.items) seen + 1) ∷ []) }
        ensures refused { OnErr result (self.new.ranks.items ≡ self.old.ranks.items) }
        ensures server { self.new.server ≡ self.old.server }
        ensures fused { self.new.is_fused ≡ self.old.is_fused }
    {
        let Some(rank) = self.last_rank().max(seen).checked_add(1) else {
            return Err(OutOfMemory);
        };
        self.ranks.push(rank)?;
        Ok(())
    }

    // There is no rank beyond those of the entries.
    fn drop_ranks(&mut self)
        requires stands { (n : NodeState V) × (self.old.server ≡ standing n) }
        ensures dropped { (n : NodeState V) → self.old.server ≡ standing n → self.new.ranks.items ≡ take (length n.journal) self.old.ranks.items }
        ensures server { self.new.server ≡ self.old.server }
        ensures fused { self.new.is_fused ≡ self.old.is_fused }
    {
        let count = self.node().journal().entries().len();
        self.ranks.truncate(count);
    }

    // The server takes its step, if it is up.
    fn step_here(&mut self, event: Event) -> Result<(), RunFault>
        requires stands { (n : NodeState V) × (self.old.server ≡ standing n) × IsOn V.Vault n }
        requires served { IsServed event }
        ensures gone { LeavesVault V.Vault (Unit {0}) self.old self.new result }
        ensures ended { OnEnd result (λ f. (n : NodeState V) → self.old.server ≡ standing n → (m : NodeState V) × (self.new.server ≡ standing m) × EndsStep V.Vault f n m event) }
        ensures came { OnOk result ((n : NodeState V) → self.old.server ≡ standing n → (m : NodeState V) × (self.new.server ≡ standing m) × HasComeTo V.Vault n m event) }
        ensures stands { (n : NodeState V) × (self.new.server ≡ standing n) }
        ensures ranks { self.new.ranks ≡ self.old.ranks }
        ensures fused { self.new.is_fused ≡ self.old.is_fused }
    {
        match &mut self.server {
            Some(Server::Up(node)) => {
                step(node, event)?;
                Ok(())
            }
            Some(Server::Fallen(_)) => unreachable!(),
            None => unreachable!(),
        }
    }

    /// The server comes to an event that is no call, and that saw this rank.
    pub(crate) fn happen(&mut self, event: Event, seen: u64) -> Result<(), RunFault>
        requires stands { (n : NodeState V) × Keeps V.Vault self.old n }
        requires served { IsServed event }
        ensures gone { LeavesVault V.Vault (Unit {0}) self.old self.new result }
        ensures ended { OnEnd result (λ f. (n : NodeState V) → Keeps V.Vault self.old n → EndsEvent V.Vault f seen event self.old self.new n) }
        ensures came { OnOk result ((n : NodeState V) → Keeps V.Vault self.old n → WentBy V.Vault seen (λ w es v. ComesTo w w.is_down event es v) self.old self.new n) }
    {
        self.push_rank(seen)?;
        let stepped = self.step_here(event);
        self.drop_ranks();
        stepped
    }

    // The server is handed the frame.
    fn hand_here(&mut self, alloc: Global, client: u8, frame: &[u8]) -> Result<Handed, RunFault>
        requires stands { (n : NodeState V) × (self.old.server ≡ standing n) × IsOn V.Vault n }
        requires client { (1 ≤ client) × (client ≤ 16) }
        ensures gone { LeavesVault V.Vault (Unit {0}) self.old self.new result }
        ensures ended { OnEnd result (λ f. (n : NodeState V) → self.old.server ≡ standing n → (m : NodeState V) × (self.new.server ≡ standing m) × EndsHanding V.Vault f n m (whole request frame.now)) }
        ensures handed { IfOk result (λ h. (n : NodeState V) → self.old.server ≡ standing n → (m : NodeState V) × (self.new.server ≡ standing m) × IsHanded V.Vault n m client frame.now (whole request frame.now) h) }
        ensures stands { (n : NodeState V) × (self.new.server ≡ standing n) }
        ensures ranks { self.new.ranks ≡ self.old.ranks }
        ensures fused { self.new.is_fused ≡ self.old.is_fused }
    {
        match &mut self.server {
            Some(Server::Up(node)) => hand(alloc, node, client, frame),
            Some(Server::Fallen(_)) => unreachable!(),
            None => unreachable!(),
        }
    }

    /// The server is handed the frame of a client, and hands back its reply.
    pub(crate) fn hand(
        &mut self,
        alloc: Global,
        client: u8,
        frame: &[u8],
    ) -> Result<Handed, RunFault>
        requires stands { (n : NodeState V) × Keeps V.Vault self.old n }
        requires client { (1 ≤ client) × (client ≤ 16) }
        ensures gone { LeavesVault V.Vault (Unit {0}) self.old self.new result }
        ensures ended { OnEnd result (λ f. (n : NodeState V) → Keeps V.Vault self.old n → EndsFrame V.Vault f (whole request frame.now) self.old self.new n) }
        ensures handed { IfOk result (λ h. (n : NodeState V) → Keeps V.Vault self.old n → WasHanded V.Vault self.old self.new n client frame.now h) }
    {
        self.push_rank(0)?;
        let handed = self.hand_here(alloc, client, frame);
        self.drop_ranks();
        handed
    }

    /// The disk of the server passes so many further changing calls, and then stops. A server that is down has none to pass.
    pub(crate) fn stop(&mut self, calls: u32)
        requires stands { (n : NodeState V) × Keeps V.Vault self.old n }
        ensures gone { LeavesVault {T = Unit {0}} V.Vault ⊥ self.old self.new (Ok tt) }
        ensures went { (n : NodeState V) → Keeps V.Vault self.old n → (tells : Bool) → WentBy V.Vault 0 (λ w es v. Happens tells w (stop_set calls) es v) self.old self.new n }
        ensures sets { (n : NodeState V) → Keeps V.Vault self.old n → (m : NodeState V) × (self.new.server ≡ standing m) × HasStopSet V.Vault calls n m }
    {
        match &mut self.server {
            Some(Server::Up(node)) => {
                if node.is_down() {
                    return;
                }
                node.stop_after(Some(calls));
                node.knows();
                self.is_fused = true;
            }
            Some(Server::Fallen(_)) => unreachable!(),
            None => unreachable!(),
        }
    }

    /// Nobody stops the disk any more. Tells whether the server is down.
    pub(crate) fn lift(&mut self) -> bool
        requires stands { (n : NodeState V) × Keeps V.Vault self.old n }
        ensures gone { LeavesVault {T = Unit {0}} V.Vault (Unit {0}) self.old self.new (Ok tt) }
        ensures went { (n : NodeState V) → Keeps V.Vault self.old n → (tells : Bool) → WentBy V.Vault 0 (λ w es v. Happens tells w (lifts result) es v) self.old self.new n }
    {
        self.is_fused = false;
        match &mut self.server {
            Some(Server::Up(node)) => {
                node.stop_after(None);
                node.knows();
                node.is_down()
            }
            Some(Server::Fallen(_)) => unreachable!(),
            None => unreachable!(),
        }
    }

    // The server falls, and starts again. There is room for the rank of that.
    fn restart_here(&mut self, pick: u64) -> Result<(), RunFault>
        requires stands { (n : NodeState V) × (self.old.server ≡ standing n) × IsOn V.Vault n }
        ensures starts { OnOk result ((n : NodeState V) → self.old.server ≡ standing n → (m : NodeState V) × (self.new.server ≡ standing m) × StartsAgain V.Vault pick n m) }
        ensures stays { IfErr result (λ e. (n : NodeState V) → self.old.server ≡ standing n → (d : DownState V) × (f : AStartFault) × (self.new.server ≡ Some (Fallen d)) × (e ≡ run_fault.Start n.kept.server f) × StaysDown V.Vault pick n d f) }
        ensures ranks { self.new.ranks ≡ self.old.ranks }
        ensures fused { self.new.is_fused ≡ self.old.is_fused }
    {
        let Some(Server::Up(node)) = self.server.take() else {
            unreachable!()
        };
        match start_again(node, pick) {
            Ok(node) => {
                self.server = Some(Server::Up(node));
                Ok(())
            }
            Err((down, fault)) => {
                self.server = Some(Server::Fallen(down));
                Err(fault)
            }
        }
    }

    /// The server falls, its disk crashes with that pick, and it starts again.
    pub(crate) fn restart(&mut self, pick: u64) -> Result<(), RunFault>
        requires stands { (n : NodeState V) × Keeps V.Vault self.old n }
        ensures gone { LeavesVault V.Vault (Unit {0}) self.old self.new result }
        ensures went { OnOk result ((n : NodeState V) → Keeps V.Vault self.old n → (tells : Bool) → WentBy V.Vault 0 (λ w es v. Happens tells w (restarted pick) es v) self.old self.new n) }
        ensures again { OnOk result ((n : NodeState V) → Keeps V.Vault self.old n → (m : NodeState V) × (self.new.server ≡ standing m) × StartsAgain V.Vault pick n m) }
        ensures ended { OnEnd result (λ f. (n : NodeState V) → Keeps V.Vault self.old n → EndsRestart V.Vault pick f self.old self.new n) }
    {
        self.push_rank(0)?;
        self.restart_here(pick)?;
        self.is_fused = false;
        Ok(())
    }

    /// The server, as it is, and the ranks of its entries.
    pub fn into_parts(self) -> (Server<V>, Vec<u64>)
        requires there { (v : V) × HasVault self.server v }
        ensures server { self.server ≡ Some result.0 }
        ensures ranks { result.1 ≡ self.ranks }
    {
        let Station { server, ranks, .. } = self;
        match server {
            Some(server) => (server, ranks),
            None => unreachable!(),
        }
    }
}
