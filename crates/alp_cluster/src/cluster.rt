//! Servers and the clients of a script: the lines are played one after the other, and behind them all comes to rest.
ghost use Rattle.std.specs.Prelude.{◌≡◌, ◌≤◌, [], ◌∷◌, ◌++◌, OnOk, OnErr, IfOk, IfErr, List, Some, length, true, false};
ghost use Rattle.std.specs.List.{AllByRecursion};
ghost use Rattle.alp_lines.specs.Forms.{IsForm};
ghost use Rattle.alp_lines.specs.Named.{client_named};
ghost use Rattle.alp_node.specs.NodeStates.{NodeState};
ghost use Rattle.alp_script.specs.Accepted.{IsAccepted, servers_said};
ghost use Rattle.alp_script.specs.Order.{names_ours};
ghost use Rattle.alp_session.specs.Crowd.{Crowd};
ghost use Rattle.alp_course.specs.Settles.{IsSettling};
ghost use Rattle.alp_cluster.specs.Clients.{InStep};
ghost use Rattle.alp_cluster.specs.Gathered.{AreGathered};
ghost use Rattle.alp_cluster.specs.Fills.{OnEnd};
ghost use Rattle.alp_cluster.specs.Runs.{StopNone, is_stop_line, HasPlayed, HasPlayedOut, HasEndedEarly, HasEndedSo, IsSettledDown};
ghost use Rattle.alp_cluster.specs.Stations.{AreOn, AreCalmSince, AreCalmBut, Did, DidSome, HaveGone, openings_of};
ghost use Rattle.alp_cluster.specs.Steps.{Adds, AddsSome, PlaysOn, BeginsOn};

use crate::fault::RunFault;
use crate::parties::Parties;
use crate::station::Station;
use crate::stations::Stations;
use alp_base::OutOfMemory;
use alp_journal::Item;
use alp_node::Node;
use alp_posts::Posts;
use alp_script::NumberedLine;
use alp_session::Clients;
use alp_vault::Vault;
use std::alloc::Global;

/// One more than the greatest number of a client.
const PLACES: usize = 17;

/// The servers of a run, the clients of its script, and what they said to each other.
#[derive(Drop)]
pub struct Cluster<V: Vault> {
    parties: Parties<V>,
    // What each client sent and was handed, at its number.
    lists: Vec<Vec<Item>>,
    // The lines of the report so far.
    text: Vec<u8>,
}

// A list for each number, which has nothing yet.
fn new_lists(alloc: Global) -> Result<Vec<Vec<Item>>, OutOfMemory>
    ensures many { IfOk result (λ v. length v.items ≡ 17) }
    ensures empty { IfOk result (λ v. AllByRecursion (λ x. x.items ≡ []) v.items) }
{
    let mut lists = Vec::with_capacity(alloc, PLACES)?;
    for _place in 0..PLACES {
        lists.push(Vec::new(alloc))?;
    }
    Ok(lists)
}

impl<V: Vault> Cluster<V> {
    /// No server yet, and clients that were told nothing.
    pub fn new(alloc: Global) -> Result<Cluster<V>, OutOfMemory>
        ensures { IfOk result (λ c. AreGathered [] c.parties c.lists.items c.text.items) }
    {
        let all = Vec::new(alloc);
        let posts = Posts::new(alloc)?;
        let clients = Clients::new(alloc)?;
        let lists = new_lists(alloc)?;
        let text = Vec::new(alloc);
        let parties = Parties {
            alloc,
            stations: Stations { all, posts },
            clients,
        };
        Ok(Cluster {
            parties,
            lists,
            text,
        })
    }

    /// There is one server more, the next in order, which did nothing yet. Where memory is wanting it comes back as it was.
    pub fn add(&mut self, node: Node<V>) -> Result<(), (Node<V>, OutOfMemory)>
        ensures added { OnOk result ((ns : List (NodeState V)) → AreGathered ns self.old.parties self.old.lists.items self.old.text.items → AreGathered (ns ++ node ∷ []) self.new.parties self.new.lists.items self.new.text.items) }
        ensures back { IfErr result (λ e. e.0 ≡ node) }
        ensures still { OnErr result (self.new.parties.stations.all.items ≡ self.old.parties.stations.all.items) }
    {
        let Parties {
            alloc,
            stations,
            ..
        } = &mut self.parties;
        if stations.all.reserve(1).is_err() {
            return Err((node, OutOfMemory));
        }
        stations.all.push_reserved(Station::new(*alloc, node));
        Ok(())
    }

    /// Plays a line. A client's line sends what its client asks; one of another event has it happen; and any other declares or sets
    /// something. Behind it messages are carried, where they are carried by themselves. Where a journal is full, a disk fails, a server does
    /// not start again, or memory is wanting, the rest of the line is not played: the servers stand as what came of the line so far leaves them,
    /// but for the entry in which the disk failed, or the server that fell.
    pub fn play_step(&mut self, line: &NumberedLine) -> Result<(), RunFault>
        requires step { InStep V.Vault self.old.parties.clients self.old.parties.stations }
        requires form { IsForm line.now.line }
        requires ours { names_ours (length self.old.parties.stations.all.items) line.now.line ≡ true }
        requires places { length self.old.lists.items ≡ 17 }
        ensures gone { HaveGone V.Vault (is_stop_line line.now.line ≡ false) self.old.parties.stations self.new.parties.stations result }
        ensures ended { OnEnd result (λ f. (known : Crowd) × AddsSome V.Vault f (length self.old.parties.stations.all.items) self.old.parties.clients known self.old.parties.stations self.new.parties.stations line.now self.old.lists.items self.new.lists.items self.old.text.items self.new.text.items) }
        ensures adds { OnOk result (Adds V.Vault (length self.old.parties.stations.all.items) self.old.parties.clients self.new.parties.clients self.old.parties.stations self.new.parties.stations line.now self.old.lists.items self.new.lists.items self.old.text.items self.new.text.items) }
    {
        self.play_line(line)?;
        self.parties.carry_behind()
    }

    // A line, but for what is carried behind it.
    fn play_line(&mut self, line: &NumberedLine) -> Result<(), RunFault>
        requires step { InStep V.Vault self.old.parties.clients self.old.parties.stations }
        requires form { IsForm line.now.line }
        requires ours { names_ours (length self.old.parties.stations.all.items) line.now.line ≡ true }
        requires places { length self.old.lists.items ≡ 17 }
        ensures gone { HaveGone V.Vault (is_stop_line line.now.line ≡ false) self.old.parties.stations self.new.parties.stations result }
        ensures ended { OnEnd result (λ f. (known : Crowd) × BeginsOn V.Vault f (length self.old.parties.stations.all.items) self.old.parties.clients known self.old.parties.stations self.new.parties.stations line.now self.old.lists.items self.new.lists.items self.old.text.items self.new.text.items) }
        ensures adds { OnOk result (PlaysOn V.Vault (length self.old.parties.stations.all.items) self.old.parties.clients self.new.parties.clients self.old.parties.stations self.new.parties.stations line.now self.old.lists.items self.new.lists.items self.old.text.items self.new.text.items) }
    {
        match line.line.client() {
            Some(client) => self.play_own(client, line),
            None => self.parties.play_event(&line.line),
        }
    }

    // The line of a client.
    fn play_own(&mut self, client: u8, line: &NumberedLine) -> Result<(), RunFault>
        requires step { InStep V.Vault self.old.parties.clients self.old.parties.stations }
        requires form { IsForm line.now.line }
        requires client { (1 ≤ client) × (client ≤ 16) }
        requires named { client_named line.now.line ≡ Some client }
        requires places { length self.old.lists.items ≡ 17 }
        ensures gone { HaveGone V.Vault (Unit {0}) self.old.parties.stations self.new.parties.stations result }
        ensures ended { OnEnd result (λ f. (known : Crowd) × BeginsOn V.Vault f (length self.old.parties.stations.all.items) self.old.parties.clients known self.old.parties.stations self.new.parties.stations line.now self.old.lists.items self.new.lists.items self.old.text.items self.new.text.items) }
        ensures adds { OnOk result (PlaysOn V.Vault (length self.old.parties.stations.all.items) self.old.parties.clients self.new.parties.clients self.old.parties.stations self.new.parties.stations line.now self.old.lists.items self.new.lists.items self.old.text.items self.new.text.items) }
    {
        self.parties.clients.at_line(client, &line.line)?;
        self.parties.play_own(
            &mut self.lists[client as usize],
            &mut self.text,
            client,
            line,
        )
    }

    /// All comes to rest: nobody stops a disk any more, each server that is down starts again with pick 0, each transaction times out where
    /// it has an open part, and there are rounds of ticks and messages, one at least and eight at most. A fault ends it as it ends a line.
    /// Else each server is up then, nobody stops its disk, no message is left, and all are at rest where they were those of a run (`IsMidway`).
    pub fn settle(&mut self) -> Result<(), RunFault>
        requires on { AreOn V.Vault self.old.parties.stations }
        ensures gone { HaveGone V.Vault (Unit {0}) self.old.parties.stations self.new.parties.stations result }
        ensures ended { OnEnd result (λ f. DidSome V.Vault (IsSettling (length self.old.parties.stations.all.items)) f self.old.parties.stations self.new.parties.stations) }
        ensures settled { OnOk result (Did V.Vault (IsSettling (length self.old.parties.stations.all.items)) self.old.parties.stations self.new.parties.stations) }
        ensures rest { OnOk result (IsSettledDown V.Vault self.old.parties.stations self.new.parties.stations) }
        ensures clients { self.new.parties.clients ≡ self.old.parties.clients }
        ensures lists { self.new.lists ≡ self.old.lists }
        ensures text { self.new.text ≡ self.old.text }
    {
        self.parties.stations.settle()
    }

    // Plays all lines on servers that did nothing yet.
    fn play(&mut self, lines: &[NumberedLine]) -> Result<(), RunFault>
        requires accepted { IsAccepted lines.now }
        requires new { HasPlayed V.Vault (servers_said lines.now) [] self.old.parties.clients self.old.parties.stations self.old.lists.items self.old.text.items }
        ensures gone { HaveGone V.Vault (StopNone lines.now) self.old.parties.stations self.new.parties.stations result }
        ensures ended { OnEnd result (λ f. HasEndedEarly V.Vault (servers_said lines.now) lines.now f self.new.parties.stations self.new.lists.items) }
        ensures printed { OnEnd result (λ f. HasEndedSo V.Vault (servers_said lines.now) lines.now f self.new.parties.stations self.new.lists.items self.new.text.items) }
        ensures openings { OnOk result (openings_of self.new.parties.stations ≡ openings_of self.old.parties.stations) }
        ensures left { OnEnd result (λ _. openings_of self.new.parties.stations ≡ openings_of self.old.parties.stations) }
        ensures calm { OnOk result (AreCalmSince V.Vault self.old.parties.stations self.new.parties.stations) }
        ensures calm_left { OnEnd result (λ f. AreCalmBut V.Vault f self.old.parties.stations self.new.parties.stations) }
        ensures played { OnOk result (HasPlayed V.Vault (servers_said lines.now) lines.now self.new.parties.clients self.new.parties.stations self.new.lists.items self.new.text.items) }
    {
        for line in lines {
            self.play_step(line)?;
        }
        Ok(())
    }

    /// Plays all lines on servers that did nothing yet, and lets all come to rest. Where a fault ends that, the rest is not played: the servers
    /// stand as the lines so far leave them, but for the entry in which a disk failed, or the server that fell. Each is the one that was opened.
    pub fn play_out(&mut self, lines: &[NumberedLine]) -> Result<(), RunFault>
        requires accepted { IsAccepted lines.now }
        requires new { HasPlayed V.Vault (servers_said lines.now) [] self.old.parties.clients self.old.parties.stations self.old.lists.items self.old.text.items }
        ensures gone { HaveGone V.Vault (StopNone lines.now) self.old.parties.stations self.new.parties.stations result }
        ensures ended { OnEnd result (λ f. HasEndedEarly V.Vault (servers_said lines.now) lines.now f self.new.parties.stations self.new.lists.items) }
        ensures printed { OnEnd result (λ f. HasEndedSo V.Vault (servers_said lines.now) lines.now f self.new.parties.stations self.new.lists.items self.new.text.items) }
        ensures openings { OnOk result (openings_of self.new.parties.stations ≡ openings_of self.old.parties.stations) }
        ensures left { OnEnd result (λ _. openings_of self.new.parties.stations ≡ openings_of self.old.parties.stations) }
        ensures calm { OnOk result (AreCalmSince V.Vault self.old.parties.stations self.new.parties.stations) }
        ensures calm_left { OnEnd result (λ f. AreCalmBut V.Vault f self.old.parties.stations self.new.parties.stations) }
        ensures played { OnOk result (HasPlayedOut V.Vault (servers_said lines.now) lines.now self.new.parties.stations self.new.lists.items self.new.text.items) }
    {
        self.play(lines)?;
        self.settle()
    }

    /// The servers, the first one first, what each client sent and was handed, at its number, and the lines of the report.
    pub fn into_parts(self) -> (Vec<Station<V>>, Vec<Vec<Item>>, Vec<u8>)
        ensures stations { result.0 ≡ self.parties.stations.all }
        ensures parts { (result.1 ≡ self.lists) × (result.2 ≡ self.text) }
    {
        let Cluster {
            parties,
            lists,
            text,
        } = self;
        let Parties { stations, .. } = parties;
        let Stations { all, .. } = stations;
        (all, lists, text)
    }
}
