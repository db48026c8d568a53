//! The end of a run: its log and its report.
ghost use Rattle.std.specs.Prelude.{◌≡◌, IsTrue, IfOk, OnOk, false};
ghost use Rattle.alp_base.specs.declared.allowance.Allowance.TheVariants.{Free};
ghost use Rattle.alp_cluster.specs.Servers.{IsOn, HasGoneBy};
ghost use Rattle.alp_cluster.specs.Station.{HasVault};
ghost use Rattle.alp_top.specs.Disks.{IsGiven, IsServerRight};
ghost use Rattle.alp_top.specs.Endings.{AreNoRests, ArePutFirst, IsHeldOf, IsRestPut, IsReportOf, AreCellsOf, shown_text};
ghost use Rattle.alp_top.specs.Looks.{HasLooked};

use crate::owners::owner_records;
use crate::tally::{Tally, tally_of};
use alp_base::OutOfMemory;
use alp_cluster::{RunFault, Server, Station};
use alp_disk::Disk;
use alp_journal::{Item, RunLog, ServerLog};
use alp_node::{Node, Opened};
use alp_report::{Held, Summary, put_summary};
use alp_store::Store;
use alp_vault::Vault;
use std::alloc::Global;

/// A run that is over, and the text of its report.
#[derive(Drop)]
pub struct Ended<V: Vault> {
    pub log: RunLog<Opened<V>>,
    pub text: Vec<u8>,
}

/// What servers of a run did and what they hold in the end, in the order of their numbers.
#[derive(Drop)]
pub struct Rests<V: Vault> {
    helds: Vec<Held>,
    logs: Vec<ServerLog<Opened<V>>>,
    begun: u32,
    committed: u32,
}

impl<V: Vault> Rests<V> {
    /// Of no server.
    pub fn new(alloc: Global) -> Rests<V>
        ensures { AreNoRests result }
    {
        Rests {
            helds: Vec::new(alloc),
            logs: Vec::new(alloc),
            begun: 0,
            committed: 0,
        }
    }

    // Of one server more, in front of the others.
    fn put(
        &mut self,
        held: Held,
        log: ServerLog<Opened<V>>,
        tally: Tally,
    ) -> Result<(), OutOfMemory>
        ensures { OnOk result (ArePutFirst held log tally self.old self.new) }
    {
        self.helds.insert(0, held)?;
        self.logs.insert(0, log)?;
        self.begun = tally.begun.saturating_add(self.begun);
        self.committed = tally.committed.saturating_add(self.committed);
        Ok(())
    }
}

// What a server with these numbers holds.
fn held_of<V: Vault>(
    alloc: Global,
    vault: &mut V,
    server: u8,
    epoch: u32,
    clock: u64,
) -> Result<Held, RunFault>
    requires serving { IsTrue (V.serves vault.old) }
    requires free { V.allowance vault.old ≡ Free }
    requires server { V.server vault.old ≡ server }
    ensures gone { HasGoneBy V.Vault (λ s. s ≡ server) (Unit {0}) vault.old vault.new result }
    ensures looked { HasLooked V.Vault vault.old vault.new result }
    ensures numbers { IfOk result (IsHeldOf server epoch clock) }
    ensures cells { IsTrue (V.tells vault.old) → IfOk result (AreCellsOf (V.held vault.old).cells) }
{
    let owners = owner_records(alloc, server, vault)?;
    vault.knows();
    Ok(Held {
        server,
        epoch,
        clock,
        files: vault.file_count(),
        owners,
    })
}

/// What a server at rest did and holds comes in front of the others. Its vault comes back.
pub fn end_node<V: Vault>(
    alloc: Global,
    node: Node<V>,
    ranks: Vec<u64>,
    rests: &mut Rests<V>,
) -> (V, Result<(), RunFault>)
    requires on { IsOn V.Vault node }
    requires up { node.kept.is_down ≡ false }
    requires free { V.allowance node.kept.vault ≡ Free }
    ensures gone { HasGoneBy V.Vault (λ s. s ≡ node.kept.server) (Unit {0}) node.kept.vault result.0 result.1 }
    ensures looked { HasLooked V.Vault node.kept.vault result.0 result.1 }
    ensures rest { OnOk result.1 (IsRestPut V.Vault node ranks.items rests.old rests.new) }
{
    let tally = tally_of(node.journal().entries());
    let server = node.server();
    let epoch = node.epoch();
    let clock = node.clock();
    node.knows();
    let (opening, mut vault, journal) = node.into_parts();
    let held = match held_of(alloc, &mut vault, server, epoch, clock) {
        Ok(held) => held,
        Err(fault) => return (vault, Err(fault)),
    };
    let log = ServerLog {
        server,
        opening,
        journal,
        ranks,
    };
    match rests.put(held, log, tally) {
        Ok(()) => (vault, Ok(())),
        Err(OutOfMemory) => (vault, Err(RunFault::OutOfMemory)),
    }
}

/// The vault of a server, up or not, of which holds what holds of each server.
pub fn vault_of<V: Vault>(station: Station<V>) -> V
    requires stands { (v : V) × HasVault station.server v }
    ensures vault { HasVault station.server result }
    ensures known { IsServerRight V.Vault station.server }
{
    let (server, _) = station.into_parts();
    match server {
        Server::Up(node) => {
            node.knows();
            let (_, vault, _) = node.into_parts();
            vault
        }
        Server::Fallen(down) => {
            down.knows();
            let (_, vault, _) = down.into_parts();
            vault
        }
    }
}

/// The disk of a vault, as it is.
pub fn disk_in<D: Disk>(vault: Store<D>) -> D
    ensures { IsGiven ⟦<Store<D> as Vault>⟧ D.Disk vault result }
{
    vault.knows();
    vault.into_disk()
}

/// The lines of the clients, where they are shown.
pub fn shown(alloc: Global, text: Vec<u8>, shows: bool) -> Vec<u8>
    ensures { result.items ≡ shown_text shows text.items }
{
    if shows { text } else { Vec::new(alloc) }
}

/// The log and the report of a run, behind the lines of its clients.
pub fn report<V: Vault>(
    rests: Rests<V>,
    lists: Vec<Vec<Item>>,
    mut text: Vec<u8>,
) -> Result<Ended<V>, OutOfMemory>
    ensures { IfOk result (λ e. IsReportOf rests lists.items text.items e.log e.text.items) }
{
    let Rests {
        helds,
        logs,
        begun,
        committed,
    } = rests;
    let summary = Summary {
        servers: helds.as_slice(),
        committed,
        aborted: begun.saturating_sub(committed),
    };
    put_summary(&mut text, &summary)?;
    let log = RunLog {
        servers: logs,
        clients: lists,
    };
    Ok(Ended { log, text })
}
