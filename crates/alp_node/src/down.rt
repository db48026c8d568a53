//! A server that fell, and how it starts again.
ghost use Rattle.std.specs.Prelude.{◌≡◌, ◌<◌, ◌≤◌, IsTrue, false, List, [], ◌∷◌, ◌++◌, IfOk, IfErr, OnOk, OnErr, MatchResult, vec_capacity};
ghost use Rattle.alp_base.specs.declared.allowance.Allowance.TheVariants.{Free};
ghost use Rattle.alp_vault.specs.Vault.{IsOneOf};
ghost use Rattle.alp_journal.specs.declared.entry.Entry.{Entry as AnEntry};
ghost use Rattle.alp_node.specs.declared.start.StartFault.TheVariants as start_fault;
ghost use Rattle.alp_node.specs.Downs.{IsFallen, HasFallen, IsPoweredOff, IsNext, HasNextCause, HasBegunEpoch, HasNotBegun, HasEntered, HasRestarted, IsStillDown, entry_again};

use crate::found::{Found, find_all};
use crate::node::Node;
use crate::opened::Opened;
use crate::server_state::ServerState;
use crate::start::{StartFault, begun, put_clock};
use crate::stored::StoreFault;
use alp_base::{OutOfMemory, VaultFault};
use alp_fields::{ClockNote, clock_note_name, read_clock};
use alp_journal::{Act, Acts, Entry, Event, Journal, Parts, Stamps};
use alp_vault::Vault;
use std::alloc::Global;
use std::marker::Model;

/// A server that fell: what it was started on, its vault as a crash left it, its journal, and of the server itself its number,
/// how many servers there are, and its last epoch. What its clients had here is gone.
#[derive(Drop)]
pub struct Down<V: Vault> {
    alloc: Global,
    opening: Opened<V>,
    vault: V,
    journal: Journal,
    server: u8,
    servers: u8,
    epoch: u32,
}

impl<V: Vault> Model for Down<V> {
    ghost use Rattle.std.specs.Coded.{codes};
    ghost use Rattle.alp_node.specs.DownStates.{DownState};
    ghost use Rattle.alp_node.specs.Downs.{IsFallen};

    ghost Value = { DownState V };

    ghost coded = { Prim.hlevel (codes, V.code) };

    ghost view = { λ d. record { opening = d.opening; vault = d.vault; journal = d.journal; server = d.server; servers = d.servers; epoch = d.epoch } };

    ghost invariant = { λ d. IsFallen V.Vault (record { opening = d.opening; vault = d.vault; journal = d.journal; server = d.server; servers = d.servers; epoch = d.epoch }) };
}

impl<V: Vault> Node<V> {
    /// The server falls: its vault is powered off with that pick of what a crash may leave.
    pub fn fall(self, pick: u64) -> Down<V>
        ensures fallen { HasFallen V.Vault pick self result }
        ensures left { IsTrue (V.tells self.kept.vault) → IsOneOf (V.may_leave self.kept.vault) (V.may_leave result.vault) }
    {
        let Node {
            opening,
            kept,
            journal,
        } = self;
        let ServerState {
            alloc,
            server,
            servers,
            epoch,
            vault,
            ..
        } = kept;
        Down {
            alloc,
            opening,
            vault: vault.power_off(pick),
            journal,
            server,
            servers,
            epoch,
        }
    }
}

// The epoch after the last one, with the clock that the vault's note keeps.
fn next_clock<V: Vault>(alloc: Global, vault: &V, last: u32) -> Result<ClockNote, StartFault>
    requires serving { IsTrue (V.serves vault.now) }
    requires low { last < 4294967295 }
    ensures { MatchResult result (IsNext V.Vault last vault.now) (HasNextCause V.Vault last vault.now) }
{
    let Ok(name) = clock_note_name(alloc) else {
        return Err(StartFault::Vault(VaultFault::OutOfMemory));
    };
    let Some(value) = vault.note(&name) else {
        return Ok(ClockNote {
            epoch: last + 1,
            clock: 0,
        });
    };
    let Some(kept) = read_clock(value.as_slice()) else {
        return Err(StartFault::BadNote);
    };
    Ok(ClockNote {
        epoch: last + 1,
        clock: kept.clock,
    })
}

// A vault that serves has nothing half made. Powered off it rests with what it holds, and may be recovered again.
fn rested<V: Vault>(vault: V) -> V
    ensures { IsPoweredOff V.Vault 0 vault result }
{
    vault.power_off(0)
}

// What a vault that serves keeps in its notes is found, and the note of the next epoch put. Else it comes back at rest.
fn raise<V: Vault>(
    alloc: Global,
    mut vault: V,
    of: (u8, u8),
    last: u32,
) -> Result<(V, ClockNote, Found), (V, StartFault)>
    requires serving { IsTrue (V.serves vault) }
    requires low { last < 4294967295 }
    requires free { V.allowance vault ≡ Free }
    requires number { (V.server vault ≡ of.0) × (V.servers vault ≡ of.1) }
    ensures { MatchResult result (λ r. HasBegunEpoch V.Vault of.0 of.1 last vault r.0 r.1 r.2) (λ e. HasNotBegun V.Vault of.0 of.1 last vault e.0 e.1) }
{
    vault.knows();
    let clock = match next_clock(alloc, &vault, last) {
        Ok(clock) => clock,
        Err(fault) => return Err((rested(vault), fault)),
    };
    let found = match find_all(alloc, &mut vault, of, clock.epoch) {
        Ok(found) => found,
        Err(fault) => return Err((rested(vault), fault)),
    };
    match put_clock(alloc, &mut vault, clock) {
        Ok(()) => Ok((vault, clock, found)),
        Err(StoreFault::OutOfMemory) => {
            Err((rested(vault), StartFault::Vault(VaultFault::OutOfMemory)))
        }
        Err(StoreFault::Failed) => Err((vault, StartFault::Vault(VaultFault::Failed))),
        Err(StoreFault::Stopped) => Err((vault, StartFault::Vault(VaultFault::Stopped))),
    }
}

// A place at the end of the journal, and one for the act that fills it.
fn make_room(alloc: Global, journal: &mut Journal) -> Result<Vec<Act>, OutOfMemory>
    ensures room { IfOk result (λ v. (v.items ≡ []) × (1 ≤ vec_capacity v)) }
    ensures place { OnOk result ((blank : AnEntry) × (journal.new ≡ journal.old ++ blank ∷ [])) }
    ensures none { OnErr result (journal.new ≡ journal.old) }
{
    let acts = Vec::with_capacity(alloc, 1)?;
    journal.make_place(alloc)?;
    Ok(acts)
}

// The entry of the restart fills the place.
fn fill(journal: &mut Journal, mut acts: Vec<Act>, clock: ClockNote, ready: Parts, decided: Stamps)
    requires none { acts.items ≡ [] }
    requires room { 1 ≤ vec_capacity acts }
    ensures { (before : List AnEntry) (last : AnEntry) → journal.old ≡ before ++ last ∷ [] → journal.new ≡ before ++ entry_again clock ready decided ∷ [] }
{
    acts.push_reserved(Act::Regained {
        epoch: clock.epoch,
        clock: clock.clock,
        ready,
        decided,
    });
    journal.fill_place(Entry {
        event: Event::Restart,
        reply: None,
        acts: Acts::new(acts),
    });
}

// The vault of a server that fell serves again, with the note of the next epoch, and with what was found in the others.
fn begin_epoch<V: Vault>(
    alloc: Global,
    vault: V,
    of: (u8, u8),
    last: u32,
) -> Result<(V, ClockNote, Found), (V, StartFault)>
    requires rests { V.serves vault ≡ false }
    requires low { last < 4294967295 }
    requires free { V.allowance vault ≡ Free }
    requires number { (V.server vault ≡ of.0) × (V.servers vault ≡ of.1) }
    ensures { MatchResult result (λ r. HasBegunEpoch V.Vault of.0 of.1 last vault r.0 r.1 r.2) (λ e. HasNotBegun V.Vault of.0 of.1 last vault e.0 e.1) }
{
    match vault.recover() {
        Ok(vault) => raise(alloc, vault, of, last),
        Err((vault, fault)) => Err((vault, StartFault::Vault(fault))),
    }
}

// The next epoch begins, where there is one, and the journal has the entry of it. Else the journal stands as it was.
fn enter_epoch<V: Vault>(
    alloc: Global,
    journal: &mut Journal,
    vault: V,
    of: (u8, u8),
    last: u32,
) -> Result<ServerState<V>, (V, StartFault)>
    requires rests { V.serves vault ≡ false }
    requires free { V.allowance vault ≡ Free }
    requires number { (V.server vault ≡ of.0) × (V.servers vault ≡ of.1) }
    ensures epoch { MatchResult result (HasEntered V.Vault of.0 of.1 last vault journal.old journal.new) (λ e. HasNotBegun V.Vault of.0 of.1 last vault e.0 e.1) }
    ensures end { IfErr result (λ e. last ≡ 4294967295 → e.1 ≡ start_fault.EpochEnd) }
    ensures journal { OnErr result (journal.new ≡ journal.old) }
{
    if last == u32::MAX {
        return Err((vault, StartFault::EpochEnd));
    }
    let Ok(acts) = make_room(alloc, journal) else {
        return Err((vault, StartFault::Vault(VaultFault::OutOfMemory)));
    };
    match begin_epoch(alloc, vault, of, last) {
        Ok((vault, clock, found)) => {
            let (state, ready, decided) = begun(alloc, of, clock, found, vault);
            fill(journal, acts, clock, ready, decided);
            Ok(state)
        }
        Err(refused) => {
            journal.take_back();
            Err(refused)
        }
    }
}

impl<V: Vault> Down<V> {
    /// The server starts again on what the crash left. It keeps what its notes keep: the parts that were ready, with their locks and what
    /// they intend, and the decisions that a part on another server has not applied; and nothing else of a client. Its epoch is the one
    /// after its last one, which the note has before anything is answered; a restart that was refused may have put it already. The clock
    /// is that of the note.
    ///
    /// Where it is refused, the server comes back with its journal as one that may be started again. Where its last epoch is the last
    /// there is, it is refused for just that. Where its vault tells what it holds it is never refused for its own notes, in whatever
    /// write it went down. The count of faults of its vault rises only where that failed. A vault that was recovered already is powered
    /// off, and what it holds stays.
    pub fn restart(self) -> Result<Node<V>, (Down<V>, StartFault)>
        ensures { MatchResult result (HasRestarted V.Vault self) (λ e. IsStillDown V.Vault self e.0 e.1) }
    {
        let Down {
            alloc,
            opening,
            vault,
            mut journal,
            server,
            servers,
            epoch,
        } = self;
        vault.knows();
        match enter_epoch(alloc, &mut journal, vault, (server, servers), epoch) {
            Ok(kept) => {
                kept.vault.knows();
                Ok(Node {
                    opening,
                    kept,
                    journal,
                })
            }
            Err((vault, fault)) => {
                let down = Down {
                    alloc,
                    opening,
                    vault,
                    journal,
                    server,
                    servers,
                    epoch,
                };
                Err((down, fault))
            }
        }
    }

    /// What it was started on, its vault, and its journal.
    pub fn into_parts(self) -> (Opened<V>, V, Journal)
        ensures { result ≡ (self.opening, self.vault, self.journal) }
    {
        let Down {
            opening,
            vault,
            journal,
            ..
        } = self;
        (opening, vault, journal)
    }

    /// What holds of each server that fell.
    pub fn knows(&self)
        ensures { IsFallen V.Vault self.now }
    {
        let _ = &self.vault;
    }
}
