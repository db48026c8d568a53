//! How a server starts on its vault.
ghost use Rattle.std.specs.Prelude.{◌≡◌, ◌+◌, ◌^◌, ◌∷◌, ◌≤◌, [], Ok, IfOk, IfErr, MatchResult, IsTrue};
ghost use Rattle.alp_base.specs.Allowances.{Spends};
ghost use Rattle.alp_base.specs.declared.faults.VaultFault.TheVariants as vault_fault;
ghost use Rattle.alp_node.specs.declared.stored.StoreFault.TheVariants as store_fault;
ghost use Rattle.alp_fields.specs.Forms.{whole};
ghost use Rattle.alp_fields.specs.ClockNote.{clock_form};
ghost use Rattle.alp_base.specs.Faults.{IsOfVolume};
ghost use Rattle.alp_vault.specs.Vault.{IsSameVault};
ghost use Rattle.alp_vault.specs.Volumes.{AreNoteChanges, record_pages, live_bytes, commit_bytes};
ghost use Rattle.alp_node.specs.Durable.{Leaves};
ghost use Rattle.alp_node.specs.Found.{HasBegun};
ghost use Rattle.alp_node.specs.Halts.{IsUncounted};
ghost use Rattle.alp_node.specs.Nodes.{IsNewNode};
ghost use Rattle.alp_node.specs.Starts.{GaveFiles, HasRaised, IsKeptOrRaised, PutsClock, after_clock, raised, HasStartCause, IsNoteFault};
ghost use Rattle.alp_node.specs.Writes.{clock_put};
ghost use Rattle.alp_node.specs.declared.start.StartFault.TheVariants as start_fault;

use crate::dead::Dead;
use crate::found::{Found, find_all};
use crate::node::Node;
use crate::opened::Opened;
use crate::server_state::ServerState;
use crate::sessions::Sessions;
use crate::stored::{StoreFault, store};
use crate::waits::Waits;
use alp_base::VaultFault;
use alp_fields::{ClockNote, clock_change, clock_note_name, read_clock};
use alp_journal::{Journal, Parts, Stamps};
use alp_trans::Part;
use alp_vault::Vault;
use std::alloc::Global;
use std::snapshot::Snapshot;
use thiserror::Error;

/// Why a server did not start.
#[derive(Clone, Copy, Debug, PartialEq, Eq, Error)]
pub enum StartFault {
    /// The vault gave no answer.
    #[error("the vault gave no answer")]
    Vault(VaultFault),
    /// A note is not in its format, or the notes do not go together, with one another or with the files.
    #[error("the notes are not in their format, or do not go together")]
    BadNote,
    /// No epoch is left: the note has the last one there is, or, of a server that starts again, its last epoch is that one.
    #[error("no epoch is left")]
    EpochEnd,
}

// The epoch after that of the note, and its clock.
fn next_epoch(value: &[u8]) -> Result<ClockNote, StartFault>
    ensures { result ≡ after_clock (whole clock_form value.now) }
{
    let Some(kept) = read_clock(value) else {
        return Err(StartFault::BadNote);
    };
    if kept.epoch == u32::MAX {
        return Err(StartFault::EpochEnd);
    }
    Ok(ClockNote {
        epoch: kept.epoch + 1,
        clock: kept.clock,
    })
}

// The epoch and the clock that the server starts with.
fn next_clock<V: Vault>(alloc: Global, vault: &V) -> Result<ClockNote, StartFault>
    requires { IsTrue (V.serves vault.now) }
    ensures clock { IfOk result (λ c. raised (V.held vault.now) ≡ Ok c) }
    ensures cause { IfErr result (HasStartCause (V.tells vault.now) (V.server vault.now) (V.servers vault.now) (V.volume vault.now) (V.held vault.now) (V.faults vault.now) (V.faults vault.now) (V.allowance vault.now)) }
{
    let Ok(name) = clock_note_name(alloc) else {
        return Err(StartFault::Vault(VaultFault::OutOfMemory));
    };
    match vault.note(&name) {
        Some(value) => next_epoch(value.as_slice()),
        None => Ok(ClockNote { epoch: 1, clock: 0 }),
    }
}

// The fault of the vault in a commit.
fn vault_fault(fault: StoreFault) -> VaultFault
    ensures failed { result ≡ vault_fault.Failed → fault ≡ store_fault.Failed }
    ensures stopped { result ≡ vault_fault.Stopped → fault ≡ store_fault.Stopped }
    ensures memory { result ≡ vault_fault.OutOfMemory → fault ≡ store_fault.OutOfMemory }
    ensures volume { IsOfVolume result }
{
    match fault {
        StoreFault::Failed => VaultFault::Failed,
        StoreFault::Stopped => VaultFault::Stopped,
        StoreFault::OutOfMemory => VaultFault::OutOfMemory,
    }
}

impl<V: Vault> Node<V> {
    /// A server with what its vault holds: its notes leave it the parts that an earlier run left ready, with their locks and what they
    /// intend, and the decisions that a part on another server has not applied. Its epoch is one more than that of the note, or 1 with
    /// clock 0 where there is none, and stands in the note from then on.
    ///
    /// Want of memory, and notes that are not together, leave the vault with what it held, serving, and with its count of faults.
    pub fn start(
        alloc: Global,
        server: u8,
        servers: u8,
        vault: V,
    ) -> Result<Node<V>, (V, StartFault)>
        requires serving { IsTrue (V.serves vault) }
        requires server { (V.server vault ≡ server) × (V.servers vault ≡ servers) }
        requires given { IsTrue (V.tells vault) → GaveFiles server (V.held vault) }
        ensures raised { IfOk result (λ n. HasRaised (V.tells vault) (V.server vault) (V.servers vault) (V.volume vault) (V.held vault) (V.held n.kept.vault) (record { epoch = n.kept.epoch; clock = n.kept.clock })) }
        ensures new { IfOk result (IsNewNode V.Vault vault) }
        ensures same { MatchResult result (λ n. IsSameVault V.tells V.volume V.server V.servers vault n.kept.vault) (λ e. IsSameVault V.tells V.volume V.server V.servers vault e.0) }
        ensures allowance { MatchResult result (λ n. Spends (V.allowance vault) (V.allowance n.kept.vault)) (λ e. Spends (V.allowance vault) (V.allowance e.0)) }
        ensures cause { IfErr result (λ e. HasStartCause (V.tells vault) (V.server vault) (V.servers vault) (V.volume vault) (V.held vault) (V.faults vault) (V.faults e.0) (V.allowance e.0) e.1) }
        ensures untouched { IfErr result (λ e. e.1 ≡ start_fault.EpochEnd → e.0 ≡ vault) }
        ensures noted { IfErr result (λ e. IsNoteFault e.1 → IsUncounted V.Vault vault e.0 × IsTrue (V.serves e.0)) }
        ensures memory { IfErr result (λ e. e.1 ≡ StartFault.Vault vault_fault.OutOfMemory → IsUncounted V.Vault vault e.0 × IsTrue (V.serves e.0)) }
        ensures counted { IfOk result (λ n. V.faults n.kept.vault ≡ V.faults vault) }
        // Through the whole call a crash leaves what was held, or that with the raised note.
        ensures crash { IsTrue (V.tells vault) → MatchResult result (λ n. Leaves V.Vault vault n.kept.vault (IsKeptOrRaised (V.held vault))) (λ e. Leaves V.Vault vault e.0 (IsKeptOrRaised (V.held vault))) }
    {
        let mut vault = vault;
        vault.knows();
        let clock = match next_clock(alloc, &vault) {
            Ok(clock) => clock,
            Err(fault) => return Err((vault, fault)),
        };
        let found = match find_all(alloc, &mut vault, (server, servers), clock.epoch) {
            Ok(found) => found,
            Err(fault) => return Err((vault, fault)),
        };
        if let Err(fault) = put_clock(alloc, &mut vault, clock) {
            return Err((vault, StartFault::Vault(vault_fault(fault))));
        }
        vault.knows();
        let (kept, _, _) = begun(alloc, (server, servers), clock, found, vault);
        Ok(Node {
            opening: Opened {
                vault: Snapshot::of(&kept.vault),
            },
            kept,
            journal: Journal::new(alloc),
        })
    }
}

/// The note of the epoch and the clock stands, by one write.
pub(super) fn put_clock<V: Vault>(
    alloc: Global,
    vault: &mut V,
    clock: ClockNote,
) -> Result<(), StoreFault>
    requires serving { IsTrue (V.serves vault.old) }
    requires time { clock.clock ≤ 2 ^ 62 }
    requires noted { AreNoteChanges (V.server vault.old) (V.servers vault.old) (V.held vault.old).notes (clock_put clock ∷ []) }
    requires log { record_pages (live_bytes (V.held vault.old).notes) + record_pages (commit_bytes 0 (clock_put clock ∷ [])) ≤ (V.volume vault.old).area }
    ensures { PutsClock V.Vault vault.old vault.new clock result }
{
    vault.knows();
    let note = clock_change(alloc, clock)?;
    let notes = vec![in alloc; note]?;
    store(alloc, vault, &Part::new(alloc), notes.as_slice())
}

/// A server that begins an epoch with what it found. It keeps nothing else of a client.
pub(super) fn begun<V: Vault>(
    alloc: Global,
    of: (u8, u8),
    clock: ClockNote,
    found: Found,
    vault: V,
) -> (ServerState<V>, Parts, Stamps)
    ensures kept { HasBegun (V.volume vault) of.0 of.1 clock found vault result.0 }
    ensures listed { (result.1 ≡ found.ready) × (result.2 ≡ found.decided) }
{
    let sizes = vault.sizes();
    let Found {
        locks,
        lives,
        joins,
        coordinator,
        ready,
        decided,
    } = found;
    let state = ServerState {
        alloc,
        server: of.0,
        servers: of.1,
        sizes,
        epoch: clock.epoch,
        clock: clock.clock,
        given: 0,
        coordinator,
        joins,
        sessions: Sessions::new(),
        lives,
        dead: Dead::new(alloc),
        waits: Waits::new(alloc),
        locks,
        vault,
        is_down: false,
    };
    (state, ready, decided)
}
