//! Commits of a server's vault: what a transaction intends, with changes of notes.
ghost use Rattle.std.specs.Prelude.{◌≡◌, ◌+◌, ◌≤◌, IsTrue, IsErrOf, OnOk};
ghost use Rattle.alp_base.specs.Allowances.{Spends};
ghost use Rattle.alp_base.specs.Crashes.{Either};
ghost use Rattle.alp_node.specs.declared.stored.StoreFault.TheVariants.{OutOfMemory as NoMemory};
ghost use Rattle.alp_node.specs.Durable.{Leaves, Besides, NoOther, IsWritten};
ghost use Rattle.alp_node.specs.Halts.{Ends};
ghost use Rattle.alp_calls.specs.Parts.{IsPart};
ghost use Rattle.alp_files.specs.Edits.{edits_map};
ghost use Rattle.alp_files.specs.Changes.{edits_of};
ghost use Rattle.alp_base.specs.Notes.{notes_after};
ghost use Rattle.alp_vault.specs.Contents.{made};
ghost use Rattle.alp_vault.specs.Vault.{IsSameVault};
ghost use Rattle.alp_trans.specs.Parts.{change_of};
ghost use Rattle.alp_vault.specs.Volumes.{IsCommit, IsVolumeOf, AreNoteChanges, record_pages, live_bytes, commit_bytes};

use alp_base::{Change, NoteChange, OutOfMemory, VaultFault};
use alp_trans::Part;
use alp_vault::Vault;
use std::alloc::{AllocError, AllocFailed, Global};

/// Why nothing was stored.
#[derive(Clone, Copy, PartialEq, Eq)]
pub enum StoreFault {
    /// The vault failed.
    Failed,
    /// It was stopped.
    Stopped,
    OutOfMemory,
}

impl From<OutOfMemory> for StoreFault {
    ghost from_gives = { λ _ fault. fault ≡ NoMemory };

    fn from(_refused: OutOfMemory) -> StoreFault {
        StoreFault::OutOfMemory
    }
}

impl From<AllocError> for StoreFault {
    ghost from_gives = { λ _ fault. fault ≡ NoMemory };

    fn from(_refused: AllocError) -> StoreFault {
        StoreFault::OutOfMemory
    }
}

impl<T: Drop> From<AllocFailed<T>> for StoreFault {
    ghost from_gives = { λ _ fault. fault ≡ NoMemory };

    fn from(_refused: AllocFailed<T>) -> StoreFault {
        StoreFault::OutOfMemory
    }
}

// The commit of a change that the vault can take.
fn commit_change<V: Vault>(
    vault: &mut V,
    change: &Change,
    notes: &[NoteChange],
) -> Result<(), StoreFault>
    requires serving { IsTrue (V.serves vault.old) }
    requires asked { IsCommit (V.volume vault.old) (V.server vault.old) (V.servers vault.old) (V.held vault.old).notes change.now notes.now }
    requires room { IsTrue (V.tells vault.old) → IsVolumeOf (V.volume vault.old) (edits_map (edits_of change.now) (V.held vault.old).cells) }
    ensures kept { IsSameVault V.tells V.volume V.server V.servers vault.old vault.new }
    ensures cells { IsTrue (V.tells vault.old) → OnOk result ((V.held vault.new).cells ≡ edits_map (edits_of change.now) (V.held vault.old).cells) }
    ensures notes { OnOk result ((V.held vault.new).notes ≡ notes_after notes.now (V.held vault.old).notes) }
    ensures leaves { IsTrue (V.tells vault.old) → Leaves V.Vault vault.old vault.new (Either (V.held vault.old) (made change.now notes.now (V.held vault.old))) }
    ensures memory { IsTrue (V.tells vault.old) → IsErrOf result NoMemory → Leaves V.Vault vault.old vault.new (Besides V.Vault vault.old NoOther) }
    ensures allowance { Spends (V.allowance vault.old) (V.allowance vault.new) }
    ensures ended { Ends V.Vault vault.old vault.new result }
{
    match vault.commit(change, notes) {
        Ok(()) => Ok(()),
        Err(VaultFault::Stopped) => Err(StoreFault::Stopped),
        Err(VaultFault::OutOfMemory) => Err(StoreFault::OutOfMemory),
        Err(_) => Err(StoreFault::Failed),
    }
}

/// One commit: the intents of a part become cells, and the notes change. The vault has room for it.
pub fn store<V: Vault>(
    alloc: Global,
    vault: &mut V,
    part: &Part,
    notes: &[NoteChange],
) -> Result<(), StoreFault>
    requires serving { IsTrue (V.serves vault.old) }
    requires part { IsPart part.now }
    requires noted { AreNoteChanges (V.server vault.old) (V.servers vault.old) (V.held vault.old).notes notes.now }
    requires log { record_pages (live_bytes (V.held vault.old).notes) + record_pages (commit_bytes part.now.counts.cells notes.now) ≤ (V.volume vault.old).area }
    requires room { IsTrue (V.tells vault.old) → IsVolumeOf (V.volume vault.old) (edits_map (edits_of (change_of part.now.intents)) (V.held vault.old).cells) }
    ensures kept { IsSameVault V.tells V.volume V.server V.servers vault.old vault.new }
    ensures cells { IsTrue (V.tells vault.old) → OnOk result ((V.held vault.new).cells ≡ edits_map (edits_of (change_of part.now.intents)) (V.held vault.old).cells) }
    ensures notes { OnOk result ((V.held vault.new).notes ≡ notes_after notes.now (V.held vault.old).notes) }
    // Through the whole call a crash leaves what was held, or that with the one write.
    ensures leaves { IsTrue (V.tells vault.old) → Leaves V.Vault vault.old vault.new (Besides V.Vault vault.old (IsWritten part.now.intents notes.now (V.held vault.old))) }
    // Where memory was wanting there was no write.
    ensures memory { IsTrue (V.tells vault.old) → IsErrOf result NoMemory → Leaves V.Vault vault.old vault.new (Besides V.Vault vault.old NoOther) }
    ensures allowance { Spends (V.allowance vault.old) (V.allowance vault.new) }
    ensures ended { Ends V.Vault vault.old vault.new result }
{
    let change = part.change(alloc)?;
    commit_change(vault, &change, notes)
}
