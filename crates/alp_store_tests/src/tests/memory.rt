//! A vault in memory.
ghost use Rattle.std.specs.Prelude.{◌≡◌, ◌+◌, ◌≤◌, true, IfOk, OnOk, IsTrue, length};
ghost use Rattle.alp_fields.specs.ClockNote.{IsClockNote};
ghost use Rattle.alp_files.specs.Changes.{ArePutOnce};
ghost use Rattle.alp_files.specs.Counts.{used_of, owner_count_of};
ghost use Rattle.alp_store_tests.specs.FileChanges.{IsFileChange};

use super::changes::next_change;
use super::commits::{clock_note, counts_of};
use super::fixtures::SIZES;
use super::takes::can_take;
use super::wrong::Wrong;
use alp_base::{Change, NoteChange};
use alp_files::CellMap;
use alp_vault::{MemVault, Vault};
use std::alloc::Global;

// A vault in memory, in which so many files were deleted, and from which so many cuts took pages.
#[derive(Drop)]
pub(super) struct Memory {
    vault: MemVault,
    pub(super) deleted: u32,
    pub(super) cut: u32,
}

// A volume has 255 places at least, and a cell takes two at most: its own, and that of its block.
const FEW: u32 = 127;

// Whether there are few cells, also with those that the change puts.
fn are_few(vault: &MemVault, change: &Change) -> bool
    requires { IsTrue (⟦<MemVault as Vault>⟧.serves vault.now) }
    ensures { result ≡ true → let cells = (⟦<MemVault as Vault>⟧.held vault.now).cells in used_of cells + owner_count_of cells + length change.now.puts ≤ FEW }
{
    let cells = vault.used() as u128 + vault.owner_count() as u128;
    cells + change.puts.as_slice().len() as u128 <= FEW as u128
}

// Makes the change of a vault in which there are few cells.
fn commit(vault: &mut MemVault, change: &Change, note: NoteChange) -> Result<(), Wrong>
    requires serves { IsTrue (⟦<MemVault as Vault>⟧.serves vault.old) }
    requires clock { IsClockNote note }
    requires change { IsFileChange (⟦<MemVault as Vault>⟧.held vault.old).cells change.now }
    ensures { OnOk result (IsTrue (⟦<MemVault as Vault>⟧.serves vault.new)) }
{
    let notes = [note];
    if !can_take(vault, change, &notes) || !are_few(vault, change) {
        return Err(Wrong::Room);
    }
    vault.knows();
    match vault.commit(change, &notes) {
        Ok(()) => Ok(()),
        Err(_fault) => Err(Wrong::Commit),
    }
}

impl Memory {
    pub(super) fn new(alloc: Global) -> Memory
        ensures { IsTrue (⟦<MemVault as Vault>⟧.serves result.vault) }
    {
        Memory {
            vault: MemVault::new(alloc, SIZES, 1, 1),
            deleted: 0,
            cut: 0,
        }
    }

    // Makes a change by that number with the note of that clock, and gives the change.
    pub(super) fn commit_next(
        &mut self,
        alloc: Global,
        number: u32,
        clock: u32,
    ) -> Result<Change, Wrong>
        requires { IsTrue (⟦<MemVault as Vault>⟧.serves self.old.vault) }
        ensures serves { OnOk result (IsTrue (⟦<MemVault as Vault>⟧.serves self.new.vault)) }
        ensures once { IfOk result (λ change. ArePutOnce change.puts) }
    {
        let before = self.vault.used();
        let change = next_change(alloc, self.vault.cells(), number)?;
        let note = clock_note(alloc, clock)?;
        commit(&mut self.vault, &change, note)?;
        if !change.drops.as_slice().is_empty() {
            self.deleted = self.deleted.saturating_add(1);
        } else if self.vault.used() < before {
            self.cut = self.cut.saturating_add(1);
        }
        Ok(change)
    }

    pub(super) fn cells(&self) -> &CellMap
        requires { IsTrue (⟦<MemVault as Vault>⟧.serves self.now.vault) }
    {
        self.vault.cells()
    }

    // Files, owners, places and the clock.
    pub(super) fn counts(&self, alloc: Global) -> Result<(u32, u32, u32, u64), Wrong>
        requires { IsTrue (⟦<MemVault as Vault>⟧.serves self.now.vault) }
    {
        counts_of(alloc, &self.vault)
    }
}
