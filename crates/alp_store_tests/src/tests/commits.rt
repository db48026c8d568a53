//! What the tests ask of a vault.
ghost use Rattle.std.specs.Prelude.{◌≡◌, IsTrue, IfOk, OnOk, false};
ghost use Rattle.alp_fields.specs.ClockNote.{IsClockNote};
ghost use Rattle.alp_files.specs.Changes.{ArePutOnce};

use super::takes::can_take;
use super::wrong::Wrong;
use alp_base::{Change, CutList, FileList, NoteChange, OutOfMemory, PutList, VaultFault};
use alp_fields::{ClockNote, clock_change, clock_note_name, read_clock};
use alp_files::CellMap;
use alp_vault::Vault;
use std::alloc::Global;

// All cells are put.
pub(super) fn puts_of(alloc: Global, cells: &CellMap) -> Result<Change, OutOfMemory>
    ensures { IfOk result (λ c. ArePutOnce c.puts) }
{
    let puts = cells.copies(alloc)?;
    Ok(Change {
        drops: FileList::new(Vec::new(alloc)),
        cuts: CutList::new(Vec::new(alloc)),
        puts: PutList::new(puts),
    })
}

// The note of that clock.
pub(super) fn clock_note(alloc: Global, clock: u32) -> Result<NoteChange, OutOfMemory>
    ensures { IfOk result IsClockNote }
{
    let clock = u64::from(clock);
    clock_change(alloc, ClockNote { epoch: 1, clock })
}

// Makes the change with the note of that clock. Gives whether there is room for it.
pub(super) fn commit<V: Vault>(
    alloc: Global,
    vault: &mut V,
    change: &Change,
    clock: u32,
) -> Result<bool, VaultFault>
    requires serves { IsTrue (V.serves vault.old) }
    requires told { V.tells vault.old ≡ false }
    requires once { ArePutOnce change.now.puts }
    ensures serves { OnOk result (IsTrue (V.serves vault.new)) }
    ensures told { V.tells vault.new ≡ false }
{
    let Ok(note) = clock_note(alloc, clock) else {
        return Err(VaultFault::OutOfMemory);
    };
    let notes = [note];
    if !can_take(vault, change, &notes) {
        return Ok(false);
    }
    match vault.commit(change, &notes) {
        Ok(()) => Ok(true),
        Err(fault) => Err(fault),
    }
}

// The clock of the note, and 0 where there is none.
fn clock_of<V: Vault>(alloc: Global, vault: &V) -> Result<u64, Wrong>
    requires { IsTrue (V.serves vault.now) }
{
    let name = clock_note_name(alloc)?;
    let Some(value) = vault.note(&name) else {
        return Ok(0);
    };
    match read_clock(value.as_slice()) {
        Some(note) => Ok(note.clock),
        None => Err(Wrong::Cell),
    }
}

// Files, owners, places and the clock.
pub(super) fn counts_of<V: Vault>(alloc: Global, vault: &V) -> Result<(u32, u32, u32, u64), Wrong>
    requires { IsTrue (V.serves vault.now) }
{
    let clock = clock_of(alloc, vault)?;
    Ok((vault.file_count(), vault.owner_count(), vault.used(), clock))
}
