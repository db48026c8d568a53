//! Pages of one block of a file that go.
ghost use Rattle.std.specs.Prelude.{◌≡◌, ◌≤◌, ◌<◌, ◌+◌, ◌*◌, ◌==◌, not, ℕ, List, [], ◌∷◌, IsTrue, OnOk, Some, true, false, length, slice_index, slice_index_or, slice_set};
ghost use Rattle.std.specs.Int.{bit_at};
ghost use Rattle.std.specs.FinMap as map;
ghost use Rattle.alp_fields.specs.Forms.{whole};
ghost use Rattle.alp_pages.specs.Leader.{leader_page};
ghost use Rattle.alp_tables.specs.declared.file_slot.FileSlot.{FileSlot as ASlot};
ghost use Rattle.alp_pages.specs.Counted.{bit};
ghost use Rattle.alp_files.specs.Cells.{View};
ghost use Rattle.alp_files.specs.Edits.{Cut, after};
ghost use Rattle.alp_volume.specs.Drafts.{HasNoneFrom, IsCutting, laid, len_beside};
ghost use Rattle.alp_volume.specs.Known.{IsCatalog};
ghost use Rattle.alp_pages.specs.Pages.{Pages as PagesOf, index_page};
ghost use Rattle.alp_pages.specs.Reading.{HasRead};
ghost use Rattle.alp_volume.specs.Undone.{AreFreeable, AreFreed, LeadsOn, with_file, with_place};

use crate::blocks::blocks_of;
use crate::catalog::Catalog;
use crate::draft::Draft;
use crate::put_leader::leader_page_of;
use crate::put_page::draft_index;
use crate::undo::Undo;
use alp_base::{FileId, OutOfMemory, PAGES_PER_FILE, VaultFault};
use alp_pages::{IndexPlaces, Leader, PageReader};
use alp_vault::HEAD_PAGES;

// Frees the place of a page of the block, if it has one.
fn free_slot(
    catalog: &mut Catalog,
    undos: &mut Vec<Undo>,
    row: &mut IndexPlaces,
    slot: usize,
) -> Result<(), OutOfMemory>
    requires slot { slot < 128 }
    ensures row { OnOk result (row.new ≡ slice_set row.old slot 0) }
    ensures freed { HEAD_PAGES ≤ slice_index row.old slot → slice_index row.old slot < length catalog.old.places → OnOk result (catalog.new.places ≡ slice_set catalog.old.places (slice_index row.old slot) false) }
    ensures none { slice_index row.old slot ≡ 0 → OnOk result (catalog.new.places ≡ catalog.old.places) }
    ensures only { catalog.new ≡ record catalog.old { places = catalog.new.places } }
    ensures long { length catalog.new.places ≡ length catalog.old.places }
    ensures back { LeadsOn undos.old.items catalog.old undos.new.items catalog.new }
    ensures sized { (home : ℕ) → IsCatalog home catalog.old → IsCatalog home catalog.new }
{
    let place = row.at(slot);
    if place == 0 {
        return Ok(());
    }
    catalog.free_place(undos, place)?;
    row.set(slot, 0);
    Ok(())
}

// Frees the places of the pages of the block from that one on.
fn free_slots(
    catalog: &mut Catalog,
    undos: &mut Vec<Undo>,
    row: &mut IndexPlaces,
    first: usize,
) -> Result<(), OutOfMemory>
    requires first { first < 128 }
    requires row { length row.old ≡ 128 }
    ensures kept { OnOk result ((j : ℕ) → j < first → slice_index_or row.new j 0 ≡ slice_index_or row.old j 0) }
    ensures none { OnOk result ((j : ℕ) → first ≤ j → slice_index_or row.new j 0 ≡ 0) }
    ensures long { OnOk result (length row.new ≡ 128) }
    ensures places { AreFreeable first row.old catalog.old.places → OnOk result (AreFreed first row.old catalog.old.places catalog.new.places) }
    ensures only { catalog.new ≡ record catalog.old { places = catalog.new.places } }
    ensures all { length catalog.new.places ≡ length catalog.old.places }
    ensures back { LeadsOn undos.old.items catalog.old undos.new.items catalog.new }
    ensures sized { (home : ℕ) → IsCatalog home catalog.old → IsCatalog home catalog.new }
{
    for slot in first..128 {
        free_slot(catalog, undos, row, slot)?;
    }
    Ok(())
}

// Frees the index page of a block that has no page, and writes the leader without it.
fn free_index(
    draft: &mut Draft,
    catalog: &mut Catalog,
    file: FileId,
    leader_at: u32,
    leader: &mut Leader,
    block: usize,
) -> Result<(), OutOfMemory>
    requires block { block < 32 }
    requires size { leader.old.props.size ≤ PAGES_PER_FILE }
    ensures written { OnOk result ((bytes : List ℕ) × (whole leader_page bytes ≡ Some leader.new) × (draft.new.pages ≡ map.insert draft.old.pages leader_at bytes)) }
    ensures leader { leader.new ≡ record leader.old { index = slice_set leader.old.index block 0 } }
    ensures freed { (x : ASlot) → map.get catalog.old.files file ≡ Some x → HEAD_PAGES ≤ slice_index leader.old.index block → slice_index leader.old.index block < length catalog.old.places → OnOk result ((blocks : ℕ) × ((b : ℕ) → b < 32 → bit_at blocks b ≡ bit (not (slice_index leader.new.index b == 0))) × (catalog.new ≡ with_file file (record x { blocks = blocks }) (with_place (slice_index leader.old.index block) false catalog.old))) }
    ensures back { LeadsOn draft.old.undos.items catalog.old draft.new.undos.items catalog.new }
    ensures sized { (home : ℕ) → IsCatalog home catalog.old → IsCatalog home catalog.new }
    ensures few { len_beside leader_at draft.new.pages ≡ len_beside leader_at draft.old.pages }
{
    let index_at = leader.index.at(block);
    leader.index.set(block, 0);
    catalog.free_place(&mut draft.undos, index_at)?;
    catalog.keep_blocks(&mut draft.undos, file, blocks_of(&leader.index))?;
    draft.write(leader_at, leader_page_of(leader))
}

// Frees the pages of a block from that one on, and the index page with the last of them.
fn cut_row(
    draft: &mut Draft,
    catalog: &mut Catalog,
    file: FileId,
    leader_at: u32,
    leader: &mut Leader,
    block: usize,
    row: &mut IndexPlaces,
    first: usize,
) -> Result<(), OutOfMemory>
    requires block { block < 32 }
    requires first { first < 128 }
    requires row { length row.old ≡ 128 }
    requires size { leader.old.props.size ≤ PAGES_PER_FILE }
    ensures cut { (home : ℕ) (base : PagesOf) (m : View) → IsCatalog home catalog.old → IsCutting home (laid draft.old.pages base) m catalog.old file leader_at leader.old → HasNoneFrom file (128 * (block + 1)) m → whole index_page (laid draft.old.pages base (slice_index leader.old.index block)) ≡ Some row.old → (slice_index leader.old.index block ≡ 0 → ⊥) → OnOk result (IsCutting home (laid draft.new.pages base) (after (Cut file (128 * block + first) ∷ []) m) catalog.new file leader_at leader.new) }
    ensures props { leader.new.props ≡ leader.old.props }
    ensures few { first ≡ 0 → len_beside leader_at draft.new.pages ≤ len_beside leader_at draft.old.pages }
    ensures some { len_beside leader_at draft.new.pages ≤ len_beside leader_at draft.old.pages + 1 }
    ensures back { LeadsOn draft.old.undos.items catalog.old draft.new.undos.items catalog.new }
    ensures sized { (home : ℕ) → IsCatalog home catalog.old → IsCatalog home catalog.new }
{
    free_slots(catalog, &mut draft.undos, row, first)?;
    if row.is_used() {
        return draft.write(leader.index.at(block), row.page());
    }
    free_index(draft, catalog, file, leader_at, leader, block)
}

/// Takes away the pages of a block of a file from that one on. The file has no page behind the block.
pub(crate) fn cut_block<R: PageReader>(
    draft: &mut Draft,
    reader: &mut R,
    catalog: &mut Catalog,
    file: FileId,
    leader_at: u32,
    leader: &mut Leader,
    block: usize,
    first: usize,
) -> Result<(), VaultFault>
    requires block { block < 32 }
    requires first { first < 128 }
    requires size { leader.old.props.size ≤ PAGES_PER_FILE }
    requires sized { IsCatalog (R.home reader.old) catalog.old }
    ensures cut { (m : View) → IsTrue (R.tells reader.old) → IsCutting (R.home reader.old) (laid draft.old.pages (R.pages reader.old)) m catalog.old file leader_at leader.old → HasNoneFrom file (128 * (block + 1)) m → OnOk result (IsCutting (R.home reader.old) (laid draft.new.pages (R.pages reader.old)) (after (Cut file (128 * block + first) ∷ []) m) catalog.new file leader_at leader.new) }
    ensures props { leader.new.props ≡ leader.old.props }
    ensures few { first ≡ 0 → len_beside leader_at draft.new.pages ≤ len_beside leader_at draft.old.pages }
    ensures some { len_beside leader_at draft.new.pages ≤ len_beside leader_at draft.old.pages + 1 }
    ensures back { LeadsOn draft.old.undos.items catalog.old draft.new.undos.items catalog.new }
    ensures sized { IsCatalog (R.home reader.old) catalog.new }
    ensures read { HasRead R.ReadOn R.faults R.allowance reader.old reader.new result }
{
    let index_at = leader.index.at(block);
    if index_at == 0 {
        return Ok(());
    }
    if index_at as usize >= catalog.places.len() {
        return Err(VaultFault::OutOfMemory);
    }
    let Some(mut row) = draft_index(draft, reader, index_at)? else {
        return Err(VaultFault::OutOfMemory);
    };
    match cut_row(
        draft, catalog, file, leader_at, leader, block, &mut row, first,
    ) {
        Ok(()) => Ok(()),
        Err(OutOfMemory) => Err(VaultFault::OutOfMemory),
    }
}
