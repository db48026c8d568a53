//! Pages of a file that go, and files.
ghost use Rattle.std.specs.Prelude.{◌≡◌, ◌≤◌, ◌<◌, ◌-◌, ◌+◌, ◌*◌, ◌/◌, ℕ, List, [], ◌∷◌, IsTrue, OnOk, Some, None, length, false};
ghost use Rattle.std.specs.FinMap as map;
ghost use Rattle.alp_base.specs.declared.key.Key.TheVariants.{PageOf};
ghost use Rattle.alp_files.specs.Cells.{View};
ghost use Rattle.alp_files.specs.Edits.{Cut, Drop as DropOf, after};
ghost use Rattle.alp_pages.specs.declared.leader.Leader.{Leader as LeaderValue};
ghost use Rattle.alp_tables.specs.declared.file_slot.FileSlot.{FileSlot as ASlot};
ghost use Rattle.alp_volume.specs.Drafts.{HasNoneFrom, HaveLeaders, IsCutting, IsDraft, laid};
ghost use Rattle.alp_volume.specs.Known.{IsCatalog};
ghost use Rattle.alp_pages.specs.Nodes.{LeaderOf};
ghost use Rattle.alp_pages.specs.Reading.{HasRead};
ghost use Rattle.alp_volume.specs.Undone.{LeadsOn, with_place, with_slot, without_file};

use crate::catalog::Catalog;
use crate::cut_block::cut_block;
use crate::draft::Draft;
use crate::put_file::entry_page;
use crate::put_leader::draft_leader;
use alp_base::{FileId, OutOfMemory, PAGES_PER_FILE, Page, VaultFault};
use alp_pages::{Leader, PageReader};
use alp_vault::HEAD_PAGES;
use std::alloc::Global;

// Where in a block the pages begin that go.
fn first_in(block: u32, from: u32) -> u32
    requires { block < 32 }
    ensures { result ≡ from - 128 * block }
{
    from.saturating_sub(128 * block)
}

// Takes away the pages from that one on, block by block from the last.
fn cut_blocks<R: PageReader>(
    draft: &mut Draft,
    reader: &mut R,
    catalog: &mut Catalog,
    file: FileId,
    leader_at: u32,
    leader: &mut Leader,
    from: u32,
) -> Result<(), VaultFault>
    requires size { leader.old.props.size ≤ PAGES_PER_FILE }
    requires sized { IsCatalog (R.home reader.old) catalog.old }
    ensures cut { (m : View) → IsTrue (R.tells reader.old) → IsCutting (R.home reader.old) (laid draft.old.pages (R.pages reader.old)) m catalog.old file leader_at leader.old → HasNoneFrom file 4096 m → OnOk result (IsCutting (R.home reader.old) (laid draft.new.pages (R.pages reader.old)) (after (Cut file from ∷ []) m) catalog.new file leader_at leader.new) }
    ensures back { LeadsOn draft.old.undos.items catalog.old draft.new.undos.items catalog.new }
    ensures sized { IsCatalog (R.home reader.old) catalog.new }
    ensures few { map.len draft.new.pages ≤ map.len draft.old.pages + 2 }
    ensures read { HasRead R.ReadOn R.faults R.allowance reader.old reader.new result }
{
    for k in 0..32u32 {
        let block = 31 - k;
        let first = first_in(block, from);
        if first >= 128 {
            return Ok(());
        }
        cut_block(
            draft,
            reader,
            catalog,
            file,
            leader_at,
            leader,
            block as usize,
            first as usize,
        )?;
    }
    Ok(())
}

// Takes away the pages from that one on of a file whose leader stands there.
fn cut_there<R: PageReader>(
    alloc: Global,
    draft: &mut Draft,
    reader: &mut R,
    catalog: &mut Catalog,
    file: FileId,
    leader_at: u32,
    from: u32,
) -> Result<(), VaultFault>
    requires at { leader_at < R.home reader.old }
    requires sized { IsCatalog (R.home reader.old) catalog.old }
    ensures cut { (m : View) (d : IsDraft (R.home reader.old) (laid draft.old.pages (R.pages reader.old)) m catalog.old) → IsTrue (R.tells reader.old) → d.volume.places.of (LeaderOf file) ≡ Some leader_at → HasNoneFrom file 4096 m → OnOk result (IsDraft (R.home reader.old) (laid draft.new.pages (R.pages reader.old)) (after (Cut file from ∷ []) m) catalog.new) }
    ensures back { LeadsOn draft.old.undos.items catalog.old draft.new.undos.items catalog.new }
    ensures sized { IsCatalog (R.home reader.old) catalog.new }
    ensures few { map.len draft.new.pages ≤ map.len draft.old.pages + 2 }
    ensures read { HasRead R.ReadOn R.faults R.allowance reader.old reader.new result }
{
    let Some(mut leader) = draft_leader(alloc, draft, reader, leader_at)? else {
        return Err(VaultFault::OutOfMemory);
    };
    cut_blocks(draft, reader, catalog, file, leader_at, &mut leader, from)
}

/// Takes away the pages of a file from that one on, if the file is there.
pub fn cut_file<R: PageReader>(
    alloc: Global,
    draft: &mut Draft,
    reader: &mut R,
    catalog: &mut Catalog,
    file: FileId,
    from: u32,
) -> Result<(), VaultFault>
    requires sized { IsCatalog (R.home reader.old) catalog.old }
    ensures cut { (m : View) → IsTrue (R.tells reader.old) → IsDraft (R.home reader.old) (laid draft.old.pages (R.pages reader.old)) m catalog.old → HaveLeaders m → OnOk result (IsDraft (R.home reader.old) (laid draft.new.pages (R.pages reader.old)) (after (Cut file from ∷ []) m) catalog.new) }
    ensures back { LeadsOn draft.old.undos.items catalog.old draft.new.undos.items catalog.new }
    ensures sized { IsCatalog (R.home reader.old) catalog.new }
    ensures few { map.len draft.new.pages ≤ map.len draft.old.pages + 2 }
    ensures read { HasRead R.ReadOn R.faults R.allowance reader.old reader.new result }
{
    let Some(kept) = catalog.files.get(file) else {
        return Ok(());
    };
    cut_there(alloc, draft, reader, catalog, file, kept.place, from)
}

// Frees the entry and the leader of a file that has no page, and puts the page of the directory without it.
fn free_file(
    draft: &mut Draft,
    catalog: &mut Catalog,
    file: FileId,
    slot: u32,
    place: u32,
    entries: Page,
) -> Result<(), OutOfMemory>
    ensures pages { OnOk result (draft.new.pages ≡ map.remove (map.insert draft.old.pages (1 + slot / 32) entries) place) }
    ensures freed { (x : ASlot) → map.get catalog.old.files file ≡ Some x → x.slot ≡ slot → HEAD_PAGES ≤ place → place < length catalog.old.places → OnOk result (catalog.new ≡ with_slot slot false (without_file file (with_place place false catalog.old))) }
    ensures back { LeadsOn draft.old.undos.items catalog.old draft.new.undos.items catalog.new }
    ensures sized { (home : ℕ) → IsCatalog home catalog.old → IsCatalog home catalog.new }
    ensures few { map.len draft.new.pages ≤ map.len draft.old.pages + 1 }
{
    catalog.free_place(&mut draft.undos, place)?;
    catalog.free_entry(&mut draft.undos, file)?;
    draft.write(1 + slot / 32, entries)?;
    draft.forget(place);
    Ok(())
}

// Takes away a file that has no page, if it is there.
fn drop_bare<R: PageReader>(
    draft: &mut Draft,
    reader: &mut R,
    catalog: &mut Catalog,
    file: FileId,
) -> Result<(), VaultFault>
    requires head { HEAD_PAGES ≤ R.home reader.old }
    requires sized { IsCatalog (R.home reader.old) catalog.old }
    ensures dropped { (m : View) → IsTrue (R.tells reader.old) → IsDraft (R.home reader.old) (laid draft.old.pages (R.pages reader.old)) m catalog.old → HasNoneFrom file 0 m → OnOk result (IsDraft (R.home reader.old) (laid draft.new.pages (R.pages reader.old)) (after (DropOf file ∷ []) m) catalog.new) }
    ensures back { LeadsOn draft.old.undos.items catalog.old draft.new.undos.items catalog.new }
    ensures sized { IsCatalog (R.home reader.old) catalog.new }
    ensures few { map.len draft.new.pages ≤ map.len draft.old.pages + 1 }
    ensures read { HasRead R.ReadOn R.faults R.allowance reader.old reader.new result }
{
    let Some(kept) = catalog.files.get(file) else {
        return Ok(());
    };
    let entries = entry_page(draft, reader, kept.slot, &None)?;
    match free_file(draft, catalog, file, kept.slot, kept.place, entries) {
        Ok(()) => Ok(()),
        Err(OutOfMemory) => Err(VaultFault::OutOfMemory),
    }
}

/// Takes away a file with all its pages, if it is there.
pub fn drop_file<R: PageReader>(
    alloc: Global,
    draft: &mut Draft,
    reader: &mut R,
    catalog: &mut Catalog,
    file: FileId,
) -> Result<(), VaultFault>
    requires head { HEAD_PAGES ≤ R.home reader.old }
    requires sized { IsCatalog (R.home reader.old) catalog.old }
    ensures dropped { (m : View) → IsTrue (R.tells reader.old) → IsDraft (R.home reader.old) (laid draft.old.pages (R.pages reader.old)) m catalog.old → HaveLeaders m → OnOk result (IsDraft (R.home reader.old) (laid draft.new.pages (R.pages reader.old)) (after (DropOf file ∷ []) m) catalog.new) }
    ensures back { LeadsOn draft.old.undos.items catalog.old draft.new.undos.items catalog.new }
    ensures sized { IsCatalog (R.home reader.old) catalog.new }
    ensures few { map.len draft.new.pages ≤ map.len draft.old.pages + 3 }
    ensures read { HasRead R.ReadOn R.faults R.allowance reader.old reader.new result }
{
    cut_file(alloc, draft, reader, catalog, file, 0)?;
    drop_bare(draft, reader, catalog, file)
}
