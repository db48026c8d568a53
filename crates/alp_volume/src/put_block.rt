//! The first page of a block that is put.
ghost use Rattle.std.specs.Prelude.{◌≡◌, ◌≤◌, ◌<◌, ◌/◌, ◌%◌, ℕ, List, [], ◌∷◌, IsTrue, OnOk, Some, None, is_some, true, ◌+◌};
ghost use Rattle.std.specs.FinMap as map;
ghost use Rattle.alp_base.specs.declared.key.Key.TheVariants.{Leader as LeaderKey, PageOf};
ghost use Rattle.alp_fields.specs.Forms.{whole};
ghost use Rattle.alp_base.specs.declared.cell.Cell.TheVariants.{Page as PageCell};
ghost use Rattle.alp_files.specs.Cells.{View};
ghost use Rattle.alp_files.specs.Edits.{Put, after};
ghost use Rattle.alp_pages.specs.Leader.{leader_page};
ghost use Rattle.alp_tables.specs.declared.file_slot.FileSlot.{FileSlot as ASlot};
ghost use Rattle.alp_pages.specs.Changes.{NamesOne};
ghost use Rattle.alp_volume.specs.Drafts.{IsDraft, laid};
ghost use Rattle.alp_volume.specs.Known.{IsCatalog};
ghost use Rattle.alp_pages.specs.Nodes.{IndexOf};
ghost use Rattle.alp_pages.specs.Pages.{Pages as PagesOf};
ghost use Rattle.alp_pages.specs.Reading.{HasRead};
ghost use Rattle.alp_volume.specs.Undone.{LeadsOn};

use crate::blocks::blocks_of;
use crate::catalog::Catalog;
use crate::draft::Draft;
use crate::put_leader::{draft_leader, leader_page_of};
use crate::put_page::put_in_block;
use alp_base::{FileId, OutOfMemory, PAGES_PER_FILE, Page, PageRef, VaultFault};
use alp_pages::{IndexPlaces, Leader, PageReader};
use std::alloc::Global;

// An index page that names one place.
fn first_index(slot: usize, place: u32) -> Page
    requires slot { slot < 128 }
    requires some { 0 < place }
    ensures { NamesOne result slot place }
{
    let mut row = IndexPlaces::none();
    row.set(slot, place);
    row.page()
}

// Puts the page and its index page at the two lowest places that are free, and the leader that names the index page.
fn put_pages(
    draft: &mut Draft,
    catalog: &mut Catalog,
    file: FileId,
    leader_at: u32,
    leader: &mut Leader,
    number: u32,
    page: PageRef,
) -> Result<(), OutOfMemory>
    requires number { number < 4096 }
    requires size { leader.old.props.size ≤ PAGES_PER_FILE }
    requires home { (home : ℕ) × IsCatalog home catalog.old }
    ensures put { (home : ℕ) (base : PagesOf) (m : View) (d : IsDraft home (laid draft.old.pages base) m catalog.old) (x : ASlot) → IsCatalog home catalog.old → map.get catalog.old.files file ≡ Some x → x.place ≡ leader_at → whole leader_page (laid draft.old.pages base leader_at) ≡ Some leader.old → d.volume.places.of (IndexOf file (number / 128)) ≡ None → OnOk result (IsDraft home (laid draft.new.pages base) (after (Put (PageOf file number) (PageCell page) ∷ []) m) catalog.new) }
    ensures back { LeadsOn draft.old.undos.items catalog.old draft.new.undos.items catalog.new }
    ensures sized { (home : ℕ) → IsCatalog home catalog.old → IsCatalog home catalog.new }
    ensures few { map.len draft.new.pages ≤ map.len draft.old.pages + 3 }
{
    let index_at = catalog.take_place(&mut draft.undos)?;
    let place = catalog.take_place(&mut draft.undos)?;
    leader.index.set((number / 128) as usize, index_at);
    catalog.keep_blocks(&mut draft.undos, file, blocks_of(&leader.index))?;
    let index = first_index((number % 128) as usize, place);
    draft.share(place, page)?;
    draft.write(index_at, index)?;
    draft.write(leader_at, leader_page_of(leader))
}

/// Puts a page of a file that is there. The first page of a block brings its index page, which the leader names.
pub fn put_page<R: PageReader>(
    alloc: Global,
    draft: &mut Draft,
    reader: &mut R,
    catalog: &mut Catalog,
    file: FileId,
    number: u32,
    page: PageRef,
) -> Result<(), VaultFault>
    requires number { number < 4096 }
    requires sized { IsCatalog (R.home reader.old) catalog.old }
    ensures put { (m : View) → IsTrue (R.tells reader.old) → IsDraft (R.home reader.old) (laid draft.old.pages (R.pages reader.old)) m catalog.old → is_some (m (LeaderKey file)) ≡ true → OnOk result (IsDraft (R.home reader.old) (laid draft.new.pages (R.pages reader.old)) (after (Put (PageOf file number) (PageCell page) ∷ []) m) catalog.new) }
    ensures back { LeadsOn draft.old.undos.items catalog.old draft.new.undos.items catalog.new }
    ensures sized { IsCatalog (R.home reader.old) catalog.new }
    ensures few { map.len draft.new.pages ≤ map.len draft.old.pages + 3 }
    ensures read { HasRead R.ReadOn R.faults R.allowance reader.old reader.new result }
{
    let Some(kept) = catalog.files.get(file) else {
        return Err(VaultFault::OutOfMemory);
    };
    let Some(mut leader) = draft_leader(alloc, draft, reader, kept.place)? else {
        return Err(VaultFault::OutOfMemory);
    };
    let index_at = leader.index.at((number / 128) as usize);
    if index_at == 0 {
        return match put_pages(draft, catalog, file, kept.place, &mut leader, number, page) {
            Ok(()) => Ok(()),
            Err(OutOfMemory) => Err(VaultFault::OutOfMemory),
        };
    }
    if index_at as usize >= catalog.places.len() {
        return Err(VaultFault::OutOfMemory);
    }
    put_in_block(draft, reader, catalog, index_at, number, page)
}
