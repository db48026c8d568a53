//! Pages of data that are put.
ghost use Rattle.std.specs.Prelude.{◌≡◌, ◌≤◌, ◌<◌, ◌/◌, ◌%◌, ℕ, List, [], ◌∷◌, length, IsTrue, IfOk, IfSome, OnOk, Some, None, slice_index, ◌+◌};
ghost use Rattle.std.specs.FinMap as map;
ghost use Rattle.alp_base.specs.declared.ids.FileId.{FileId as File};
ghost use Rattle.alp_base.specs.declared.key.Key.TheVariants.{PageOf};
ghost use Rattle.alp_fields.specs.Forms.{whole};
ghost use Rattle.alp_base.specs.declared.cell.Cell.TheVariants.{Page as PageCell};
ghost use Rattle.alp_files.specs.Cells.{View};
ghost use Rattle.alp_files.specs.Edits.{Put, after};
ghost use Rattle.alp_volume.specs.Drafts.{IsDraft, laid};
ghost use Rattle.alp_volume.specs.Known.{IsCatalog};
ghost use Rattle.alp_pages.specs.Nodes.{IndexOf};
ghost use Rattle.alp_pages.specs.Pages.{Pages as PagesOf, index_page};
ghost use Rattle.alp_pages.specs.Reading.{HasRead};
ghost use Rattle.alp_volume.specs.Undone.{LeadsOn};

use crate::catalog::Catalog;
use crate::draft::Draft;
use alp_base::{OutOfMemory, PageRef, VaultFault};
use alp_pages::{IndexPlaces, PageReader, decode_index};

// The places that an index page names, as the change has it.
pub(crate) fn draft_index<R: PageReader>(
    draft: &Draft,
    reader: &mut R,
    at: u32,
) -> Result<Option<IndexPlaces>, VaultFault>
    requires { at < R.home reader.old }
    ensures row { IsTrue (R.tells reader.old) → IfOk result (λ o. o ≡ whole index_page (laid draft.now.pages (R.pages reader.old) at)) }
    ensures long { IfOk result (λ o. IfSome o (λ row. length row ≡ 128)) }
    ensures read { HasRead R.ReadOn R.faults R.allowance reader.old reader.new result }
{
    let page = draft.page(reader, at)?;
    Ok(decode_index(page.bytes()))
}

// Puts a page of data at the lowest free place, and then the index page that names it.
fn put_new_page(
    draft: &mut Draft,
    catalog: &mut Catalog,
    index_at: u32,
    row: &mut IndexPlaces,
    number: u32,
    page: PageRef,
) -> Result<(), OutOfMemory>
    requires row { length row.old ≡ 128 }
    requires home { (home : ℕ) × IsCatalog home catalog.old }
    ensures put { (home : ℕ) (base : PagesOf) (m : View) (f : File) (d : IsDraft home (laid draft.old.pages base) m catalog.old) → IsCatalog home catalog.old → d.volume.places.of (IndexOf f (number / 128)) ≡ Some index_at → whole index_page (laid draft.old.pages base index_at) ≡ Some row.old → slice_index row.old (number % 128) ≡ 0 → OnOk result (IsDraft home (laid draft.new.pages base) (after (Put (PageOf f number) (PageCell page) ∷ []) m) catalog.new) }
    ensures back { LeadsOn draft.old.undos.items catalog.old draft.new.undos.items catalog.new }
    ensures sized { (home : ℕ) → IsCatalog home catalog.old → IsCatalog home catalog.new }
    ensures few { map.len draft.new.pages ≤ map.len draft.old.pages + 2 }
{
    let place = catalog.take_place(&mut draft.undos)?;
    row.set((number % 128) as usize, place);
    draft.share(place, page)?;
    draft.write(index_at, row.page())
}

/// Puts a page of a block whose index page stands there: over the page of that number, or at the lowest free place.
pub(crate) fn put_in_block<R: PageReader>(
    draft: &mut Draft,
    reader: &mut R,
    catalog: &mut Catalog,
    index_at: u32,
    number: u32,
    page: PageRef,
) -> Result<(), VaultFault>
    requires at { index_at < R.home reader.old }
    requires sized { IsCatalog (R.home reader.old) catalog.old }
    ensures put { (home : ℕ) (m : View) (f : File) (d : IsDraft home (laid draft.old.pages (R.pages reader.old)) m catalog.old) → home ≡ R.home reader.old → IsTrue (R.tells reader.old) → d.volume.places.of (IndexOf f (number / 128)) ≡ Some index_at → OnOk result (IsDraft home (laid draft.new.pages (R.pages reader.old)) (after (Put (PageOf f number) (PageCell page) ∷ []) m) catalog.new) }
    ensures back { LeadsOn draft.old.undos.items catalog.old draft.new.undos.items catalog.new }
    ensures sized { IsCatalog (R.home reader.old) catalog.new }
    ensures few { map.len draft.new.pages ≤ map.len draft.old.pages + 2 }
    ensures read { HasRead R.ReadOn R.faults R.allowance reader.old reader.new result }
{
    let Some(mut row) = draft_index(draft, reader, index_at)? else {
        return Err(VaultFault::OutOfMemory);
    };
    let slot = (number % 128) as usize;
    let old = row.at(slot);
    if old != 0 {
        return match draft.share(old, page) {
            Ok(()) => Ok(()),
            Err(OutOfMemory) => Err(VaultFault::OutOfMemory),
        };
    }
    match put_new_page(draft, catalog, index_at, &mut row, number, page) {
        Ok(()) => Ok(()),
        Err(OutOfMemory) => Err(VaultFault::OutOfMemory),
    }
}
