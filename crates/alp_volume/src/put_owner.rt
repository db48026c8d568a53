//! Owners' records that are put.
ghost use Rattle.std.specs.Prelude.{◌≡◌, ◌≤◌, ◌<◌, ◌+◌, ◌/◌, ℕ, List, [], ◌∷◌, IsTrue, OnOk, Some, None};
ghost use Rattle.std.specs.FinMap as map;
ghost use Rattle.alp_base.specs.declared.key.Key.TheVariants.{OwnerOf};
ghost use Rattle.alp_base.specs.declared.cell.Cell.TheVariants.{Owner as OwnerCell};
ghost use Rattle.alp_files.specs.Cells.{View};
ghost use Rattle.alp_files.specs.Edits.{Put, after};
ghost use Rattle.alp_volume.specs.declared.catalog.Catalog.{Catalog as ACatalog};
ghost use Rattle.alp_pages.specs.Changes.{HasRow};
ghost use Rattle.alp_volume.specs.Drafts.{IsDraft, laid};
ghost use Rattle.alp_volume.specs.Known.{IsCatalog};
ghost use Rattle.alp_pages.specs.Reading.{HasRead};
ghost use Rattle.alp_volume.specs.Undone.{LeadsOn};

use crate::catalog::Catalog;
use crate::draft::Draft;
use alp_base::{OutOfMemory, OwnerRecord, Page, VaultFault};
use alp_pages::{PageReader, set_owner};
use alp_vault::HEAD_PAGES;

// Writes the record into a row.
fn write_row<R: PageReader>(
    draft: &mut Draft,
    reader: &mut R,
    row: u32,
    owner: &OwnerRecord,
) -> Result<(), VaultFault>
    requires row { row < 256 }
    requires head { HEAD_PAGES ≤ R.home reader.old }
    ensures written { IsTrue (R.tells reader.old) → OnOk result ((bytes : List ℕ) × (draft.new.pages ≡ map.insert draft.old.pages (129 + row / 2) bytes) × HasRow (laid draft.old.pages (R.pages reader.old)) bytes row owner.now) }
    ensures undos { draft.new.undos ≡ draft.old.undos }
    ensures few { map.len draft.new.pages ≤ map.len draft.old.pages + 1 }
    ensures read { HasRead R.ReadOn R.faults R.allowance reader.old reader.new result }
{
    let page = draft.page(reader, 129 + row / 2)?;
    let mut bytes = [0u8; 512];
    bytes.copy_from_slice(page.bytes());
    set_owner(&mut bytes, (row % 2) as usize, owner);
    match draft.write(129 + row / 2, Page::new(bytes)) {
        Ok(()) => Ok(()),
        Err(OutOfMemory) => Err(VaultFault::OutOfMemory),
    }
}

/// Puts the record of an owner that has a row.
pub fn put_known_owner<R: PageReader>(
    draft: &mut Draft,
    reader: &mut R,
    row: u32,
    owner: &OwnerRecord,
) -> Result<(), VaultFault>
    requires row { row < 256 }
    requires head { HEAD_PAGES ≤ R.home reader.old }
    ensures put { (home : ℕ) (m : View) (c : ACatalog) → IsTrue (R.tells reader.old) → IsDraft home (laid draft.old.pages (R.pages reader.old)) m c → map.get c.owners owner.now.name ≡ Some row → OnOk result (IsDraft home (laid draft.new.pages (R.pages reader.old)) (after (Put (OwnerOf owner.now.name) (OwnerCell owner.now) ∷ []) m) c) }
    ensures undos { draft.new.undos ≡ draft.old.undos }
    ensures few { map.len draft.new.pages ≤ map.len draft.old.pages + 1 }
    ensures read { HasRead R.ReadOn R.faults R.allowance reader.old reader.new result }
{
    write_row(draft, reader, row, owner)
}

/// Puts the record of an owner that has no row, into the lowest that is free.
pub fn put_new_owner<R: PageReader>(
    draft: &mut Draft,
    reader: &mut R,
    catalog: &mut Catalog,
    owner: &OwnerRecord,
) -> Result<(), VaultFault>
    requires head { HEAD_PAGES ≤ R.home reader.old }
    requires sized { IsCatalog (R.home reader.old) catalog.old }
    requires new { map.get catalog.old.owners owner.now.name ≡ None }
    ensures put { (home : ℕ) (m : View) → IsTrue (R.tells reader.old) → IsDraft home (laid draft.old.pages (R.pages reader.old)) m catalog.old → OnOk result (IsDraft home (laid draft.new.pages (R.pages reader.old)) (after (Put (OwnerOf owner.now.name) (OwnerCell owner.now) ∷ []) m) catalog.new) }
    ensures back { LeadsOn draft.old.undos.items catalog.old draft.new.undos.items catalog.new }
    ensures sized { IsCatalog (R.home reader.old) catalog.new }
    ensures few { map.len draft.new.pages ≤ map.len draft.old.pages + 1 }
    ensures read { HasRead R.ReadOn R.faults R.allowance reader.old reader.new result }
{
    let Ok(row) = catalog.take_row(&mut draft.undos, owner.name) else {
        return Err(VaultFault::OutOfMemory);
    };
    write_row(draft, reader, row, owner)
}
