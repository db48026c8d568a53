//! Cells that are put.
ghost use Rattle.std.specs.Prelude.{◌≡◌, ◌≤◌, ◌<◌, ℕ, [], ◌∷◌, IsTrue, OnOk, IfOk, IfErr, true, ◌+◌};
ghost use Rattle.std.specs.FinMap as map;
ghost use Rattle.alp_base.specs.declared.faults.VaultFault.TheVariants as fault;
ghost use Rattle.alp_base.specs.declared.key.Key.TheVariants.{Leader as LeaderKey, OwnerOf, PageOf};
ghost use Rattle.alp_base.specs.declared.cell.Cell.TheVariants.{Leader as LeaderCell, Owner as OwnerCell};
ghost use Rattle.alp_files.specs.Cells.{View};
ghost use Rattle.alp_files.specs.Edits.{Put, after};
ghost use Rattle.alp_vault.specs.Volumes.{fits_key};
ghost use Rattle.alp_volume.specs.Drafts.{HaveLeaders, IsDraft, laid};
ghost use Rattle.alp_volume.specs.Known.{IsCatalog};
ghost use Rattle.alp_volume.specs.Puts.{HasLeader, head_made, head_pages, page_made, page_pages};
ghost use Rattle.alp_pages.specs.Reading.{HasRead};
ghost use Rattle.alp_volume.specs.Undone.{LeadsOn};

use crate::catalog::Catalog;
use crate::draft::Draft;
use crate::put_block::put_page;
use crate::put_file::put_new_leader;
use crate::put_leader::put_known_leader;
use crate::put_owner::{put_known_owner, put_new_owner};
use alp_base::{Cell, FileId, Key, Name, OwnerRecord, PAGES_PER_FILE, PageRef, Props, VaultFault};
use alp_pages::PageReader;
use alp_vault::HEAD_PAGES;
use std::alloc::Global;

fn share(page: &PageRef) -> Result<PageRef, VaultFault>
    ensures same { IfOk result (λ p. p ≡ page.now) }
    ensures fault { IfErr result (λ f. f ≡ fault.OutOfMemory) }
{
    match page.share() {
        Ok(page) => Ok(page),
        Err(_) => Err(VaultFault::OutOfMemory),
    }
}

fn copy_of(props: &Props) -> Result<Props, VaultFault>
    ensures same { IfOk result (λ p. p ≡ props.now) }
    ensures fault { IfErr result (λ f. f ≡ fault.OutOfMemory) }
{
    match props.clone() {
        Ok(props) => Ok(props),
        Err(_) => Err(VaultFault::OutOfMemory),
    }
}

// Puts the properties of a file.
fn put_props<R: PageReader>(
    alloc: Global,
    draft: &mut Draft,
    reader: &mut R,
    catalog: &mut Catalog,
    file: FileId,
    props: Props,
) -> Result<(), VaultFault>
    requires head { HEAD_PAGES ≤ R.home reader.old }
    requires size { props.size ≤ PAGES_PER_FILE }
    requires sized { IsCatalog (R.home reader.old) catalog.old }
    ensures put { (m : View) → IsTrue (R.tells reader.old) → IsDraft (R.home reader.old) (laid draft.old.pages (R.pages reader.old)) m catalog.old → HaveLeaders m → OnOk result (IsDraft (R.home reader.old) (laid draft.new.pages (R.pages reader.old)) (after (Put (LeaderKey file) (LeaderCell props) ∷ []) m) catalog.new) }
    ensures back { LeadsOn draft.old.undos.items catalog.old draft.new.undos.items catalog.new }
    ensures sized { IsCatalog (R.home reader.old) catalog.new }
    ensures few { map.len draft.new.pages ≤ map.len draft.old.pages + 2 }
    ensures read { HasRead R.ReadOn R.faults R.allowance reader.old reader.new result }
{
    match catalog.files.get(file) {
        Some(kept) => put_known_leader(alloc, draft, reader, kept.place, props),
        None => put_new_leader(draft, reader, catalog, file, props),
    }
}

// Puts a leader, if the cell is one.
fn put_leader<R: PageReader>(
    alloc: Global,
    draft: &mut Draft,
    reader: &mut R,
    catalog: &mut Catalog,
    file: FileId,
    cell: &Cell,
) -> Result<(), VaultFault>
    requires head { HEAD_PAGES ≤ R.home reader.old }
    requires fits { fits_key (LeaderKey file) cell.now ≡ true }
    requires sized { IsCatalog (R.home reader.old) catalog.old }
    ensures put { (m : View) → IsTrue (R.tells reader.old) → IsDraft (R.home reader.old) (laid draft.old.pages (R.pages reader.old)) m catalog.old → HaveLeaders m → OnOk result (IsDraft (R.home reader.old) (laid draft.new.pages (R.pages reader.old)) (after (Put (LeaderKey file) cell.now ∷ []) m) catalog.new) }
    ensures back { LeadsOn draft.old.undos.items catalog.old draft.new.undos.items catalog.new }
    ensures sized { IsCatalog (R.home reader.old) catalog.new }
    ensures few { map.len draft.new.pages ≤ map.len draft.old.pages + 2 }
    ensures read { HasRead R.ReadOn R.faults R.allowance reader.old reader.new result }
{
    let Cell::Leader(props) = cell else {
        return Err(VaultFault::OutOfMemory);
    };
    let props = copy_of(props)?;
    put_props(alloc, draft, reader, catalog, file, props)
}

// Puts the record of an owner.
fn put_record<R: PageReader>(
    draft: &mut Draft,
    reader: &mut R,
    catalog: &mut Catalog,
    owner: &OwnerRecord,
) -> Result<(), VaultFault>
    requires head { HEAD_PAGES ≤ R.home reader.old }
    requires sized { IsCatalog (R.home reader.old) catalog.old }
    ensures put { (m : View) → IsTrue (R.tells reader.old) → IsDraft (R.home reader.old) (laid draft.old.pages (R.pages reader.old)) m catalog.old → OnOk result (IsDraft (R.home reader.old) (laid draft.new.pages (R.pages reader.old)) (after (Put (OwnerOf owner.now.name) (OwnerCell owner.now) ∷ []) m) catalog.new) }
    ensures back { LeadsOn draft.old.undos.items catalog.old draft.new.undos.items catalog.new }
    ensures sized { IsCatalog (R.home reader.old) catalog.new }
    ensures few { map.len draft.new.pages ≤ map.len draft.old.pages + 1 }
    ensures read { HasRead R.ReadOn R.faults R.allowance reader.old reader.new result }
{
    match catalog.owners.get(&owner.name) {
        Some(row) => put_known_owner(draft, reader, row, owner),
        None => put_new_owner(draft, reader, catalog, owner),
    }
}

// Puts an owner, if the cell is one.
fn put_owner<R: PageReader>(
    draft: &mut Draft,
    reader: &mut R,
    catalog: &mut Catalog,
    name: Name,
    cell: &Cell,
) -> Result<(), VaultFault>
    requires head { HEAD_PAGES ≤ R.home reader.old }
    requires fits { fits_key (OwnerOf name) cell.now ≡ true }
    requires sized { IsCatalog (R.home reader.old) catalog.old }
    ensures put { (m : View) → IsTrue (R.tells reader.old) → IsDraft (R.home reader.old) (laid draft.old.pages (R.pages reader.old)) m catalog.old → OnOk result (IsDraft (R.home reader.old) (laid draft.new.pages (R.pages reader.old)) (after (Put (OwnerOf name) cell.now ∷ []) m) catalog.new) }
    ensures back { LeadsOn draft.old.undos.items catalog.old draft.new.undos.items catalog.new }
    ensures sized { IsCatalog (R.home reader.old) catalog.new }
    ensures few { map.len draft.new.pages ≤ map.len draft.old.pages + 1 }
    ensures read { HasRead R.ReadOn R.faults R.allowance reader.old reader.new result }
{
    let Cell::Owner(owner) = cell else {
        return Err(VaultFault::OutOfMemory);
    };
    put_record(draft, reader, catalog, owner)
}

/// Puts a leader or an owner, and leaves a page for later.
pub fn put_head<R: PageReader>(
    alloc: Global,
    draft: &mut Draft,
    reader: &mut R,
    catalog: &mut Catalog,
    key: Key,
    cell: &Cell,
) -> Result<(), VaultFault>
    requires head { HEAD_PAGES ≤ R.home reader.old }
    requires fits { fits_key key cell.now ≡ true }
    requires sized { IsCatalog (R.home reader.old) catalog.old }
    ensures put { (m : View) → IsTrue (R.tells reader.old) → IsDraft (R.home reader.old) (laid draft.old.pages (R.pages reader.old)) m catalog.old → HaveLeaders m → OnOk result (IsDraft (R.home reader.old) (laid draft.new.pages (R.pages reader.old)) (head_made (key, cell.now) m) catalog.new) }
    ensures back { LeadsOn draft.old.undos.items catalog.old draft.new.undos.items catalog.new }
    ensures sized { IsCatalog (R.home reader.old) catalog.new }
    ensures few { map.len draft.new.pages ≤ map.len draft.old.pages + head_pages (key, cell.now) }
    ensures read { HasRead R.ReadOn R.faults R.allowance reader.old reader.new result }
{
    match key {
        Key::Leader(file) => put_leader(alloc, draft, reader, catalog, file, cell),
        Key::PageOf(_, _) => Ok(()),
        Key::OwnerOf(name) => put_owner(draft, reader, catalog, name, cell),
    }
}

// Puts a page, if the cell is one.
fn put_data<R: PageReader>(
    alloc: Global,
    draft: &mut Draft,
    reader: &mut R,
    catalog: &mut Catalog,
    file: FileId,
    number: u32,
    cell: &Cell,
) -> Result<(), VaultFault>
    requires fits { fits_key (PageOf file number) cell.now ≡ true }
    requires sized { IsCatalog (R.home reader.old) catalog.old }
    ensures put { (m : View) → IsTrue (R.tells reader.old) → IsDraft (R.home reader.old) (laid draft.old.pages (R.pages reader.old)) m catalog.old → HasLeader m (PageOf file number) → OnOk result (IsDraft (R.home reader.old) (laid draft.new.pages (R.pages reader.old)) (after (Put (PageOf file number) cell.now ∷ []) m) catalog.new) }
    ensures back { LeadsOn draft.old.undos.items catalog.old draft.new.undos.items catalog.new }
    ensures sized { IsCatalog (R.home reader.old) catalog.new }
    ensures few { map.len draft.new.pages ≤ map.len draft.old.pages + 3 }
    ensures read { HasRead R.ReadOn R.faults R.allowance reader.old reader.new result }
{
    let Cell::Page(page) = cell else {
        return Err(VaultFault::OutOfMemory);
    };
    if number >= PAGES_PER_FILE {
        return Err(VaultFault::OutOfMemory);
    }
    let page = share(page)?;
    put_page(alloc, draft, reader, catalog, file, number, page)
}

/// Puts a page, once the leaders and owners are put.
pub fn put_late<R: PageReader>(
    alloc: Global,
    draft: &mut Draft,
    reader: &mut R,
    catalog: &mut Catalog,
    key: Key,
    cell: &Cell,
) -> Result<(), VaultFault>
    requires fits { fits_key key cell.now ≡ true }
    requires sized { IsCatalog (R.home reader.old) catalog.old }
    ensures put { (m : View) → IsTrue (R.tells reader.old) → IsDraft (R.home reader.old) (laid draft.old.pages (R.pages reader.old)) m catalog.old → HasLeader m key → OnOk result (IsDraft (R.home reader.old) (laid draft.new.pages (R.pages reader.old)) (page_made (key, cell.now) m) catalog.new) }
    ensures back { LeadsOn draft.old.undos.items catalog.old draft.new.undos.items catalog.new }
    ensures sized { IsCatalog (R.home reader.old) catalog.new }
    ensures few { map.len draft.new.pages ≤ map.len draft.old.pages + page_pages (key, cell.now) }
    ensures read { HasRead R.ReadOn R.faults R.allowance reader.old reader.new result }
{
    match key {
        Key::PageOf(file, number) => put_data(alloc, draft, reader, catalog, file, number, cell),
        Key::Leader(_) => Ok(()),
        Key::OwnerOf(_) => Ok(()),
    }
}
