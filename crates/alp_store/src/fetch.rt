//! Fetching cells.
//!
//! What a disk without told contents gives outside the grammar is no cell.
ghost use Rattle.std.specs.Prelude.{◌≡◌, ℕ, true, IsTrue, IfOk, IfSome};
ghost use Rattle.std.specs.FinMap as map;
ghost use Rattle.alp_base.specs.declared.key.Key.TheVariants as key_of;
ghost use Rattle.alp_vault.specs.Volumes.{fits_key};
ghost use Rattle.alp_wal.specs.Wal.{disk_of};
ghost use Rattle.alp_store.specs.Told.{contents_of};
ghost use Rattle.alp_store.specs.Reads.{HasReadPages};
ghost use Rattle.alp_store.specs.Shelves.{shelf_log, IsShelf};

use crate::shelf::Shelf;
use alp_base::{Cell, FileId, Key, Name, PAGES_PER_FILE, VaultFault};
use alp_disk::Disk;
use alp_pages::{fetch_leader, fetch_owner, fetch_page};
use std::alloc::Global;

impl<D: Disk> Shelf<D> {
    /// The properties of a file.
    fn leader(&mut self, alloc: Global, file: FileId) -> Result<Option<Cell>, VaultFault>
        requires { IsShelf D.Disk self.old }
        ensures cell { IsTrue (D.tells (disk_of (shelf_log self.old))) → IfOk result (λ c. c ≡ map.get (contents_of D.Disk (shelf_log self.old)).cells (key_of.Leader file)) }
        ensures fits { IfOk result (λ c. IfSome c (λ x. fits_key (key_of.Leader file) x ≡ true)) }
        ensures shelf { IsShelf D.Disk self.new }
        ensures read { HasReadPages D.Disk self.old.pages self.new.pages result }
    {
        let Some(kept) = self.catalog.files.get(file) else {
            return Ok(None);
        };
        let Some(props) = fetch_leader(alloc, &mut self.pages, kept.place)? else {
            return Ok(None);
        };
        if props.size > PAGES_PER_FILE {
            return Ok(None);
        }
        Ok(Some(Cell::Leader(props)))
    }

    /// A page of a file.
    fn page_of(
        &mut self,
        alloc: Global,
        file: FileId,
        number: u32,
    ) -> Result<Option<Cell>, VaultFault>
        requires { IsShelf D.Disk self.old }
        ensures cell { IsTrue (D.tells (disk_of (shelf_log self.old))) → IfOk result (λ c. c ≡ map.get (contents_of D.Disk (shelf_log self.old)).cells (key_of.PageOf file number)) }
        ensures fits { IfOk result (λ c. IfSome c (λ x. fits_key (key_of.PageOf file number) x ≡ true)) }
        ensures shelf { IsShelf D.Disk self.new }
        ensures read { HasReadPages D.Disk self.old.pages self.new.pages result }
    {
        if number >= PAGES_PER_FILE {
            return Ok(None);
        }
        let Some(kept) = self.catalog.files.get(file) else {
            return Ok(None);
        };
        let home = self.pages.sizes().home;
        match fetch_page(alloc, &mut self.pages, home, file, kept.place, number)? {
            Some(page) => Ok(Some(Cell::Page(page))),
            None => Ok(None),
        }
    }

    /// The record of an owner.
    fn owner(&mut self, alloc: Global, name: &Name) -> Result<Option<Cell>, VaultFault>
        requires { IsShelf D.Disk self.old }
        ensures cell { IsTrue (D.tells (disk_of (shelf_log self.old))) → IfOk result (λ c. c ≡ map.get (contents_of D.Disk (shelf_log self.old)).cells (key_of.OwnerOf name.now)) }
        ensures fits { IfOk result (λ c. IfSome c (λ x. fits_key (key_of.OwnerOf name.now) x ≡ true)) }
        ensures shelf { IsShelf D.Disk self.new }
        ensures read { HasReadPages D.Disk self.old.pages self.new.pages result }
    {
        let Some(row) = self.catalog.owners.get(name) else {
            return Ok(None);
        };
        let Some(record) = fetch_owner(alloc, &mut self.pages, row)? else {
            return Ok(None);
        };
        if record.name != *name {
            return Ok(None);
        }
        Ok(Some(Cell::Owner(record)))
    }

    /// The cell at the key.
    pub(super) fn fetch(&mut self, alloc: Global, key: &Key) -> Result<Option<Cell>, VaultFault>
        requires { IsShelf D.Disk self.old }
        ensures cell { IsTrue (D.tells (disk_of (shelf_log self.old))) → IfOk result (λ c. c ≡ map.get (contents_of D.Disk (shelf_log self.old)).cells key.now) }
        ensures fits { IfOk result (λ c. IfSome c (λ x. fits_key key.now x ≡ true)) }
        ensures shelf { IsShelf D.Disk self.new }
        ensures read { HasReadPages D.Disk self.old.pages self.new.pages result }
    {
        match key {
            Key::Leader(file) => self.leader(alloc, *file),
            Key::PageOf(file, number) => self.page_of(alloc, *file, *number),
            Key::OwnerOf(name) => self.owner(alloc, name),
        }
    }
}
