//! A volume that is open: its pages, and what memory keeps of them.
ghost use Rattle.std.specs.Prelude.{◌≡◌, ◌+◌, ◌≤◌, ◌<◌, IsTrue};
ghost use Rattle.alp_files.specs.Counts.{used_of, file_count_of, owner_count_of, owner_names_of};
ghost use Rattle.alp_vault.specs.Volumes.{has_block_in};
ghost use Rattle.alp_wal.specs.Wal.{disk_of, anchor_of};

use crate::home_pages::HomePages;
use alp_base::{FileId, Name};
use alp_disk::Disk;
use alp_vault::{BLOCKS_PER_FILE, HEAD_PAGES};
use alp_volume::Catalog;

/// The pages of a volume, and what memory keeps of it.
#[derive(Drop)]
pub struct Shelf<D: Disk> {
    pub(super) pages: HomePages<D>,
    pub(super) catalog: Catalog,
}

impl<D: Disk> Shelf<D> {
    ghost use Rattle.alp_store.specs.Told.{contents_of};
    ghost use Rattle.alp_store.specs.Shelves.{shelf_log, IsShelf};

    /// How many places the cells take.
    pub(super) fn used(&self) -> u32
        requires { IsShelf D.Disk self.now }
        ensures places { IsTrue (D.tells (disk_of (shelf_log self.now))) → result ≡ used_of (contents_of D.Disk (shelf_log self.now)).cells }
        ensures room { result + HEAD_PAGES ≤ (anchor_of (shelf_log self.now)).sizes.home }
    {
        self.catalog.used()
    }

    pub(super) fn file_count(&self) -> u32
        requires { IsShelf D.Disk self.now }
        ensures { IsTrue (D.tells (disk_of (shelf_log self.now))) → result ≡ file_count_of (contents_of D.Disk (shelf_log self.now)).cells }
    {
        self.catalog.file_count()
    }

    pub(super) fn owner_count(&self) -> u32
        requires { IsShelf D.Disk self.now }
        ensures { IsTrue (D.tells (disk_of (shelf_log self.now))) → result ≡ owner_count_of (contents_of D.Disk (shelf_log self.now)).cells }
    {
        self.catalog.owner_count()
    }

    /// The owners' names, in rising order of their bytes.
    pub(super) fn owners(&self) -> &[Name]
        requires { IsShelf D.Disk self.now }
        ensures { IsTrue (D.tells (disk_of (shelf_log self.now))) → result.now ≡ owner_names_of (contents_of D.Disk (shelf_log self.now)).cells }
    {
        self.catalog.owner_names()
    }

    /// Whether the file has a page in the block.
    pub(super) fn has_block(&self, file: FileId, block: u32) -> bool
        requires shelf { IsShelf D.Disk self.now }
        requires within { block < BLOCKS_PER_FILE }
        ensures { IsTrue (D.tells (disk_of (shelf_log self.now))) → result ≡ has_block_in (contents_of D.Disk (shelf_log self.now)).cells file block }
    {
        self.catalog.has_block(file, block)
    }
}
