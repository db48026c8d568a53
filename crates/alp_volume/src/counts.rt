//! What the cells of a volume count, from what memory keeps.
ghost use Rattle.std.specs.Prelude.{◌≡◌, ◌<◌, ℕ};
ghost use Rattle.alp_files.specs.Cells.{Cells};
ghost use Rattle.alp_files.specs.Counts.{file_count_of, owner_count_of, owner_names_of};
ghost use Rattle.alp_vault.specs.Volumes.{has_block_in};
ghost use Rattle.alp_pages.specs.Pages.{Pages as PagesOf};
ghost use Rattle.alp_pages.specs.Volume.{StandFor};
ghost use Rattle.alp_volume.specs.Known.{Knows};

use crate::catalog::Catalog;
use alp_base::{FileId, Name};
use alp_vault::BLOCKS_PER_FILE;

impl Catalog {
    /// How many files there are.
    pub fn file_count(&self) -> u32
        ensures { (home : ℕ) (at : PagesOf) (m : Cells) (stands : StandFor home at m) → Knows home stands.volume self.now → result ≡ file_count_of m }
    {
        self.files.len() as u32
    }

    /// How many owners there are.
    pub fn owner_count(&self) -> u32
        ensures { (home : ℕ) (at : PagesOf) (m : Cells) (stands : StandFor home at m) → Knows home stands.volume self.now → result ≡ owner_count_of m }
    {
        self.owners.len() as u32
    }

    /// The owners' names, in rising order of their bytes.
    pub fn owner_names(&self) -> &[Name]
        ensures { (home : ℕ) (at : PagesOf) (m : Cells) (stands : StandFor home at m) → Knows home stands.volume self.now → result.now ≡ owner_names_of m }
    {
        self.owners.names()
    }

    /// Whether a page of the file stands in this block. No page is read.
    pub fn has_block(&self, file: FileId, block: u32) -> bool
        requires { block < BLOCKS_PER_FILE }
        ensures { (home : ℕ) (at : PagesOf) (m : Cells) (stands : StandFor home at m) → Knows home stands.volume self.now → result ≡ has_block_in m file block }
    {
        let Some(kept) = self.files.get(file) else {
            return false;
        };
        (kept.blocks >> block) & 1 == 1
    }
}
