//! What memory keeps of a volume.
ghost use Rattle.std.specs.Prelude.{◌≤◌, IfOk};

use alp_base::OutOfMemory;
use alp_tables::{FileTable, Free, OwnerTable};
use alp_vault::{FILES_PER_SERVER, HEAD_PAGES, OWNERS_PER_SERVER};
use std::alloc::Global;

/// The files and owners of a volume, and which of its directory entries, owners' rows and home places are taken.
///
/// Room for all files and owners is taken at start.
#[derive(Drop)]
pub struct Catalog {
    pub files: FileTable,
    pub owners: OwnerTable,
    pub slots: Free,
    pub rows: Free,
    pub places: Free,
}

impl Catalog {
    ghost use Rattle.std.specs.Prelude.{◌≡◌, ◌+◌, ℕ};
    ghost use Rattle.alp_files.specs.Cells.{Cells};
    ghost use Rattle.alp_files.specs.Counts.{used_of};
    ghost use Rattle.alp_pages.specs.Pages.{Pages as PagesOf};
    ghost use Rattle.alp_pages.specs.Volume.{StandFor};
    ghost use Rattle.alp_volume.specs.Known.{IsBlank, IsCatalog, Knows};

    /// That of a volume that holds nothing.
    pub fn new(alloc: Global, home: u32) -> Result<Catalog, OutOfMemory>
        requires { HEAD_PAGES ≤ home }
        ensures { IfOk result (λ c. IsBlank home c) }
    {
        let files = FileTable::new(alloc)?;
        let owners = OwnerTable::new(alloc)?;
        let slots = Free::new(alloc, FILES_PER_SERVER)?;
        let rows = Free::new(alloc, OWNERS_PER_SERVER)?;
        let places = Free::behind(alloc, HEAD_PAGES, home)?;
        Ok(Catalog {
            files,
            owners,
            slots,
            rows,
            places,
        })
    }

    /// How many places the files take.
    pub fn used(&self) -> u32
        requires { (home : ℕ) × IsCatalog home self.now × (HEAD_PAGES ≤ home) }
        ensures used { (home : ℕ) (at : PagesOf) (m : Cells) (stands : StandFor home at m) → Knows home stands.volume self.now → IsCatalog home self.now → HEAD_PAGES ≤ home → result ≡ used_of m }
        ensures room { (home : ℕ) → IsCatalog home self.now → HEAD_PAGES ≤ home → result + HEAD_PAGES ≤ home }
    {
        self.places.taken() - HEAD_PAGES
    }
}
