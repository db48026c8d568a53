//! What is counted of a part.
ghost use Rattle.std.specs.Prelude.{◌≡◌, ◌<◌, ◌≤◌};
ghost use Rattle.alp_files.specs.Counts.{places_at, files_at};
ghost use Rattle.alp_trans.specs.Counting.{no_counts, counts_with, with_cell as with_cell_said, owners_at, exchanged, AreFew};

use alp_base::Key;

/// The cells that a part changes, the places that it needs on the volume, and the files and the owners that it makes.
#[derive(Clone, Copy)]
pub struct Counts {
    pub cells: u32,
    pub places: u32,
    pub files: u32,
    pub owners: u32,
}

/// What a part sees at a key where it puts a cell.
#[derive(Clone, Copy)]
pub enum Sight {
    /// A cell that it put there before.
    Put,
    /// A cell that is there besides.
    Stands,
    /// No cell, where the key is a page's and its block has no page.
    First,
    /// No cell, where one stood that goes.
    Again,
    /// No cell otherwise.
    Beside,
}

// The places, files and owners that a new cell at the key is.
fn adds(key: &Key) -> (u32, u32, u32)
    ensures places { result.0 ≡ places_at key.now }
    ensures files { result.1 ≡ files_at key.now }
    ensures owners { result.2 ≡ owners_at key.now }
    ensures few { (result.0 ≤ 1) × (result.1 ≤ 1) × (result.2 ≤ 1) }
{
    match key {
        Key::Leader(_) => (1, 1, 0),
        Key::PageOf(_, _) => (1, 0, 0),
        Key::OwnerOf(_) => (0, 0, 1),
    }
}

impl Counts {
    /// Of a part that did nothing.
    pub fn none() -> Counts
        ensures { result ≡ no_counts }
    {
        Counts {
            cells: 0,
            places: 0,
            files: 0,
            owners: 0,
        }
    }

    /// Of so many cells that are nothing besides.
    pub fn of_cells(cells: u32) -> Counts
        ensures { result ≡ record no_counts { cells = cells } }
    {
        Counts {
            cells,
            places: 0,
            files: 0,
            owners: 0,
        }
    }

    /// Those of the part with one put more.
    pub fn with(self, key: &Key, sight: Sight) -> Counts
        requires few { AreFew self }
        requires room { self.cells < 65536 }
        ensures { result ≡ counts_with self key.now sight }
    {
        let (places, files, owners) = adds(key);
        match sight {
            Sight::Put => self,
            Sight::Stands => self.with_cell(0, 0, 0),
            Sight::First => self.with_cell(places + 1, files, owners),
            Sight::Again => self.with_cell(places, 0, 0),
            Sight::Beside => self.with_cell(places, files, owners),
        }
    }

    // Those with a cell more, which takes so many places, and is so many files and owners.
    fn with_cell(self, places: u32, files: u32, owners: u32) -> Counts
        requires few { AreFew self }
        requires room { self.cells < 65536 }
        requires places { places ≤ 2 }
        requires files { files ≤ 1 }
        requires owners { owners ≤ 1 }
        ensures { result ≡ with_cell_said self places files owners }
    {
        Counts {
            cells: self.cells + 1,
            places: self.places + places,
            files: self.files + files,
            owners: self.owners + owners,
        }
    }

    /// Those with what a file comes to now in place of what it came to before.
    pub fn exchange(self, before: Counts, now: Counts) -> Counts
        requires few { AreFew self }
        requires now { AreFew now }
        requires part { before.cells ≤ self.cells }
        requires room { self.cells < 65536 }
        requires fits { now.cells < 65536 }
        ensures { result ≡ exchanged self before now }
    {
        let cells = self.cells - before.cells + now.cells;
        let places = self.places.saturating_sub(before.places) + now.places;
        let files = self.files.saturating_sub(before.files) + now.files;
        let owners = self.owners.saturating_sub(before.owners) + now.owners;
        Counts {
            cells,
            places: places.min(2 * cells),
            files: files.min(cells),
            owners: owners.min(cells),
        }
    }
}
