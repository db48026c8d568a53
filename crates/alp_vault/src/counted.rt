//! Cells in memory, with counts that are kept as they change.
ghost use Rattle.std.specs.Prelude.{◌≡◌, ◌+◌, ◌<◌, ℕ, List, [], ◌∷◌, ◌++◌, length, true, false, IfOk, OnOk, OnErr, None};
ghost use Rattle.std.specs.Option.{option_copied as copied};
ghost use Rattle.std.specs.FinMap as map;
ghost use Rattle.alp_files.specs.Cells.{Cells};
ghost use Rattle.alp_files.specs.Counts.{files_at, file_count_of, used_of, blocks_of, block_of};
ghost use Rattle.alp_vault.specs.Counted.{AreCounts, places_with};
ghost use Rattle.alp_vault.specs.Volumes.{has_block_in};

use crate::limits::BLOCKS_PER_FILE;
use alp_base::{BLOCK_PAGES, Cell, FileId, Key, OutOfMemory};
use alp_files::CellMap;
use std::alloc::Global;
use std::marker::Model;

/// Cells, and how many files they are and how many places they take; seen as the map of the cells.
#[derive(Drop)]
pub struct CountedCells {
    cells: CellMap,
    files: u32,
    used: u32,
}

impl Model for CountedCells {
    ghost use Rattle.std.specs.FinMap as map;
    ghost use Rattle.alp_base.specs.Keys.{key_cmp};
    ghost use Rattle.alp_base.specs.declared.cell.Cell.{Cell};
    ghost use Rattle.alp_base.specs.contracts.key.Key as key_type;
    ghost use Rattle.alp_base.specs.contracts.cell.Cell as cell_type;
    ghost use Rattle.alp_vault.specs.Counted.{AreCounts};

    ghost Value = { map.FinMap key_cmp Cell };

    ghost coded = { map.code key_type.the_row.coded cell_type.the_row.coded };

    ghost view = { λ a. a.cells };

    ghost invariant = { λ a. AreCounts a.files a.used a.cells };
}

// Whether the block of the page has a page.
fn has_block(cells: &CellMap, file: FileId, number: u32) -> bool
    ensures { result ≡ map.contains_key (blocks_of (map.entries cells.now)) (block_of file number) }
{
    let first = number - number % BLOCK_PAGES;
    cells.has_page_in(file, first, first + (BLOCK_PAGES - 1))
}

// The files and the places that a new cell at the key adds.
fn adds(cells: &CellMap, key: &Key) -> (u32, u32)
    ensures files { result.0 ≡ files_at key.now }
    ensures places { result.1 ≡ places_with cells.now key.now }
    ensures few { result.1 < 3 }
{
    match key {
        Key::Leader(_) => (1, 1),
        Key::OwnerOf(_) => (0, 0),
        Key::PageOf(file, number) => {
            if has_block(cells, *file, *number) {
                return (0, 1);
            }
            (0, 2)
        }
    }
}

impl CountedCells {
    pub fn new(alloc: Global) -> CountedCells
        ensures { result ≡ map.empty }
    {
        CountedCells {
            cells: CellMap::new(alloc),
            files: 0,
            used: 0,
        }
    }

    pub fn get(&self, key: &Key) -> Option<&Cell>
        ensures { copied result ≡ map.get self.now key.now }
    {
        self.cells.get(key)
    }

    pub fn cells(&self) -> &CellMap
        ensures { result.now ≡ self.now }
    {
        &self.cells
    }

    pub fn used(&self) -> u32
        ensures { result ≡ used_of self.now }
    {
        self.used
    }

    pub fn file_count(&self) -> u32
        ensures { result ≡ file_count_of self.now }
    {
        self.files
    }

    /// Whether a page of the file stands in this block.
    pub fn has_block(&self, file: FileId, block: u32) -> bool
        requires { block < BLOCKS_PER_FILE }
        ensures { result ≡ has_block_in self.now file block }
    {
        has_block(&self.cells, file, BLOCK_PAGES * block)
    }

    // A cell at a key that has none.
    fn put_new(&mut self, key: Key, cell: Cell) -> Result<(), OutOfMemory>
        requires { map.get self.old key ≡ None }
        ensures ok { OnOk result (self.new ≡ map.insert self.old key cell) }
        ensures err { OnErr result (self.new ≡ self.old) }
    {
        let (files, places) = adds(&self.cells, &key);
        let Some(files) = self.files.checked_add(files) else {
            return Err(OutOfMemory);
        };
        let Some(used) = self.used.checked_add(places) else {
            return Err(OutOfMemory);
        };
        self.cells.put(key, cell)?;
        self.files = files;
        self.used = used;
        Ok(())
    }

    /// Puts a cell and gives what stood at the key.
    pub fn put(&mut self, key: Key, cell: Cell) -> Result<Option<Cell>, OutOfMemory>
        ensures ok { OnOk result (self.new ≡ map.insert self.old key cell) }
        ensures old { IfOk result (λ old. old ≡ map.get self.old key) }
        ensures err { OnErr result (self.new ≡ self.old) }
        ensures absent { OnErr result (map.get self.old key ≡ None) }
    {
        if self.cells.get(&key).is_none() {
            self.put_new(key, cell)?;
            return Ok(None);
        }
        let old = self.cells.replace(key, cell)?;
        Ok(old)
    }

    /// Nothing stands at the key from now on.
    pub fn remove(&mut self, key: &Key)
        ensures { self.new ≡ map.remove self.old key.now }
    {
        if self.cells.get(key).is_none() {
            return;
        }
        self.cells.remove(key);
        let (files, places) = adds(&self.cells, key);
        self.files -= files;
        self.used -= places;
    }
}
