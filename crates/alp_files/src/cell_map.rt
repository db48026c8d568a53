//! A map of cells by their keys.
ghost use Rattle.std.specs.Prelude.{◌≡◌, ℕ, ◌<◌, ◌≤◌, List, [], ◌∷◌, ◌++◌, length, filter, true, false, not, IfOk, OnOk, OnErr, Some, None, IsSome, IfSome, IfNone, map as list_map};
ghost use Rattle.std.specs.List.{filter_map, IsDistinct};
ghost use Rattle.std.specs.Ordering.{eq_by_cmp};
ghost use Rattle.std.specs.BTreeMap.{values, get, IsOrdered};
ghost use Rattle.std.specs.BTreeMap.Range.{IsLeBy};
ghost use Rattle.alp_base.specs.declared.key.Key.{Key as AKey};
ghost use Rattle.alp_base.specs.declared.key.Key.TheVariants.{PageOf};
ghost use Rattle.alp_base.specs.Keys.{key_cmp};
ghost use Rattle.alp_base.specs.declared.cell.Cell.{Cell as ACell};
ghost use Rattle.alp_files.specs.Undo.{puts_of, LedBy};
ghost use Rattle.alp_files.specs.Cells.{Cells, View, size_in, sizes_of, owner_in, owners_of};
ghost use Rattle.alp_files.specs.Edits.{over, edits_map, is_in_file as is_in_file_said, is_past as is_past_said};
ghost use Rattle.alp_files.specs.Counts.{APageStands, page_up_to};
ghost use Rattle.std.specs.FinMap as map;
ghost use Rattle.std.specs.Option.{option_copied as copied};

use alp_base::{Cell, FileId, Key, OutOfMemory, OwnerRecord};
use std::alloc::Global;
use std::collections::BTreeMap;
use std::marker::Model;

/// Cells by their keys, in key order; seen as a finite map.
#[derive(Drop)]
pub struct CellMap {
    cells: BTreeMap<Key, Cell>,
}

impl Model for CellMap {
    ghost use Rattle.std.specs.FinMap as map;
    ghost use Rattle.alp_base.specs.Keys.{key_cmp};
    ghost use Rattle.alp_base.specs.declared.cell.Cell.{Cell};
    ghost use Rattle.alp_base.specs.contracts.key.Key as key_type;
    ghost use Rattle.alp_base.specs.contracts.cell.Cell as cell_type;

    ghost Value = { map.FinMap key_cmp Cell };

    ghost coded = { map.code key_type.the_row.coded cell_type.the_row.coded };

    ghost view = { λ f. map.from_entries f.cells.entries };
}

impl CellMap {
    pub fn new(alloc: Global) -> CellMap
        ensures { result ≡ map.empty }
    {
        CellMap {
            cells: BTreeMap::new(alloc),
        }
    }

    pub fn get(&self, key: &Key) -> Option<&Cell>
        ensures { copied result ≡ map.get self.now key.now }
    {
        self.cells.get(key)
    }

    /// The cell stands at the key from now on.
    pub fn put(&mut self, key: Key, cell: Cell) -> Result<(), OutOfMemory>
        ensures ok { OnOk result (self.new ≡ map.insert self.old key cell) }
        ensures err { OnErr result (self.new ≡ self.old) }
    {
        self.cells.insert(key, cell)?;
        Ok(())
    }

    /// Puts a cell and gives what stood at the key.
    pub fn replace(&mut self, key: Key, cell: Cell) -> Result<Option<Cell>, OutOfMemory>
        ensures ok { OnOk result (self.new ≡ map.insert self.old key cell) }
        ensures old { IfOk result (λ old. old ≡ map.get self.old key) }
        ensures err { OnErr result (self.new ≡ self.old) }
        ensures absent { OnErr result (map.get self.old key ≡ None) }
    {
        let old = self.cells.insert(key, cell)?;
        Ok(old)
    }

    /// Nothing stands at the key from now on.
    pub fn remove(&mut self, key: &Key)
        ensures { self.new ≡ map.remove self.old key.now }
    {
        self.cells.remove(key);
    }

    /// Nothing of the file stands from now on.
    pub fn remove_file(&mut self, file: FileId)
        ensures { self.new ≡ map.retain_keys self.old (λ k. not (is_in_file_said file k)) }
    {
        self.cells.retain(|key, _| !is_in_file(key, file));
    }

    /// No page of the file from this number on stands from now on.
    pub fn remove_pages(&mut self, file: FileId, first: u32)
        ensures { self.new ≡ map.retain_keys self.old (λ k. not (is_past_said file first k)) }
    {
        self.cells.retain(|key, _| !is_past(key, file, first));
    }

    /// Whether a page of the file stands at a number from `first` to `last`.
    pub fn has_page_in(&self, file: FileId, first: u32, last: u32) -> bool
        ensures page { result ≡ true → APageStands self.now file first last }
        ensures none { result ≡ false → (n : ℕ) → first ≤ n → n ≤ last → map.get self.now (PageOf file n) ≡ None }
    {
        let found = first_from(&self.cells, Key::PageOf(file, first));
        is_page_up_to(found, file, last)
    }

    // Puts a cell and notes what stood at its key.
    fn put_noted(
        &mut self,
        before: &mut Vec<(Key, Option<Cell>)>,
        key: &Key,
        cell: Cell,
    ) -> Result<(), OutOfMemory>
        requires { length before.old.items < before.old.cap }
        ensures ok { OnOk result (self.new ≡ map.insert self.old key.now cell) }
        ensures noted { OnOk result (before.new.items ≡ before.old.items ++ (key.now, map.get self.old key.now) ∷ []) }
        ensures err { OnErr result ((self.new ≡ self.old) × (before.new ≡ before.old)) }
        ensures room { before.new.cap ≡ before.old.cap }
    {
        let old = self.replace(*key, cell)?;
        before.push_reserved((*key, old));
        Ok(())
    }

    // What stood at the key stands there again.
    fn restore(&mut self, key: Key, old: Option<Cell>)
        ensures { (m : Cells) → (cell : ACell) → old ≡ map.get m key → self.old ≡ map.insert m key cell → self.new ≡ m }
    {
        match old {
            Some(cell) => {
                let _ = self.replace(key, cell);
            }
            None => {
                self.cells.remove(&key);
            }
        }
    }

    // Takes puts back, the last one first.
    fn take_back(&mut self, mut before: Vec<(Key, Option<Cell>)>)
        ensures { (m : Cells) → LedBy m before.items self.old → self.new ≡ m }
    {
        while let Some((key, old)) = before.pop() {
            self.restore(key, old);
        }
    }

    /// Puts all the cells, one after the other, or none where there is no memory for all.
    pub fn put_all(&mut self, alloc: Global, puts: Vec<(Key, Cell)>) -> Result<(), OutOfMemory>
        ensures ok { OnOk result (self.new ≡ edits_map (puts_of puts.items) self.old) }
        ensures err { OnErr result (self.new ≡ self.old) }
    {
        let mut before = Vec::with_capacity(alloc, puts.len())?;
        for (key, cell) in puts {
            if self.put_noted(&mut before, &key, cell).is_err() {
                self.take_back(before);
                return Err(OutOfMemory);
            }
        }
        Ok(())
    }

    /// The cells and their keys, in key order. Pages are shared.
    pub fn copies(&self, alloc: Global) -> Result<Vec<(Key, Cell)>, OutOfMemory>
        ensures over { IfOk result (λ v. (m : Cells) → map.get (edits_map (puts_of v.items) m) ≡ over self.now (map.get m)) }
        ensures once { IfOk result (λ v. IsDistinct (eq_by_cmp key_cmp) (list_map (λ e. e.0) v.items)) }
        ensures entries { IfOk result (λ v. v.items ≡ map.entries self.now) }
    {
        let copies = copies_in(alloc, &self.cells)?;
        Ok(copies)
    }

    /// Those of one file.
    pub fn copies_of(&self, alloc: Global, file: FileId) -> Result<Vec<(Key, Cell)>, OutOfMemory>
        ensures { IfOk result (λ v. v.items ≡ filter (λ e. is_in_file_said file e.0) (map.entries self.now)) }
    {
        let copies = copies_of(alloc, &self.cells, file)?;
        Ok(copies)
    }

    /// The sizes of the files, in pages.
    pub fn sizes(&self, alloc: Global) -> Result<Vec<u32>, OutOfMemory>
        ensures { IfOk result (λ v. v.items ≡ sizes_of self.now) }
    {
        let sizes = sizes_in(alloc, &self.cells)?;
        Ok(sizes)
    }

    /// The owners' records, by name.
    pub fn owners(&self, alloc: Global) -> Result<Vec<OwnerRecord>, OutOfMemory>
        ensures { IfOk result (λ v. v.items ≡ owners_of self.now) }
    {
        let owners = owners_in(alloc, &self.cells)?;
        Ok(owners)
    }
}

/// Whether the key is the leader or a page of the file.
pub fn is_in_file(key: &Key, file: FileId) -> bool
    ensures { result ≡ is_in_file_said file key.now }
{
    match key {
        Key::Leader(other) => file == *other,
        Key::PageOf(other, _) => file == *other,
        Key::OwnerOf(_) => false,
    }
}

/// Whether the key is a page of the file from this number on.
pub fn is_past(key: &Key, file: FileId, first: u32) -> bool
    ensures { result ≡ is_past_said file first key.now }
{
    match key {
        Key::PageOf(other, number) => file == *other && first <= *number,
        _ => false,
    }
}

// Whether that is a page of the file with at most this number.
fn is_page_up_to(found: Option<Key>, file: FileId, last: u32) -> bool
    ensures { result ≡ page_up_to found file last }
{
    match found {
        Some(Key::PageOf(other, number)) => file == other && number <= last,
        _ => false,
    }
}

// The least key from this one on.
fn first_from(cells: &BTreeMap<Key, Cell>, key: Key) -> Option<Key>
    ensures found { IfSome result (λ k. IsLeBy key_cmp key k × IsSome (get key_cmp cells.now k)) }
    ensures least { IfSome result (λ k. (q : AKey) → IsLeBy key_cmp key q → IsSome (get key_cmp cells.now q) → IsLeBy key_cmp k q) }
    ensures none { IfNone result ((q : AKey) → IsLeBy key_cmp key q → get key_cmp cells.now q ≡ None) }
{
    match cells.range(key..).next() {
        Some((found, _)) => Some(*found),
        None => None,
    }
}

fn copies_in(alloc: Global, cells: &BTreeMap<Key, Cell>) -> Result<Vec<(Key, Cell)>, OutOfMemory>
    ensures copies { IfOk result (λ v. v.items ≡ cells.now.entries) }
    ensures rising { IsOrdered key_cmp cells.now }
{
    let mut copies = Vec::new(alloc);
    for (key, cell) in cells.iter() {
        copies.push((*key, cell.clone()?))?;
    }
    Ok(copies)
}

fn copies_of(
    alloc: Global,
    cells: &BTreeMap<Key, Cell>,
    file: FileId,
) -> Result<Vec<(Key, Cell)>, OutOfMemory>
    ensures copies { IfOk result (λ v. v.items ≡ filter (λ e. is_in_file_said file e.0) cells.now.entries) }
    ensures rising { IsOrdered key_cmp cells.now }
{
    let mut copies = Vec::new(alloc);
    for (key, cell) in cells.iter() {
        if is_in_file(key, file) {
            copies.push((*key, cell.clone()?))?;
        }
    }
    Ok(copies)
}

fn size_of(cell: &Cell) -> Option<u32>
    ensures { result ≡ size_in cell.now }
{
    match cell {
        Cell::Leader(props) => Some(props.size),
        _ => None,
    }
}

fn owner_of(cell: &Cell) -> Option<&OwnerRecord>
    ensures { copied result ≡ owner_in (Some cell.now) }
{
    match cell {
        Cell::Owner(record) => Some(record),
        _ => None,
    }
}

fn sizes_in(alloc: Global, cells: &BTreeMap<Key, Cell>) -> Result<Vec<u32>, OutOfMemory>
    ensures sizes { IfOk result (λ v. v.items ≡ filter_map size_in (values cells.now)) }
    ensures rising { IsOrdered key_cmp cells.now }
{
    let mut sizes = Vec::new(alloc);
    for cell in cells.values() {
        if let Some(size) = size_of(cell) {
            sizes.push(size)?;
        }
    }
    Ok(sizes)
}

fn owners_in(alloc: Global, cells: &BTreeMap<Key, Cell>) -> Result<Vec<OwnerRecord>, OutOfMemory>
    ensures owners { IfOk result (λ v. v.items ≡ filter_map (λ c. owner_in (Some c)) (values cells.now)) }
    ensures rising { IsOrdered key_cmp cells.now }
{
    let mut owners = Vec::new(alloc);
    for cell in cells.values() {
        if let Some(record) = owner_of(cell) {
            owners.push(record.clone()?)?;
        }
    }
    Ok(owners)
}
