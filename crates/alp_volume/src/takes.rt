//! Taking and freeing places, entries and rows, each so that it can be taken back.
ghost use Rattle.std.specs.Prelude.{◌≡◌, ◌<◌, ◌≤◌, ℕ, IfOk, OnOk, None, Some, true, false, length, slice_index_or};
ghost use Rattle.std.specs.FinMap as map;
ghost use Rattle.alp_tables.specs.declared.file_slot.FileSlot.{FileSlot as ASlot};
ghost use Rattle.alp_volume.specs.Known.{IsCatalog};
ghost use Rattle.alp_volume.specs.Undone.{LeadsOn, with_file, with_owner, with_place, with_row, with_slot, without_file};

use crate::catalog::Catalog;
use crate::undo::Undo;
use alp_base::{FileId, Name, OutOfMemory};
use alp_tables::FileSlot;
use alp_vault::{FILES_PER_SERVER, HEAD_PAGES, OWNERS_PER_SERVER};

impl Catalog {
    /// Takes the lowest place that is free.
    pub fn take_place(&mut self, undos: &mut Vec<Undo>) -> Result<u32, OutOfMemory>
        ensures free { IfOk result (λ p. slice_index_or self.old.places p true ≡ false) }
        ensures lowest { IfOk result (λ p. (q : ℕ) → q < p → slice_index_or self.old.places q true ≡ true) }
        ensures taken { IfOk result (λ p. self.new ≡ with_place p true self.old) }
        ensures back { LeadsOn undos.old.items self.old undos.new.items self.new }
        ensures sized { (home : ℕ) → IsCatalog home self.old → IsCatalog home self.new }
    {
        undos.reserve(1)?;
        let Some(place) = self.places.take() else {
            return Err(OutOfMemory);
        };
        undos.push_reserved(Undo::PlaceTaken { place });
        Ok(place)
    }

    /// Frees a place, if it is one of the volume's that is taken.
    pub fn free_place(&mut self, undos: &mut Vec<Undo>, place: u32) -> Result<(), OutOfMemory>
        ensures freed { HEAD_PAGES ≤ place → place < length self.old.places → OnOk result (self.new ≡ with_place place false self.old) }
        ensures only { self.new ≡ record self.old { places = self.new.places } }
        ensures long { length self.new.places ≡ length self.old.places }
        ensures back { LeadsOn undos.old.items self.old undos.new.items self.new }
        ensures sized { (home : ℕ) → IsCatalog home self.old → IsCatalog home self.new }
    {
        if place < HEAD_PAGES {
            return Ok(());
        }
        if place as usize >= self.places.len() {
            return Ok(());
        }
        if !self.places.is_taken(place) {
            return Ok(());
        }
        undos.reserve(1)?;
        self.places.release(place);
        undos.push_reserved(Undo::PlaceFreed { place });
        Ok(())
    }

    /// Keeps which blocks of a file have an index page.
    pub fn keep_blocks(
        &mut self,
        undos: &mut Vec<Undo>,
        file: FileId,
        blocks: u32,
    ) -> Result<(), OutOfMemory>
        ensures kept { (x : ASlot) → map.get self.old.files file ≡ Some x → OnOk result (self.new ≡ with_file file (record x { blocks = blocks }) self.old) }
        ensures back { LeadsOn undos.old.items self.old undos.new.items self.new }
        ensures sized { (home : ℕ) → IsCatalog home self.old → IsCatalog home self.new }
    {
        let Some(kept) = self.files.get(file) else {
            return Err(OutOfMemory);
        };
        undos.reserve(1)?;
        self.files.put(file, FileSlot { blocks, ..kept });
        undos.push_reserved(Undo::FileKept { file, kept });
        Ok(())
    }

    /// Adds a file whose leader stands there, with the lowest entry that is free.
    pub fn take_entry(
        &mut self,
        undos: &mut Vec<Undo>,
        file: FileId,
        place: u32,
    ) -> Result<u32, OutOfMemory>
        requires new { map.get self.old.files file ≡ None }
        ensures free { IfOk result (λ s. slice_index_or self.old.slots s true ≡ false) }
        ensures lowest { IfOk result (λ s. (q : ℕ) → q < s → slice_index_or self.old.slots q true ≡ true) }
        ensures taken { IfOk result (λ s. self.new ≡ with_slot s true (with_file file (record { slot = s; place = place; blocks = 0 }) self.old)) }
        ensures back { LeadsOn undos.old.items self.old undos.new.items self.new }
        ensures sized { (home : ℕ) → place < home → IsCatalog home self.old → IsCatalog home self.new }
    {
        if self.files.len() >= FILES_PER_SERVER as usize {
            return Err(OutOfMemory);
        }
        undos.reserve(1)?;
        let Some(slot) = self.slots.take() else {
            return Err(OutOfMemory);
        };
        let kept = FileSlot {
            slot,
            place,
            blocks: 0,
        };
        let _ = self.files.add(file, kept);
        undos.push_reserved(Undo::FileCame { file, slot });
        Ok(slot)
    }

    /// Takes a file out, and frees its entry.
    pub fn free_entry(&mut self, undos: &mut Vec<Undo>, file: FileId) -> Result<(), OutOfMemory>
        ensures freed { (x : ASlot) → map.get self.old.files file ≡ Some x → OnOk result (self.new ≡ with_slot x.slot false (without_file file self.old)) }
        ensures back { LeadsOn undos.old.items self.old undos.new.items self.new }
        ensures sized { (home : ℕ) → IsCatalog home self.old → IsCatalog home self.new }
    {
        let Some(kept) = self.files.get(file) else {
            return Err(OutOfMemory);
        };
        if kept.slot as usize >= self.slots.len() {
            return Err(OutOfMemory);
        }
        if !self.slots.is_taken(kept.slot) {
            return Err(OutOfMemory);
        }
        undos.reserve(1)?;
        self.files.remove(file);
        self.slots.release(kept.slot);
        undos.push_reserved(Undo::FileWent { file, kept });
        Ok(())
    }

    /// Adds an owner, with the lowest row that is free.
    pub fn take_row(&mut self, undos: &mut Vec<Undo>, owner: Name) -> Result<u32, OutOfMemory>
        requires new { map.get self.old.owners owner ≡ None }
        ensures free { IfOk result (λ r. slice_index_or self.old.rows r true ≡ false) }
        ensures lowest { IfOk result (λ r. (q : ℕ) → q < r → slice_index_or self.old.rows q true ≡ true) }
        ensures taken { IfOk result (λ r. self.new ≡ with_row r true (with_owner owner r self.old)) }
        ensures back { LeadsOn undos.old.items self.old undos.new.items self.new }
        ensures sized { (home : ℕ) → IsCatalog home self.old → IsCatalog home self.new }
    {
        if self.owners.len() >= OWNERS_PER_SERVER as usize {
            return Err(OutOfMemory);
        }
        undos.reserve(1)?;
        let Some(row) = self.rows.take() else {
            return Err(OutOfMemory);
        };
        let _ = self.owners.add(owner, row);
        undos.push_reserved(Undo::OwnerCame { owner, row });
        Ok(row)
    }
}
