//! The files of a volume in memory, in the order of their ids.
ghost use Rattle.std.specs.Prelude.{◌≡◌, ◌<◌, ◌≤◌, IfOk, IsTrue, true, false, not, is_some, IsSome};
ghost use Rattle.std.specs.FinMap as map;

use crate::file_slot::FileSlot;
use crate::table::find;
use alp_base::{FileId, OutOfMemory};
use alp_vault::FILES_PER_SERVER;
use std::alloc::Global;
use std::marker::Model;

/// Files by their ids, in order, with room for all that a volume may have; seen as a finite map.
#[derive(Drop)]
pub struct FileTable {
    ids: Vec<FileId>,
    slots: Vec<FileSlot>,
}

impl Model for FileTable {
    ghost use Rattle.std.specs.FinMap as map;
    ghost use Rattle.alp_base.specs.KeyLaws.{file_cmp};
    ghost use Rattle.alp_base.specs.contracts.ids.FileId as file_type;
    ghost use Rattle.alp_tables.specs.contracts.file_slot.FileSlot as slot_type;
    ghost use Rattle.alp_tables.specs.declared.file_slot.FileSlot.{FileSlot as ASlot};
    ghost use Rattle.alp_tables.specs.Tables.{rows_in, IsTable};

    ghost Value = { map.FinMap file_cmp ASlot };

    ghost coded = { map.code file_type.the_row.coded slot_type.the_row.coded };

    ghost view = { λ f. rows_in file_cmp f.ids.items f.slots.items };

    ghost invariant = { λ f. IsTable file_cmp 4096 f.ids.items f.slots.items f.ids.cap f.slots.cap };
}

impl FileTable {
    /// No file yet.
    pub fn new(alloc: Global) -> Result<FileTable, OutOfMemory>
        ensures { IfOk result (λ t. t ≡ map.empty) }
    {
        let ids = Vec::with_capacity(alloc, FILES_PER_SERVER as usize)?;
        let slots = Vec::with_capacity(alloc, FILES_PER_SERVER as usize)?;
        Ok(FileTable { ids, slots })
    }

    /// How many files there are.
    pub fn len(&self) -> usize
        ensures count { result ≡ map.len self.now }
        ensures few { result ≤ FILES_PER_SERVER }
    {
        self.ids.len()
    }

    /// What is kept of the file, if the volume has it.
    pub fn get(&self, file: FileId) -> Option<FileSlot>
        ensures { result ≡ map.get self.now file }
    {
        match find(self.ids.as_slice(), &file) {
            Ok(at) => Some(self.slots[at]),
            Err(_) => None,
        }
    }

    /// Adds a file, unless it is there. It takes no memory.
    pub fn add(&mut self, file: FileId, slot: FileSlot) -> bool
        requires { map.len self.old < FILES_PER_SERVER }
        ensures new { result ≡ not (is_some (map.get self.old file)) }
        ensures added { result ≡ true → self.new ≡ map.insert self.old file slot }
        ensures same { result ≡ false → self.new ≡ self.old }
    {
        match find(self.ids.as_slice(), &file) {
            Ok(_) => false,
            Err(at) => {
                let _ = self.ids.insert(at, file);
                let _ = self.slots.insert(at, slot);
                true
            }
        }
    }

    /// Puts what is kept of a file that is there.
    pub fn put(&mut self, file: FileId, slot: FileSlot)
        requires { IsSome (map.get self.old file) }
        ensures { self.new ≡ map.insert self.old file slot }
    {
        match find(self.ids.as_slice(), &file) {
            Ok(at) => self.slots[at] = slot,
            Err(_) => {}
        }
    }

    /// Takes the file out, if it is there.
    pub fn remove(&mut self, file: FileId)
        ensures gone { self.new ≡ map.remove self.old file }
        ensures few { IsSome (map.get self.old file) → map.len self.new < FILES_PER_SERVER }
    {
        match find(self.ids.as_slice(), &file) {
            Ok(at) => {
                self.ids.remove(at);
                self.slots.remove(at);
            }
            Err(_) => {}
        }
    }

    /// The ids, in order.
    pub fn ids(&self) -> &[FileId]
        ensures { result.now ≡ map.keys self.now }
    {
        self.ids.as_slice()
    }
}
