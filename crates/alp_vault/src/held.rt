//! Cells, owners' names and notes in memory.
ghost use Rattle.std.specs.Prelude.{◌≡◌, ◌+◌, ◌<◌, ◌≤◌, ◌^◌, length, OnOk, OnErr, IfOk};
ghost use Rattle.std.specs.FinMap as map;
ghost use Rattle.alp_files.specs.Counts.{owner_names_of};
ghost use Rattle.alp_files.specs.Files.{AreFiles};
ghost use Rattle.alp_vault.specs.Contents.{made};

use crate::apply::apply;
use crate::counted::CountedCells;
use crate::owners::add_owners;
use alp_base::{Change, Name, NoteChange, OutOfMemory};
use alp_notes::Notes;
use std::alloc::Global;

/// What a vault in memory holds: its cells, its owners' names, and its notes.
#[derive(Drop)]
pub struct Held {
    pub cells: CountedCells,
    pub owners: Vec<Name>,
    pub notes: Notes,
    ghost named: { owners.items ≡ owner_names_of cells },
    ghost few: { length owners.items < 2 ^ 32 },
}

impl Held {
    ghost use Rattle.alp_vault.specs.HeldWords.{contents_of};

    pub fn new(alloc: Global) -> Held
        ensures { contents_of result ≡ record { cells = map.empty; notes = map.empty } }
    {
        Held {
            cells: CountedCells::new(alloc),
            owners: Vec::new(alloc),
            notes: Notes::new(alloc),
        }
    }

    // Room for the names and notes that a commit may add, and a copy of the changes of notes.
    fn make_room(
        &mut self,
        alloc: Global,
        puts: usize,
        notes: &[NoteChange],
    ) -> Result<Vec<NoteChange>, OutOfMemory>
        ensures copied { IfOk result (λ copies. copies.items ≡ notes.now) }
        ensures same { contents_of self.new ≡ contents_of self.old }
        ensures owners { OnOk result (length self.new.owners.items + puts ≤ self.new.owners.cap) }
        ensures few { OnOk result (length self.new.owners.items + puts < 2 ^ 32) }
        ensures notes { OnOk result (length notes.now ≤ self.new.notes.room) }
    {
        let Some(after) = self.owners.len().checked_add(puts) else {
            return Err(OutOfMemory);
        };
        if after > u32::MAX as usize {
            return Err(OutOfMemory);
        }
        self.owners.reserve(puts)?;
        self.notes.make_room(alloc, notes)
    }

    /// Makes the change of the cells and then those of the notes, or nothing where there is no memory for all.
    pub fn make(
        &mut self,
        alloc: Global,
        change: &Change,
        notes: &[NoteChange],
    ) -> Result<(), OutOfMemory>
        requires { AreFiles (map.get self.old.cells) }
        ensures ok { OnOk result (contents_of self.new ≡ made change.now notes.now (contents_of self.old)) }
        ensures err { OnErr result (contents_of self.new ≡ contents_of self.old) }
    {
        let puts = change.puts.as_slice();
        let copies = self.make_room(alloc, puts.len(), notes)?;
        apply(&mut self.cells, alloc, change)?;
        add_owners(&mut self.owners, puts);
        self.notes.apply(copies);
        Ok(())
    }
}
