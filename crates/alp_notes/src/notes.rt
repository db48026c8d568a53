//! The notes themselves.
ghost use Rattle.std.specs.Prelude.{◌≡◌, ◌≤◌, length, IfOk, OnOk};
ghost use Rattle.std.specs.FinMap as map;
ghost use Rattle.std.specs.Option.{option_copied as copied};
ghost use Rattle.alp_base.specs.Notes.{notes_after};

use crate::rows::{change_notes, note_at};
use alp_base::{Bytes, NoteChange, OutOfMemory};
use std::alloc::Global;
use std::marker::Model;

/// Values by rising name; seen as the map of them, and for how many more there is room.
#[derive(Drop)]
pub struct Notes {
    names: Vec<Bytes>,
    values: Vec<Bytes>,
}

impl Model for Notes {
    ghost use Rattle.alp_notes.specs.Held.{Held, held_code};

    ghost Value = { Held };

    ghost coded = { held_code };

    ghost use Rattle.alp_notes.specs.Inside.{shown, IsWhole};

    ghost view = { shown };

    ghost invariant = { IsWhole };
}

impl Notes {
    pub fn new(alloc: Global) -> Notes
        ensures { result.notes ≡ map.empty }
    {
        Notes {
            names: Vec::new(alloc),
            values: Vec::new(alloc),
        }
    }

    /// The names, rising.
    pub fn names(&self) -> &[Bytes]
        ensures { result.now ≡ map.keys self.now.notes }
    {
        self.names.as_slice()
    }

    /// The values, in the order of their names.
    pub fn values(&self) -> &[Bytes]
        ensures { result.now ≡ map.values self.now.notes }
    {
        self.values.as_slice()
    }

    /// How many there are.
    pub fn len(&self) -> usize
        ensures { result ≡ map.len self.now.notes }
    {
        self.names.len()
    }

    /// The value of a name. A search takes the logarithm of the number of names.
    pub fn value(&self, name: &Bytes) -> Option<&Bytes>
        ensures { copied result ≡ map.get self.now.notes name.now }
    {
        note_at(self.names.as_slice(), self.values.as_slice(), name)
    }

    /// Changes them in turn, and takes no memory.
    pub fn apply(&mut self, changes: Vec<NoteChange>)
        requires { length changes.items ≤ self.old.room }
        ensures { self.new.notes ≡ notes_after changes.items self.old.notes }
    {
        change_notes(&mut self.names, &mut self.values, changes);
    }

    /// Makes room for the changes, and gives a copy of them to apply. The notes stay.
    pub fn make_room(
        &mut self,
        alloc: Global,
        changes: &[NoteChange],
    ) -> Result<Vec<NoteChange>, OutOfMemory>
        ensures copied { IfOk result (λ copies. copies.items ≡ changes.now) }
        ensures room { OnOk result (length changes.now ≤ self.new.room) }
        ensures same { self.new.notes ≡ self.old.notes }
    {
        let copies = copies_of(alloc, changes)?;
        self.names.reserve(changes.len())?;
        self.values.reserve(changes.len())?;
        Ok(copies)
    }
}

/// A copy of the changes.
pub fn copies_of(alloc: Global, changes: &[NoteChange]) -> Result<Vec<NoteChange>, OutOfMemory>
    ensures { IfOk result (λ copies. copies.items ≡ changes.now) }
{
    let mut copies = Vec::new(alloc);
    for next in changes {
        copies.push(next.clone()?)?;
    }
    Ok(copies)
}
