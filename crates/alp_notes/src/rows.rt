//! Names in rising order, and beside each its value.
ghost use Rattle.std.specs.Prelude.{◌≡◌, ◌+◌, ◌<◌, ◌≤◌, length};
ghost use Rattle.alp_notes.specs.Rows.{IsAt, IsPlace, AreRows, notes_in};
ghost use Rattle.alp_base.specs.Notes.{noted, notes_after};
ghost use Rattle.std.specs.FinMap as map;
ghost use Rattle.std.specs.Option.{option_copied as copied};

use crate::place::find;
use alp_base::{Bytes, NoteChange};

// The note of that name ends.
fn end_note(names: &mut Vec<Bytes>, values: &mut Vec<Bytes>, at: usize, name: &Bytes)
    requires rows { AreRows names.old.items values.old.items }
    requires at { IsAt name.now names.old.items at }
    ensures rows { AreRows names.new.items values.new.items }
    ensures ended { notes_in names.new.items values.new.items ≡ map.remove (notes_in names.old.items values.old.items) name.now }
    ensures fewer { length names.new.items ≤ length names.old.items }
    ensures room { (names.new.cap ≡ names.old.cap) × (values.new.cap ≡ values.old.cap) }
{
    names.remove(at);
    values.remove(at);
}

// The note of that name gets another value.
fn set_note(names: &[Bytes], values: &mut Vec<Bytes>, at: usize, name: &Bytes, value: Bytes)
    requires rows { AreRows names.now values.old.items }
    requires at { IsAt name.now names.now at }
    ensures rows { AreRows names.now values.new.items }
    ensures set { notes_in names.now values.new.items ≡ map.insert (notes_in names.now values.old.items) name.now value }
    ensures room { values.new.cap ≡ values.old.cap }
{
    values[at] = value;
}

// A note begins.
fn begin_note(names: &mut Vec<Bytes>, values: &mut Vec<Bytes>, at: usize, name: Bytes, value: Bytes)
    requires rows { AreRows names.old.items values.old.items }
    requires at { IsPlace name names.old.items at }
    requires room { (length names.old.items < names.old.cap) × (length values.old.items < values.old.cap) }
    ensures rows { AreRows names.new.items values.new.items }
    ensures begun { notes_in names.new.items values.new.items ≡ map.insert (notes_in names.old.items values.old.items) name value }
    ensures one { length names.new.items ≤ length names.old.items + 1 }
    ensures room { (names.new.cap ≡ names.old.cap) × (values.new.cap ≡ values.old.cap) }
{
    let _ = names.insert(at, name);
    let _ = values.insert(at, value);
}

fn put_note(names: &mut Vec<Bytes>, values: &mut Vec<Bytes>, name: Bytes, value: Bytes)
    requires rows { AreRows names.old.items values.old.items }
    requires room { (length names.old.items < names.old.cap) × (length values.old.items < values.old.cap) }
    ensures rows { AreRows names.new.items values.new.items }
    ensures put { notes_in names.new.items values.new.items ≡ map.insert (notes_in names.old.items values.old.items) name value }
    ensures one { length names.new.items ≤ length names.old.items + 1 }
    ensures room { (names.new.cap ≡ names.old.cap) × (values.new.cap ≡ values.old.cap) }
{
    match find(&name, names.as_slice()) {
        Ok(at) => set_note(names.as_slice(), values, at, &name, value),
        Err(at) => begin_note(names, values, at, name, value),
    }
}

fn drop_note(names: &mut Vec<Bytes>, values: &mut Vec<Bytes>, name: &Bytes)
    requires rows { AreRows names.old.items values.old.items }
    ensures rows { AreRows names.new.items values.new.items }
    ensures ended { notes_in names.new.items values.new.items ≡ map.remove (notes_in names.old.items values.old.items) name.now }
    ensures fewer { length names.new.items ≤ length names.old.items }
    ensures room { (names.new.cap ≡ names.old.cap) × (values.new.cap ≡ values.old.cap) }
{
    match find(name, names.as_slice()) {
        Ok(at) => end_note(names, values, at, name),
        Err(_) => {}
    }
}

// Changes one note, where there is room for it.
fn change_note(names: &mut Vec<Bytes>, values: &mut Vec<Bytes>, change: NoteChange)
    requires rows { AreRows names.old.items values.old.items }
    requires room { (length names.old.items < names.old.cap) × (length values.old.items < values.old.cap) }
    ensures rows { AreRows names.new.items values.new.items }
    ensures noted { notes_in names.new.items values.new.items ≡ noted change.name change.value (notes_in names.old.items values.old.items) }
    ensures one { length names.new.items ≤ length names.old.items + 1 }
    ensures room { (names.new.cap ≡ names.old.cap) × (values.new.cap ≡ values.old.cap) }
{
    let NoteChange { name, value } = change;
    match value {
        Some(value) => put_note(names, values, name, value),
        None => drop_note(names, values, &name),
    }
}

/// Changes the notes, where there is room for all.
pub(super) fn change_notes(
    names: &mut Vec<Bytes>,
    values: &mut Vec<Bytes>,
    changes: Vec<NoteChange>,
)
    requires rows { AreRows names.old.items values.old.items }
    requires room { (length names.old.items + length changes.items ≤ names.old.cap) × (length values.old.items + length changes.items ≤ values.old.cap) }
    ensures rows { AreRows names.new.items values.new.items }
    ensures noted { notes_in names.new.items values.new.items ≡ notes_after changes.items (notes_in names.old.items values.old.items) }
{
    for change in changes {
        change_note(names, values, change);
    }
}

/// The value of the note, if it stands.
pub(super) fn note_at<'a>(names: &[Bytes], values: &'a [Bytes], name: &Bytes) -> Option<&'a Bytes>
    requires { AreRows names.now values.now }
    ensures { copied result ≡ map.get (notes_in names.now values.now) name.now }
{
    match find(name, names) {
        Ok(at) => Some(&values[at]),
        Err(_) => None,
    }
}
