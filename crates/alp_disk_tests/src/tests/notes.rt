//! Tests of alp_notes.
use alp_base::{Bytes, NoteChange, OutOfMemory};
use alp_notes::Notes;
use std::alloc::Global;
use std::test::Fail;

fn text(alloc: Global, letters: &str) -> Result<Bytes, OutOfMemory> {
    Ok(Bytes::new(letters.as_bytes().to_vec(alloc)?))
}

// Five names out of order, of which one gets a second value, one ends, and one was never there. No value is an end.
const CHANGES: [(&str, Option<&str>); 8] = [
    ("gully", Some("1")),
    ("arete", Some("2")),
    ("ridge", Some("3")),
    ("col", Some("4")),
    ("arete", Some("5")),
    ("gully", None),
    ("tarn", None),
    ("are", Some("6")),
];

// The names that are left, in their order, and what stands at each.
const LEFT: [(&str, &str); 4] = [("are", "6"), ("arete", "5"), ("col", "4"), ("ridge", "3")];

const GONE: [&str; 4] = ["gully", "tarn", "", "zenith"];

fn change_of(alloc: Global, name: &str, value: Option<&str>) -> Result<NoteChange, OutOfMemory> {
    let name = text(alloc, name)?;
    let value = match value {
        Some(letters) => Some(text(alloc, letters)?),
        None => None,
    };
    Ok(NoteChange { name, value })
}

fn some_changes(alloc: Global) -> Result<Vec<NoteChange>, OutOfMemory> {
    let mut changes = Vec::new(alloc);
    for (name, value) in CHANGES {
        changes.push(change_of(alloc, name, value)?)?;
    }
    Ok(changes)
}

fn changed(alloc: Global) -> Result<Notes, OutOfMemory> {
    let mut notes = Notes::new(alloc);
    let changes = some_changes(alloc)?;
    let copy = notes.make_room(alloc, changes.as_slice())?;
    notes.apply(copy);
    Ok(notes)
}

fn has(notes: &Notes, name: &Bytes, wanted: &str) -> bool {
    match notes.value(name) {
        Some(value) => value.as_slice() == wanted.as_bytes(),
        None => false,
    }
}

fn are_left(names: &[Bytes]) -> bool {
    if names.len() != LEFT.len() {
        return false;
    }
    for (name, left) in names.iter().zip(LEFT.iter()) {
        if name.as_slice() != left.0.as_bytes() {
            return false;
        }
    }
    true
}

fn stands(alloc: Global, notes: &Notes, name: &str, wanted: &str) -> Result<bool, OutOfMemory> {
    let name = text(alloc, name)?;
    Ok(has(notes, &name, wanted))
}

fn is_gone(alloc: Global, notes: &Notes, name: &str) -> Result<bool, OutOfMemory> {
    let name = text(alloc, name)?;
    Ok(notes.value(&name).is_none())
}

#[test]
fn changes_are_made_in_turn(rt: HostRuntime) -> Result<(), Fail> {
    let alloc = rt.alloc();
    let notes = changed(alloc)?;
    assert!(rt; are_left(notes.names()));
    for (name, value) in LEFT {
        assert!(rt; stands(alloc, &notes, name, value)?, "{name}");
    }
    for name in GONE {
        assert!(rt; is_gone(alloc, &notes, name)?, "{name}");
    }
    Ok(())
}

/// What threads may share and hand over.
fn crosses<T: Send + Sync>(_value: &T) {}

#[test]
fn notes_cross_threads(rt: HostRuntime) {
    crosses(&Notes::new(rt.alloc()));
}
