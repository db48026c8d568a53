//! Changes of notes as bytes, and bytes as changes of notes.
ghost use Rattle.std.specs.Prelude.{◌≡◌, ◌<◌, ◌^◌, IfOk, OnOk, length, true, option_map, zip};
ghost use Rattle.std.specs.List.{AllByRecursion};
ghost use Rattle.alp_fields.specs.Forms.{IsRead, IsWritten, repeated};
ghost use Rattle.alp_fields.specs.Rising.{is_rising};
ghost use Rattle.alp_batch.specs.Batch.{note, note_name, note_value, notes as notes_form, name_below, puts_note, IsShort};
ghost use Rattle.alp_batch.specs.Values.{puts};

use crate::NoteChanges;
use crate::rising::names_rise;
use alp_base::{Bytes, NoteChange, OutOfMemory};
use alp_fields::{FieldReader, put_bytes, put_u8, put_u16, put_u32};
use std::alloc::Global;

#[tactic(auto, unfolding(crate::specs::Batch::note_name))]
fn put_note_name(out: &mut Vec<u8>, name: &Bytes) -> Result<(), OutOfMemory>
    requires { length name.now < 2 ^ 8 }
    ensures { OnOk result (IsWritten note_name name.now out.old.items out.new.items) }
{
    let bytes = name.as_slice();
    put_u8(out, bytes.len() as u8)?;
    put_bytes(out, bytes)
}

#[tactic(auto, unfolding(crate::specs::Batch::note_value))]
fn put_note_value(out: &mut Vec<u8>, value: &Bytes) -> Result<(), OutOfMemory>
    requires { length value.now < 2 ^ 32 }
    ensures { OnOk result (IsWritten note_value value.now out.old.items out.new.items) }
{
    let bytes = value.as_slice();
    put_u32(out, bytes.len() as u32)?;
    put_bytes(out, bytes)
}

#[tactic(auto, unfolding(crate::specs::Batch::note, alp_fields::specs::Forms::u8))]
fn put_value(out: &mut Vec<u8>, name: &Bytes, value: &Bytes) -> Result<(), OutOfMemory>
    requires { IsShort (puts_note (name.now, value.now)) }
    ensures { OnOk result (IsWritten note (puts_note (name.now, value.now)) out.old.items out.new.items) }
{
    put_u8(out, 1)?;
    put_note_name(out, name)?;
    put_note_value(out, value)
}

#[tactic(auto, unfolding(crate::specs::Batch::note, alp_fields::specs::Forms::u8))]
fn put_note(out: &mut Vec<u8>, change: &NoteChange) -> Result<(), OutOfMemory>
    requires { IsShort change.now }
    ensures { OnOk result (IsWritten note change.now out.old.items out.new.items) }
{
    match &change.value {
        None => {
            put_u8(out, 0)?;
            put_note_name(out, &change.name)
        }
        Some(value) => {
            put_u8(out, 1)?;
            put_note_name(out, &change.name)?;
            put_note_value(out, value)
        }
    }
}

fn put_each(out: &mut Vec<u8>, changes: &[NoteChange]) -> Result<(), OutOfMemory>
    requires { AllByRecursion IsShort changes.now }
    ensures { OnOk result (IsWritten (repeated note (length changes.now)) changes.now out.old.items out.new.items) }
{
    for next in changes {
        put_note(out, next)?;
    }
    Ok(())
}

/// Writes the changes behind what stands there.
#[tactic(auto, unfolding(crate::specs::Batch::notes))]
pub(super) fn put_notes(out: &mut Vec<u8>, notes: &NoteChanges) -> Result<(), OutOfMemory>
    requires few { length notes.now < 2 ^ 16 }
    requires rise { is_rising name_below notes.now ≡ true }
    requires short { AllByRecursion IsShort notes.now }
    ensures { OnOk result (IsWritten notes_form notes.now out.old.items out.new.items) }
{
    let changes = notes.as_slice();
    put_u16(out, changes.len() as u16)?;
    put_each(out, changes)
}

fn put_each_value(out: &mut Vec<u8>, names: &[Bytes], values: &[Bytes]) -> Result<(), OutOfMemory>
    requires paired { length names.now ≡ length values.now }
    requires short { AllByRecursion IsShort (puts (zip names.now values.now)) }
    ensures { OnOk result (IsWritten (repeated note (length names.now)) (puts (zip names.now values.now)) out.old.items out.new.items) }
{
    for i in 0..names.len() {
        put_value(out, &names[i], &values[i])?;
    }
    Ok(())
}

/// Writes changes that give each of the names the value beside it.
#[tactic(auto, unfolding(crate::specs::Batch::notes))]
pub(super) fn put_values(
    out: &mut Vec<u8>,
    names: &[Bytes],
    values: &[Bytes],
) -> Result<(), OutOfMemory>
    requires paired { length names.now ≡ length values.now }
    requires few { length (puts (zip names.now values.now)) < 2 ^ 16 }
    requires rise { is_rising name_below (puts (zip names.now values.now)) ≡ true }
    requires short { AllByRecursion IsShort (puts (zip names.now values.now)) }
    ensures { OnOk result (IsWritten notes_form (puts (zip names.now values.now)) out.old.items out.new.items) }
{
    put_u16(out, names.len() as u16)?;
    put_each_value(out, names, values)
}

#[tactic(auto, unfolding(crate::specs::Batch::note_name))]
fn read_note_name(alloc: Global, reader: &mut FieldReader) -> Result<Option<Bytes>, OutOfMemory>
    ensures { IfOk result (IsRead note_name reader.old reader.new) }
{
    let Some(count) = reader.u8() else {
        return Ok(None);
    };
    let Some(bytes) = reader.bytes(count as usize) else {
        return Ok(None);
    };
    let copy = Vec::from_slice(alloc, bytes)?;
    Ok(Some(Bytes::new(copy)))
}

#[tactic(auto, unfolding(crate::specs::Batch::note_value))]
fn read_note_value(alloc: Global, reader: &mut FieldReader) -> Result<Option<Bytes>, OutOfMemory>
    ensures { IfOk result (IsRead note_value reader.old reader.new) }
{
    let Some(count) = reader.u32() else {
        return Ok(None);
    };
    let Some(bytes) = reader.bytes(count as usize) else {
        return Ok(None);
    };
    let copy = Vec::from_slice(alloc, bytes)?;
    Ok(Some(Bytes::new(copy)))
}

#[tactic(auto, unfolding(crate::specs::Batch::note))]
fn read_note(alloc: Global, reader: &mut FieldReader) -> Result<Option<NoteChange>, OutOfMemory>
    ensures { IfOk result (IsRead note reader.old reader.new) }
{
    let Some(tag) = reader.u8() else {
        return Ok(None);
    };
    if tag > 1 {
        return Ok(None);
    }
    let Some(name) = read_note_name(alloc, reader)? else {
        return Ok(None);
    };
    if tag == 0 {
        return Ok(Some(NoteChange { name, value: None }));
    }
    let Some(value) = read_note_value(alloc, reader)? else {
        return Ok(None);
    };
    Ok(Some(NoteChange {
        name,
        value: Some(value),
    }))
}

fn read_each(
    alloc: Global,
    reader: &mut FieldReader,
    count: u16,
) -> Result<Option<Vec<NoteChange>>, OutOfMemory>
    ensures { IfOk result (λ found. IsRead (repeated note count) reader.old reader.new (option_map (λ v. v.items) found)) }
{
    let mut items = Vec::new(alloc);
    for _ in 0..count {
        let Some(next) = read_note(alloc, reader)? else {
            return Ok(None);
        };
        items.push(next)?;
    }
    Ok(Some(items))
}

/// The changes at the front of the bytes that are left, if their names rise.
#[tactic(auto, unfolding(crate::specs::Batch::notes))]
pub(super) fn read_notes(
    alloc: Global,
    reader: &mut FieldReader,
) -> Result<Option<NoteChanges>, OutOfMemory>
    ensures { IfOk result (IsRead notes_form reader.old reader.new) }
{
    let Some(count) = reader.u16() else {
        return Ok(None);
    };
    let Some(items) = read_each(alloc, reader, count)? else {
        return Ok(None);
    };
    if !names_rise(items.as_slice()) {
        return Ok(None);
    }
    Ok(Some(NoteChanges::new(items)))
}
