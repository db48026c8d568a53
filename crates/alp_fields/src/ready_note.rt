//! The note of a part that voted for its commit, which keeps it until the outcome is known.
ghost use Rattle.std.specs.Prelude.{◌≡◌, IfOk, IfSome, OnOk, Some};
ghost use Rattle.alp_fields.specs.Forms.{IsForm, IsRead, IsWritten, whole};
ghost use Rattle.alp_fields.specs.declared.ready_note.ReadyPart.{ReadyPart as Part};
ghost use Rattle.alp_fields.specs.ReadyNote.{ready_name, lock, ready_form, IsReadyPart, ready_in, ready_noted, ready_ended};

use crate::FieldReader;
use crate::change_field::{put_change, read_change};
use crate::ids::{put_join_no, put_time, put_trans_id};
use crate::items::{Item, put_rising, read_rising};
use crate::keys::put_resource;
use crate::mode_field::{put_mode, read_mode};
use crate::numbers::put_u8;
use alp_base::{Bytes, Change, JoinNo, NoteChange, OutOfMemory, Resource, Sequence, TransId};
use alp_modes::Mode;
use std::alloc::Global;

/// What is locked, and in which mode.
pub type LockList = Sequence<(Resource, Mode)>;

/// What a part holds that voted for its commit.
#[derive(Drop)]
pub struct ReadyPart {
    pub trans: TransId,
    /// The server's clock at the vote, at most 2 ^ 62.
    pub ts: u64,
    pub client: u8,
    pub locks: LockList,
    pub change: Change,
}

// The first byte of the note's name.
const READY_LETTER: u8 = b'R';

// ---- names

#[tactic(auto, unfolding(crate::specs::ReadyNote::ready_name))]
fn next_name(reader: &mut FieldReader) -> Option<JoinNo>
    ensures { IsRead ready_name reader.old reader.new result }
{
    let letter = reader.u8()?;
    if letter != READY_LETTER {
        return None;
    }
    reader.join_no()
}

/// The join of the part that a note of this name keeps, if the name is one of such notes.
pub fn read_ready_name(name: &[u8]) -> Option<JoinNo>
    ensures { result ≡ whole ready_name name.now }
{
    let mut reader = FieldReader::new(name);
    let join = next_name(&mut reader)?;
    if !reader.is_empty() {
        return None;
    }
    Some(join)
}

#[tactic(auto, unfolding(crate::specs::ReadyNote::ready_name, crate::specs::Forms::u8))]
fn put_name(out: &mut Vec<u8>, join: JoinNo) -> Result<(), OutOfMemory>
    ensures { OnOk result (IsWritten ready_name join out.old.items out.new.items) }
{
    put_u8(out, READY_LETTER)?;
    put_join_no(out, join)
}

/// The name of the note.
pub fn ready_note_name(alloc: Global, join: JoinNo) -> Result<Bytes, OutOfMemory>
    ensures spelled { IfOk result (λ name. name ≡ ready_name.spell join) }
    ensures fits { OnOk result (ready_name.Fits join) }
{
    let mut name = Vec::new(alloc);
    put_name(&mut name, join)?;
    Ok(Bytes::new(name))
}

// ---- values

#[tactic(auto, unfolding(crate::specs::ReadyNote::lock))]
fn read_lock(reader: &mut FieldReader) -> Option<(Resource, Mode)>
    ensures { IsRead lock reader.old reader.new result }
{
    let locked = reader.resource()?;
    let mode = read_mode(reader)?;
    Some((locked, mode))
}

#[tactic(auto, unfolding(crate::specs::ReadyNote::lock))]
fn put_lock(out: &mut Vec<u8>, locked: &Resource, mode: Mode) -> Result<(), OutOfMemory>
    ensures { OnOk result (IsWritten lock (locked.now, mode) out.old.items out.new.items) }
{
    put_resource(out, locked)?;
    put_mode(out, mode)
}

impl Item for (Resource, Mode) {
    ghost form = { lock };

    ghost can_put = { λ _. Unit {0} };

    fn read(
        _alloc: Global,
        reader: &mut FieldReader,
    ) -> Result<Option<(Resource, Mode)>, OutOfMemory> {
        Ok(read_lock(reader))
    }

    fn put(&self, out: &mut Vec<u8>) -> Result<(), OutOfMemory> {
        put_lock(out, &self.0, self.1)
    }
}

#[tactic(auto, unfolding(crate::specs::ReadyNote::ready_form))]
fn next_part(alloc: Global, reader: &mut FieldReader) -> Result<Option<ReadyPart>, OutOfMemory>
    ensures { IfOk result (IsRead ready_form reader.old reader.new) }
{
    let Some(trans) = reader.trans_id() else {
        return Ok(None);
    };
    let Some(ts) = reader.time() else {
        return Ok(None);
    };
    let Some(client) = reader.u8() else {
        return Ok(None);
    };
    let Some(locks) = read_rising::<(Resource, Mode)>(alloc, reader)? else {
        return Ok(None);
    };
    let Some(change) = read_change(alloc, reader)? else {
        return Ok(None);
    };
    Ok(Some(ReadyPart {
        trans,
        ts,
        client,
        locks,
        change,
    }))
}

fn exact(alloc: Global, bytes: &[u8]) -> Result<Option<ReadyPart>, OutOfMemory>
    ensures { IfOk result (λ found. found ≡ whole ready_form bytes.now) }
{
    let mut reader = FieldReader::new(bytes);
    let Some(found) = next_part(alloc, &mut reader)? else {
        return Ok(None);
    };
    if !reader.is_empty() {
        return Ok(None);
    }
    Ok(Some(found))
}

/// The part that the bytes of a note spell, if they spell one.
pub fn read_ready(alloc: Global, bytes: &[u8]) -> Result<Option<ReadyPart>, OutOfMemory>
    ensures exact { IfOk result (λ found. found ≡ whole ready_form bytes.now) }
    // What is read is spelled so, and can be written again.
    ensures found { IfOk result (λ found. IfSome found (λ p. (bytes.now ≡ ready_form.spell p) × ready_form.Fits p)) }
    ensures part { IfOk result (λ found. IfSome found IsReadyPart) }
    // What is spelled so is read.
    ensures only { (p : Part) → ready_form.Fits p → bytes.now ≡ ready_form.spell p → IfOk result (λ found. found ≡ Some p) }
{
    exact(alloc, bytes)
}

#[tactic(auto, unfolding(crate::specs::ReadyNote::ready_form))]
fn put_part(out: &mut Vec<u8>, part: &ReadyPart) -> Result<(), OutOfMemory>
    requires { IsReadyPart part.now }
    ensures { OnOk result (IsWritten ready_form part.now out.old.items out.new.items) }
{
    put_trans_id(out, part.trans)?;
    put_time(out, part.ts)?;
    put_u8(out, part.client)?;
    put_rising(out, part.locks.as_slice())?;
    put_change(out, &part.change)
}

fn ready_bytes(alloc: Global, part: &ReadyPart) -> Result<Bytes, OutOfMemory>
    requires { IsReadyPart part.now }
    ensures spelled { IfOk result (λ bytes. bytes ≡ ready_form.spell part.now) }
    ensures fits { OnOk result (ready_form.Fits part.now) }
{
    let mut bytes = Vec::new(alloc);
    put_part(&mut bytes, part)?;
    Ok(Bytes::new(bytes))
}

/// The change by which the part's note is kept.
///
/// The time is at most 2 ^ 62, and the locks and what it changes stand in the rising order of their bytes, at most
/// 65,535 of each.
pub fn ready_change(
    alloc: Global,
    join: JoinNo,
    part: &ReadyPart,
) -> Result<NoteChange, OutOfMemory>
    requires { IsReadyPart part.now }
    ensures change { IfOk result (λ n. n ≡ ready_noted join part.now) }
    ensures fits { OnOk result (ready_form.Fits part.now) }
    ensures back { IfOk result (λ n. ready_in n.name (ready_form.spell part.now) ≡ Some (join, part.now)) }
{
    let name = ready_note_name(alloc, join)?;
    let value = ready_bytes(alloc, part)?;
    Ok(NoteChange {
        name,
        value: Some(value),
    })
}

/// The change by which the note of the part ends.
pub fn ready_end(alloc: Global, join: JoinNo) -> Result<NoteChange, OutOfMemory>
    ensures { IfOk result (λ n. n ≡ ready_ended join) }
{
    let name = ready_note_name(alloc, join)?;
    Ok(NoteChange { name, value: None })
}

/// Names and values of such notes: what is spelled is read back whatever follows it, and what is read was so spelled.
pub fn ready_notes_are_forms()
    ensures name { IsForm ready_name }
    ensures value { IsForm ready_form }
{}
