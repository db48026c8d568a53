//! The note of a transaction that is decided, which keeps it until its parts on other servers know.
ghost use Rattle.std.specs.Prelude.{◌≡◌, ◌≤◌, length, IfOk, IfSome, OnOk, Some};
ghost use Rattle.alp_fields.specs.Forms.{IsForm, IsRead, IsWritten, whole};
ghost use Rattle.alp_fields.specs.Fields.{join_no};
ghost use Rattle.alp_fields.specs.declared.decision_note.Decision.{Decision as Decided};
ghost use Rattle.alp_fields.specs.DecisionNote.{decision_name, part_count, joins as joins_form, decision_form, IsDecision, decision_in, decision_noted, decision_ended};

use crate::FieldReader;
use crate::ids::{put_join_no, put_time, put_trans_id};
use crate::items::{Item, put_items, read_items};
use crate::numbers::put_u8;
use alp_base::{Bytes, JoinNo, NoteChange, OutOfMemory, SERVERS, Sequence, TransId};
use std::alloc::Global;

/// Parts of a transaction, by their join numbers.
pub type JoinList = Sequence<JoinNo>;

/// When a transaction was decided, and its parts on other servers.
#[derive(Drop)]
pub struct Decision {
    /// At most 2 ^ 62.
    pub ts: u64,
    pub joins: JoinList,
}

/// The most parts that a transaction has on other servers than its coordinator.
pub const MOST_PARTS: u8 = SERVERS - 1;

// The first byte of the note's name.
const DECISION_LETTER: u8 = b'D';

// ---- names

#[tactic(auto, unfolding(crate::specs::DecisionNote::decision_name))]
fn next_name(reader: &mut FieldReader) -> Option<TransId>
    ensures { IsRead decision_name reader.old reader.new result }
{
    let letter = reader.u8()?;
    if letter != DECISION_LETTER {
        return None;
    }
    reader.trans_id()
}

/// The transaction of which a note of this name keeps the decision, if the name is one of such notes.
pub fn read_decision_name(name: &[u8]) -> Option<TransId>
    ensures { result ≡ whole decision_name name.now }
{
    let mut reader = FieldReader::new(name);
    let trans = next_name(&mut reader)?;
    if !reader.is_empty() {
        return None;
    }
    Some(trans)
}

#[tactic(auto, unfolding(crate::specs::DecisionNote::decision_name, crate::specs::Forms::u8))]
fn put_name(out: &mut Vec<u8>, trans: TransId) -> Result<(), OutOfMemory>
    ensures { OnOk result (IsWritten decision_name trans out.old.items out.new.items) }
{
    put_u8(out, DECISION_LETTER)?;
    put_trans_id(out, trans)
}

/// The name of the note.
pub fn decision_note_name(alloc: Global, trans: TransId) -> Result<Bytes, OutOfMemory>
    ensures spelled { IfOk result (λ name. name ≡ decision_name.spell trans) }
    ensures fits { OnOk result (decision_name.Fits trans) }
{
    let mut name = Vec::new(alloc);
    put_name(&mut name, trans)?;
    Ok(Bytes::new(name))
}

// ---- values

impl Item for JoinNo {
    ghost form = { join_no };

    ghost can_put = { λ _. Unit {0} };

    fn read(_alloc: Global, reader: &mut FieldReader) -> Result<Option<JoinNo>, OutOfMemory> {
        Ok(reader.join_no())
    }

    fn put(&self, out: &mut Vec<u8>) -> Result<(), OutOfMemory> {
        put_join_no(out, *self)
    }
}

#[tactic(auto, unfolding(crate::specs::DecisionNote::part_count))]
fn read_count(reader: &mut FieldReader) -> Option<u8>
    ensures { IsRead part_count reader.old reader.new result }
{
    let count = reader.u8()?;
    if count == 0 {
        return None;
    }
    if count > MOST_PARTS {
        return None;
    }
    Some(count)
}

#[tactic(auto, unfolding(crate::specs::DecisionNote::joins))]
fn read_joins(alloc: Global, reader: &mut FieldReader) -> Result<Option<JoinList>, OutOfMemory>
    ensures { IfOk result (IsRead joins_form reader.old reader.new) }
{
    let Some(count) = read_count(reader) else {
        return Ok(None);
    };
    let Some((items, _)) = read_items::<JoinNo>(alloc, reader, count as u16)? else {
        return Ok(None);
    };
    Ok(Some(JoinList::new(items)))
}

#[tactic(auto, unfolding(crate::specs::DecisionNote::decision_form))]
fn next_decision(alloc: Global, reader: &mut FieldReader) -> Result<Option<Decision>, OutOfMemory>
    ensures { IfOk result (IsRead decision_form reader.old reader.new) }
{
    let Some(ts) = reader.time() else {
        return Ok(None);
    };
    let Some(joins) = read_joins(alloc, reader)? else {
        return Ok(None);
    };
    Ok(Some(Decision { ts, joins }))
}

fn exact(alloc: Global, bytes: &[u8]) -> Result<Option<Decision>, OutOfMemory>
    ensures { IfOk result (λ found. found ≡ whole decision_form bytes.now) }
{
    let mut reader = FieldReader::new(bytes);
    let Some(found) = next_decision(alloc, &mut reader)? else {
        return Ok(None);
    };
    if !reader.is_empty() {
        return Ok(None);
    }
    Ok(Some(found))
}

/// The decision that the bytes of a note spell, if they spell one.
pub fn read_decision(alloc: Global, bytes: &[u8]) -> Result<Option<Decision>, OutOfMemory>
    ensures exact { IfOk result (λ found. found ≡ whole decision_form bytes.now) }
    // What is read is spelled so, and can be written again.
    ensures found { IfOk result (λ found. IfSome found (λ d. (bytes.now ≡ decision_form.spell d) × decision_form.Fits d)) }
    ensures decision { IfOk result (λ found. IfSome found IsDecision) }
    // What is spelled so is read.
    ensures only { (d : Decided) → decision_form.Fits d → bytes.now ≡ decision_form.spell d → IfOk result (λ found. found ≡ Some d) }
{
    exact(alloc, bytes)
}

#[tactic(auto, unfolding(crate::specs::DecisionNote::joins, crate::specs::DecisionNote::part_count))]
fn put_joins(out: &mut Vec<u8>, joins: &[JoinNo]) -> Result<(), OutOfMemory>
    requires some { 1 ≤ length joins.now }
    requires few { length joins.now ≤ MOST_PARTS }
    ensures { OnOk result (IsWritten joins_form joins.now out.old.items out.new.items) }
{
    put_u8(out, joins.len() as u8)?;
    put_items(out, joins)
}

#[tactic(auto, unfolding(crate::specs::DecisionNote::decision_form))]
fn put_decision(out: &mut Vec<u8>, decision: &Decision) -> Result<(), OutOfMemory>
    requires { IsDecision decision.now }
    ensures { OnOk result (IsWritten decision_form decision.now out.old.items out.new.items) }
{
    put_time(out, decision.ts)?;
    put_joins(out, decision.joins.as_slice())
}

fn decision_bytes(alloc: Global, decision: &Decision) -> Result<Bytes, OutOfMemory>
    requires { IsDecision decision.now }
    ensures spelled { IfOk result (λ bytes. bytes ≡ decision_form.spell decision.now) }
    ensures fits { OnOk result (decision_form.Fits decision.now) }
{
    let mut bytes = Vec::new(alloc);
    put_decision(&mut bytes, decision)?;
    Ok(Bytes::new(bytes))
}

/// The change by which the note of the decision is kept.
///
/// The time is at most 2 ^ 62, and there are 1 to 7 parts.
pub fn decision_change(
    alloc: Global,
    trans: TransId,
    decision: &Decision,
) -> Result<NoteChange, OutOfMemory>
    requires { IsDecision decision.now }
    ensures change { IfOk result (λ n. n ≡ decision_noted trans decision.now) }
    ensures fits { OnOk result (decision_form.Fits decision.now) }
    ensures back { IfOk result (λ n. decision_in n.name (decision_form.spell decision.now) ≡ Some (trans, decision.now)) }
{
    let name = decision_note_name(alloc, trans)?;
    let value = decision_bytes(alloc, decision)?;
    Ok(NoteChange {
        name,
        value: Some(value),
    })
}

/// The change by which the note of the decision ends.
pub fn decision_end(alloc: Global, trans: TransId) -> Result<NoteChange, OutOfMemory>
    ensures { IfOk result (λ n. n ≡ decision_ended trans) }
{
    let name = decision_note_name(alloc, trans)?;
    Ok(NoteChange { name, value: None })
}

/// Names and values of such notes: what is spelled is read back whatever follows it, and what is read was so spelled.
pub fn decision_notes_are_forms()
    ensures name { IsForm decision_name }
    ensures value { IsForm decision_form }
{}
