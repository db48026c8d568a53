//! The note that keeps a server's epoch and clock through crashes.
ghost use Rattle.std.specs.Prelude.{◌≡◌, ◌≤◌, ◌^◌, IfOk, OnOk, Some, nat_eq};
ghost use Rattle.std.specs.Cmp.Lexicographic.{pointwise};
ghost use Rattle.alp_fields.specs.Forms.{whole, IsRead};
ghost use Rattle.alp_fields.specs.ClockNote.{clock_name, clock_form, clock_in, IsClockNote};

use crate::{FieldReader, GREATEST_TIME, put_u32, put_u64};
use alp_base::{Bytes, NoteChange, OutOfMemory};
use std::alloc::Global;

/// The epoch in which a server runs, and the greatest time that it gave or heard.
#[derive(Clone, Copy, PartialEq, Eq)]
pub struct ClockNote {
    pub epoch: u32,
    /// At most 2 ^ 62.
    pub clock: u64,
}

// All of the note's name.
const CLOCK_LETTER: u8 = b'C';

#[tactic(auto, unfolding(crate::specs::ClockNote::clock_form))]
fn next_clock(reader: &mut FieldReader) -> Option<ClockNote>
    ensures { IsRead clock_form reader.old reader.new result }
{
    let epoch = reader.u32()?;
    let clock = reader.u64()?;
    if clock > GREATEST_TIME {
        return None;
    }
    Some(ClockNote { epoch, clock })
}

/// The epoch and clock that the bytes of a note spell, if they spell them.
pub fn read_clock(bytes: &[u8]) -> Option<ClockNote>
    ensures { result ≡ whole clock_form bytes.now }
{
    let mut reader = FieldReader::new(bytes);
    let read = next_clock(&mut reader)?;
    if !reader.is_empty() {
        return None;
    }
    Some(read)
}

#[tactic(auto, unfolding(crate::specs::ClockNote::clock_form))]
fn clock_bytes(alloc: Global, clock: ClockNote) -> Result<Vec<u8>, OutOfMemory>
    requires { clock.clock ≤ 2 ^ 62 }
    ensures spelled { IfOk result (λ v. v.items ≡ clock_form.spell clock) }
    ensures fits { OnOk result (clock_form.Fits clock) }
{
    let mut bytes = Vec::new(alloc);
    put_u32(&mut bytes, clock.epoch)?;
    put_u64(&mut bytes, clock.clock)?;
    Ok(bytes)
}

/// Whether that is the name of the note, the letter C.
pub fn is_clock_name(name: &[u8]) -> bool
    ensures { result ≡ pointwise nat_eq name.now clock_name }
{
    name == [CLOCK_LETTER].as_slice()
}

/// The name of the note.
pub fn clock_note_name(alloc: Global) -> Result<Bytes, OutOfMemory>
    ensures { IfOk result (λ name. name ≡ clock_name) }
{
    let letters = vec![in alloc; CLOCK_LETTER]?;
    Ok(Bytes::new(letters))
}

/// The change by which the note gets this epoch and clock.
pub fn clock_change(alloc: Global, clock: ClockNote) -> Result<NoteChange, OutOfMemory>
    requires { clock.clock ≤ 2 ^ 62 }
    ensures note { IfOk result (λ n. IsClockNote n) }
    ensures change { IfOk result (λ n. n ≡ record { name = clock_name; value = Some (clock_form.spell clock) }) }
    ensures back { IfOk result (λ n. clock_in n.value ≡ clock) }
{
    let name = clock_note_name(alloc)?;
    let value = clock_bytes(alloc, clock)?;
    Ok(NoteChange {
        name,
        value: Some(Bytes::new(value)),
    })
}
