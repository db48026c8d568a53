//! How long the spelling of a batch is, before it is made.
ghost use Rattle.std.specs.Prelude.{◌≡◌, ◌<◌, ◌≤◌, ◌^◌, length, zip};
ghost use Rattle.std.specs.List.{AllByRecursion};
ghost use Rattle.alp_batch.specs.Batch.{IsBatch, IsShort, puts_note, note_length, notes_length, batch_length};
ghost use Rattle.alp_batch.specs.Values.{puts, values_batch};

use crate::Batch;
use alp_base::{Bytes, NoteChange};

fn change_length(change: &NoteChange) -> u64
    requires { IsShort change.now }
    ensures { result ≡ note_length change.now }
{
    match &change.value {
        None => 2 + change.name.as_slice().len() as u64,
        Some(value) => value_length(&change.name, value),
    }
}

fn value_length(name: &Bytes, value: &Bytes) -> u64
    requires { IsShort (puts_note (name.now, value.now)) }
    ensures { result ≡ note_length (puts_note (name.now, value.now)) }
{
    6 + name.as_slice().len() as u64 + value.as_slice().len() as u64
}

fn changes_length(changes: &[NoteChange]) -> u64
    requires few { length changes.now < 2 ^ 16 }
    requires short { AllByRecursion IsShort changes.now }
    ensures sum { result ≡ notes_length changes.now }
    ensures small { result ≤ 2 ^ 49 }
{
    let mut bytes = 0;
    for next in changes {
        bytes += change_length(next);
    }
    bytes
}

/// The bytes of the one spelling of a batch.
pub fn encoded_length(batch: &Batch) -> u64
    requires { IsBatch batch.now }
    ensures sum { result ≡ batch_length batch.now }
    ensures small { result ≤ 2 ^ 50 }
{
    let images = batch.images.as_slice().len() as u64;
    4 + 516 * images + changes_length(batch.notes.as_slice())
}

fn each_length(names: &[Bytes], values: &[Bytes]) -> u64
    requires paired { length names.now ≡ length values.now }
    requires few { length names.now < 2 ^ 16 }
    requires short { AllByRecursion IsShort (puts (zip names.now values.now)) }
    ensures sum { result ≡ notes_length (puts (zip names.now values.now)) }
    ensures small { result ≤ 2 ^ 49 }
{
    let mut bytes = 0;
    for i in 0..names.len() {
        bytes += value_length(&names[i], &values[i]);
    }
    bytes
}

/// The bytes of the one spelling of a batch that gives each of the names the value beside it, and has no images.
pub fn values_length(names: &[Bytes], values: &[Bytes]) -> u64
    requires paired { length names.now ≡ length values.now }
    requires few { length names.now < 2 ^ 16 }
    requires short { AllByRecursion IsShort (puts (zip names.now values.now)) }
    ensures sum { result ≡ batch_length (values_batch names.now values.now) }
    ensures small { result ≤ 2 ^ 50 }
{
    4 + each_length(names, values)
}
