//! Batches as bytes, and bytes as batches.
ghost use Rattle.std.specs.Prelude.{◌≡◌, IfOk, IfSome, OnOk, Some, length, []};
ghost use Rattle.alp_fields.specs.Forms.{IsRead, IsWritten, whole};
ghost use Rattle.alp_batch.specs.declared.batch.Batch.{Batch as Together};
ghost use Rattle.alp_batch.specs.Batch.{batch as batch_form, IsBatch, batch_length};
ghost use Rattle.alp_batch.specs.Values.{values_batch};

use crate::images::{put_images, read_images};
use crate::notes::{put_notes, put_values, read_notes};
use crate::{Batch, Images, encoded_length, values_length};
use alp_base::{Bytes, OutOfMemory};
use alp_fields::FieldReader;
use std::alloc::Global;

#[tactic(auto, unfolding(crate::specs::Batch::batch))]
fn put_batch(out: &mut Vec<u8>, batch: &Batch) -> Result<(), OutOfMemory>
    requires { IsBatch batch.now }
    ensures { OnOk result (IsWritten batch_form batch.now out.old.items out.new.items) }
{
    put_images(out, &batch.images)?;
    put_notes(out, &batch.notes)
}

/// The one spelling of a batch.
///
/// Its pages rise and its names rise, there are at most 65,535 of each, a name has at most 255
/// bytes, and the length of a value is a number of 32 bits.
pub fn encode(alloc: Global, batch: &Batch) -> Result<Bytes, OutOfMemory>
    requires { IsBatch batch.now }
    ensures spelled { IfOk result (λ bytes. bytes ≡ batch_form.spell batch.now) }
    ensures fits { OnOk result (batch_form.Fits batch.now) }
    ensures long { IfOk result (λ bytes. length bytes ≡ batch_length batch.now) }
{
    let mut out = Vec::with_capacity(alloc, encoded_length(batch) as usize)?;
    put_batch(&mut out, batch)?;
    Ok(Bytes::new(out))
}

#[tactic(auto, unfolding(crate::specs::Batch::batch))]
fn put_values_batch(
    out: &mut Vec<u8>,
    none: &Images,
    names: &[Bytes],
    values: &[Bytes],
) -> Result<(), OutOfMemory>
    requires none { none.now ≡ [] }
    requires paired { length names.now ≡ length values.now }
    requires batch { IsBatch (values_batch names.now values.now) }
    ensures { OnOk result (IsWritten batch_form (values_batch names.now values.now) out.old.items out.new.items) }
{
    put_images(out, none)?;
    put_values(out, names, values)
}

/// The spelling of the batch that gives each of the names the value beside it and has no images. Nothing is copied
/// but into the spelling.
pub fn encode_values(alloc: Global, names: &[Bytes], values: &[Bytes]) -> Result<Bytes, OutOfMemory>
    requires paired { length names.now ≡ length values.now }
    requires batch { IsBatch (values_batch names.now values.now) }
    ensures spelled { IfOk result (λ bytes. bytes ≡ batch_form.spell (values_batch names.now values.now)) }
    ensures fits { OnOk result (batch_form.Fits (values_batch names.now values.now)) }
    ensures long { IfOk result (λ bytes. length bytes ≡ batch_length (values_batch names.now values.now)) }
{
    let none = Images::new(Vec::new(alloc));
    let mut out = Vec::with_capacity(alloc, values_length(names, values) as usize)?;
    put_values_batch(&mut out, &none, names, values)?;
    Ok(Bytes::new(out))
}

#[tactic(auto, unfolding(crate::specs::Batch::batch))]
fn read_batch(alloc: Global, reader: &mut FieldReader) -> Result<Option<Batch>, OutOfMemory>
    ensures { IfOk result (IsRead batch_form reader.old reader.new) }
{
    let Some(images) = read_images(alloc, reader)? else {
        return Ok(None);
    };
    let Some(notes) = read_notes(alloc, reader)? else {
        return Ok(None);
    };
    Ok(Some(Batch { images, notes }))
}

fn exact(alloc: Global, bytes: &[u8]) -> Result<Option<Batch>, OutOfMemory>
    ensures { IfOk result (λ found. found ≡ whole batch_form bytes.now) }
{
    let mut reader = FieldReader::new(bytes);
    let Some(found) = read_batch(alloc, &mut reader)? else {
        return Ok(None);
    };
    if !reader.is_empty() {
        return Ok(None);
    }
    Ok(Some(found))
}

/// The batch that the bytes spell, if they spell one.
pub fn decode(alloc: Global, bytes: &[u8]) -> Result<Option<Batch>, OutOfMemory>
    ensures exact { IfOk result (λ found. found ≡ whole batch_form bytes.now) }
    // What is read is spelled so, and is a batch.
    ensures found { IfOk result (λ found. IfSome found (λ b. (bytes.now ≡ batch_form.spell b) × batch_form.Fits b)) }
    ensures batch { IfOk result (λ found. IfSome found IsBatch) }
    // What is spelled so is read.
    ensures only { (b : Together) → batch_form.Fits b → bytes.now ≡ batch_form.spell b → IfOk result (λ found. found ≡ Some b) }
{
    exact(alloc, bytes)
}
