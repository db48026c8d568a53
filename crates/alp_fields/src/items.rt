//! Lists in notes: how many items, and the items in the rising order of their bytes.
ghost use Rattle.std.specs.Prelude.{◌≡◌, ◌<◌, ◌≤◌, ◌-◌, ◌^◌, ◌&&◌, true, length, take, option_map, IfOk, IfSome, OnOk};
ghost use Rattle.std.specs.List.{AllByRecursion};
ghost use Rattle.alp_fields.specs.Forms.{Form, IsForm, IsRead, IsWritten, repeated};
ghost use Rattle.alp_fields.specs.Rising.{text_below, rise, rising};

use crate::FieldReader;
use crate::numbers::put_u16;
use alp_base::{OutOfMemory, Sequence};
use std::alloc::Global;

/// An item of a list in a note.
pub(super) trait Item: Drop + Sized {
    /// How it is spelled.
    ghost form: { Form Self };

    /// What the type leaves open and the spelling needs.
    ghost can_put: { Self → Type 0 };

    /// The item at the front of the bytes that are left, if one is spelled there.
    fn read(alloc: Global, reader: &mut FieldReader) -> Result<Option<Self>, OutOfMemory>
        ensures { IfOk result (IsRead form reader.old reader.new) };

    /// Writes the item behind what stands there.
    fn put(&self, out: &mut Vec<u8>) -> Result<(), OutOfMemory>
        requires { can_put self.now }
        ensures { OnOk result (IsWritten form self.now out.old.items out.new.items) };
}

// The bytes that were taken, of which the reader has what is left.
fn taken<'a>(bytes: &'a [u8], reader: &FieldReader) -> &'a [u8]
    requires { length reader.now ≤ length bytes.now }
    ensures { result.now ≡ take (length bytes.now - length reader.now) bytes.now }
{
    let left = reader.rest().len();
    &bytes[..bytes.len() - left]
}

fn rise_on(rises: bool, last: &[u8], bytes: &[u8]) -> bool
    ensures { result ≡ (rises && text_below last.now bytes.now) }
{
    rises && last.cmp(bytes).is_lt()
}

/// So many items, and whether their bytes rise.
pub(super) fn read_items<T: Item>(
    alloc: Global,
    reader: &mut FieldReader,
    count: u16,
) -> Result<Option<(Vec<T>, bool)>, OutOfMemory>
    requires { IsForm T.form }
    ensures read { IfOk result (λ found. IsRead (repeated T.form count) reader.old reader.new (option_map (λ x. x.0.items) found)) }
    ensures rises { IfOk result (λ found. IfSome found (λ x. x.1 ≡ rise T.form x.0.items)) }
    ensures all { IfOk result (λ found. IfSome found (λ x. length x.0.items ≡ count)) }
{
    let mut items = Vec::new(alloc);
    let mut rises = true;
    let mut last: &[u8] = &[];
    for _ in 0..count {
        let before = reader.rest();
        let Some(next) = T::read(alloc, reader)? else {
            return Ok(None);
        };
        let bytes = taken(before, reader);
        rises = rise_on(rises, last, bytes);
        last = bytes;
        items.push(next)?;
    }
    Ok(Some((items, rises)))
}

/// The list at the front of the bytes that are left, if its items rise.
pub(super) fn read_rising<T: Item>(
    alloc: Global,
    reader: &mut FieldReader,
) -> Result<Option<Sequence<T>>, OutOfMemory>
    requires { IsForm T.form }
    ensures { IfOk result (IsRead (rising T.form) reader.old reader.new) }
{
    let Some(count) = reader.u16() else {
        return Ok(None);
    };
    let Some((items, rises)) = read_items::<T>(alloc, reader, count)? else {
        return Ok(None);
    };
    if !rises {
        return Ok(None);
    }
    Ok(Some(Sequence::new(items)))
}

/// Writes the items, one behind the other.
pub(super) fn put_items<T: Item>(out: &mut Vec<u8>, items: &[T]) -> Result<(), OutOfMemory>
    requires { AllByRecursion T.can_put items.now }
    ensures { OnOk result (IsWritten (repeated T.form (length items.now)) items.now out.old.items out.new.items) }
{
    for next in items {
        next.put(out)?;
    }
    Ok(())
}

/// Writes the list behind what stands there.
pub(super) fn put_rising<T: Item>(out: &mut Vec<u8>, items: &[T]) -> Result<(), OutOfMemory>
    requires few { length items.now < 2 ^ 16 }
    requires rises { rise T.form items.now ≡ true }
    requires each { AllByRecursion T.can_put items.now }
    ensures { OnOk result (IsWritten (rising T.form) items.now out.old.items out.new.items) }
{
    put_u16(out, items.len() as u16)?;
    put_items(out, items)
}
