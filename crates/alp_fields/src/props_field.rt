//! The properties of a file as a field.
ghost use Rattle.std.specs.Prelude.{◌≡◌, OnOk, OnErr, IfOk, option_map};
ghost use Rattle.alp_fields.specs.Forms.{IsForm, IsRead, IsWritten, Extends};
ghost use Rattle.alp_fields.specs.PropsField.{numbers, numbers_of, props};

use crate::{FieldReader, put_list, put_name, put_u16, put_u32, put_u64};
use alp_base::{OutOfMemory, Props};
use std::alloc::Global;

#[tactic(auto, unfolding(crate::specs::PropsField::numbers))]
fn read_numbers(reader: &mut FieldReader) -> Option<(u16, u64, u64, u32, u32)>
    ensures { IsRead numbers reader.old reader.new (option_map (λ x. (x.0, (x.1, (x.2, (x.3, x.4))))) result) }
{
    let type_no = reader.u16()?;
    let create_time = reader.u64()?;
    let byte_length = reader.u64()?;
    let size = reader.u32()?;
    let high_water = reader.u32()?;
    Some((type_no, create_time, byte_length, size, high_water))
}

#[tactic(auto, unfolding(crate::specs::PropsField::props))]
fn read_ahead(alloc: Global, reader: &mut FieldReader) -> Result<Option<Props>, OutOfMemory>
    ensures { IfOk result (IsRead props reader.old reader.new) }
{
    let Some(owner) = reader.name() else {
        return Ok(None);
    };
    let Some(name) = reader.name() else {
        return Ok(None);
    };
    let Some((type_no, create_time, byte_length, size, high_water)) = read_numbers(reader) else {
        return Ok(None);
    };
    let Some(read) = reader.list(alloc)? else {
        return Ok(None);
    };
    let Some(modify) = reader.list(alloc)? else {
        return Ok(None);
    };
    Ok(Some(Props {
        owner,
        name,
        type_no,
        create_time,
        byte_length,
        size,
        high_water,
        read,
        modify,
    }))
}

/// The properties at the front of the bytes that are left, if some are spelled there.
pub fn read_props(alloc: Global, reader: &mut FieldReader) -> Result<Option<Props>, OutOfMemory>
    ensures ok { IfOk result (IsRead props reader.old reader.new) }
    ensures err { OnErr result (reader.new ≡ reader.old) }
{
    let mut ahead = reader.copy();
    let found = read_ahead(alloc, &mut ahead)?;
    *reader = ahead;
    Ok(found)
}

#[tactic(auto, unfolding(crate::specs::PropsField::numbers))]
fn append_numbers(out: &mut Vec<u8>, of: &Props) -> Result<(), OutOfMemory>
    ensures ok { OnOk result (IsWritten numbers (numbers_of of.now) out.old.items out.new.items) }
    ensures err { OnErr result (Extends out.old.items out.new.items) }
{
    put_u16(out, of.type_no)?;
    put_u64(out, of.create_time)?;
    put_u64(out, of.byte_length)?;
    put_u32(out, of.size)?;
    put_u32(out, of.high_water)
}

fn put_numbers(out: &mut Vec<u8>, of: &Props) -> Result<(), OutOfMemory>
    ensures ok { OnOk result (IsWritten numbers (numbers_of of.now) out.old.items out.new.items) }
    ensures err { OnErr result (out.new.items ≡ out.old.items) }
{
    let begun = out.len();
    let done = append_numbers(out, of);
    if done.is_err() {
        out.truncate(begun);
    }
    done
}

#[tactic(auto, unfolding(crate::specs::PropsField::props))]
fn append_props(out: &mut Vec<u8>, of: &Props) -> Result<(), OutOfMemory>
    ensures ok { OnOk result (IsWritten props of.now out.old.items out.new.items) }
    ensures err { OnErr result (Extends out.old.items out.new.items) }
{
    put_name(out, &of.owner)?;
    put_name(out, &of.name)?;
    put_numbers(out, of)?;
    put_list(out, &of.read)?;
    put_list(out, &of.modify)
}

pub fn put_props(out: &mut Vec<u8>, of: &Props) -> Result<(), OutOfMemory>
    ensures ok { OnOk result (IsWritten props of.now out.old.items out.new.items) }
    ensures err { OnErr result (out.new.items ≡ out.old.items) }
{
    let begun = out.len();
    let done = append_props(out, of);
    if done.is_err() {
        out.truncate(begun);
    }
    done
}

/// What is spelled is read back whatever follows it, and what is read was so spelled.
pub fn props_are_a_form()
    ensures { IsForm props }
{}
