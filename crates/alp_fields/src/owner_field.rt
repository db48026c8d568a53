//! An owner's record in 256 bytes: its fields one behind the other, and zeros to the end.
ghost use Rattle.std.specs.Prelude.{◌≡◌, IfOk, OnOk, OnErr, length};
ghost use Rattle.alp_fields.specs.Forms.{IsForm, HasLength, IsRead, IsWritten, IsSet};
ghost use Rattle.alp_fields.specs.OwnerField.{owner_fields, owner_record};

use crate::{
    FieldReader, LIST_FIELD_BYTES, NAME_FIELD_BYTES, U32_BYTES, put_bytes, set_list_field,
    set_named_field, set_u32, set_zeros,
};
use alp_base::{OutOfMemory, OwnerRecord};
use std::alloc::Global;

/// The bytes of an owner's record.
pub const OWNER_BYTES: usize = 256;

const QUOTA_AT: usize = NAME_FIELD_BYTES;

const CHARGE_AT: usize = QUOTA_AT + U32_BYTES;

const CREATE_AT: usize = CHARGE_AT + U32_BYTES;

const ZEROS_AT: usize = CREATE_AT + LIST_FIELD_BYTES;

/// What is spelled is read back whatever follows it, what is read was so spelled, and each
/// spelling fills a record.
pub fn owner_records_are_a_form()
    ensures form { IsForm owner_record }
    ensures full { HasLength owner_record OWNER_BYTES }
{}

#[tactic(auto, unfolding(crate::specs::OwnerField::owner_fields))]
fn read_fields(alloc: Global, reader: &mut FieldReader) -> Result<Option<OwnerRecord>, OutOfMemory>
    ensures { IfOk result (IsRead owner_fields reader.old reader.new) }
{
    let Some(name) = reader.named_field() else {
        return Ok(None);
    };
    let Some(quota) = reader.u32() else {
        return Ok(None);
    };
    let Some(charge) = reader.u32() else {
        return Ok(None);
    };
    let Some(create) = reader.list_field(alloc)? else {
        return Ok(None);
    };
    Ok(Some(OwnerRecord {
        name,
        quota,
        charge,
        create,
    }))
}

#[tactic(auto, unfolding(crate::specs::OwnerField::owner_record))]
fn read_ahead(alloc: Global, reader: &mut FieldReader) -> Result<Option<OwnerRecord>, OutOfMemory>
    ensures { IfOk result (IsRead owner_record reader.old reader.new) }
{
    let Some(found) = read_fields(alloc, reader)? else {
        return Ok(None);
    };
    let Some(()) = reader.zeros(OWNER_BYTES - ZEROS_AT) else {
        return Ok(None);
    };
    Ok(Some(found))
}

/// The owner's record at the front of the bytes that are left, if one is spelled there.
pub fn read_owner(
    alloc: Global,
    reader: &mut FieldReader,
) -> Result<Option<OwnerRecord>, OutOfMemory>
    ensures ok { IfOk result (IsRead owner_record reader.old reader.new) }
    ensures err { OnErr result (reader.new ≡ reader.old) }
{
    let mut ahead = reader.copy();
    let found = read_ahead(alloc, &mut ahead)?;
    *reader = ahead;
    Ok(found)
}

/// Puts the one spelling of the record over whatever the bytes were.
pub fn set_owner(out: &mut [u8], owner: &OwnerRecord)
    requires { length out.old ≡ OWNER_BYTES }
    ensures { IsSet owner_record owner.now 0 out.old out.new }
{
    set_named_field(out, 0, &owner.name);
    set_u32(out, QUOTA_AT, owner.quota);
    set_u32(out, CHARGE_AT, owner.charge);
    set_list_field(out, CREATE_AT, &owner.create);
    set_zeros(out, ZEROS_AT, OWNER_BYTES - ZEROS_AT);
}

fn owner_bytes(owner: &OwnerRecord) -> [u8; 256]
    ensures spelled { result ≡ owner_record.spell owner.now }
    ensures fits { owner_record.Fits owner.now }
{
    let mut bytes = [0u8; OWNER_BYTES];
    set_owner(&mut bytes, owner);
    bytes
}

/// Writes the record behind what stands there.
pub fn put_owner(out: &mut Vec<u8>, owner: &OwnerRecord) -> Result<(), OutOfMemory>
    ensures ok { OnOk result (IsWritten owner_record owner.now out.old.items out.new.items) }
    ensures err { OnErr result (out.new.items ≡ out.old.items) }
{
    let bytes = owner_bytes(owner);
    put_bytes(out, &bytes)
}
