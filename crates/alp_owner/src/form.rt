//! An owner's record in 256 bytes: its fields one behind the other, and zeros to the end.
ghost use Rattle.std.specs.Prelude.{◌≡◌, IfOk, IfSome, Some, None};
ghost use Rattle.alp_fields.specs.Forms.{whole};
ghost use Rattle.alp_base.specs.declared.cell.OwnerRecord.{OwnerRecord as Owner};
ghost use Rattle.alp_fields.specs.OwnerField.{owner_record, unused_record};

use alp_base::{OutOfMemory, OwnerRecord};
use alp_fields::{FieldReader, read_owner, set_owner};
use std::alloc::Global;

fn exact(alloc: Global, bytes: &[u8]) -> Result<Option<OwnerRecord>, OutOfMemory>
    ensures { IfOk result (λ found. found ≡ whole owner_record bytes.now) }
{
    let mut reader = FieldReader::new(bytes);
    let Some(found) = read_owner(alloc, &mut reader)? else {
        return Ok(None);
    };
    if !reader.is_empty() {
        return Ok(None);
    }
    Ok(Some(found))
}

/// The owner whose record the bytes are, if they are one. An unused record is none.
pub fn decode_owner(alloc: Global, bytes: &[u8; 256]) -> Result<Option<OwnerRecord>, OutOfMemory>
    ensures exact { IfOk result (λ found. found ≡ whole owner_record bytes.now) }
    // What is read is spelled so.
    ensures found { IfOk result (λ found. IfSome found (λ o. (bytes.now ≡ owner_record.spell o) × owner_record.Fits o)) }
    // What is spelled so is read.
    ensures only { (o : Owner) → owner_record.Fits o → bytes.now ≡ owner_record.spell o → IfOk result (λ found. found ≡ Some o) }
    ensures unused { bytes.now ≡ unused_record → IfOk result (λ found. found ≡ None) }
{
    exact(alloc, bytes)
}

/// Puts the one spelling of the record, which is read back as it, over whatever the bytes were.
pub fn encode_owner(owner: &OwnerRecord, out: &mut [u8; 256])
    ensures spelled { out.new ≡ owner_record.spell owner.now }
    ensures fits { owner_record.Fits owner.now }
{
    set_owner(out, owner);
}
