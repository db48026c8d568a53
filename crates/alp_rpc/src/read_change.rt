//! Changes of properties read from frames.
ghost use Rattle.std.specs.Prelude.{IfOk};
ghost use Rattle.alp_fields.specs.Forms.{IsRead};
ghost use Rattle.alp_rpc.specs.Changes.{prop_change};

use alp_base::OutOfMemory;
use alp_fields::FieldReader;
use alp_files::PropChange;
use std::alloc::Global;

/// The change at the front of the bytes that are left, if one is spelled there.
#[tactic(auto, unfolding(crate::specs::Changes::prop_change))]
pub(super) fn read_change(
    alloc: Global,
    reader: &mut FieldReader,
) -> Result<Option<PropChange>, OutOfMemory>
    ensures { IfOk result (IsRead prop_change reader.old reader.new) }
{
    let Some(tag) = reader.u8() else {
        return Ok(None);
    };
    match tag {
        1 => Ok(reader.name().map(PropChange::Owner)),
        2 => Ok(reader.name().map(PropChange::Name)),
        3 => Ok(reader.u16().map(PropChange::TypeNo)),
        4 => Ok(reader.u64().map(PropChange::ByteLength)),
        5 => Ok(reader.list(alloc)?.map(PropChange::Read)),
        6 => Ok(reader.list(alloc)?.map(PropChange::Modify)),
        _ => Ok(None),
    }
}
