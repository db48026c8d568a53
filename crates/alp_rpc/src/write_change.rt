//! Changes of properties written to frames.
ghost use Rattle.std.specs.Prelude.{OnOk};
ghost use Rattle.alp_fields.specs.Forms.{IsWritten};
ghost use Rattle.alp_rpc.specs.Changes.{prop_change};

use alp_base::OutOfMemory;
use alp_fields::{put_list, put_name, put_u8, put_u16, put_u64};
use alp_files::PropChange;

/// Writes the change behind what stands there.
#[tactic(auto, unfolding(crate::specs::Changes::prop_change, alp_fields::specs::Forms::u8))]
pub(super) fn put_change(out: &mut Vec<u8>, change: &PropChange) -> Result<(), OutOfMemory>
    ensures { OnOk result (IsWritten prop_change change.now out.old.items out.new.items) }
{
    match change {
        PropChange::Owner(owner) => {
            put_u8(out, 1)?;
            put_name(out, owner)
        }
        PropChange::Name(name) => {
            put_u8(out, 2)?;
            put_name(out, name)
        }
        PropChange::TypeNo(type_no) => {
            put_u8(out, 3)?;
            put_u16(out, *type_no)
        }
        PropChange::ByteLength(length) => {
            put_u8(out, 4)?;
            put_u64(out, *length)
        }
        PropChange::Read(list) => {
            put_u8(out, 5)?;
            put_list(out, list)
        }
        PropChange::Modify(list) => {
            put_u8(out, 6)?;
            put_list(out, list)
        }
    }
}
