//! What stands in front of a call or a reply: client, epoch and number.
ghost use Rattle.std.specs.Prelude.{OnOk, option_map};
ghost use Rattle.alp_fields.specs.Forms.{IsRead, IsWritten};
ghost use Rattle.alp_rpc.specs.Frames.{head, IsHead};

use alp_base::{CLIENTS, OutOfMemory};
use alp_fields::{FieldReader, put_u8, put_u32};

/// Client, epoch and number.
#[tactic(auto, unfolding(crate::specs::Frames::head))]
pub(super) fn read_head(reader: &mut FieldReader) -> Option<(u8, u32, u32)>
    ensures { IsRead head reader.old reader.new (option_map (λ x. (x.0, (x.1, x.2))) result) }
{
    let client = reader.u8()?;
    if client == 0 || client > CLIENTS {
        return None;
    }
    let epoch = reader.u32()?;
    let number = reader.u32()?;
    if number == 0 {
        return None;
    }
    Some((client, epoch, number))
}

#[tactic(auto, unfolding(crate::specs::Frames::head))]
pub(super) fn put_head(
    out: &mut Vec<u8>,
    client: u8,
    epoch: u32,
    number: u32,
) -> Result<(), OutOfMemory>
    requires { IsHead client number }
    ensures { OnOk result (IsWritten head (client, (epoch, number)) out.old.items out.new.items) }
{
    put_u8(out, client)?;
    put_u32(out, epoch)?;
    put_u32(out, number)
}
