//! What refusals tell, as they are written: lists, limits, votes and causes.
ghost use Rattle.std.specs.Prelude.{OnOk, OnErr};
ghost use Rattle.alp_fields.specs.Forms.{IsWritten, Extends};
ghost use Rattle.alp_forms.specs.Reasons.{list_name, what, why, cause};

use alp_base::OutOfMemory;
use alp_fields::{put_u8, put_u32};
use alp_files::{Cause, ListName, What, Why};

#[tactic(auto, unfolding(crate::specs::Reasons::list_name, alp_fields::specs::Forms::u8))]
pub(super) fn put_list_name(out: &mut Vec<u8>, list: ListName) -> Result<(), OutOfMemory>
    ensures ok { OnOk result (IsWritten list_name list out.old.items out.new.items) }
    ensures err { OnErr result (Extends out.old.items out.new.items) }
{
    match list {
        ListName::Read => put_u8(out, 1),
        ListName::Modify => put_u8(out, 2),
        ListName::Create => put_u8(out, 3),
        ListName::Admin => put_u8(out, 4),
    }
}

#[tactic(auto, unfolding(crate::specs::Reasons::what, alp_fields::specs::Forms::u8))]
pub(super) fn put_what(out: &mut Vec<u8>, limited: What) -> Result<(), OutOfMemory>
    ensures ok { OnOk result (IsWritten what limited out.old.items out.new.items) }
    ensures err { OnErr result (Extends out.old.items out.new.items) }
{
    match limited {
        What::Run => put_u8(out, 1),
        What::Pages => put_u8(out, 2),
        What::Opens => put_u8(out, 3),
        What::Cells => put_u8(out, 4),
        What::Locks => put_u8(out, 5),
        What::Files => put_u8(out, 6),
        What::Owners => put_u8(out, 7),
        What::Transactions => put_u8(out, 8),
    }
}

#[tactic(auto, unfolding(crate::specs::Reasons::why, alp_fields::specs::Forms::u8))]
fn put_why(out: &mut Vec<u8>, reason: Why) -> Result<(), OutOfMemory>
    ensures ok { OnOk result (IsWritten why reason out.old.items out.new.items) }
    ensures err { OnErr result (Extends out.old.items out.new.items) }
{
    match reason {
        Why::UnknownJoin => put_u8(out, 1),
        Why::Waiting => put_u8(out, 2),
        Why::LogFull { room, asked } => {
            put_u8(out, 3)?;
            put_u32(out, room)?;
            put_u32(out, asked)
        }
        Why::ReadFault => put_u8(out, 4),
        Why::ClockEnd => put_u8(out, 5),
    }
}

#[tactic(auto, unfolding(crate::specs::Reasons::cause, alp_fields::specs::Forms::u8))]
pub(super) fn put_cause(out: &mut Vec<u8>, reason: Cause) -> Result<(), OutOfMemory>
    ensures ok { OnOk result (IsWritten cause reason out.old.items out.new.items) }
    ensures err { OnErr result (Extends out.old.items out.new.items) }
{
    match reason {
        Cause::Asked => put_u8(out, 1),
        Cause::TimedOut => put_u8(out, 2),
        Cause::Voted { server, why } => {
            put_u8(out, 3)?;
            put_u8(out, server)?;
            put_why(out, why)
        }
        Cause::Lost { epoch } => {
            put_u8(out, 4)?;
            put_u32(out, epoch)
        }
    }
}
