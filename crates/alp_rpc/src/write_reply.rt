//! Replies written to frames: a function for each.
#![tactic(auto, unfolding(crate::specs::Replies::reply, alp_fields::specs::Forms::u8))]

ghost use Rattle.std.specs.Prelude.{◌<◌, ◌≤◌, ◌^◌, length, OnOk};
ghost use Rattle.alp_fields.specs.Forms.{IsWritten};
ghost use Rattle.alp_files.specs.declared.reply.Reply.TheVariants.{Welcome, Begun, Created, Opened, Pages, Props, Owner, Committed, Ended, Refused};
ghost use Rattle.alp_rpc.specs.Endings.{ended};
ghost use Rattle.alp_rpc.specs.Replies.{owner_field, reply, IsSendable, IsSendableEnding};

use alp_base::{FileId, OutOfMemory, OwnerRecord, PageList, Props as FileProps, Stamp, TransId};
use alp_fields::{
    put_file_id, put_list, put_name, put_pages, put_props, put_stamp, put_trans_id, put_u8, put_u32,
};
use alp_files::{Ended as Ending, Refusal, Reply};
use alp_forms::put_refusal;

fn put_welcome(out: &mut Vec<u8>, epoch: u32) -> Result<(), OutOfMemory>
    ensures { OnOk result (IsWritten reply (Welcome epoch) out.old.items out.new.items) }
{
    put_u8(out, 1)?;
    put_u32(out, epoch)
}

fn put_begun(out: &mut Vec<u8>, trans: TransId) -> Result<(), OutOfMemory>
    ensures { OnOk result (IsWritten reply (Begun trans) out.old.items out.new.items) }
{
    put_u8(out, 2)?;
    put_trans_id(out, trans)
}

fn put_created(out: &mut Vec<u8>, file: FileId, open_no: u32) -> Result<(), OutOfMemory>
    ensures { OnOk result (IsWritten reply (Created file open_no) out.old.items out.new.items) }
{
    put_u8(out, 4)?;
    put_file_id(out, file)?;
    put_u32(out, open_no)
}

fn put_opened(out: &mut Vec<u8>, open_no: u32) -> Result<(), OutOfMemory>
    ensures { OnOk result (IsWritten reply (Opened open_no) out.old.items out.new.items) }
{
    put_u8(out, 5)?;
    put_u32(out, open_no)
}

fn put_some_pages(out: &mut Vec<u8>, pages: &PageList) -> Result<(), OutOfMemory>
    requires some { 1 ≤ length pages.now }
    requires few { length pages.now < 2 ^ 8 }
    ensures { OnOk result (IsWritten reply (Pages pages.now) out.old.items out.new.items) }
{
    put_u8(out, 7)?;
    put_pages(out, pages)
}

fn put_some_props(out: &mut Vec<u8>, props: &FileProps) -> Result<(), OutOfMemory>
    ensures { OnOk result (IsWritten reply (Props props.now) out.old.items out.new.items) }
{
    put_u8(out, 8)?;
    put_props(out, props)
}

#[tactic(auto, unfolding(crate::specs::Replies::owner_field))]
fn put_owner_field(out: &mut Vec<u8>, owner: &OwnerRecord) -> Result<(), OutOfMemory>
    ensures { OnOk result (IsWritten owner_field owner.now out.old.items out.new.items) }
{
    put_name(out, &owner.name)?;
    put_u32(out, owner.quota)?;
    put_u32(out, owner.charge)?;
    put_list(out, &owner.create)
}

fn put_owner(out: &mut Vec<u8>, owner: &OwnerRecord) -> Result<(), OutOfMemory>
    ensures { OnOk result (IsWritten reply (Owner owner.now) out.old.items out.new.items) }
{
    put_u8(out, 9)?;
    put_owner_field(out, owner)
}

fn put_committed(out: &mut Vec<u8>, stamp: Stamp) -> Result<(), OutOfMemory>
    requires { stamp.ts ≤ 2 ^ 62 }
    ensures { OnOk result (IsWritten reply (Committed stamp) out.old.items out.new.items) }
{
    put_u8(out, 10)?;
    put_stamp(out, stamp)
}

#[tactic(auto, unfolding(crate::specs::Endings::ended, alp_fields::specs::Forms::u8))]
fn put_ending(out: &mut Vec<u8>, how: Ending) -> Result<(), OutOfMemory>
    requires { IsSendableEnding how }
    ensures { OnOk result (IsWritten ended how out.old.items out.new.items) }
{
    match how {
        Ending::Running => put_u8(out, 0),
        Ending::Committed { stamp } => {
            put_u8(out, 1)?;
            put_stamp(out, stamp)
        }
        Ending::Aborted => put_u8(out, 2),
        Ending::Unknown => put_u8(out, 3),
    }
}

fn put_ended(out: &mut Vec<u8>, how: Ending) -> Result<(), OutOfMemory>
    requires { IsSendableEnding how }
    ensures { OnOk result (IsWritten reply (Ended how) out.old.items out.new.items) }
{
    put_u8(out, 11)?;
    put_ending(out, how)
}

fn put_refused(out: &mut Vec<u8>, refusal: Refusal) -> Result<(), OutOfMemory>
    ensures { OnOk result (IsWritten reply (Refused refusal) out.old.items out.new.items) }
{
    put_u8(out, 12)?;
    put_refusal(out, refusal)
}

/// Writes the reply behind what stands there.
pub(super) fn put_reply(out: &mut Vec<u8>, given: &Reply) -> Result<(), OutOfMemory>
    requires { IsSendable given.now }
    ensures { OnOk result (IsWritten reply given.now out.old.items out.new.items) }
{
    match given {
        Reply::Welcome { epoch } => put_welcome(out, *epoch),
        Reply::Begun { trans } => put_begun(out, *trans),
        Reply::Joined => put_u8(out, 3),
        Reply::Created { file, open_no } => put_created(out, *file, *open_no),
        Reply::Opened { open_no } => put_opened(out, *open_no),
        Reply::Plain => put_u8(out, 6),
        Reply::Pages(pages) => put_some_pages(out, pages),
        Reply::Props(props) => put_some_props(out, props.props()),
        Reply::Owner(owner) => put_owner(out, owner),
        Reply::Committed { stamp } => put_committed(out, *stamp),
        Reply::Ended(how) => put_ended(out, *how),
        Reply::Refused(refusal) => put_refused(out, *refusal),
    }
}
