//! Replies read from frames: a function for the fields of each.
ghost use Rattle.std.specs.Prelude.{IfOk};
ghost use Rattle.alp_fields.specs.Forms.{IsRead};
ghost use Rattle.alp_fields.specs.PropsField.{props};
ghost use Rattle.alp_forms.specs.Variants.{AreFieldsRead};
ghost use Rattle.alp_rpc.specs.Endings.{ended};
ghost use Rattle.alp_rpc.specs.Replies.{owner_field, created, reply};

use alp_base::{OutOfMemory, OwnerRecord};
use alp_fields::{FieldReader, read_props as read_props_field};
use alp_files::{Ended, HeldProps, Reply};
use alp_forms::read_refusal;
use std::alloc::Global;

fn take_created(reader: &mut FieldReader) -> Option<Reply>
    ensures { AreFieldsRead created reader.old reader.new result }
{
    let file = reader.file_id()?;
    let open_no = reader.u32()?;
    Some(Reply::Created { file, open_no })
}

fn read_props(alloc: Global, reader: &mut FieldReader) -> Result<Option<HeldProps>, OutOfMemory>
    ensures { IfOk result (IsRead props reader.old reader.new) }
{
    let Some(found) = read_props_field(alloc, reader)? else {
        return Ok(None);
    };
    let held = HeldProps::new(alloc, found)?;
    Ok(Some(held))
}

#[tactic(auto, unfolding(crate::specs::Replies::owner_field))]
fn read_owner(alloc: Global, reader: &mut FieldReader) -> Result<Option<OwnerRecord>, OutOfMemory>
    ensures { IfOk result (IsRead owner_field reader.old reader.new) }
{
    let Some(name) = reader.name() else {
        return Ok(None);
    };
    let Some(quota) = reader.u32() else {
        return Ok(None);
    };
    let Some(charge) = reader.u32() else {
        return Ok(None);
    };
    let Some(create) = reader.list(alloc)? else {
        return Ok(None);
    };
    Ok(Some(OwnerRecord {
        name,
        quota,
        charge,
        create,
    }))
}

#[tactic(auto, unfolding(crate::specs::Endings::ended))]
fn read_ended(reader: &mut FieldReader) -> Option<Ended>
    ensures { IsRead ended reader.old reader.new result }
{
    match reader.u8()? {
        0 => Some(Ended::Running),
        1 => reader.stamp().map(|stamp| Ended::Committed { stamp }),
        2 => Some(Ended::Aborted),
        3 => Some(Ended::Unknown),
        _ => None,
    }
}

/// The reply at the front of the bytes that are left, if one is spelled there.
#[tactic(auto, unfolding(crate::specs::Replies::reply))]
pub(super) fn read_reply(
    alloc: Global,
    reader: &mut FieldReader,
) -> Result<Option<Reply>, OutOfMemory>
    ensures { IfOk result (IsRead reply reader.old reader.new) }
{
    let Some(tag) = reader.u8() else {
        return Ok(None);
    };
    match tag {
        1 => Ok(reader.u32().map(|epoch| Reply::Welcome { epoch })),
        2 => Ok(reader.trans_id().map(|trans| Reply::Begun { trans })),
        3 => Ok(Some(Reply::Joined)),
        4 => Ok(take_created(reader)),
        5 => Ok(reader.u32().map(|open_no| Reply::Opened { open_no })),
        6 => Ok(Some(Reply::Plain)),
        7 => Ok(reader.pages(alloc)?.map(Reply::Pages)),
        8 => Ok(read_props(alloc, reader)?.map(Reply::Props)),
        9 => Ok(read_owner(alloc, reader)?.map(Reply::Owner)),
        10 => Ok(reader.stamp().map(|stamp| Reply::Committed { stamp })),
        11 => Ok(read_ended(reader).map(Reply::Ended)),
        12 => Ok(read_refusal(reader).map(Reply::Refused)),
        _ => Ok(None),
    }
}
