//! Calls read from frames: a function for the fields of each.
ghost use Rattle.std.specs.Prelude.{◌≡◌, IfOk};
ghost use Rattle.alp_fields.specs.Forms.{IsRead};
ghost use Rattle.alp_forms.specs.Variants.{AreFieldsRead};
ghost use Rattle.alp_rpc.specs.Calls.{is_run_mode as covers_pages, run_mode, filled_run, open_form, call, create_file, open_file, delete_file, read_pages, write_pages, lock_pages, set_size, write_props, read_owner, make_owner, set_quota, finish};

use crate::read_change::read_change;
use alp_base::{OutOfMemory, PageList, Run, TransId};
use alp_fields::{FieldReader, read_mode, read_props as read_props_field};
use alp_files::{Call, HeldProps};
use alp_modes::Mode;
use std::alloc::Global;

fn is_run_mode(mode: Mode) -> bool
    ensures { result ≡ covers_pages mode }
{
    matches!(mode, Mode::Read | Mode::Update | Mode::Write)
}

#[tactic(auto, unfolding(crate::specs::Calls::run_mode))]
fn take_run_mode(reader: &mut FieldReader) -> Option<Mode>
    ensures { IsRead run_mode reader.old reader.new result }
{
    let asked = read_mode(reader)?;
    if !is_run_mode(asked) {
        return None;
    }
    Some(asked)
}

#[tactic(auto, unfolding(crate::specs::Calls::filled_run))]
fn take_filled_run(
    alloc: Global,
    reader: &mut FieldReader,
) -> Result<Option<(Run, PageList)>, OutOfMemory>
    ensures { IfOk result (IsRead filled_run reader.old reader.new) }
{
    let Some(run) = reader.run() else {
        return Ok(None);
    };
    let Some(pages) = reader.pages(alloc)? else {
        return Ok(None);
    };
    if pages.pages().len() != run.count as usize {
        return Ok(None);
    }
    Ok(Some((run, pages)))
}

fn take_open(reader: &mut FieldReader) -> Option<(TransId, u32)>
    ensures { IsRead open_form reader.old reader.new result }
{
    let trans = reader.trans_id()?;
    let open_no = reader.u32()?;
    Some((trans, open_no))
}

fn take_create_file(alloc: Global, reader: &mut FieldReader) -> Result<Option<Call>, OutOfMemory>
    ensures { IfOk result (AreFieldsRead create_file reader.old reader.new) }
{
    let Some(trans) = reader.trans_id() else {
        return Ok(None);
    };
    let Some(start) = read_props_field(alloc, reader)? else {
        return Ok(None);
    };
    let Some(choice) = reader.choice() else {
        return Ok(None);
    };
    let start = HeldProps::new(alloc, start)?;
    Ok(Some(Call::CreateFile {
        trans,
        start,
        choice,
    }))
}

fn take_open_file(reader: &mut FieldReader) -> Option<Call>
    ensures { AreFieldsRead open_file reader.old reader.new result }
{
    let trans = reader.trans_id()?;
    let file = reader.file_id()?;
    let access = reader.access()?;
    let mode = read_mode(reader)?;
    let choice = reader.choice()?;
    Some(Call::OpenFile {
        trans,
        file,
        access,
        mode,
        choice,
    })
}

fn take_delete_file(reader: &mut FieldReader) -> Option<Call>
    ensures { AreFieldsRead delete_file reader.old reader.new result }
{
    let (trans, open_no) = take_open(reader)?;
    let choice = reader.choice()?;
    Some(Call::DeleteFile {
        trans,
        open_no,
        choice,
    })
}

fn take_read_pages(reader: &mut FieldReader) -> Option<Call>
    ensures { AreFieldsRead read_pages reader.old reader.new result }
{
    let (trans, open_no) = take_open(reader)?;
    let run = reader.run()?;
    let mode = take_run_mode(reader)?;
    let choice = reader.choice()?;
    Some(Call::ReadPages {
        trans,
        open_no,
        run,
        mode,
        choice,
    })
}

fn take_write_pages(alloc: Global, reader: &mut FieldReader) -> Result<Option<Call>, OutOfMemory>
    ensures { IfOk result (AreFieldsRead write_pages reader.old reader.new) }
{
    let Some((trans, open_no)) = take_open(reader) else {
        return Ok(None);
    };
    let Some((run, pages)) = take_filled_run(alloc, reader)? else {
        return Ok(None);
    };
    let Some(choice) = reader.choice() else {
        return Ok(None);
    };
    Ok(Some(Call::WritePages {
        trans,
        open_no,
        run,
        pages,
        choice,
    }))
}

fn take_lock_pages(reader: &mut FieldReader) -> Option<Call>
    ensures { AreFieldsRead lock_pages reader.old reader.new result }
{
    let (trans, open_no) = take_open(reader)?;
    let run = reader.run()?;
    let mode = take_run_mode(reader)?;
    let choice = reader.choice()?;
    Some(Call::LockPages {
        trans,
        open_no,
        run,
        mode,
        choice,
    })
}

fn take_set_size(reader: &mut FieldReader) -> Option<Call>
    ensures { AreFieldsRead set_size reader.old reader.new result }
{
    let (trans, open_no) = take_open(reader)?;
    let size = reader.u32()?;
    let choice = reader.choice()?;
    Some(Call::SetSize {
        trans,
        open_no,
        size,
        choice,
    })
}

fn take_write_props(alloc: Global, reader: &mut FieldReader) -> Result<Option<Call>, OutOfMemory>
    ensures { IfOk result (AreFieldsRead write_props reader.old reader.new) }
{
    let Some((trans, open_no)) = take_open(reader) else {
        return Ok(None);
    };
    let Some(change) = read_change(alloc, reader)? else {
        return Ok(None);
    };
    let Some(choice) = reader.choice() else {
        return Ok(None);
    };
    Ok(Some(Call::WriteProps {
        trans,
        open_no,
        change,
        choice,
    }))
}

fn take_read_owner(reader: &mut FieldReader) -> Option<Call>
    ensures { AreFieldsRead read_owner reader.old reader.new result }
{
    let trans = reader.trans_id()?;
    let owner = reader.name()?;
    let choice = reader.choice()?;
    Some(Call::ReadOwner {
        trans,
        owner,
        choice,
    })
}

fn take_make_owner(alloc: Global, reader: &mut FieldReader) -> Result<Option<Call>, OutOfMemory>
    ensures { IfOk result (AreFieldsRead make_owner reader.old reader.new) }
{
    let Some(trans) = reader.trans_id() else {
        return Ok(None);
    };
    let Some(owner) = reader.name() else {
        return Ok(None);
    };
    let Some(quota) = reader.u32() else {
        return Ok(None);
    };
    let Some(create) = reader.list(alloc)? else {
        return Ok(None);
    };
    let Some(choice) = reader.choice() else {
        return Ok(None);
    };
    Ok(Some(Call::MakeOwner {
        trans,
        owner,
        quota,
        create,
        choice,
    }))
}

fn take_set_quota(reader: &mut FieldReader) -> Option<Call>
    ensures { AreFieldsRead set_quota reader.old reader.new result }
{
    let trans = reader.trans_id()?;
    let owner = reader.name()?;
    let quota = reader.u32()?;
    let choice = reader.choice()?;
    Some(Call::SetQuota {
        trans,
        owner,
        quota,
        choice,
    })
}

fn take_finish(reader: &mut FieldReader) -> Option<Call>
    ensures { AreFieldsRead finish reader.old reader.new result }
{
    let trans = reader.trans_id()?;
    let commit = reader.flag()?;
    Some(Call::Finish { trans, commit })
}

/// The call at the front of the bytes that are left, if one is spelled there.
#[tactic(auto, unfolding(crate::specs::Calls::call))]
pub(super) fn read_call(
    alloc: Global,
    reader: &mut FieldReader,
) -> Result<Option<Call>, OutOfMemory>
    ensures { IfOk result (IsRead call reader.old reader.new) }
{
    let Some(tag) = reader.u8() else {
        return Ok(None);
    };
    match tag {
        1 => Ok(reader.name().map(|name| Call::Hello { name })),
        2 => Ok(reader.stamp().map(|seen| Call::Begin { seen })),
        3 => Ok(reader.trans_id().map(|trans| Call::Join { trans })),
        4 => take_create_file(alloc, reader),
        5 => Ok(take_open_file(reader)),
        6 => Ok(take_open(reader).map(|(trans, open_no)| Call::CloseFile { trans, open_no })),
        7 => Ok(take_delete_file(reader)),
        8 => Ok(take_read_pages(reader)),
        9 => take_write_pages(alloc, reader),
        10 => Ok(take_lock_pages(reader)),
        11 => Ok(take_set_size(reader)),
        12 => Ok(take_open(reader).map(|(trans, open_no)| Call::ReadProps { trans, open_no })),
        13 => take_write_props(alloc, reader),
        14 => Ok(take_read_owner(reader)),
        15 => take_make_owner(alloc, reader),
        16 => Ok(take_set_quota(reader)),
        17 => Ok(take_finish(reader)),
        18 => Ok(reader.trans_id().map(|trans| Call::Outcome { trans })),
        19 => Ok(reader.u32().map(|number| Call::Collect { number })),
        _ => Ok(None),
    }
}
