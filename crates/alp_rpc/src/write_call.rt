//! Calls written to frames: a function for each.
#![tactic(auto, unfolding(crate::specs::Calls::call, alp_fields::specs::Forms::u8))]

ghost use Rattle.std.specs.Prelude.{◌≡◌, ◌≤◌, ◌^◌, true, length, OnOk};
ghost use Rattle.alp_fields.specs.Forms.{IsWritten};
ghost use Rattle.alp_files.specs.declared.call.Call.TheVariants.{Hello, Begin, Join, CreateFile, OpenFile, CloseFile, DeleteFile, ReadPages, WritePages, LockPages, SetSize, ReadProps, WriteProps, ReadOwner, MakeOwner, SetQuota, Finish, Outcome, Collect};
ghost use Rattle.alp_rpc.specs.Calls.{is_run_mode, run_mode, filled_run, open_form, call, IsSendable};

use crate::write_change::put_change;
use alp_base::{
    Access, AccessList, Choice, FileId, Name, OutOfMemory, PageList, Props, Run, Stamp, TransId,
};
use alp_fields::{
    put_access, put_choice, put_file_id, put_flag, put_list, put_mode, put_name, put_pages,
    put_props, put_run, put_stamp, put_trans_id, put_u8, put_u32,
};
use alp_files::{Call, PropChange};
use alp_modes::Mode;

fn put_open(out: &mut Vec<u8>, trans: TransId, open_no: u32) -> Result<(), OutOfMemory>
    ensures { OnOk result (IsWritten open_form (trans, open_no) out.old.items out.new.items) }
{
    put_trans_id(out, trans)?;
    put_u32(out, open_no)
}

#[tactic(auto, unfolding(crate::specs::Calls::run_mode))]
fn put_run_mode(out: &mut Vec<u8>, mode: Mode) -> Result<(), OutOfMemory>
    requires { is_run_mode mode ≡ true }
    ensures { OnOk result (IsWritten run_mode mode out.old.items out.new.items) }
{
    put_mode(out, mode)
}

#[tactic(auto, unfolding(crate::specs::Calls::filled_run))]
fn put_filled_run(out: &mut Vec<u8>, run: Run, pages: &PageList) -> Result<(), OutOfMemory>
    requires some { 1 ≤ run.count }
    requires filled { run.count ≡ length pages.now }
    ensures { OnOk result (IsWritten filled_run (run, pages.now) out.old.items out.new.items) }
{
    put_run(out, run)?;
    put_pages(out, pages)
}

fn put_hello(out: &mut Vec<u8>, name: &Name) -> Result<(), OutOfMemory>
    ensures { OnOk result (IsWritten call (Hello name.now) out.old.items out.new.items) }
{
    put_u8(out, 1)?;
    put_name(out, name)
}

fn put_begin(out: &mut Vec<u8>, seen: Stamp) -> Result<(), OutOfMemory>
    requires { seen.ts ≤ 2 ^ 62 }
    ensures { OnOk result (IsWritten call (Begin seen) out.old.items out.new.items) }
{
    put_u8(out, 2)?;
    put_stamp(out, seen)
}

fn put_join(out: &mut Vec<u8>, trans: TransId) -> Result<(), OutOfMemory>
    ensures { OnOk result (IsWritten call (Join trans) out.old.items out.new.items) }
{
    put_u8(out, 3)?;
    put_trans_id(out, trans)
}

fn put_create_file(
    out: &mut Vec<u8>,
    trans: TransId,
    start: &Props,
    choice: Choice,
) -> Result<(), OutOfMemory>
    ensures { OnOk result (IsWritten call (CreateFile trans start.now choice) out.old.items out.new.items) }
{
    put_u8(out, 4)?;
    put_trans_id(out, trans)?;
    put_props(out, start)?;
    put_choice(out, choice)
}

fn put_open_file(
    out: &mut Vec<u8>,
    trans: TransId,
    file: FileId,
    access: Access,
    mode: Mode,
    choice: Choice,
) -> Result<(), OutOfMemory>
    ensures { OnOk result (IsWritten call (OpenFile trans file access mode choice) out.old.items out.new.items) }
{
    put_u8(out, 5)?;
    put_trans_id(out, trans)?;
    put_file_id(out, file)?;
    put_access(out, access)?;
    put_mode(out, mode)?;
    put_choice(out, choice)
}

fn put_close_file(out: &mut Vec<u8>, trans: TransId, open_no: u32) -> Result<(), OutOfMemory>
    ensures { OnOk result (IsWritten call (CloseFile trans open_no) out.old.items out.new.items) }
{
    put_u8(out, 6)?;
    put_open(out, trans, open_no)
}

fn put_delete_file(
    out: &mut Vec<u8>,
    trans: TransId,
    open_no: u32,
    choice: Choice,
) -> Result<(), OutOfMemory>
    ensures { OnOk result (IsWritten call (DeleteFile trans open_no choice) out.old.items out.new.items) }
{
    put_u8(out, 7)?;
    put_open(out, trans, open_no)?;
    put_choice(out, choice)
}

fn put_read_pages(
    out: &mut Vec<u8>,
    trans: TransId,
    open_no: u32,
    run: Run,
    mode: Mode,
    choice: Choice,
) -> Result<(), OutOfMemory>
    requires some { 1 ≤ run.count }
    requires mode { is_run_mode mode ≡ true }
    ensures { OnOk result (IsWritten call (ReadPages trans open_no run mode choice) out.old.items out.new.items) }
{
    put_u8(out, 8)?;
    put_open(out, trans, open_no)?;
    put_run(out, run)?;
    put_run_mode(out, mode)?;
    put_choice(out, choice)
}

fn put_write_pages(
    out: &mut Vec<u8>,
    trans: TransId,
    open_no: u32,
    run: Run,
    pages: &PageList,
    choice: Choice,
) -> Result<(), OutOfMemory>
    requires some { 1 ≤ run.count }
    requires filled { run.count ≡ length pages.now }
    ensures { OnOk result (IsWritten call (WritePages trans open_no run pages.now choice) out.old.items out.new.items) }
{
    put_u8(out, 9)?;
    put_open(out, trans, open_no)?;
    put_filled_run(out, run, pages)?;
    put_choice(out, choice)
}

fn put_lock_pages(
    out: &mut Vec<u8>,
    trans: TransId,
    open_no: u32,
    run: Run,
    mode: Mode,
    choice: Choice,
) -> Result<(), OutOfMemory>
    requires some { 1 ≤ run.count }
    requires mode { is_run_mode mode ≡ true }
    ensures { OnOk result (IsWritten call (LockPages trans open_no run mode choice) out.old.items out.new.items) }
{
    put_u8(out, 10)?;
    put_open(out, trans, open_no)?;
    put_run(out, run)?;
    put_run_mode(out, mode)?;
    put_choice(out, choice)
}

fn put_set_size(
    out: &mut Vec<u8>,
    trans: TransId,
    open_no: u32,
    size: u32,
    choice: Choice,
) -> Result<(), OutOfMemory>
    ensures { OnOk result (IsWritten call (SetSize trans open_no size choice) out.old.items out.new.items) }
{
    put_u8(out, 11)?;
    put_open(out, trans, open_no)?;
    put_u32(out, size)?;
    put_choice(out, choice)
}

fn put_read_props(out: &mut Vec<u8>, trans: TransId, open_no: u32) -> Result<(), OutOfMemory>
    ensures { OnOk result (IsWritten call (ReadProps trans open_no) out.old.items out.new.items) }
{
    put_u8(out, 12)?;
    put_open(out, trans, open_no)
}

fn put_write_props(
    out: &mut Vec<u8>,
    trans: TransId,
    open_no: u32,
    change: &PropChange,
    choice: Choice,
) -> Result<(), OutOfMemory>
    ensures { OnOk result (IsWritten call (WriteProps trans open_no change.now choice) out.old.items out.new.items) }
{
    put_u8(out, 13)?;
    put_open(out, trans, open_no)?;
    put_change(out, change)?;
    put_choice(out, choice)
}

fn put_read_owner(
    out: &mut Vec<u8>,
    trans: TransId,
    owner: &Name,
    choice: Choice,
) -> Result<(), OutOfMemory>
    ensures { OnOk result (IsWritten call (ReadOwner trans owner.now choice) out.old.items out.new.items) }
{
    put_u8(out, 14)?;
    put_trans_id(out, trans)?;
    put_name(out, owner)?;
    put_choice(out, choice)
}

fn put_make_owner(
    out: &mut Vec<u8>,
    trans: TransId,
    owner: &Name,
    quota: u32,
    create: &AccessList,
    choice: Choice,
) -> Result<(), OutOfMemory>
    ensures { OnOk result (IsWritten call (MakeOwner trans owner.now quota create.now choice) out.old.items out.new.items) }
{
    put_u8(out, 15)?;
    put_trans_id(out, trans)?;
    put_name(out, owner)?;
    put_u32(out, quota)?;
    put_list(out, create)?;
    put_choice(out, choice)
}

fn put_set_quota(
    out: &mut Vec<u8>,
    trans: TransId,
    owner: &Name,
    quota: u32,
    choice: Choice,
) -> Result<(), OutOfMemory>
    ensures { OnOk result (IsWritten call (SetQuota trans owner.now quota choice) out.old.items out.new.items) }
{
    put_u8(out, 16)?;
    put_trans_id(out, trans)?;
    put_name(out, owner)?;
    put_u32(out, quota)?;
    put_choice(out, choice)
}

fn put_finish(out: &mut Vec<u8>, trans: TransId, commit: bool) -> Result<(), OutOfMemory>
    ensures { OnOk result (IsWritten call (Finish trans commit) out.old.items out.new.items) }
{
    put_u8(out, 17)?;
    put_trans_id(out, trans)?;
    put_flag(out, commit)
}

fn put_outcome(out: &mut Vec<u8>, trans: TransId) -> Result<(), OutOfMemory>
    ensures { OnOk result (IsWritten call (Outcome trans) out.old.items out.new.items) }
{
    put_u8(out, 18)?;
    put_trans_id(out, trans)
}

fn put_collect(out: &mut Vec<u8>, number: u32) -> Result<(), OutOfMemory>
    ensures { OnOk result (IsWritten call (Collect number) out.old.items out.new.items) }
{
    put_u8(out, 19)?;
    put_u32(out, number)
}

/// Writes the call behind what stands there.
#[rattlefmt::skip]
pub(super) fn put_call(out: &mut Vec<u8>, given: &Call) -> Result<(), OutOfMemory>
    requires { IsSendable given.now }
    ensures { OnOk result (IsWritten call given.now out.old.items out.new.items) }
{
    match given {
        Call::Hello { name } => put_hello(out, name),
        Call::Begin { seen } => put_begin(out, *seen),
        Call::Join { trans } => put_join(out, *trans),
        Call::CreateFile { trans, start, choice } => put_create_file(out, *trans, start.props(), *choice),
        Call::OpenFile { trans, file, access, mode, choice } => put_open_file(out, *trans, *file, *access, *mode, *choice),
        Call::CloseFile { trans, open_no } => put_close_file(out, *trans, *open_no),
        Call::DeleteFile { trans, open_no, choice } => put_delete_file(out, *trans, *open_no, *choice),
        Call::ReadPages { trans, open_no, run, mode, choice } => put_read_pages(out, *trans, *open_no, *run, *mode, *choice),
        Call::WritePages { trans, open_no, run, pages, choice } => put_write_pages(out, *trans, *open_no, *run, pages, *choice),
        Call::LockPages { trans, open_no, run, mode, choice } => put_lock_pages(out, *trans, *open_no, *run, *mode, *choice),
        Call::SetSize { trans, open_no, size, choice } => put_set_size(out, *trans, *open_no, *size, *choice),
        Call::ReadProps { trans, open_no } => put_read_props(out, *trans, *open_no),
        Call::WriteProps { trans, open_no, change, choice } => put_write_props(out, *trans, *open_no, change, *choice),
        Call::ReadOwner { trans, owner, choice } => put_read_owner(out, *trans, owner, *choice),
        Call::MakeOwner { trans, owner, quota, create, choice } => put_make_owner(out, *trans, owner, *quota, create, *choice),
        Call::SetQuota { trans, owner, quota, choice } => put_set_quota(out, *trans, owner, *quota, *choice),
        Call::Finish { trans, commit } => put_finish(out, *trans, *commit),
        Call::Outcome { trans } => put_outcome(out, *trans),
        Call::Collect { number } => put_collect(out, *number),
    }
}
