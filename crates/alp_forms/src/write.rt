//! Refusals as they are written.
#![tactic(auto, unfolding(crate::specs::Refusals::refusal, alp_fields::specs::Forms::u8))]

ghost use Rattle.std.specs.Prelude.{◌≡◌, OnOk, OnErr};
ghost use Rattle.alp_fields.specs.Forms.{IsWritten, Extends};
ghost use Rattle.alp_files.specs.declared.refusal.Refusal.TheVariants.{StaleSession, AccessDenied, NoSuchPage, QuotaExceeded, VolumeFull, LogFull, TooMany, LockConflict, Aborted};
ghost use Rattle.alp_forms.specs.Refusals.{refusal};

use crate::write_reason::{put_cause, put_list_name, put_what};
use alp_base::{OutOfMemory, TransId};
use alp_fields::{put_trans_id, put_u8, put_u32};
use alp_files::{Cause, ListName, Refusal, What};

fn put_stale_session(out: &mut Vec<u8>, epoch: u32) -> Result<(), OutOfMemory>
    ensures ok { OnOk result (IsWritten refusal (StaleSession epoch) out.old.items out.new.items) }
    ensures err { OnErr result (Extends out.old.items out.new.items) }
{
    put_u8(out, 2)?;
    put_u32(out, epoch)
}

fn put_access_denied(out: &mut Vec<u8>, list: ListName) -> Result<(), OutOfMemory>
    ensures ok { OnOk result (IsWritten refusal (AccessDenied list) out.old.items out.new.items) }
    ensures err { OnErr result (Extends out.old.items out.new.items) }
{
    put_u8(out, 10)?;
    put_list_name(out, list)
}

fn put_no_such_page(out: &mut Vec<u8>, size: u32) -> Result<(), OutOfMemory>
    ensures ok { OnOk result (IsWritten refusal (NoSuchPage size) out.old.items out.new.items) }
    ensures err { OnErr result (Extends out.old.items out.new.items) }
{
    put_u8(out, 11)?;
    put_u32(out, size)
}

fn put_quota_exceeded(
    out: &mut Vec<u8>,
    charge: u32,
    asked: u32,
    quota: u32,
) -> Result<(), OutOfMemory>
    ensures ok { OnOk result (IsWritten refusal (QuotaExceeded charge asked quota) out.old.items out.new.items) }
    ensures err { OnErr result (Extends out.old.items out.new.items) }
{
    put_u8(out, 12)?;
    put_u32(out, charge)?;
    put_u32(out, asked)?;
    put_u32(out, quota)
}

fn put_volume_full(out: &mut Vec<u8>, left: u32, asked: u32) -> Result<(), OutOfMemory>
    ensures ok { OnOk result (IsWritten refusal (VolumeFull left asked) out.old.items out.new.items) }
    ensures err { OnErr result (Extends out.old.items out.new.items) }
{
    put_u8(out, 13)?;
    put_u32(out, left)?;
    put_u32(out, asked)
}

fn put_log_full(out: &mut Vec<u8>, room: u32, asked: u32) -> Result<(), OutOfMemory>
    ensures ok { OnOk result (IsWritten refusal (LogFull room asked) out.old.items out.new.items) }
    ensures err { OnErr result (Extends out.old.items out.new.items) }
{
    put_u8(out, 14)?;
    put_u32(out, room)?;
    put_u32(out, asked)
}

fn put_too_many(out: &mut Vec<u8>, what: What, limit: u32) -> Result<(), OutOfMemory>
    ensures ok { OnOk result (IsWritten refusal (TooMany what limit) out.old.items out.new.items) }
    ensures err { OnErr result (Extends out.old.items out.new.items) }
{
    put_u8(out, 15)?;
    put_what(out, what)?;
    put_u32(out, limit)
}

fn put_lock_conflict(out: &mut Vec<u8>, holder: TransId) -> Result<(), OutOfMemory>
    ensures ok { OnOk result (IsWritten refusal (LockConflict holder) out.old.items out.new.items) }
    ensures err { OnErr result (Extends out.old.items out.new.items) }
{
    put_u8(out, 16)?;
    put_trans_id(out, holder)
}

fn put_aborted(out: &mut Vec<u8>, cause: Cause) -> Result<(), OutOfMemory>
    ensures ok { OnOk result (IsWritten refusal (Aborted cause) out.old.items out.new.items) }
    ensures err { OnErr result (Extends out.old.items out.new.items) }
{
    put_u8(out, 17)?;
    put_cause(out, cause)
}

fn append_refusal(out: &mut Vec<u8>, given: Refusal) -> Result<(), OutOfMemory>
    ensures ok { OnOk result (IsWritten refusal given out.old.items out.new.items) }
    ensures err { OnErr result (Extends out.old.items out.new.items) }
{
    match given {
        Refusal::BadFrame => put_u8(out, 1),
        Refusal::StaleSession { epoch } => put_stale_session(out, epoch),
        Refusal::UnknownTrans => put_u8(out, 3),
        Refusal::Finishing => put_u8(out, 4),
        Refusal::UnknownOpen => put_u8(out, 5),
        Refusal::UnknownFile => put_u8(out, 6),
        Refusal::UnknownOwner => put_u8(out, 7),
        Refusal::OwnerExists => put_u8(out, 8),
        Refusal::ReadOnlyOpen => put_u8(out, 9),
        Refusal::AccessDenied { list } => put_access_denied(out, list),
        Refusal::NoSuchPage { size } => put_no_such_page(out, size),
        Refusal::QuotaExceeded {
            charge,
            asked,
            quota,
        } => put_quota_exceeded(out, charge, asked, quota),
        Refusal::VolumeFull { left, asked } => put_volume_full(out, left, asked),
        Refusal::LogFull { room, asked } => put_log_full(out, room, asked),
        Refusal::TooMany { what, limit } => put_too_many(out, what, limit),
        Refusal::LockConflict { holder } => put_lock_conflict(out, holder),
        Refusal::Aborted { cause } => put_aborted(out, cause),
        Refusal::NotYet => put_u8(out, 18),
        Refusal::ReadFault => put_u8(out, 19),
        Refusal::Down => put_u8(out, 20),
        Refusal::OutOfMemory => put_u8(out, 21),
        Refusal::JournalFull => put_u8(out, 22),
    }
}

/// Writes the refusal behind what stands there, or nothing where there is no memory.
pub fn put_refusal(out: &mut Vec<u8>, given: Refusal) -> Result<(), OutOfMemory>
    ensures ok { OnOk result (IsWritten refusal given out.old.items out.new.items) }
    ensures err { OnErr result (out.new.items ≡ out.old.items) }
{
    let begun = out.len();
    let done = append_refusal(out, given);
    if done.is_err() {
        out.truncate(begun);
    }
    done
}
