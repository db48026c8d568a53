//! Refusals as text: a number, and what the caller needs to know.
ghost use Rattle.std.specs.Prelude.{◌≡◌, ◌++◌, OnOk};
ghost use Rattle.alp_report.specs.Replies.{list_text, what_text, why_text, cause_text, refusal_text};

use alp_files::{Cause, ListName, Refusal, What, Why};
use std::io::{self, Write};

fn list_name(list: ListName) -> &'static str
    ensures { result.now ≡ list_text list }
{
    match list {
        ListName::Read => "read",
        ListName::Modify => "modify",
        ListName::Create => "create",
        ListName::Admin => "admin",
    }
}

fn what_name(what: What) -> &'static str
    ensures { result.now ≡ what_text what }
{
    match what {
        What::Run => "Run",
        What::Pages => "Pages",
        What::Opens => "Opens",
        What::Cells => "Cells",
        What::Locks => "Locks",
        What::Files => "Files",
        What::Owners => "Owners",
        What::Transactions => "Transactions",
    }
}

fn put_why(out: &mut Vec<u8>, why: Why) -> io::Result<()>
    ensures { OnOk result (out.new.items ≡ out.old.items ++ why_text why) }
{
    match why {
        Why::UnknownJoin => write!(out, "UnknownJoin"),
        Why::Waiting => write!(out, "Waiting"),
        Why::LogFull { room, asked } => write!(out, "LogFull {room} {asked}"),
        Why::ReadFault => write!(out, "ReadFault"),
        Why::ClockEnd => write!(out, "ClockEnd"),
    }
}

fn put_cause(out: &mut Vec<u8>, cause: Cause) -> io::Result<()>
    ensures { OnOk result (out.new.items ≡ out.old.items ++ cause_text cause) }
{
    match cause {
        Cause::Asked => write!(out, "Asked"),
        Cause::TimedOut => write!(out, "TimedOut"),
        Cause::Voted { server, why } => {
            write!(out, "Voted {server} ")?;
            put_why(out, why)
        }
        Cause::Lost { epoch } => write!(out, "Lost {epoch}"),
    }
}

/// Appends the number of a refusal and its fields.
pub(crate) fn put_refusal(out: &mut Vec<u8>, refusal: Refusal) -> io::Result<()>
    ensures { OnOk result (out.new.items ≡ out.old.items ++ refusal_text refusal) }
{
    match refusal {
        Refusal::BadFrame => write!(out, "1"),
        Refusal::StaleSession { epoch } => write!(out, "2 epoch {epoch}"),
        Refusal::UnknownTrans => write!(out, "3"),
        Refusal::Finishing => write!(out, "4"),
        Refusal::UnknownOpen => write!(out, "5"),
        Refusal::UnknownFile => write!(out, "6"),
        Refusal::UnknownOwner => write!(out, "7"),
        Refusal::OwnerExists => write!(out, "8"),
        Refusal::ReadOnlyOpen => write!(out, "9"),
        Refusal::AccessDenied { list } => write!(out, "10 {}", list_name(list)),
        Refusal::NoSuchPage { size } => write!(out, "11 size {size}"),
        Refusal::QuotaExceeded {
            charge,
            asked,
            quota,
        } => { write!(out, "12 charge {charge} asked {asked} quota {quota}") }
        Refusal::VolumeFull { left, asked } => write!(out, "13 left {left} asked {asked}"),
        Refusal::LogFull { room, asked } => write!(out, "14 room {room} asked {asked}"),
        Refusal::TooMany { what, limit } => write!(out, "15 {} {limit}", what_name(what)),
        Refusal::LockConflict { holder } => write!(out, "16 holder {holder}"),
        Refusal::Aborted { cause } => {
            write!(out, "17 ")?;
            put_cause(out, cause)
        }
        Refusal::NotYet => write!(out, "18"),
        Refusal::ReadFault => write!(out, "19"),
        Refusal::Down => write!(out, "20"),
        Refusal::OutOfMemory => write!(out, "21"),
        Refusal::JournalFull => write!(out, "22"),
    }
}
