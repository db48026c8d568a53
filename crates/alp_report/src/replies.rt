//! Replies as text.
ghost use Rattle.std.specs.Prelude.{◌≡◌, ◌∷◌, ◌++◌, OnOk, flat_map};
ghost use Rattle.alp_report.specs.Replies.{stamp_text, names_text, props_text, owner_text, ended_text, reply_text};
ghost use Rattle.alp_report.specs.Sections.{titles_text, numbers_text, access_text};

use crate::pages::put_pages;
use crate::refusals::put_refusal;
use alp_base::{AccessList, Name, OwnerRecord, Props, Stamp};
use alp_files::{Ended, Reply};
use std::io::{self, Write};

fn put_stamp(out: &mut Vec<u8>, stamp: Stamp) -> io::Result<()>
    ensures { OnOk result (out.new.items ≡ out.old.items ++ stamp_text stamp) }
{
    let (ts, trans) = (stamp.ts, stamp.trans);
    write!(out, "{ts} {trans}")
}

fn put_further_names(out: &mut Vec<u8>, names: &[Name]) -> io::Result<()>
    ensures { OnOk result (out.new.items ≡ out.old.items ++ flat_map (λ name. 44 ∷ name) names.now) }
{
    for name in names {
        write!(out, ",")?;
        out.extend_from_slice(name.as_bytes())?;
    }
    Ok(())
}

fn put_names(out: &mut Vec<u8>, list: &AccessList) -> io::Result<()>
    ensures { OnOk result (out.new.items ≡ out.old.items ++ names_text list.now) }
{
    match list.names() {
        [] => write!(out, "-"),
        [first, further @ ..] => {
            out.extend_from_slice(first.as_bytes())?;
            put_further_names(out, further)
        }
    }
}

fn put_numbers(out: &mut Vec<u8>, of: &Props) -> io::Result<()>
    ensures { OnOk result (out.new.items ≡ out.old.items ++ numbers_text of.now) }
{
    let (type_no, time, bytes, size, high) = (
        of.type_no,
        of.create_time,
        of.byte_length,
        of.size,
        of.high_water,
    );
    write!(
        out,
        " type {type_no} time {time} bytes {bytes} size {size} high {high}"
    )
}

fn put_access(out: &mut Vec<u8>, of: &Props) -> io::Result<()>
    ensures { OnOk result (out.new.items ≡ out.old.items ++ access_text of.now) }
{
    write!(out, " read ")?;
    put_names(out, &of.read)?;
    write!(out, " modify ")?;
    put_names(out, &of.modify)
}

fn put_titles(out: &mut Vec<u8>, of: &Props) -> io::Result<()>
    ensures { OnOk result (out.new.items ≡ out.old.items ++ titles_text of.now) }
{
    write!(out, "owner ")?;
    out.extend_from_slice(of.owner.as_bytes())?;
    write!(out, " name ")?;
    out.extend_from_slice(of.name.as_bytes())?;
    Ok(())
}

fn put_props(out: &mut Vec<u8>, props: &Props) -> io::Result<()>
    ensures { OnOk result (out.new.items ≡ out.old.items ++ props_text props.now) }
{
    put_titles(out, props)?;
    put_numbers(out, props)?;
    put_access(out, props)
}

fn put_owner(out: &mut Vec<u8>, owner: &OwnerRecord) -> io::Result<()>
    ensures { OnOk result (out.new.items ≡ out.old.items ++ owner_text owner.now) }
{
    let (charge, quota) = (owner.charge, owner.quota);
    out.extend_from_slice(owner.name.as_bytes())?;
    write!(out, " charge {charge} quota {quota} create ")?;
    put_names(out, &owner.create)
}

fn put_ended(out: &mut Vec<u8>, ended: Ended) -> io::Result<()>
    ensures { OnOk result (out.new.items ≡ out.old.items ++ ended_text ended) }
{
    match ended {
        Ended::Running => write!(out, "running"),
        Ended::Committed { stamp } => {
            write!(out, "committed ")?;
            put_stamp(out, stamp)
        }
        Ended::Aborted => write!(out, "aborted"),
        Ended::Unknown => write!(out, "unknown"),
    }
}

/// Appends a reply.
pub(crate) fn put_reply(out: &mut Vec<u8>, reply: &Reply) -> io::Result<()>
    ensures { OnOk result (out.new.items ≡ out.old.items ++ reply_text reply.now) }
{
    match reply {
        Reply::Welcome { epoch: _ } | Reply::Joined | Reply::Plain => write!(out, "ok"),
        Reply::Begun { trans } => write!(out, "ok trans {trans}"),
        Reply::Created { file, open_no } => write!(out, "ok file {file} open {open_no}"),
        Reply::Opened { open_no } => write!(out, "ok open {open_no}"),
        Reply::Pages(pages) => {
            write!(out, "ok")?;
            put_pages(out, pages.pages())
        }
        Reply::Props(props) => {
            write!(out, "ok props ")?;
            put_props(out, props.props())
        }
        Reply::Owner(owner) => {
            write!(out, "ok owner ")?;
            put_owner(out, owner)
        }
        Reply::Committed { stamp } => {
            write!(out, "ok stamp ")?;
            put_stamp(out, *stamp)
        }
        Reply::Ended(ended) => {
            write!(out, "ok ")?;
            put_ended(out, *ended)
        }
        Reply::Refused(refusal) => {
            write!(out, "refused ")?;
            put_refusal(out, *refusal)
        }
    }
}
