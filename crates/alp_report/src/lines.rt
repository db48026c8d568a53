//! A line of the report for each line of a client.
ghost use Rattle.std.specs.Prelude.{◌≡◌, ◌++◌, OnOk};
ghost use Rattle.alp_report.specs.Reports.{handed_text, items_text, line_text};

use crate::replies::put_reply;
use alp_base::OutOfMemory;
use alp_files::Reply;
use alp_journal::Item;
use std::io::{self, Write};

fn put_handed(out: &mut Vec<u8>, handed: &Option<Reply>) -> io::Result<()>
    ensures { OnOk result (out.new.items ≡ out.old.items ++ handed_text handed.now) }
{
    match handed {
        Some(reply) => put_reply(out, reply),
        None => write!(out, "silent"),
    }
}

// Appends what the last of the items was handed.
#[tactic(auto, using(crate::proofs::TextLemmas::last_text))]
fn put_last(out: &mut Vec<u8>, items: &[Item]) -> io::Result<()>
    ensures { OnOk result (out.new.items ≡ out.old.items ++ items_text items.now) }
{
    match items.last() {
        Some(item) => put_handed(out, &item.reply),
        None => write!(out, "none"),
    }
}

fn put_numbered(out: &mut Vec<u8>, number: u32, items: &[Item]) -> io::Result<()>
    ensures { OnOk result (out.new.items ≡ out.old.items ++ line_text number items.now) }
{
    write!(out, "{number} ")?;
    put_last(out, items)?;
    write!(out, "\n")
}

/// Appends the line of the report for the line of a client with this number, which sent these.
pub fn put_line(out: &mut Vec<u8>, number: u32, items: &[Item]) -> Result<(), OutOfMemory>
    ensures { OnOk result (out.new.items ≡ out.old.items ++ line_text number items.now) }
{
    match put_numbered(out, number, items) {
        Ok(()) => Ok(()),
        Err(_) => Err(OutOfMemory),
    }
}
