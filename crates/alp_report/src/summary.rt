//! What the servers of a run hold in the end, and how its transactions ended.
ghost use Rattle.std.specs.Prelude.{◌≡◌, ◌++◌, OnOk, flat_map};
ghost use Rattle.alp_report.specs.Reports.{files_text, owner_line, owners_text, count_text};
ghost use Rattle.alp_report.specs.Sections.{charges_of, held_text, owned_text, printed};

use alp_base::{OutOfMemory, OwnerRecord};
use std::io::{self, Write};

/// What a server holds at the end of a run. Owners are charged for all pages of all files.
#[derive(Drop)]
pub struct Held {
    pub server: u8,
    pub epoch: u32,
    pub clock: u64,
    /// How many files there are.
    pub files: u32,
    /// The owners, in rising order of their names.
    pub owners: Vec<OwnerRecord>,
}

/// What the servers of a run hold at its end, and how many of its transactions ended how.
#[derive(Clone, Copy)]
pub struct Summary<'a> {
    /// The servers, in the order of their numbers.
    pub servers: &'a [Held],
    pub committed: u32,
    pub aborted: u32,
}

/// The sum fits: a slice has fewer than 2^63 items.
fn charges(owners: &[OwnerRecord]) -> u128
    ensures { result ≡ charges_of owners.now }
{
    let mut total = 0u128;
    for owner in owners {
        total += owner.charge as u128;
    }
    total
}

fn put_files(out: &mut Vec<u8>, files: u32, owners: &[OwnerRecord]) -> io::Result<()>
    ensures { OnOk result (out.new.items ≡ out.old.items ++ files_text files (charges_of owners.now)) }
{
    let pages = charges(owners);
    write!(out, " files {files} pages {pages}\n")
}

fn put_server(out: &mut Vec<u8>, held: &Held) -> io::Result<()>
    ensures { OnOk result (out.new.items ≡ out.old.items ++ held_text held.now) }
{
    let (server, epoch, clock) = (held.server, held.epoch, held.clock);
    write!(out, "server {server} epoch {epoch} clock {clock}")?;
    put_files(out, held.files, held.owners.as_slice())
}

fn put_servers(out: &mut Vec<u8>, servers: &[Held]) -> io::Result<()>
    ensures { OnOk result (out.new.items ≡ out.old.items ++ flat_map held_text servers.now) }
{
    for held in servers {
        put_server(out, held)?;
    }
    Ok(())
}

fn put_owner_line(out: &mut Vec<u8>, server: u8, owner: &OwnerRecord) -> io::Result<()>
    ensures { OnOk result (out.new.items ≡ out.old.items ++ owner_line server owner.now) }
{
    let (charge, quota) = (owner.charge, owner.quota);
    write!(out, "owner {server} ")?;
    out.extend_from_slice(owner.name.as_bytes())?;
    write!(out, " charge {charge} quota {quota}\n")
}

fn put_owners(out: &mut Vec<u8>, server: u8, owners: &[OwnerRecord]) -> io::Result<()>
    ensures { OnOk result (out.new.items ≡ out.old.items ++ owners_text server owners.now) }
{
    for owner in owners {
        put_owner_line(out, server, owner)?;
    }
    Ok(())
}

fn put_all_owners(out: &mut Vec<u8>, servers: &[Held]) -> io::Result<()>
    ensures { OnOk result (out.new.items ≡ out.old.items ++ flat_map owned_text servers.now) }
{
    for held in servers {
        put_owners(out, held.server, held.owners.as_slice())?;
    }
    Ok(())
}

fn put_count(out: &mut Vec<u8>, committed: u32, aborted: u32) -> io::Result<()>
    ensures { OnOk result (out.new.items ≡ out.old.items ++ count_text committed aborted) }
{
    write!(out, "committed {committed} aborted {aborted}\n")
}

fn put_sections(out: &mut Vec<u8>, summary: &Summary) -> io::Result<()>
    ensures { OnOk result (out.new.items ≡ out.old.items ++ printed summary.now) }
{
    put_servers(out, summary.servers)?;
    put_all_owners(out, summary.servers)?;
    put_count(out, summary.committed, summary.aborted)
}

/// Appends what the servers hold at the end, then their owners, and how the transactions ended.
pub fn put_summary(out: &mut Vec<u8>, summary: &Summary) -> Result<(), OutOfMemory>
    ensures { OnOk result (out.new.items ≡ out.old.items ++ printed summary.now) }
{
    match put_sections(out, summary) {
        Ok(()) => Ok(()),
        Err(_) => Err(OutOfMemory),
    }
}
