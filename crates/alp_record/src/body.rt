//! Bodies: bytes in pages, with zeros behind them to the end of the last page.
ghost use Rattle.std.specs.Prelude.{◌≡◌, ◌<◌, ◌≤◌, ◌+◌, ◌*◌, ◌++◌, ◌^◌, ◌↔◌, ℕ, List, length, take, drop, replicate, IsTrue, OnOk, IfOk, IfSome, IsErrOf, MatchResult, MatchOption};
ghost use Rattle.alp_base.specs.Causes.{Rose};
ghost use Rattle.alp_base.specs.declared.faults.Halt.TheVariants.{Failed, Stopped};
ghost use Rattle.alp_base.specs.declared.allowance.Allowance.TheVariants.{Spent};
ghost use Rattle.alp_base.specs.Crashes.{Follows, After, NoMore, Adds};
ghost use Rattle.alp_base.specs.Allowances.{Spends, HasHaltCause};
ghost use Rattle.alp_disk.specs.Runs.{SameOutside, Holds};
ghost use Rattle.alp_record.specs.Record.{body_pages, padded, Hold};
ghost use Rattle.alp_record.specs.Read.{IsCountKept};
ghost use Rattle.alp_record.specs.declared.fault.RecordFault.TheVariants.{Halted, Damaged};

use crate::RecordFault;
use alp_base::{Halt, OutOfMemory, Page};
use alp_disk::{Disk, write_span};
use std::alloc::Global;

/// Writes the rest of a body, if there is any, as a page with zeros behind it.
fn write_rest<D: Disk>(disk: &mut D, at: u32, rest: &[u8]) -> Result<(), Halt>
    requires room { at + body_pages (length rest.now) ≤ D.size disk.old }
    requires small { length rest.now < 512 }
    ensures written { IsTrue (D.tells disk.old) → OnOk result (Holds at (body_pages (length rest.now)) (padded rest.now) (D.seen disk.old) (D.seen disk.new)) }
    ensures crash { Follows (SameOutside at (body_pages (length rest.now))) (D.may_leave disk.old) (D.may_leave disk.new) }
    ensures any_moment { Adds D.left_since disk.old disk.new (After (SameOutside at (body_pages (length rest.now))) (D.may_leave disk.old)) }
    ensures tells { D.tells disk.new ≡ D.tells disk.old }
    ensures size { D.size disk.new ≡ D.size disk.old }
    ensures allowance { Spends (D.allowance disk.old) (D.allowance disk.new) }
    ensures cause { HasHaltCause (D.faults disk.old) (D.faults disk.new) (D.allowance disk.new) result }
{
    if rest.is_empty() {
        return Ok(());
    }
    let last = Page::beginning(rest);
    disk.write(at, 0, last.bytes())
}

/// Writes a body, and syncs nothing.
pub(super) fn write_body<D: Disk>(disk: &mut D, first: u32, body: &[u8]) -> Result<(), Halt>
    requires { first + body_pages (length body.now) ≤ D.size disk.old }
    ensures written { IsTrue (D.tells disk.old) → OnOk result (Holds first (body_pages (length body.now)) (padded body.now) (D.seen disk.old) (D.seen disk.new)) }
    ensures crash { Follows (SameOutside first (body_pages (length body.now))) (D.may_leave disk.old) (D.may_leave disk.new) }
    ensures any_moment { Adds D.left_since disk.old disk.new (After (SameOutside first (body_pages (length body.now))) (D.may_leave disk.old)) }
    ensures tells { D.tells disk.new ≡ D.tells disk.old }
    ensures size { D.size disk.new ≡ D.size disk.old }
    ensures allowance { Spends (D.allowance disk.old) (D.allowance disk.new) }
    ensures cause { HasHaltCause (D.faults disk.old) (D.faults disk.new) (D.allowance disk.new) result }
{
    let whole = body.len() / 512;
    let (front, rest) = body.split_at(512 * whole);
    write_span(disk, first, whole as u32, front)?;
    write_rest(disk, first + whole as u32, rest)
}

fn add_page(out: &mut Vec<u8>, page: &Page) -> Result<(), OutOfMemory>
    ensures added { OnOk result (out.new.items ≡ out.old.items ++ page.now) }
    ensures whole { length page.now ≡ 512 }
{
    out.extend_from_slice(page.bytes())?;
    Ok(())
}

/// Reads so many pages.
pub(super) fn read_pages<D: Disk>(
    alloc: Global,
    disk: &mut D,
    first: u32,
    count: u32,
) -> Result<Vec<u8>, RecordFault>
    requires { first + count ≤ D.size disk.old }
    ensures held { IsTrue (D.tells disk.old) → IfOk result (λ bytes. Hold (D.seen disk.old) first count bytes.items) }
    ensures long { IfOk result (λ bytes. length bytes.items ≡ 512 * count) }
    ensures undamaged { (place : ℕ) → IsErrOf result (Damaged place) → ⊥ }
    ensures tells { D.tells disk.new ≡ D.tells disk.old }
    ensures size { D.size disk.new ≡ D.size disk.old }
    ensures seen { D.seen disk.new ≡ D.seen disk.old }
    ensures crash { NoMore (D.may_leave disk.old) (D.may_leave disk.new) }
    ensures time { Adds D.left_since disk.old disk.new (D.may_leave disk.old) }
    ensures allowance { D.allowance disk.new ≡ D.allowance disk.old }
    ensures later { D.faults disk.old ≤ D.faults disk.new }
    ensures still { MatchResult result (λ _. D.faults disk.new ≡ D.faults disk.old) (IsCountKept (D.faults disk.old) (D.faults disk.new)) }
    ensures failed { IsErrOf result (Halted Failed) → Rose (D.faults disk.old) (D.faults disk.new) }
    ensures stopped { IsErrOf result (Halted Stopped) → D.allowance disk.new ≡ Spent }
{
    let mut bytes = Vec::new(alloc);
    for k in 0..count {
        let mut page = Page::zero();
        disk.read(first + k, &mut page)?;
        add_page(&mut bytes, &page)?;
    }
    Ok(bytes)
}

/// Whether these are zeros.
fn are_zeros(bytes: &[u8]) -> bool
    requires { length bytes.now ≤ 512 }
    ensures { IsTrue result ↔ (bytes.now ≡ replicate (length bytes.now) 0) }
{
    bytes == &Page::zero().bytes()[..bytes.len()]
}

/// The first bytes, where only zeros stand behind them.
pub(super) fn unpadded(mut bytes: Vec<u8>, size: u32) -> Option<Vec<u8>>
    requires { length bytes.items ≡ 512 * body_pages size }
    ensures { MatchOption result ((body : List ℕ) → length body ≡ size → bytes.items ≡ padded body → ⊥) (λ body. (length body.items ≡ size) × (bytes.items ≡ padded body.items)) }
{
    let size = size as usize;
    if !are_zeros(&bytes[size..]) {
        return None;
    }
    bytes.truncate(size);
    Some(bytes)
}
