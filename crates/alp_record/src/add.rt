//! Adding a record.
ghost use Rattle.std.specs.Prelude.{◌≡◌, ◌<◌, ◌≤◌, ◌+◌, ◌-◌, ◌^◌, length, IsTrue, OnOk};
ghost use Rattle.alp_disk.specs.Disk.{page as page_of};
ghost use Rattle.alp_base.specs.Crashes.{Follows, After, Only, Adds};
ghost use Rattle.alp_disk.specs.Gates.{IsClosed};
ghost use Rattle.alp_base.specs.Allowances.{Spends, HasHaltCause};
ghost use Rattle.alp_disk.specs.Runs.{SameOutside};
ghost use Rattle.alp_disk.specs.Calls.{IsSameDevice};
ghost use Rattle.alp_record.specs.Record.{body_pages, header, next_of, IsEnd};
ghost use Rattle.alp_record.specs.Adding.{Behind, Staged, Laid, NotYet, Added, Adding, OneMore, OneMoreOrNot};

use crate::body::write_body;
use crate::header::header_page;
use crate::{Area, record_pages};
use alp_base::{Halt, Page};
use alp_disk::{Disk, OPEN_GATE, write_synced};

/// Writes all of a record but its gate, and syncs nothing.
fn stage<D: Disk>(disk: &mut D, generation: u32, at: u32, body: &[u8]) -> Result<(), Halt>
    requires room { at + 1 + body_pages (length body.now) ≤ D.size disk.old }
    requires size { length body.now < 2 ^ 32 }
    ensures staged { IsTrue (D.tells disk.old) → OnOk result (Staged generation at body.now (D.seen disk.new)) }
    ensures crash { Follows (Behind at (1 + body_pages (length body.now))) (D.may_leave disk.old) (D.may_leave disk.new) }
    ensures any_moment { Adds D.left_since disk.old disk.new (After (Behind at (1 + body_pages (length body.now))) (D.may_leave disk.old)) }
    ensures tells { D.tells disk.new ≡ D.tells disk.old }
    ensures size { D.size disk.new ≡ D.size disk.old }
    ensures allowance { Spends (D.allowance disk.old) (D.allowance disk.new) }
    ensures cause { HasHaltCause (D.faults disk.old) (D.faults disk.new) (D.allowance disk.new) result }
{
    let head = header_page(generation, body.len() as u32);
    write_body(disk, at + 1, body)?;
    disk.write(at, 1, &head.bytes()[1..])
}

/// Closes the gate of a page, where the area has such a page, and syncs nothing.
fn close_next<D: Disk>(disk: &mut D, at: u32, end: u32) -> Result<(), Halt>
    requires { end ≤ D.size disk.old }
    ensures others { IsTrue (D.tells disk.old) → OnOk result (SameOutside at (end - at) (D.seen disk.old) (D.seen disk.new)) }
    ensures ends { IsTrue (D.tells disk.old) → OnOk result (IsEnd (D.seen disk.new) end at) }
    ensures crash { Follows (SameOutside at (end - at)) (D.may_leave disk.old) (D.may_leave disk.new) }
    ensures any_moment { Adds D.left_since disk.old disk.new (After (SameOutside at (end - at)) (D.may_leave disk.old)) }
    ensures tells { D.tells disk.new ≡ D.tells disk.old }
    ensures size { D.size disk.new ≡ D.size disk.old }
    ensures allowance { Spends (D.allowance disk.old) (D.allowance disk.new) }
    ensures cause { HasHaltCause (D.faults disk.old) (D.faults disk.new) (D.allowance disk.new) result }
{
    if at < end {
        disk.write(at, 0, &[0])?;
    }
    Ok(())
}

/// Closes the gate behind a record, and syncs.
fn seal<D: Disk>(disk: &mut D, next: u32, end: u32) -> Result<(), Halt>
    requires { end ≤ D.size disk.old }
    ensures others { IsTrue (D.tells disk.old) → OnOk result (SameOutside next (end - next) (D.seen disk.old) (D.seen disk.new)) }
    ensures ends { IsTrue (D.tells disk.old) → OnOk result (IsEnd (D.seen disk.new) end next) }
    ensures durable { IsTrue (D.tells disk.old) → OnOk result (Only (D.seen disk.new) (D.may_leave disk.new)) }
    ensures any_moment { Adds D.left_since disk.old disk.new (After (SameOutside next (end - next)) (D.may_leave disk.old)) }
    ensures tells { D.tells disk.new ≡ D.tells disk.old }
    ensures size { D.size disk.new ≡ D.size disk.old }
    ensures allowance { Spends (D.allowance disk.old) (D.allowance disk.new) }
    ensures cause { HasHaltCause (D.faults disk.old) (D.faults disk.new) (D.allowance disk.new) result }
{
    close_next(disk, next, end)?;
    disk.sync()
}

/// Writes all of a record but its gate, closes the gate behind it, and syncs.
fn lay<D: Disk>(disk: &mut D, area: &Area, at: u32, body: &[u8]) -> Result<(), Halt>
    requires room { next_of at body.now ≤ area.now.end }
    requires area { area.now.end ≤ D.size disk.old }
    requires size { length body.now < 2 ^ 32 }
    requires closed { IsTrue (D.tells disk.old) → IsClosed (page_of (D.seen disk.old) at) }
    requires durable { IsTrue (D.tells disk.old) → Only (D.seen disk.old) (D.may_leave disk.old) }
    ensures laid { IsTrue (D.tells disk.old) → OnOk result (Laid area.now.generation area.now.end at body.now (D.seen disk.old) (D.seen disk.new)) }
    ensures durable { IsTrue (D.tells disk.old) → OnOk result (Only (D.seen disk.new) (D.may_leave disk.new)) }
    ensures any_moment { IsTrue (D.tells disk.old) → Adds D.left_since disk.old disk.new (NotYet area.now.end at (D.seen disk.old)) }
    ensures tells { D.tells disk.new ≡ D.tells disk.old }
    ensures size { D.size disk.new ≡ D.size disk.old }
    ensures allowance { Spends (D.allowance disk.old) (D.allowance disk.new) }
    ensures cause { HasHaltCause (D.faults disk.old) (D.faults disk.new) (D.allowance disk.new) result }
{
    stage(disk, area.generation, at, body)?;
    seal(disk, at + record_pages(body.len() as u32), area.end)
}

/// Adds a record at a page whose gate stands closed, with two syncs, and takes no memory.
///
/// A crash at any moment leaves the records that stood there, or those and the new one.
pub fn add_record<D: Disk>(disk: &mut D, area: &Area, at: u32, body: &[u8]) -> Result<(), Halt>
    requires room { next_of at body.now ≤ area.now.end }
    requires area { area.now.end ≤ D.size disk.old }
    requires size { length body.now < 2 ^ 32 }
    requires closed { IsTrue (D.tells disk.old) → IsClosed (page_of (D.seen disk.old) at) }
    requires durable { IsTrue (D.tells disk.old) → Only (D.seen disk.old) (D.may_leave disk.old) }
    ensures added { IsTrue (D.tells disk.old) → OnOk result (Added area.now.generation area.now.end at body.now (D.seen disk.old) (D.seen disk.new)) }
    ensures records { IsTrue (D.tells disk.old) → OnOk result (OneMore area.now.generation area.now.end at body.now (D.seen disk.old) (D.seen disk.new)) }
    ensures durable { IsTrue (D.tells disk.old) → OnOk result (Only (D.seen disk.new) (D.may_leave disk.new)) }
    ensures any_moment { IsTrue (D.tells disk.old) → Adds D.left_since disk.old disk.new (Adding area.now.generation area.now.end at body.now (D.seen disk.old)) }
    ensures before_or_after { IsTrue (D.tells disk.old) → Adds D.left_since disk.old disk.new (OneMoreOrNot area.now.generation area.now.end at body.now (D.seen disk.old)) }
    ensures stays { IsSameDevice D.Disk disk.old disk.new }
    ensures cause { HasHaltCause (D.faults disk.old) (D.faults disk.new) (D.allowance disk.new) result }
{
    lay(disk, area, at, body)?;
    write_synced(disk, at, 0, &[OPEN_GATE])
}
