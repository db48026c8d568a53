//! Closing and opening the gate of a page.
ghost use Rattle.std.specs.Prelude.{◌≡◌, ◌<◌, ◌≤◌, ℕ, length, drop, IsTrue, OnOk};
ghost use Rattle.alp_disk.specs.Disk.{Image, page as page_of, with_bytes, Torn};
ghost use Rattle.alp_base.specs.Crashes.{Only, After, Adds};
ghost use Rattle.alp_base.specs.Allowances.{Spends, HasHaltCause};
ghost use Rattle.alp_disk.specs.Gates.{IsClosed, HasOpenGate};
ghost use Rattle.alp_anchor.specs.Gate.{Shutting, Closing, Closed, Opening, Opened};

use alp_base::{Halt, Page};
use alp_disk::{Disk, OPEN_GATE, write_synced};

/// Closes the gate of a page where it reads open. A closed one is not written.
fn shut_gate<D: Disk>(disk: &mut D, at: u32) -> Result<(), Halt>
    requires at { at < D.size disk.old }
    requires durable { IsTrue (D.tells disk.old) → Only (D.seen disk.old) (D.may_leave disk.old) }
    ensures closed { IsTrue (D.tells disk.old) → OnOk result (Closed at (D.seen disk.old) (D.seen disk.new) (D.may_leave disk.new)) }
    ensures any_moment { IsTrue (D.tells disk.old) → Adds D.left_since disk.old disk.new (Shutting at (D.seen disk.old)) }
    ensures tells { D.tells disk.new ≡ D.tells disk.old }
    ensures size { D.size disk.new ≡ D.size disk.old }
    ensures allowance { Spends (D.allowance disk.old) (D.allowance disk.new) }
    ensures cause { HasHaltCause (D.faults disk.old) (D.faults disk.new) (D.allowance disk.new) result }
{
    let mut page = Page::zero();
    disk.read(at, &mut page)?;
    if page.bytes()[0] != OPEN_GATE {
        return Ok(());
    }
    write_synced(disk, at, 0, &[0])
}

/// Syncs the disk, and closes the gate of a page where it reads open.
pub fn close_gate<D: Disk>(disk: &mut D, at: u32) -> Result<(), Halt>
    requires { at < D.size disk.old }
    ensures closed { IsTrue (D.tells disk.old) → OnOk result (Closed at (D.seen disk.old) (D.seen disk.new) (D.may_leave disk.new)) }
    ensures any_moment { IsTrue (D.tells disk.old) → Adds D.left_since disk.old disk.new (Closing at (D.may_leave disk.old) (D.seen disk.old)) }
    ensures tells { D.tells disk.new ≡ D.tells disk.old }
    ensures size { D.size disk.new ≡ D.size disk.old }
    ensures allowance { Spends (D.allowance disk.old) (D.allowance disk.new) }
    ensures cause { HasHaltCause (D.faults disk.old) (D.faults disk.new) (D.allowance disk.new) result }
{
    disk.sync()?;
    shut_gate(disk, at)
}

/// Writes all of a page but its gate, and syncs it.
fn stage<D: Disk>(disk: &mut D, at: u32, page: &Page) -> Result<(), Halt>
    requires { at < D.size disk.old }
    ensures written { IsTrue (D.tells disk.old) → OnOk result (D.seen disk.new ≡ with_bytes (D.seen disk.old) at 1 (drop 1 page.now)) }
    ensures durable { IsTrue (D.tells disk.old) → OnOk result (Only (D.seen disk.new) (D.may_leave disk.new)) }
    ensures any_moment { Adds D.left_since disk.old disk.new (After (Torn at 1 511) (D.may_leave disk.old)) }
    ensures whole { length page.now ≡ 512 }
    ensures tells { D.tells disk.new ≡ D.tells disk.old }
    ensures size { D.size disk.new ≡ D.size disk.old }
    ensures allowance { Spends (D.allowance disk.old) (D.allowance disk.new) }
    ensures cause { HasHaltCause (D.faults disk.old) (D.faults disk.new) (D.allowance disk.new) result }
{
    write_synced(disk, at, 1, &page.bytes()[1..])
}

/// Writes a page whose gate stands closed, and then opens it.
pub fn open_gate<D: Disk>(disk: &mut D, at: u32, page: &Page) -> Result<(), Halt>
    requires at { at < D.size disk.old }
    requires gate { HasOpenGate page.now }
    requires closed { IsTrue (D.tells disk.old) → IsClosed (page_of (D.seen disk.old) at) }
    requires durable { IsTrue (D.tells disk.old) → Only (D.seen disk.old) (D.may_leave disk.old) }
    ensures opened { IsTrue (D.tells disk.old) → OnOk result (Opened at page.now (D.seen disk.old) (D.seen disk.new) (D.may_leave disk.new)) }
    ensures any_moment { IsTrue (D.tells disk.old) → Adds D.left_since disk.old disk.new (Opening at page.now (D.seen disk.old)) }
    ensures tells { D.tells disk.new ≡ D.tells disk.old }
    ensures size { D.size disk.new ≡ D.size disk.old }
    ensures allowance { Spends (D.allowance disk.old) (D.allowance disk.new) }
    ensures cause { HasHaltCause (D.faults disk.old) (D.faults disk.new) (D.allowance disk.new) result }
{
    stage(disk, at, page)?;
    write_synced(disk, at, 0, &[OPEN_GATE])
}
