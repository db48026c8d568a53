//! The turn of the log to its other area.
ghost use Rattle.std.specs.Prelude.{◌≡◌, ◌<◌, ◌≤◌, ◌+◌, ◌-◌, ◌^◌, ◌∷◌, [], length, IsTrue, OnOk, IfOk};
ghost use Rattle.alp_base.specs.Allowances.{Spends, HasHaltCause};
ghost use Rattle.alp_base.specs.Crashes.{Only, Adds};
ghost use Rattle.alp_disk.specs.Runs.{SameOutside};
ghost use Rattle.alp_anchor.specs.Anchor.{IsSound, Counts, after};
ghost use Rattle.alp_record.specs.Record.{body_pages, next_of, Records};
ghost use Rattle.alp_wal.specs.Reading.{area_first, area_end};
ghost use Rattle.alp_wal.specs.Checkpoint.{turned, Turning, Turned};

use crate::begin::area_of;
use alp_anchor::{Anchor, switch_anchor};
use alp_base::Halt;
use alp_disk::{Disk, write_synced};
use alp_record::{Area, add_record};

/// The area that is not in use, with the next generation.
pub(super) fn idle_area(anchor: &Anchor) -> Area
    requires area { anchor.now.area ≤ 1 }
    requires pages { anchor.now.sizes.area ≤ 4096 }
    ensures first { result.first ≡ area_first (turned anchor.now) }
    ensures end { result.end ≡ area_end (turned anchor.now) }
    ensures generation { result.generation ≡ after anchor.now.generation }
{
    let mut next = *anchor;
    next.area = 1 - anchor.area;
    next.generation = anchor.generation.wrapping_add(1);
    area_of(&next)
}

/// Makes this record the only one of an area.
fn begin_area<D: Disk>(disk: &mut D, area: &Area, body: &[u8]) -> Result<(), Halt>
    requires room { next_of area.now.first body.now ≤ area.now.end }
    requires area { area.now.end ≤ D.size disk.old }
    requires size { length body.now < 2 ^ 32 }
    requires durable { IsTrue (D.tells disk.old) → Only (D.seen disk.old) (D.may_leave disk.old) }
    ensures others { IsTrue (D.tells disk.old) → OnOk result (SameOutside area.now.first (area.now.end - area.now.first) (D.seen disk.old) (D.seen disk.new)) }
    ensures records { IsTrue (D.tells disk.old) → OnOk result (Records (D.seen disk.new) area.now.generation area.now.end area.now.first (body.now ∷ [])) }
    ensures durable { IsTrue (D.tells disk.old) → OnOk result (Only (D.seen disk.new) (D.may_leave disk.new)) }
    ensures any_moment { IsTrue (D.tells disk.old) → Adds D.left_since disk.old disk.new (SameOutside area.now.first (area.now.end - area.now.first) (D.seen disk.old)) }
    ensures tells { D.tells disk.new ≡ D.tells disk.old }
    ensures size { D.size disk.new ≡ D.size disk.old }
    ensures allowance { Spends (D.allowance disk.old) (D.allowance disk.new) }
    ensures cause { HasHaltCause (D.faults disk.old) (D.faults disk.new) (D.allowance disk.new) result }
{
    write_synced(disk, area.first, 0, &[0])?;
    add_record(disk, area, area.first, body)
}

/// Writes a record into the idle area, as its only one, and turns to it.
pub(super) fn turn<D: Disk>(disk: &mut D, old: &Anchor, body: &[u8]) -> Result<Anchor, Halt>
    requires sound { IsSound (D.size disk.old) old.now }
    requires room { 1 + body_pages (length body.now) ≤ old.now.sizes.area }
    requires counts { IsTrue (D.tells disk.old) → Counts (D.size disk.old) (D.seen disk.old) old.now }
    requires durable { IsTrue (D.tells disk.old) → Only (D.seen disk.old) (D.may_leave disk.old) }
    ensures next { IfOk result (λ anchor. anchor ≡ turned old.now) }
    ensures turned { IsTrue (D.tells disk.old) → OnOk result (Turned (D.size disk.old) old.now body.now (D.seen disk.old) (D.seen disk.new)) }
    ensures durable { IsTrue (D.tells disk.old) → OnOk result (Only (D.seen disk.new) (D.may_leave disk.new)) }
    ensures any_moment { IsTrue (D.tells disk.old) → Adds D.left_since disk.old disk.new (Turning (D.size disk.old) old.now body.now (D.seen disk.old)) }
    ensures tells { D.tells disk.new ≡ D.tells disk.old }
    ensures size { D.size disk.new ≡ D.size disk.old }
    ensures allowance { Spends (D.allowance disk.old) (D.allowance disk.new) }
    ensures cause { HasHaltCause (D.faults disk.old) (D.faults disk.new) (D.allowance disk.new) result }
{
    let area = idle_area(old);
    begin_area(disk, &area, body)?;
    switch_anchor(disk, old, 1 - old.area)
}
