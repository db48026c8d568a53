//! The log moves over to its other area.
ghost use Rattle.std.specs.Prelude.{◌≡◌, ◌≤◌, ◌+◌, length, IsTrue, OnOk, OnErr, IfOk, IsErrOf, true};
ghost use Rattle.alp_base.specs.Causes.{Rose};
ghost use Rattle.alp_base.specs.Allowances.{Spends, HasHaltCause};
ghost use Rattle.alp_base.specs.declared.allowance.Allowance.TheVariants.{Spent};
ghost use Rattle.alp_base.specs.Crashes.{Only, Adds};
ghost use Rattle.alp_anchor.specs.Anchor.{IsSound, Counts};
ghost use Rattle.alp_record.specs.Record.{body_pages, next_of};
ghost use Rattle.alp_wal.specs.Reading.{area_first};
ghost use Rattle.alp_wal.specs.Wal.{disk_of, anchor_of, end_of, index_of, held_notes, is_dead, no_index, IsLog};
ghost use Rattle.alp_wal.specs.Checkpoint.{turned, MovingOver, MovedOver};
ghost use Rattle.alp_wal.specs.declared.fault.WalFault.TheVariants.{Failed, Stopped, Full, Dead, OutOfMemory};

use crate::begin::area_of;
use crate::index::ImageIndex;
use crate::turning::turn;
use crate::{Wal, WalFault};
use alp_anchor::Anchor;
use alp_base::Halt;
use alp_disk::Disk;
use alp_record::record_pages;

/// Brings the images home, and turns to the idle area with this record as its only one.
fn move_over<D: Disk>(
    disk: &mut D,
    anchor: &Anchor,
    index: &ImageIndex,
    body: &[u8],
) -> Result<Anchor, Halt>
    requires sound { IsSound (D.size disk.old) anchor.now }
    requires index { length index.now ≡ anchor.now.sizes.home }
    requires room { 1 + body_pages (length body.now) ≤ anchor.now.sizes.area }
    requires counts { IsTrue (D.tells disk.old) → Counts (D.size disk.old) (D.seen disk.old) anchor.now }
    requires durable { IsTrue (D.tells disk.old) → Only (D.seen disk.old) (D.may_leave disk.old) }
    ensures next { IfOk result (λ next. next ≡ turned anchor.now) }
    ensures moved { IsTrue (D.tells disk.old) → OnOk result (MovedOver (D.size disk.old) anchor.now index.now body.now (D.seen disk.old) (D.seen disk.new)) }
    ensures durable { IsTrue (D.tells disk.old) → OnOk result (Only (D.seen disk.new) (D.may_leave disk.new)) }
    ensures any_moment { IsTrue (D.tells disk.old) → Adds D.left_since disk.old disk.new (MovingOver (D.size disk.old) anchor.now index.now body.now (D.seen disk.old)) }
    ensures tells { D.tells disk.new ≡ D.tells disk.old }
    ensures size { D.size disk.new ≡ D.size disk.old }
    ensures allowance { Spends (D.allowance disk.old) (D.allowance disk.new) }
    ensures cause { HasHaltCause (D.faults disk.old) (D.faults disk.new) (D.allowance disk.new) result }
{
    index.bring_home(disk, 2 + 2 * anchor.sizes.area)?;
    turn(disk, anchor, body)
}

impl<D: Disk> Wal<D> {
    /// Moves over with this record of the live notes. Where it halts, the log is dead.
    pub(super) fn move_log(&mut self, body: &[u8]) -> Result<(), WalFault>
        requires log { IsLog (D.size (disk_of self.old)) self.old }
        requires room { 1 + body_pages (length body.now) ≤ (anchor_of self.old).sizes.area }
        requires counts { IsTrue (D.tells (disk_of self.old)) → Counts (D.size (disk_of self.old)) (D.seen (disk_of self.old)) (anchor_of self.old) }
        requires known { IsTrue (D.tells (disk_of self.old)) → Only (D.seen (disk_of self.old)) (D.may_leave (disk_of self.old)) }
        ensures moved { IsTrue (D.tells (disk_of self.old)) → OnOk result (MovedOver (D.size (disk_of self.old)) (anchor_of self.old) (index_of self.old) body.now (D.seen (disk_of self.old)) (D.seen (disk_of self.new))) }
        ensures durable { IsTrue (D.tells (disk_of self.old)) → OnOk result (Only (D.seen (disk_of self.new)) (D.may_leave (disk_of self.new))) }
        ensures any_moment { IsTrue (D.tells (disk_of self.old)) → Adds D.left_since (disk_of self.old) (disk_of self.new) (MovingOver (D.size (disk_of self.old)) (anchor_of self.old) (index_of self.old) body.now (D.seen (disk_of self.old))) }
        ensures tells { D.tells (disk_of self.new) ≡ D.tells (disk_of self.old) }
        ensures size { D.size (disk_of self.new) ≡ D.size (disk_of self.old) }
        ensures allowance { Spends (D.allowance (disk_of self.old)) (D.allowance (disk_of self.new)) }
        ensures later { D.faults (disk_of self.old) ≤ D.faults (disk_of self.new) }
        ensures no_fault { OnOk result (D.faults (disk_of self.new) ≡ D.faults (disk_of self.old)) }
        ensures failed { IsErrOf result Failed → Rose (D.faults (disk_of self.old)) (D.faults (disk_of self.new)) }
        ensures stopped { IsErrOf result Stopped → D.allowance (disk_of self.new) ≡ Spent }
        ensures never_dead { IsErrOf result Dead → ⊥ }
        ensures never_full { IsErrOf result Full → ⊥ }
        ensures takes_no_memory { IsErrOf result OutOfMemory → ⊥ }
        ensures halted { OnErr result (is_dead self.new ≡ true) }
        ensures alive { OnOk result (is_dead self.new ≡ is_dead self.old) }
        ensures anchor { OnOk result (anchor_of self.new ≡ turned (anchor_of self.old)) }
        ensures end { OnOk result (end_of self.new ≡ next_of (area_first (turned (anchor_of self.old))) body.now) }
        ensures index { OnOk result (index_of self.new ≡ no_index (length (index_of self.old))) }
        ensures stays_anchor { OnErr result (anchor_of self.new ≡ anchor_of self.old) }
        ensures stays_end { OnErr result (end_of self.new ≡ end_of self.old) }
        ensures stays_index { OnErr result (index_of self.new ≡ index_of self.old) }
        ensures notes { held_notes self.new ≡ held_notes self.old }
    {
        match move_over(&mut self.disk, &self.anchor, &self.index, body) {
            Ok(anchor) => {
                self.end = area_of(&anchor).first + record_pages(body.len() as u32);
                self.anchor = anchor;
                self.index.clear();
                Ok(())
            }
            Err(Halt::Failed) => {
                self.dead = true;
                Err(WalFault::Failed)
            }
            Err(Halt::Stopped) => {
                self.dead = true;
                Err(WalFault::Stopped)
            }
        }
    }
}
