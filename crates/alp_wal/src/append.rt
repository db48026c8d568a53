//! The record of a commit.
ghost use Rattle.std.specs.Prelude.{◌≡◌, ◌≤◌, ◌+◌, length, IsTrue, IsOk, OnOk, OnErr, IsErrOf, true, false};
ghost use Rattle.alp_base.specs.Causes.{Rose};
ghost use Rattle.alp_base.specs.Allowances.{Spends};
ghost use Rattle.alp_base.specs.declared.allowance.Allowance.TheVariants.{Spent};
ghost use Rattle.alp_base.specs.Crashes.{Only, Adds};
ghost use Rattle.alp_record.specs.Record.{body_pages, next_of};
ghost use Rattle.alp_record.specs.Adding.{Added, Adding};
ghost use Rattle.alp_wal.specs.Reading.{area_first, area_end};
ghost use Rattle.alp_wal.specs.Wal.{disk_of, anchor_of, end_of, index_of, held_notes, is_dead, room_of, IsLog, IsKnown};
ghost use Rattle.alp_wal.specs.declared.fault.WalFault.TheVariants.{Failed, Stopped, Full, Dead, OutOfMemory};

use crate::begin::area_of;
use crate::{Wal, WalFault};
use alp_base::Halt;
use alp_disk::Disk;
use alp_record::{Area, add_record, record_pages};

impl<D: Disk> Wal<D> {
    /// Adds a record with this body behind the last one. Where it halts, the log is dead.
    pub(super) fn append(&mut self, body: &[u8]) -> Result<(), WalFault>
        requires log { IsLog (D.size (disk_of self.old)) self.old }
        requires fits { 1 + body_pages (length body.now) ≤ room_of self.old }
        requires known { IsTrue (D.tells (disk_of self.old)) → IsKnown (D.size (disk_of self.old)) (D.seen (disk_of self.old)) (D.may_leave (disk_of self.old)) self.old }
        ensures added { IsTrue (D.tells (disk_of self.old)) → OnOk result (Added (anchor_of self.old).generation (area_end (anchor_of self.old)) (end_of self.old) body.now (D.seen (disk_of self.old)) (D.seen (disk_of self.new))) }
        ensures durable { IsTrue (D.tells (disk_of self.old)) → OnOk result (Only (D.seen (disk_of self.new)) (D.may_leave (disk_of self.new))) }
        ensures any_moment { IsTrue (D.tells (disk_of self.old)) → Adds D.left_since (disk_of self.old) (disk_of self.new) (Adding (anchor_of self.old).generation (area_end (anchor_of self.old)) (end_of self.old) body.now (D.seen (disk_of self.old))) }
        ensures tells { D.tells (disk_of self.new) ≡ D.tells (disk_of self.old) }
        ensures size { D.size (disk_of self.new) ≡ D.size (disk_of self.old) }
        ensures allowance { Spends (D.allowance (disk_of self.old)) (D.allowance (disk_of self.new)) }
        ensures later { D.faults (disk_of self.old) ≤ D.faults (disk_of self.new) }
        ensures no_fault { OnOk result (D.faults (disk_of self.new) ≡ D.faults (disk_of self.old)) }
        ensures failed { IsErrOf result Failed → Rose (D.faults (disk_of self.old)) (D.faults (disk_of self.new)) }
        ensures stopped { IsErrOf result Stopped → D.allowance (disk_of self.new) ≡ Spent }
        ensures never_dead { IsErrOf result Dead → ⊥ }
        ensures never_full { IsErrOf result Full → ⊥ }
        ensures takes_no_memory { IsErrOf result OutOfMemory → ⊥ }
        ensures halted { OnErr result (is_dead self.new ≡ true) }
        ensures alive { OnOk result (is_dead self.new ≡ is_dead self.old) }
        ensures end { OnOk result (end_of self.new ≡ next_of (end_of self.old) body.now) }
        ensures stays { OnErr result (end_of self.new ≡ end_of self.old) }
        ensures anchor { anchor_of self.new ≡ anchor_of self.old }
        ensures index { index_of self.new ≡ index_of self.old }
        ensures notes { held_notes self.new ≡ held_notes self.old }
    {
        let area = area_of(&self.anchor);
        match add_record(&mut self.disk, &area, self.end, body) {
            Ok(()) => {
                self.end += record_pages(body.len() as u32);
                Ok(())
            }
            Err(Halt::Failed) => {
                self.dead = true;
                Err(WalFault::Failed)
            }
            Err(Halt::Stopped) => {
                self.dead = true;
                Err(WalFault::Stopped)
            }
        }
    }
}
