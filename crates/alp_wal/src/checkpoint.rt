//! Checkpoints.
ghost use Rattle.std.specs.Prelude.{◌≡◌, ◌<◌, ◌≤◌, ◌+◌, IsTrue, OnOk, OnErr, false};
ghost use Rattle.alp_base.specs.Crashes.{LeavesOnly};
ghost use Rattle.alp_disk.specs.Calls.{IsSameDevice};
ghost use Rattle.alp_wal.specs.Reading.{Reads};
ghost use Rattle.alp_wal.specs.Live.{notes_pages};
ghost use Rattle.alp_wal.specs.Wal.{disk_of, anchor_of, held_notes, notes_of, is_dead, room_of, state_of, IsSameVolume, IsLog, IsKnown};
ghost use Rattle.alp_wal.specs.Checkpoint.{IsUnmoved, HasTurned};
ghost use Rattle.alp_wal.specs.Calls.{HasCheckpointCause};

use crate::live::live_body;
use crate::{Wal, WalFault};
use alp_disk::Disk;

impl<D: Disk> Wal<D> {
    /// Brings the images of the area home, and goes on in the other area behind a record of the live
    /// notes. Pages and notes stay.
    ///
    /// As it stands, a call makes seven syncs, one more where the gate of the other anchor stands open,
    /// and reads one page; no clause says so.
    pub fn checkpoint(&mut self) -> Result<(), WalFault>
        requires log { IsLog (D.size (disk_of self.old)) self.old }
        requires known { IsTrue (D.tells (disk_of self.old)) → is_dead self.old ≡ false → IsKnown (D.size (disk_of self.old)) (D.seen (disk_of self.old)) (D.may_leave (disk_of self.old)) self.old }
        ensures log { IsLog (D.size (disk_of self.new)) self.new }
        ensures known { IsTrue (D.tells (disk_of self.new)) → is_dead self.new ≡ false → IsKnown (D.size (disk_of self.new)) (D.seen (disk_of self.new)) (D.may_leave (disk_of self.new)) self.new }
        // Whatever it answers: a log that was halted reads on as before.
        ensures same { IsTrue (D.tells (disk_of self.old)) → state_of self.new (D.seen (disk_of self.new)) ≡ state_of self.old (D.seen (disk_of self.old)) }
        ensures any_moment { IsTrue (D.tells (disk_of self.old)) → is_dead self.old ≡ false → LeavesOnly D.left_since (disk_of self.old) (disk_of self.new) (λ c. Reads (anchor_of self.old).server (anchor_of self.old).servers (D.size (disk_of self.old)) c (state_of self.old (D.seen (disk_of self.old)))) }
        ensures notes { held_notes self.new ≡ held_notes self.old }
        ensures volume { IsSameVolume (anchor_of self.old) (anchor_of self.new) }
        ensures turned { OnOk result (HasTurned self.old self.new) }
        ensures stays { OnErr result (IsUnmoved self.old self.new) }
        ensures below { IsSameDevice D.Disk (disk_of self.old) (disk_of self.new) }
        ensures cause { HasCheckpointCause D.Disk self.old self.new result }
    {
        if self.dead {
            return Err(WalFault::Dead);
        }
        let body = live_body(self.alloc, &self.notes)?;
        self.move_log(body.as_slice())?;
        Ok(())
    }

    /// Makes room for a record of so many pages behind one of the live notes, by a checkpoint where
    /// there is none.
    pub(super) fn make_room(&mut self, pages: u32) -> Result<(), WalFault>
        requires log { IsLog (D.size (disk_of self.old)) self.old }
        requires alive { is_dead self.old ≡ false }
        requires known { IsTrue (D.tells (disk_of self.old)) → IsKnown (D.size (disk_of self.old)) (D.seen (disk_of self.old)) (D.may_leave (disk_of self.old)) self.old }
        requires both { notes_pages (notes_of self.old) + pages ≤ (anchor_of self.old).sizes.area }
        ensures log { IsLog (D.size (disk_of self.new)) self.new }
        ensures known { IsTrue (D.tells (disk_of self.new)) → is_dead self.new ≡ false → IsKnown (D.size (disk_of self.new)) (D.seen (disk_of self.new)) (D.may_leave (disk_of self.new)) self.new }
        ensures same { IsTrue (D.tells (disk_of self.old)) → state_of self.new (D.seen (disk_of self.new)) ≡ state_of self.old (D.seen (disk_of self.old)) }
        ensures any_moment { IsTrue (D.tells (disk_of self.old)) → LeavesOnly D.left_since (disk_of self.old) (disk_of self.new) (λ c. Reads (anchor_of self.old).server (anchor_of self.old).servers (D.size (disk_of self.old)) c (state_of self.old (D.seen (disk_of self.old)))) }
        ensures room { OnOk result (pages ≤ room_of self.new) }
        ensures notes { held_notes self.new ≡ held_notes self.old }
        ensures volume { IsSameVolume (anchor_of self.old) (anchor_of self.new) }
        ensures fitting { pages ≤ room_of self.old → self.new ≡ self.old }
        ensures turned { room_of self.old < pages → OnOk result (HasTurned self.old self.new) }
        ensures stays { OnErr result (IsUnmoved self.old self.new) }
        ensures below { IsSameDevice D.Disk (disk_of self.old) (disk_of self.new) }
        ensures cause { HasCheckpointCause D.Disk self.old self.new result }
    {
        if pages <= self.room() {
            return Ok(());
        }
        self.checkpoint()
    }
}
