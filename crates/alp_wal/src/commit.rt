//! Commits.
ghost use Rattle.std.specs.Prelude.{◌≡◌, ◌≤◌, length, IsTrue, OnOk, OnErr, IsErrOf, false};
ghost use Rattle.std.specs.List.{AllByRecursion};
ghost use Rattle.alp_base.specs.Crashes.{LeavesOnly};
ghost use Rattle.alp_batch.specs.Batch.{IsBatch};
ghost use Rattle.alp_base.specs.Notes.{notes_after};
ghost use Rattle.alp_disk.specs.Calls.{IsSameDevice};
ghost use Rattle.alp_wal.specs.State.{Suits, IsBelow, applied};
ghost use Rattle.alp_wal.specs.Live.{batch_pages, BothFit};
ghost use Rattle.alp_wal.specs.Wal.{disk_of, anchor_of, end_of, index_of, held_notes, notes_of, is_dead, room_of, state_of, indexed, IsLog, IsKnown, BeforeOrAfter};
ghost use Rattle.alp_wal.specs.Checkpoint.{IsUnmoved};
ghost use Rattle.alp_wal.specs.Calls.{Becomes, HasCommitted, HasNotCommitted, HasCommitCause, HasCheckpointCause, IsBehind};
ghost use Rattle.alp_wal.specs.Prepared.{batch_of, IsReady};
ghost use Rattle.alp_wal.specs.declared.fault.WalFault.TheVariants.{OutOfMemory};

use crate::live::both_fit;
use crate::prepare::{Prepared, prepare};
use crate::{Wal, WalFault};
use alp_base::NoteChange;
use alp_batch::{Batch, PageImage};
use alp_disk::Disk;
use alp_record::record_pages;

impl<D: Disk> Wal<D> {
    /// What the log holds in memory after a batch.
    fn settle(&mut self, images: Vec<PageImage>, notes: Vec<NoteChange>)
        requires inside { AllByRecursion (IsBelow (length (index_of self.old))) images.items }
        requires room { length notes.items ≤ (held_notes self.old).room }
        ensures index { index_of self.new ≡ indexed (index_of self.old) images.items }
        ensures notes { notes_of self.new ≡ notes_after notes.items (notes_of self.old) }
        ensures disk { disk_of self.new ≡ disk_of self.old }
        ensures anchor { anchor_of self.new ≡ anchor_of self.old }
        ensures end { end_of self.new ≡ end_of self.old }
        ensures dead { is_dead self.new ≡ is_dead self.old }
    {
        self.index.lay_over(images);
        self.notes.apply(notes);
    }

    /// Commits a batch of which a record fits the rest of the area.
    fn put(&mut self, prepared: Prepared) -> Result<(), WalFault>
        requires log { IsLog (D.size (disk_of self.old)) self.old }
        requires alive { is_dead self.old ≡ false }
        requires known { IsTrue (D.tells (disk_of self.old)) → IsKnown (D.size (disk_of self.old)) (D.seen (disk_of self.old)) (D.may_leave (disk_of self.old)) self.old }
        requires ready { IsReady prepared }
        requires suits { Suits (anchor_of self.old).sizes.home (notes_of self.old) (batch_of prepared) }
        requires room { length prepared.notes.items ≤ (held_notes self.old).room }
        requires both { BothFit (anchor_of self.old).sizes.area (notes_of self.old) (batch_of prepared) }
        requires fits { batch_pages (batch_of prepared) ≤ room_of self.old }
        ensures log { IsLog (D.size (disk_of self.new)) self.new }
        ensures known { IsTrue (D.tells (disk_of self.new)) → is_dead self.new ≡ false → IsKnown (D.size (disk_of self.new)) (D.seen (disk_of self.new)) (D.may_leave (disk_of self.new)) self.new }
        ensures becomes { IsTrue (D.tells (disk_of self.old)) → Becomes result (state_of self.old (D.seen (disk_of self.old))) (applied (state_of self.old (D.seen (disk_of self.old))) (batch_of prepared)) (state_of self.new (D.seen (disk_of self.new))) }
        ensures before_or_after { IsTrue (D.tells (disk_of self.old)) → LeavesOnly D.left_since (disk_of self.old) (disk_of self.new) (BeforeOrAfter (anchor_of self.old).server (anchor_of self.old).servers (D.size (disk_of self.old)) (state_of self.old (D.seen (disk_of self.old))) (batch_of prepared)) }
        ensures made { OnOk result (IsBehind (batch_of prepared) self.old self.new) }
        ensures notes { OnOk result (notes_of self.new ≡ notes_after (batch_of prepared).notes (notes_of self.old)) }
        ensures stays { OnErr result (IsUnmoved self.old self.new) }
        ensures stays_notes { OnErr result (notes_of self.new ≡ notes_of self.old) }
        ensures below { IsSameDevice D.Disk (disk_of self.old) (disk_of self.new) }
        ensures takes_no_memory { IsErrOf result OutOfMemory → ⊥ }
        ensures cause { HasCheckpointCause D.Disk self.old self.new result }
    {
        let Prepared {
            body,
            images,
            notes,
        } = prepared;
        self.append(body.as_slice())?;
        self.settle(images, notes);
        Ok(())
    }

    /// Commits a batch, and makes a checkpoint before where its record does not fit the rest of the area.
    fn store(&mut self, prepared: Prepared) -> Result<(), WalFault>
        requires log { IsLog (D.size (disk_of self.old)) self.old }
        requires alive { is_dead self.old ≡ false }
        requires known { IsTrue (D.tells (disk_of self.old)) → IsKnown (D.size (disk_of self.old)) (D.seen (disk_of self.old)) (D.may_leave (disk_of self.old)) self.old }
        requires ready { IsReady prepared }
        requires suits { Suits (anchor_of self.old).sizes.home (notes_of self.old) (batch_of prepared) }
        requires room { length prepared.notes.items ≤ (held_notes self.old).room }
        requires both { BothFit (anchor_of self.old).sizes.area (notes_of self.old) (batch_of prepared) }
        ensures log { IsLog (D.size (disk_of self.new)) self.new }
        ensures known { IsTrue (D.tells (disk_of self.new)) → is_dead self.new ≡ false → IsKnown (D.size (disk_of self.new)) (D.seen (disk_of self.new)) (D.may_leave (disk_of self.new)) self.new }
        ensures becomes { IsTrue (D.tells (disk_of self.old)) → Becomes result (state_of self.old (D.seen (disk_of self.old))) (applied (state_of self.old (D.seen (disk_of self.old))) (batch_of prepared)) (state_of self.new (D.seen (disk_of self.new))) }
        ensures before_or_after { IsTrue (D.tells (disk_of self.old)) → LeavesOnly D.left_since (disk_of self.old) (disk_of self.new) (BeforeOrAfter (anchor_of self.old).server (anchor_of self.old).servers (D.size (disk_of self.old)) (state_of self.old (D.seen (disk_of self.old))) (batch_of prepared)) }
        ensures made { OnOk result (HasCommitted (batch_of prepared) self.old self.new) }
        ensures stays { OnErr result (HasNotCommitted (batch_of prepared) self.old self.new) }
        ensures below { IsSameDevice D.Disk (disk_of self.old) (disk_of self.new) }
        ensures cause { HasCheckpointCause D.Disk self.old self.new result }
    {
        self.make_room(record_pages(prepared.body.as_slice().len() as u32))?;
        self.put(prepared)
    }

    /// Commits a batch: after `Ok` every crash leaves it, and before that all of it or none.
    ///
    /// Where its record does not fit the rest of the area, a checkpoint is made first. As it stands, a
    /// call without one makes two syncs and reads nothing; no clause says so.
    pub fn commit(&mut self, batch: &Batch) -> Result<(), WalFault>
        requires log { IsLog (D.size (disk_of self.old)) self.old }
        requires known { IsTrue (D.tells (disk_of self.old)) → is_dead self.old ≡ false → IsKnown (D.size (disk_of self.old)) (D.seen (disk_of self.old)) (D.may_leave (disk_of self.old)) self.old }
        requires batch { IsBatch batch.now }
        requires suits { Suits (anchor_of self.old).sizes.home (notes_of self.old) batch.now }
        ensures log { IsLog (D.size (disk_of self.new)) self.new }
        ensures known { IsTrue (D.tells (disk_of self.new)) → is_dead self.new ≡ false → IsKnown (D.size (disk_of self.new)) (D.seen (disk_of self.new)) (D.may_leave (disk_of self.new)) self.new }
        // A log that was halted reads on as before.
        ensures becomes { IsTrue (D.tells (disk_of self.old)) → Becomes result (state_of self.old (D.seen (disk_of self.old))) (applied (state_of self.old (D.seen (disk_of self.old))) batch.now) (state_of self.new (D.seen (disk_of self.new))) }
        ensures before_or_after { IsTrue (D.tells (disk_of self.old)) → is_dead self.old ≡ false → LeavesOnly D.left_since (disk_of self.old) (disk_of self.new) (BeforeOrAfter (anchor_of self.old).server (anchor_of self.old).servers (D.size (disk_of self.old)) (state_of self.old (D.seen (disk_of self.old))) batch.now) }
        ensures made { OnOk result (HasCommitted batch.now self.old self.new) }
        ensures stays { OnErr result (HasNotCommitted batch.now self.old self.new) }
        ensures below { IsSameDevice D.Disk (disk_of self.old) (disk_of self.new) }
        ensures cause { HasCommitCause D.Disk batch.now self.old self.new result }
    {
        if self.dead {
            return Err(WalFault::Dead);
        }
        if !both_fit(&self.notes, batch, self.anchor.sizes.area) {
            return Err(WalFault::Full);
        }
        let prepared = prepare(self.alloc, &mut self.notes, batch)?;
        self.store(prepared)
    }
}
