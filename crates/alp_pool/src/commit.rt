//! Commits through the buffers.
ghost use Rattle.std.specs.Prelude.{◌≡◌, ◌<◌, ◌↔◌, ℕ, List, IsTrue, OnOk, OnErr, false, length, slice_set};
ghost use Rattle.alp_base.specs.Crashes.{LeavesOnly};
ghost use Rattle.alp_disk.specs.Calls.{IsSameDevice};
ghost use Rattle.alp_batch.specs.Batch.{IsBatch};
ghost use Rattle.std.specs.List.{AllByRecursion};
ghost use Rattle.alp_wal.specs.State.{Suits, IsBelow, overlaid, applied};
ghost use Rattle.alp_wal.specs.Wal.{anchor_of, notes_of, is_dead, BeforeOrAfter};
ghost use Rattle.alp_wal.specs.Calls.{Becomes, HasCommitted, HasNotCommitted};
ghost use Rattle.alp_pool.specs.Buffers.{IsResident, AreBuffersOf};
ghost use Rattle.alp_pool.specs.Pools.{log_of, buffers_of, capacity_of, device_of, held_by, IsPool};
ghost use Rattle.alp_pool.specs.Calls.{HasPoolCause};

use crate::Pool;
use alp_base::PageRef;
use alp_batch::{Batch, PageImage, share_images};
use alp_disk::Disk;
use alp_wal::WalFault;

impl<D: Disk> Pool<D> {
    /// A buffer that has the page gets its image. It takes no memory.
    fn renew(&mut self, at: u32, page: PageRef)
        ensures log { log_of self.new ≡ log_of self.old }
        ensures capacity { capacity_of self.new ≡ capacity_of self.old }
        ensures resident { (q : ℕ) → IsResident q (buffers_of self.new) ↔ IsResident q (buffers_of self.old) }
        ensures buffers { (pages : List (List ℕ)) → at < length pages → AreBuffersOf pages (buffers_of self.old) → AreBuffersOf (slice_set pages at page) (buffers_of self.new) }
    {
        let _ = self.held.len();
        if !self.held.contains(&at) {
            return;
        }
        match self.held.put(at, page) {
            Ok(_) => (),
            Err(_) => unreachable!(),
        }
    }

    /// The buffers get the images of the pages that they have. It takes no memory.
    fn renew_all(&mut self, images: Vec<PageImage>)
        ensures log { log_of self.new ≡ log_of self.old }
        ensures capacity { capacity_of self.new ≡ capacity_of self.old }
        ensures resident { (q : ℕ) → IsResident q (buffers_of self.new) ↔ IsResident q (buffers_of self.old) }
        ensures buffers { (pages : List (List ℕ)) → AllByRecursion (IsBelow (length pages)) images.items → AreBuffersOf pages (buffers_of self.old) → AreBuffersOf (overlaid pages images.items) (buffers_of self.new) }
    {
        for next in images {
            let PageImage { at, page } = next;
            self.renew(at, page);
        }
    }

    /// Commits a batch to the log: after `Ok` the buffers hold the new pages of those that they have.
    ///
    /// What the buffers need is made before the log is written, and nothing after the write takes memory.
    pub fn commit(&mut self, batch: &Batch) -> Result<(), WalFault>
        requires pool { IsPool D.Disk self.old }
        requires batch { IsBatch batch.now }
        requires suits { Suits (anchor_of (log_of self.old)).sizes.home (notes_of (log_of self.old)) batch.now }
        ensures pool { IsPool D.Disk self.new }
        ensures resident { (q : ℕ) → IsResident q (buffers_of self.new) ↔ IsResident q (buffers_of self.old) }
        ensures becomes { IsTrue (D.tells (device_of self.old)) → Becomes result (held_by D.Disk self.old) (applied (held_by D.Disk self.old) batch.now) (held_by D.Disk self.new) }
        ensures before_or_after { IsTrue (D.tells (device_of self.old)) → is_dead (log_of self.old) ≡ false → LeavesOnly D.left_since (device_of self.old) (device_of self.new) (BeforeOrAfter (anchor_of (log_of self.old)).server (anchor_of (log_of self.old)).servers (D.size (device_of self.old)) (held_by D.Disk self.old) batch.now) }
        ensures made { OnOk result (HasCommitted batch.now (log_of self.old) (log_of self.new)) }
        ensures stays { OnErr result (HasNotCommitted batch.now (log_of self.old) (log_of self.new)) }
        ensures buffers { OnErr result (buffers_of self.new ≡ buffers_of self.old) }
        ensures below { IsSameDevice D.Disk (device_of self.old) (device_of self.new) }
        ensures cause { HasPoolCause D.Disk batch.now self.old self.new result }
    {
        if self.log.is_dead() {
            return Err(WalFault::Dead);
        }
        let images = share_images(self.alloc, batch.images.as_slice())?;
        self.log.commit(batch)?;
        self.renew_all(images);
        Ok(())
    }
}
