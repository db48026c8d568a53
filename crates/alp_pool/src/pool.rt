//! The buffers themselves, and the calls of the log that they pass on.
ghost use Rattle.std.specs.Prelude.{◌≡◌, ◌≤◌, ◌<◌, [], ℕ, List, Option, IsTrue, IfOk, IfErr, OnOk, OnErr, Some, false, true, ◌↔◌, nat_eq};
ghost use Rattle.std.specs.FinMap as map;
ghost use Rattle.std.specs.Option.{option_copied as copied};
ghost use Rattle.std.specs.Map.{lookup};
ghost use Rattle.alp_base.specs.Crashes.{LeavesOnly};
ghost use Rattle.alp_disk.specs.Calls.{IsSameDevice};
ghost use Rattle.alp_wal.specs.Reading.{Reads};
ghost use Rattle.alp_wal.specs.Wal.{disk_of, anchor_of, notes_of, held_notes, room_of, is_dead, state_of, IsSameVolume, IsLog, IsKnown};
ghost use Rattle.alp_wal.specs.Checkpoint.{IsUnmoved, HasTurned};
ghost use Rattle.alp_wal.specs.Calls.{IsSameLog, IsLimited, HasCheckpointCause};
ghost use Rattle.alp_pool.specs.Buffers.{IsResident};
ghost use Rattle.alp_pool.specs.Pools.{log_of, buffers_of, capacity_of, device_of, held_by, IsPool};

use alp_base::{Bytes, OutOfMemory, Page, PageRef, Sizes};
use alp_disk::Disk;
use alp_wal::{Wal, WalFault};
use lru::LruCache;
use std::alloc::Global;
use std::num::NonZeroUsize;

/// The home pages of a log, those used last in memory.
#[derive(Drop)]
pub struct Pool<D: Disk> {
    pub(super) alloc: Global,
    pub(super) log: Wal<D>,
    pub(super) held: LruCache<u32, PageRef>,
}

impl<D: Disk> Pool<D> {
    /// Buffers for so many pages of a log. A log that finds no memory comes back.
    pub fn new(alloc: Global, log: Wal<D>, capacity: u32) -> Result<Pool<D>, (Wal<D>, OutOfMemory)>
        requires log { IsLog (D.size (disk_of log)) log }
        requires known { IsTrue (D.tells (disk_of log)) → is_dead log ≡ false → IsKnown (D.size (disk_of log)) (D.seen (disk_of log)) (D.may_leave (disk_of log)) log }
        requires capacity { 1 ≤ capacity }
        ensures pool { IfOk result (λ p. IsPool D.Disk p) }
        ensures log { IfOk result (λ p. log_of p ≡ log) }
        ensures empty { IfOk result (λ p. buffers_of p ≡ []) }
        ensures capacity { IfOk result (λ p. capacity_of p ≡ capacity) }
        ensures back { IfErr result (λ e. e.0 ≡ log) }
    {
        let Some(room) = NonZeroUsize::new(capacity as usize) else {
            unreachable!()
        };
        match LruCache::new(alloc, room) {
            Ok(held) => Ok(Pool { alloc, log, held }),
            Err(_) => Err((log, OutOfMemory)),
        }
    }

    /// Whether a buffer has the page.
    pub fn resident(&self, at: u32) -> bool
        ensures { IsTrue result ↔ IsResident at (buffers_of self.now) }
    {
        self.held.contains(&at)
    }

    /// Copies a page that a buffer has, and tells whether one has it. It takes no memory, and no buffer counts as used.
    pub fn peek(&self, at: u32, page: &mut Page) -> bool
        requires { IsPool D.Disk self.now }
        ensures resident { IsTrue result ↔ IsResident at (buffers_of self.now) }
        ensures buffer { (bytes : List ℕ) → lookup (nat_eq at) (buffers_of self.now) ≡ Some bytes → page.new ≡ bytes }
        ensures none { result ≡ false → page.new ≡ page.old }
    {
        let Some(held) = self.held.peek(&at) else {
            return false;
        };
        let mut bytes = [0u8; 512];
        bytes.copy_from_slice(held.bytes());
        *page = Page::new(bytes);
        true
    }

    /// The value of a note.
    pub fn note(&self, name: &Bytes) -> Option<&Bytes>
        ensures { copied result ≡ map.get (notes_of (log_of self.now)) name.now }
    {
        self.log.note(name)
    }

    /// The names of the live notes, rising.
    pub fn note_names(&self) -> &[Bytes]
        ensures { result.now ≡ map.keys (notes_of (log_of self.now)) }
    {
        self.log.note_names()
    }

    pub fn sizes(&self) -> Sizes
        ensures { result ≡ (anchor_of (log_of self.now)).sizes }
    {
        self.log.sizes()
    }

    /// The pages of the log's area behind the last record.
    pub fn room(&self) -> u32
        requires { IsPool D.Disk self.now }
        ensures { result ≡ room_of (log_of self.now) }
    {
        self.log.room()
    }

    /// Whether an earlier commit or checkpoint failed or was stopped.
    pub fn is_dead(&self) -> bool
        ensures { result ≡ is_dead (log_of self.now) }
    {
        self.log.is_dead()
    }

    /// On a disk with a `Fuse`, lets so many further writes and syncs pass, or all of them.
    pub fn stop_after(&mut self, calls: Option<u32>)
        requires { IsPool D.Disk self.old }
        ensures pool { IsPool D.Disk self.new }
        ensures same { IsSameLog (log_of self.old) (log_of self.new) }
        ensures buffers { buffers_of self.new ≡ buffers_of self.old }
        ensures below { IsLimited D.Disk calls (device_of self.old) (device_of self.new) }
    {
        self.log.stop_after(calls);
    }

    /// A checkpoint of the log. The buffers stay.
    pub fn checkpoint(&mut self) -> Result<(), WalFault>
        requires { IsPool D.Disk self.old }
        ensures pool { IsPool D.Disk self.new }
        ensures buffers { buffers_of self.new ≡ buffers_of self.old }
        ensures same { IsTrue (D.tells (device_of self.old)) → held_by D.Disk self.new ≡ held_by D.Disk self.old }
        ensures any_moment { IsTrue (D.tells (device_of self.old)) → is_dead (log_of self.old) ≡ false → LeavesOnly D.left_since (device_of self.old) (device_of self.new) (λ c. Reads (anchor_of (log_of self.old)).server (anchor_of (log_of self.old)).servers (D.size (device_of self.old)) c (held_by D.Disk self.old)) }
        ensures notes { held_notes (log_of self.new) ≡ held_notes (log_of self.old) }
        ensures volume { IsSameVolume (anchor_of (log_of self.old)) (anchor_of (log_of self.new)) }
        ensures turned { OnOk result (HasTurned (log_of self.old) (log_of self.new)) }
        ensures stays { OnErr result (IsUnmoved (log_of self.old) (log_of self.new)) }
        ensures below { IsSameDevice D.Disk (device_of self.old) (device_of self.new) }
        ensures cause { HasCheckpointCause D.Disk (log_of self.old) (log_of self.new) result }
    {
        self.log.checkpoint()
    }

    /// The log without its buffers.
    pub fn close(self) -> Wal<D>
        ensures { result ≡ log_of self }
    {
        self.log
    }
}
