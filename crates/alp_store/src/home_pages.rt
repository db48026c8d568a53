//! The home pages of a log, through its buffers.
ghost use Rattle.std.specs.Prelude.{◌≡◌, ◌<◌, IsTrue, IfOk, IfErr, OnErr, OnOk, IsErrOf, false};
ghost use Rattle.std.specs.FinMap as map;
ghost use Rattle.std.specs.Option.{option_copied as copied};
ghost use Rattle.alp_base.specs.Crashes.{LeavesOnly};
ghost use Rattle.alp_batch.specs.Batch.{IsBatch};
ghost use Rattle.alp_disk.specs.Calls.{IsSameDevice};
ghost use Rattle.alp_wal.specs.State.{Suits, applied};
ghost use Rattle.alp_wal.specs.Wal.{disk_of, anchor_of, notes_of, is_dead, BeforeOrAfter, IsLog, IsKnown};
ghost use Rattle.alp_wal.specs.Calls.{Becomes, HasCommitted, HasNotCommitted, IsSameLog, IsLimited};
ghost use Rattle.alp_pool.specs.Pools.{log_of, device_of, held_by, IsPool};
ghost use Rattle.alp_pool.specs.Calls.{HasPoolCause};

use alp_base::{Bytes, OutOfMemory, PageRef, Sizes, VaultFault};
use alp_batch::Batch;
use alp_disk::Disk;
use alp_pages::PageReader;
use alp_pool::Pool;
use alp_wal::{Wal, WalFault};
use std::alloc::Global;
use std::marker::Model;

/// As many pages stay in memory.
const BUFFERS: u32 = 256;

/// The home pages of a log, through buffers that hold what the log holds; seen as these buffers. A log that has stopped has none.
#[derive(Drop)]
pub struct HomePages<D: Disk> {
    pool: Pool<D>,
}

impl<D: Disk> Model for HomePages<D> {
    ghost use Rattle.std.specs.Coded.{codes};
    ghost use Rattle.alp_notes.specs.Held.{held_code};
    ghost use Rattle.alp_pool.specs.declared.pool.Pool.{Pool as PoolOf};

    ghost Value = { PoolOf D };

    ghost coded = { Prim.hlevel (codes, D.code, held_code) };

    ghost use Rattle.alp_pool.specs.Pools.{IsPool};

    ghost view = { λ s. s.pool };

    ghost invariant = { λ s. IsPool D.Disk s.pool };
}

impl<D: Disk> HomePages<D> {
    /// The pages of a log, with no buffer filled. A log that finds no memory comes back.
    pub fn new(alloc: Global, log: Wal<D>) -> Result<HomePages<D>, (Wal<D>, OutOfMemory)>
        requires log { IsLog (D.size (disk_of log)) log }
        requires known { IsTrue (D.tells (disk_of log)) → is_dead log ≡ false → IsKnown (D.size (disk_of log)) (D.seen (disk_of log)) (D.may_leave (disk_of log)) log }
        ensures log { IfOk result (λ p. log_of p ≡ log) }
        ensures back { IfErr result (λ e. e.0 ≡ log) }
    {
        match Pool::new(alloc, log, BUFFERS) {
            Ok(pool) => Ok(HomePages { pool }),
            Err(e) => Err(e),
        }
    }

    /// What holds of them all.
    pub fn knows(&self)
        ensures { IsPool D.Disk self.now }
    {
        let _ = &self.pool;
    }

    pub fn sizes(&self) -> Sizes
        ensures { result ≡ (anchor_of (log_of self.now)).sizes }
    {
        self.pool.sizes()
    }

    /// The value of a note.
    pub fn note(&self, name: &Bytes) -> Option<&Bytes>
        ensures { copied result ≡ map.get (notes_of (log_of self.now)) name.now }
    {
        self.pool.note(name)
    }

    /// The names of the notes, rising.
    pub fn note_names(&self) -> &[Bytes]
        ensures { result.now ≡ map.keys (notes_of (log_of self.now)) }
    {
        self.pool.note_names()
    }

    /// Commits a batch to the log.
    pub fn commit(&mut self, batch: &Batch) -> Result<(), WalFault>
        requires batch { IsBatch batch.now }
        requires suits { Suits (anchor_of (log_of self.old)).sizes.home (notes_of (log_of self.old)) batch.now }
        ensures becomes { IsTrue (D.tells (device_of self.old)) → Becomes result (held_by D.Disk self.old) (applied (held_by D.Disk self.old) batch.now) (held_by D.Disk self.new) }
        ensures before_or_after { IsTrue (D.tells (device_of self.old)) → is_dead (log_of self.old) ≡ false → LeavesOnly D.left_since (device_of self.old) (device_of self.new) (BeforeOrAfter (anchor_of (log_of self.old)).server (anchor_of (log_of self.old)).servers (D.size (device_of self.old)) (held_by D.Disk self.old) batch.now) }
        ensures made { OnOk result (HasCommitted batch.now (log_of self.old) (log_of self.new)) }
        ensures stays { OnErr result (HasNotCommitted batch.now (log_of self.old) (log_of self.new)) }
        ensures below { IsSameDevice D.Disk (device_of self.old) (device_of self.new) }
        ensures cause { HasPoolCause D.Disk batch.now self.old self.new result }
    {
        self.pool.commit(batch)
    }

    /// On a disk with a `Fuse`, lets so many further writes and syncs pass, or all of them.
    pub fn stop_after(&mut self, calls: Option<u32>)
        ensures same { IsSameLog (log_of self.old) (log_of self.new) }
        ensures below { IsLimited D.Disk calls (device_of self.old) (device_of self.new) }
    {
        self.pool.stop_after(calls);
    }

    /// The log without its buffers.
    pub fn close(self) -> Wal<D>
        ensures { result ≡ log_of self }
    {
        let HomePages { pool } = self;
        pool.close()
    }
}

impl<D: Disk> PageReader for HomePages<D> {
    ghost use Rattle.alp_pool.specs.Pools.{log_of, device_of, held_by};
    ghost use Rattle.alp_store.specs.Told.{pages_of, told_by};
    ghost use Rattle.alp_store.specs.Reads.{home_of, IsReadOn};
    ghost use Rattle.alp_store.specs.ReadLaws.{read_nothing, read_on, read_pages, read_home, read_tells, read_allowance, read_later};

    ghost tells = { λ p. D.tells (device_of p) };

    ghost home = { λ p. home_of p };

    ghost pages = { λ p. pages_of (told_by D.Disk (log_of p)) };

    ghost faults = { λ p. D.faults (device_of p) };

    ghost allowance = { λ p. D.allowance (device_of p) };

    ghost ReadOn = { λ p q. IsReadOn D.Disk p q };

    fn page(&mut self, at: u32) -> Result<PageRef, VaultFault> {
        match self.pool.get(at) {
            Ok(page) => Ok(page),
            Err(WalFault::Failed) => Err(VaultFault::Failed),
            Err(WalFault::Stopped) => Err(VaultFault::Stopped),
            Err(WalFault::OutOfMemory) => Err(VaultFault::OutOfMemory),
            Err(WalFault::Full | WalFault::Dead) => unreachable!(),
        }
    }

    ghost still = { read_nothing D.Disk.own };

    ghost then_on = { read_on D.Disk.own };

    ghost same_pages = { read_pages D.Disk.own };

    ghost same_home = { read_home D.Disk.own };

    ghost same_tells = { read_tells D.Disk.own };

    ghost same_allowance = { read_allowance D.Disk.own };

    ghost later = { read_later D.Disk.own };
}
