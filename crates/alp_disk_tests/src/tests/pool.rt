//! Tests of alp_pool.
ghost use Rattle.std.specs.Prelude.{◌≡◌, ◌≤◌, IsTrue, IfOk, IfSome, false};
ghost use Rattle.alp_batch.specs.Batch.{IsBatch};
ghost use Rattle.alp_wal.specs.Wal.{disk_of, is_dead, IsLog, IsKnown};
ghost use Rattle.alp_pool.specs.Pools.{IsPool};

use alp_anchor::{Anchor, anchor_page};
use alp_base::{OutOfMemory, Page, Sizes};
use alp_batch::{Batch, decode};
use alp_disk::{Disk, MemDisk};
use alp_pool::Pool;
use alp_wal::{Wal, WalFault, all_below, mount};
use std::alloc::Global;
use std::test::Fail;

const SIZES: Sizes = Sizes {
    home: 512,
    area: 64,
};

const ANCHOR: Anchor = Anchor {
    page: 0,
    generation: 1,
    area: 0,
    server: 1,
    servers: 1,
    sizes: SIZES,
};

/// The log of a new volume, on a disk that gets its anchor and holds zeros.
fn fresh<D: Disk>(alloc: Global, disk: D) -> Option<Wal<D>>
    ensures log { IfSome result (λ w. IsLog (D.size (disk_of w)) w) }
    ensures known { IfSome result (λ w. IsTrue (D.tells (disk_of w)) → is_dead w ≡ false → IsKnown (D.size (disk_of w)) (D.seen (disk_of w)) (D.may_leave (disk_of w)) w) }
{
    let mut disk = disk;
    if disk.pages() < 2 || disk.write(0, 0, anchor_page(&ANCHOR).bytes()).is_err() {
        return None;
    }
    match mount(alloc, disk, 1, 1) {
        Ok(wal) => Some(wal),
        Err(_refused) => None,
    }
}

fn pool_of<D: Disk>(alloc: Global, disk: D, capacity: u32) -> Option<Pool<D>>
    requires { 1 ≤ capacity }
    ensures { IfSome result (λ p. IsPool D.Disk p) }
{
    let wal = fresh(alloc, disk)?;
    match Pool::new(alloc, wal, capacity) {
        Ok(pool) => Some(pool),
        Err(_refused) => None,
    }
}

/// Home page `at` with this byte all over.
fn change(alloc: Global, at: u8, byte: u8) -> Result<Option<Batch>, OutOfMemory>
    ensures { IfOk result (λ found. IfSome found IsBatch) }
{
    let mut bytes = Vec::new(alloc);
    bytes.extend_from_slice(&[0, 1, 0, 0, 0, at])?;
    bytes.extend_from_slice(&[byte; 512])?;
    bytes.extend_from_slice(&[0, 0])?;
    decode(alloc, bytes.as_slice())
}

/// Whether the first byte of a page is that one, through the buffers.
fn begins<D: Disk>(pool: &mut Pool<D>, at: u32, byte: u8) -> bool
    requires { IsPool D.Disk pool.old }
    ensures { IsPool D.Disk pool.new }
{
    if at >= pool.sizes().home {
        return false;
    }
    match pool.get(at) {
        Ok(page) => page.bytes()[0] == byte,
        Err(_fault) => false,
    }
}

/// Whether a page is not given, since the log is dead.
fn is_withheld<D: Disk>(pool: &mut Pool<D>, at: u32) -> bool
    requires { IsPool D.Disk pool.old }
    ensures { IsPool D.Disk pool.new }
{
    if at >= pool.sizes().home {
        return false;
    }
    match pool.get(at) {
        Ok(_page) => false,
        Err(fault) => fault == WalFault::Dead,
    }
}

/// Commits the batch where it is of home pages alone, and gives the fault.
fn commit<D: Disk>(pool: &mut Pool<D>, batch: &Batch) -> Option<Result<(), WalFault>>
    requires pool { IsPool D.Disk pool.old }
    requires batch { IsBatch batch.now }
    ensures { IsPool D.Disk pool.new }
{
    if !all_below(batch.images.as_slice(), pool.sizes().home)
        || !batch.notes.as_slice().is_empty()
    {
        return None;
    }
    Some(pool.commit(batch))
}

/// Commits page `at` with this byte.
fn put<D: Disk>(alloc: Global, pool: &mut Pool<D>, at: u8, byte: u8) -> Option<Result<(), WalFault>>
    requires { IsPool D.Disk pool.old }
    ensures { IsPool D.Disk pool.new }
{
    match change(alloc, at, byte) {
        Ok(Some(batch)) => commit(pool, &batch),
        _ => None,
    }
}

/// Whether a buffer gets what is put, and who has the page keeps what was there.
fn is_replaced<D: Disk>(alloc: Global, pool: &mut Pool<D>) -> bool
    requires { IsPool D.Disk pool.old }
    ensures { IsPool D.Disk pool.new }
{
    if pool.sizes().home != SIZES.home {
        return false;
    }
    match pool.get(7) {
        Ok(before) => {
            let done = put(alloc, pool, 7, 9) == Some(Ok(()));
            let mut copy = Page::zero();
            let there = pool.peek(7, &mut copy);
            done && there
                && copy.bytes() == [9; 512].as_slice()
                && before.bytes() == [0; 512].as_slice()
        }
        Err(_fault) => false,
    }
}

/// Whether two further pages push it out of its buffer, and it is read from the log again.
fn is_read_again<D: Disk>(pool: &mut Pool<D>) -> bool
    requires { IsPool D.Disk pool.old }
    ensures { IsPool D.Disk pool.new }
{
    begins(pool, 8, 0)
        && begins(pool, 9, 0)
        && !pool.resident(7)
        && pool.resident(8)
        && pool.resident(9)
        && begins(pool, 7, 9)
}

/// Whether both pages stand after a checkpoint.
fn is_kept<D: Disk>(pool: &mut Pool<D>) -> bool
    requires { IsPool D.Disk pool.old }
    ensures { IsPool D.Disk pool.new }
{
    pool.checkpoint() == Ok(()) && begins(pool, 7, 9) && begins(pool, 8, 0)
}

fn follow<D: Disk>(alloc: Global, disk: D) -> bool {
    match pool_of(alloc, disk, 2) {
        Some(mut pool) => {
            is_replaced(alloc, &mut pool) && is_read_again(&mut pool) && is_kept(&mut pool)
        }
        None => false,
    }
}

#[test]
fn buffers_follow_the_log(rt: HostRuntime) -> Result<(), Fail> {
    let alloc = rt.alloc();
    let disk = MemDisk::new(alloc, 642, Vec::new(alloc))?;
    assert!(rt; follow(alloc, disk));
    Ok(())
}

/// Whether the first commit fails, and the next one finds the log dead.
fn dies<D: Disk>(alloc: Global, pool: &mut Pool<D>) -> bool
    requires { IsPool D.Disk pool.old }
    ensures { IsPool D.Disk pool.new }
{
    begins(pool, 7, 0)
        && put(alloc, pool, 7, 9) == Some(Err(WalFault::Failed))
        && put(alloc, pool, 7, 9) == Some(Err(WalFault::Dead))
}

fn give_what_they_have<D: Disk>(alloc: Global, disk: D) -> bool {
    match pool_of(alloc, disk, 2) {
        Some(mut pool) => {
            dies(alloc, &mut pool)
                && begins(&mut pool, 7, 0)
                && is_withheld(&mut pool, 8)
                && pool.is_dead()
        }
        None => false,
    }
}

#[test]
fn a_dead_log_gives_what_buffers_have(rt: HostRuntime) -> Result<(), Fail> {
    let alloc = rt.alloc();
    // The anchor's write, a mount (a sync and three reads), page 7, and then the first call of the commit.
    let fails = Vec::from_slice(alloc, &[7])?;
    let disk = MemDisk::new(alloc, 642, fails)?;
    assert!(rt; give_what_they_have(alloc, disk));
    Ok(())
}

/// What threads may share and hand over.
fn crosses<T: Send + Sync>(_value: &T) {}

/// Whether buffers of a new volume have no notes and a whole area, and close with a log that is alive. They cross threads as
/// their disk does.
fn cross_threads<D: Disk + Send + Sync>(alloc: Global, disk: D) -> bool {
    match pool_of(alloc, disk, 256) {
        Some(pool) => {
            crosses(&pool);
            let is_new = pool.note_names().is_empty() && pool.room() == 64;
            let wal = pool.close();
            is_new && !wal.is_dead()
        }
        None => false,
    }
}

#[test]
fn buffers_cross_threads(rt: HostRuntime) -> Result<(), Fail> {
    let alloc = rt.alloc();
    let disk = MemDisk::new(alloc, 642, Vec::new(alloc))?;
    assert!(rt; cross_threads(alloc, disk));
    Ok(())
}
