//! Copies of pages out of the buffers that a log has in memory.
ghost use Rattle.std.specs.Prelude.{◌≡◌, ◌≤◌, IfOk, OnOk, IsTrue, true};
ghost use Rattle.alp_pool.specs.Pools.{log_of, IsPool};
ghost use Rattle.alp_wal.specs.Wal.{anchor_of};

use crate::log::new_log;
use crate::moment::{START, mark};
use alp_base::{OutOfMemory, Page};
use alp_disk::Disk;
use alp_pool::Pool;
use alp_silent::Silent;
use std::alloc::Global;

// The kind of work.
const COPY: u8 = 1;

// The pages that the buffers have.
const PAGES: u32 = 256;

// Reads the first pages into the buffers. Answers whether each was read.
fn warm(pool: &mut Pool<Silent>) -> bool
    requires pool { IsPool ⟦<Silent as Disk>⟧ pool.old }
    requires home { 512 ≤ (anchor_of (log_of pool.old)).sizes.home }
    ensures { result ≡ true → IsPool ⟦<Silent as Disk>⟧ pool.new }
{
    for at in 0..PAGES {
        if pool.get(at).is_err() {
            return false;
        }
    }
    true
}

// Copies pages out of the buffers in turn, and reads a byte of each copy, so that none is left out. Answers how many were there, and
// the sum of those bytes, which are zero.
fn copy_often(pool: &Pool<Silent>, page: &mut Page, rounds: u32) -> u64
    requires { IsPool ⟦<Silent as Disk>⟧ pool.now }
{
    let mut copied = 0u64;
    for round in 0..rounds {
        let is_there = pool.peek(round % PAGES, page);
        let byte = page.bytes()[(round % 512) as usize];
        copied = copied.saturating_add(is_there as u64 + u64::from(byte));
    }
    copied
}

fn new_pool(alloc: Global) -> Result<Pool<Silent>, OutOfMemory>
    ensures pool { IfOk result (IsPool ⟦<Silent as Disk>⟧) }
    ensures home { IfOk result (λ p. 512 ≤ (anchor_of (log_of p)).sizes.home) }
{
    let log = new_log(alloc, 512)?;
    match Pool::new(alloc, log, PAGES) {
        Ok(pool) => Ok(pool),
        Err((_log, _fault)) => Err(OutOfMemory),
    }
}

// Answers how many pages were copied.
fn copy_warm(alloc: Global, pool: &mut Pool<Silent>, rounds: u32) -> u64
    requires pool { IsPool ⟦<Silent as Disk>⟧ pool.old }
    requires home { 512 ≤ (anchor_of (log_of pool.old)).sizes.home }
{
    if !warm(pool) {
        return 0;
    }
    let mut page = Page::zero();
    mark(alloc, START);
    let copied = copy_often(pool, &mut page, rounds);
    mark(alloc, COPY);
    copied
}

/// So many copies of pages, in turn out of 256 that stand in buffers. Answers how many were there.
#[unsafe(no_mangle)]
pub extern "C" fn alp_bench_buffers(alloc: Global, rounds: u32) -> u64 {
    match new_pool(alloc) {
        Ok(pool) => {
            let mut pool = pool;
            copy_warm(alloc, &mut pool, rounds)
        }
        Err(OutOfMemory) => 0,
    }
}
