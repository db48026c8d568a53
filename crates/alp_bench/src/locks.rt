//! Asks and releases at a lock table on which another transaction, or the asker itself, holds many resources.
use crate::moment::{START, mark};
use alp_base::{Choice, FileId, Key, OutOfMemory, Resource, TransId};
use alp_locks::{Grant, LockTable, Request};
use alp_modes::Mode;
use alp_queue::Needs;
use std::alloc::Global;

// The kinds of work: asks and releases of one resource, of as many as are held, and an ask for more by who holds so many.
const ONE: u8 = 1;

const ALL: u8 = 2;

const MORE: u8 = 3;

// How often each is done.
const ROUNDS_OF_ONE: u32 = 20_000;

const ROUNDS_OF_ALL: u32 = 100;

const ROUNDS_OF_MORE: u32 = 1000;

// How many more are asked for.
const ADDED: u32 = 16;

const FILE: FileId = FileId {
    server: 1,
    epoch: 1,
    counter: 1,
};

const HOLDER: TransId = TransId {
    server: 1,
    epoch: 1,
    counter: 1,
};

const ASKER: TransId = TransId {
    server: 1,
    epoch: 1,
    counter: 2,
};

// Asks for so many pages from the first on, to write them. Answers how many calls were granted: one or none.
fn ask(
    alloc: Global,
    table: &mut LockTable,
    trans: TransId,
    first: u32,
    count: u32,
) -> Result<u64, OutOfMemory> {
    if !table.is_granted(trans) {
        return Ok(0);
    }
    let mut needs = Vec::new(alloc);
    for page in first..first.saturating_add(count) {
        needs.push((Resource::Leaf(Key::PageOf(FILE, page)), Mode::Write))?;
    }
    let grant = table.ask(Request {
        trans,
        needs: Needs::new(needs),
        choice: Choice::Fail,
    })?;
    Ok((grant == Grant::Granted) as u64)
}

// Asks for these pages and releases them, so often. Answers how often it was granted.
fn ask_often(
    alloc: Global,
    table: &mut LockTable,
    first: u32,
    count: u32,
    rounds: u32,
) -> Result<u64, OutOfMemory> {
    let mut granted = 0u64;
    for _ in 0..rounds {
        granted = granted.saturating_add(ask(alloc, table, ASKER, first, count)?);
        table.release_all(ASKER);
    }
    Ok(granted)
}

// Asks for more where the asker holds so many, and releases all. Only the ask for more is marked.
fn ask_more_often(alloc: Global, table: &mut LockTable, held: u32) -> Result<u64, OutOfMemory> {
    let mut granted = 0u64;
    for _ in 0..ROUNDS_OF_MORE {
        ask(alloc, table, ASKER, 0, held)?;
        mark(alloc, START);
        granted = granted.saturating_add(ask(alloc, table, ASKER, held, ADDED)?);
        mark(alloc, MORE);
        table.release_all(ASKER);
    }
    Ok(granted)
}

// All three on a table of which another transaction holds so many pages, and then none. Answers how many asks were granted.
fn ask_each(alloc: Global, table: &mut LockTable, held: u32) -> Result<u64, OutOfMemory> {
    ask(alloc, table, HOLDER, 0, held)?;
    mark(alloc, START);
    let one = ask_often(alloc, table, held, 1, ROUNDS_OF_ONE)?;
    mark(alloc, ONE);
    table.release_all(HOLDER);
    mark(alloc, START);
    let all = ask_often(alloc, table, 0, held, ROUNDS_OF_ALL)?;
    mark(alloc, ALL);
    let more = ask_more_often(alloc, table, held)?;
    Ok(one.saturating_add(all).saturating_add(more))
}

/// Asks and releases beside so many held resources: 20,000 of one while another transaction holds them, 100 of all of them, and 1,000
/// asks for 16 more by who holds them. Answers how many were granted.
#[unsafe(no_mangle)]
pub extern "C" fn alp_bench_locks(alloc: Global, held: u32) -> u64 {
    let mut table = LockTable::new(alloc);
    match ask_each(alloc, &mut table, held) {
        Ok(granted) => granted,
        Err(OutOfMemory) => 0,
    }
}
