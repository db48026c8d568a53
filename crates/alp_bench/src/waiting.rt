//! Calls at a server that wait for one page, the end of the transaction that wakes them, and their collects, where their transactions
//! hold many locks.
use crate::desk::{Desk, Opened, Told};
use crate::moment::{START, mark};
use alp_base::{FileId, OutOfMemory, Run};
use alp_modes::Mode;
use std::alloc::Global;

// The kinds of work, each for all that wait in a round.
const ASK: u8 = 1;

const RELEASE: u8 = 2;

const COLLECT: u8 = 3;

// How many transactions ask in a round. One more has the page locked.
const ASKERS: u32 = 63;

// How many rounds there are, each for a page of its own, which each asker has locked from then on.
const ROUNDS: u32 = 16;

// How many pages are locked in one call.
const RUN: u32 = 16;

// The client of the transaction for whose page the others wait.
const WRITER: u8 = 15;

// A transaction that asks, and the number of its call that waits.
#[derive(Clone, Copy)]
struct Asker {
    opened: Opened,
    number: u32,
}

// Locks so many pages to read them, behind those of the rounds.
fn hold(desk: &mut Desk, opened: Opened, pages: u32) -> Result<(), OutOfMemory> {
    for part in 0..pages / RUN + 1 {
        let before = part.saturating_mul(RUN);
        let count = pages.saturating_sub(before).min(RUN);
        if 0 < count {
            let first = before.saturating_add(ROUNDS);
            let count = count as u8;
            desk.lock(opened, Run { first, count }, Mode::Read)?;
        }
    }
    Ok(())
}

// The transactions that ask, each with so many resources locked: its file, the file's leader, and pages.
fn askers_of(
    alloc: Global,
    desk: &mut Desk,
    file: FileId,
    held: u32,
) -> Result<Vec<Asker>, OutOfMemory> {
    let mut askers = Vec::new(alloc);
    for place in 0..ASKERS {
        let opened = desk.enter((place % 16) as u8, file, Mode::IntendRead)?;
        hold(desk, opened, held.saturating_sub(2))?;
        askers.push(Asker { opened, number: 0 })?;
    }
    Ok(askers)
}

// Each asks for the page. Answers how many of them wait.
fn ask_each(desk: &mut Desk, askers: &mut Vec<Asker>, page: u32) -> Result<u64, OutOfMemory> {
    let mut waiting = 0u64;
    for asker in askers.iter_mut() {
        let told = desk.read(asker.opened, page)?;
        asker.number = desk.last(asker.opened.seat);
        waiting = waiting.saturating_add(matches!(&told, Told::Waits) as u64);
    }
    Ok(waiting)
}

// Each collects what it asked for, which is one page. Answers how many of them have it.
fn collect_each(desk: &mut Desk, askers: &[Asker]) -> Result<u64, OutOfMemory> {
    let mut collected = 0u64;
    for asker in askers {
        let told = desk.collect(asker.opened.seat, asker.number)?;
        collected = collected.saturating_add(matches!(&told, Told::Done) as u64);
    }
    Ok(collected)
}

// One round: a transaction locks the page, the others wait for it, and have it as that one ends. Answers how many waited, and had it.
fn go_round(
    alloc: Global,
    desk: &mut Desk,
    askers: &mut Vec<Asker>,
    file: FileId,
    page: u32,
) -> Result<u64, OutOfMemory> {
    let writer = desk.enter(WRITER, file, Mode::IntendWrite)?;
    let run = Run {
        first: page,
        count: 1,
    };
    desk.lock(writer, run, Mode::Write)?;
    mark(alloc, START);
    let waiting = ask_each(desk, askers, page)?;
    mark(alloc, ASK);
    desk.end(writer.seat, writer.trans, false)?;
    mark(alloc, RELEASE);
    let collected = collect_each(desk, askers.as_slice())?;
    mark(alloc, COLLECT);
    Ok(waiting.min(collected))
}

// All rounds. Answers how often one waited, and had the page.
fn go_rounds(alloc: Global, desk: &mut Desk, held: u32) -> Result<u64, OutOfMemory> {
    desk.greet()?;
    let file = desk.make_file()?;
    let mut askers = askers_of(alloc, desk, file, held)?;
    let mut collected = 0u64;
    for page in 0..ROUNDS {
        let more = go_round(alloc, desk, &mut askers, file, page)?;
        collected = collected.saturating_add(more);
    }
    Ok(collected)
}

/// Sixteen rounds in which 63 transactions wait for a page, each of which has locked so many resources before the first round (from 2 to
/// 1,008), and one more in each round. Answers how often one waited, and had the page.
#[unsafe(no_mangle)]
pub extern "C" fn alp_bench_waiting(alloc: Global, held: u32) -> u64 {
    match Desk::open(alloc) {
        Ok(desk) => {
            let mut desk = desk;
            match go_rounds(alloc, &mut desk, held) {
                Ok(collected) => collected,
                Err(OutOfMemory) => 0,
            }
        }
        Err(OutOfMemory) => 0,
    }
}
