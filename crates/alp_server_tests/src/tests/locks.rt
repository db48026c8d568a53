//! Tests of alp_locks.
use alp_base::{Choice, FileId, Key, OutOfMemory, Resource, TransId};
use alp_locks::*;
use alp_modes::Mode;
use alp_queue::Needs;
use std::alloc::Global;
use std::test::*;

const FILE: FileId = FileId {
    server: 1,
    epoch: 1,
    counter: 1,
};

const OTHER: FileId = FileId {
    server: 1,
    epoch: 1,
    counter: 2,
};

fn trans(counter: u32) -> TransId {
    TransId {
        server: 1,
        epoch: 1,
        counter,
    }
}

fn needs_of(alloc: Global, list: &[(Resource, Mode)]) -> Result<Needs, OutOfMemory> {
    let _keys: Option<Key> = None;
    let mut needs = Vec::new(alloc);
    for need in list {
        needs.push(*need)?;
    }
    Ok(Needs::new(needs))
}

// The answer to a list of needs, or none where the transaction waits.
fn ask(
    alloc: Global,
    table: &mut LockTable,
    by: u32,
    list: &[(Resource, Mode)],
    choice: Choice,
) -> Result<Option<Grant>, OutOfMemory> {
    let trans = trans(by);
    if !table.is_granted(trans) {
        return Ok(None);
    }
    let needs = needs_of(alloc, list)?;
    let grant = table.ask(Request {
        trans,
        needs,
        choice,
    })?;
    Ok(Some(grant))
}

// Pages from 0 on, each in that mode.
fn pages(alloc: Global, count: u32, mode: Mode) -> Result<Vec<(Resource, Mode)>, OutOfMemory> {
    let _keys: Option<Key> = None;
    let mut list = Vec::new(alloc);
    for number in 0..count {
        list.push((Resource::Leaf(Key::PageOf(FILE, number)), mode))?;
    }
    Ok(list)
}

// How a transaction is answered that asks for all of a thousand pages, and never waits.
fn ask_for_pages(
    alloc: Global,
    table: &mut LockTable,
    by: u32,
    mode: Mode,
) -> Result<Option<Grant>, OutOfMemory> {
    let list = pages(alloc, 1024, mode)?;
    ask(alloc, table, by, list.as_slice(), Choice::Fail)
}

// On how many of these pages the transaction's mode would rise to writing.
fn rising_count(alloc: Global, table: &LockTable, by: u32) -> Result<usize, OutOfMemory> {
    let list = pages(alloc, 1024, Mode::Write)?;
    let needs = Needs::new(list);
    let rises = table.rising(trans(by), &needs)?;
    Ok(rises.as_slice().len())
}

const WHOLE: Resource = Resource::Whole(FILE);

const READ: [(Resource, Mode); 1] = [(WHOLE, Mode::Read)];

const WRITE: [(Resource, Mode); 1] = [(WHOLE, Mode::Write)];

const WRITE_OTHER: [(Resource, Mode); 1] = [(Resource::Whole(OTHER), Mode::Write)];

const GRANTED: Result<Option<Grant>, OutOfMemory> = Ok(Some(Grant::Granted));

const QUEUED: Result<Option<Grant>, OutOfMemory> = Ok(Some(Grant::Queued));

// Whether two read, and then one that came in between and the second of them wait to write.
fn are_queued(alloc: Global, table: &mut LockTable) -> bool {
    ask(alloc, table, 1, &READ, Choice::Fail) == GRANTED
        && ask(alloc, table, 2, &READ, Choice::Fail) == GRANTED
        && ask(alloc, table, 3, &WRITE, Choice::Wait) == QUEUED
        && ask(alloc, table, 2, &WRITE, Choice::Wait) == QUEUED
}

fn is_woken(table: &mut LockTable, by: u32) -> bool {
    table.take_woken() == Some(trans(by))
}

// Whether the reader gets to write once the other reader is gone, and whoever came in between once it is gone too.
fn are_woken(table: &mut LockTable) -> bool {
    table.release_all(trans(1));
    if !is_woken(table, 2) || table.take_woken().is_some() {
        return false;
    }
    let is_second = table.is_granted(trans(2)) && !table.is_granted(trans(3));
    let writes = table.mode_of(trans(2), &WHOLE) == Some(Mode::Write);
    table.release_all(trans(2));
    is_second && writes && is_woken(table, 3)
}

#[test]
fn conversions_come_before_arrivals(rt: HostRuntime) {
    let mut table = LockTable::new(rt.alloc());
    assert!(rt; are_queued(rt.alloc(), &mut table));
    assert!(rt; are_woken(&mut table));
}

fn wait_for_each_other(alloc: Global, table: &mut LockTable) -> bool {
    ask(alloc, table, 1, &WRITE, Choice::Wait) == GRANTED
        && ask(alloc, table, 2, &WRITE_OTHER, Choice::Wait) == GRANTED
        && ask(alloc, table, 1, &WRITE_OTHER, Choice::Wait) == QUEUED
        && ask(alloc, table, 2, &WRITE, Choice::Wait) == QUEUED
}

// Whether neither goes on where a third lets go, and the second does where the first lets go.
fn stay_waiting(table: &mut LockTable) -> bool {
    table.release_all(trans(3));
    if table.take_woken().is_some() || table.is_granted(trans(1)) || table.is_granted(trans(2)) {
        return false;
    }
    table.release_all(trans(1));
    is_woken(table, 2)
}

#[test]
fn two_that_wait_for_each_other_stay_waiting(rt: HostRuntime) {
    let mut table = LockTable::new(rt.alloc());
    assert!(rt; wait_for_each_other(rt.alloc(), &mut table));
    assert!(rt; stay_waiting(&mut table));
}

const LAST: Resource = Resource::Leaf(Key::PageOf(FILE, 1023));

// Whether two read all pages, a third is told of the first, and each mode of the first would rise.
fn conflicts(alloc: Global, table: &mut LockTable) -> bool {
    let conflict = Grant::Conflict { holder: trans(1) };
    ask_for_pages(alloc, table, 2, Mode::Read) == GRANTED
        && ask_for_pages(alloc, table, 1, Mode::Read) == GRANTED
        && ask_for_pages(alloc, table, 3, Mode::Write) == Ok(Some(conflict))
        && table.mode_of(trans(3), &LAST).is_none()
        && rising_count(alloc, table, 1) == Ok(1024)
}

// Whether the third writes all of them once both are gone, and none of its modes would rise.
fn is_granted_all(alloc: Global, table: &mut LockTable) -> bool {
    table.release_all(trans(1));
    table.release_all(trans(2));
    ask_for_pages(alloc, table, 3, Mode::Write) == GRANTED
        && table.mode_of(trans(3), &LAST) == Some(Mode::Write)
        && rising_count(alloc, table, 3) == Ok(0)
}

#[test]
fn a_thousand_resources_in_one_request(rt: HostRuntime) {
    let mut table = LockTable::new(rt.alloc());
    assert!(rt; conflicts(rt.alloc(), &mut table));
    assert!(rt; is_granted_all(rt.alloc(), &mut table));
}

// Plans the needs for a transaction that has entered, and takes the plan where nobody stands in
// its way.
fn plan_and_take(
    alloc: Global,
    table: &mut LockTable,
    by: u32,
    list: &[(Resource, Mode)],
) -> Result<Option<TransId>, OutOfMemory> {
    let trans = trans(by);
    let needs = needs_of(alloc, list)?;
    table.enter(trans)?;
    let plan = table.plan(trans, needs)?;
    let holder = table.in_way_of(&plan);
    if holder.is_none() {
        table.take(plan);
    }
    Ok(holder)
}

// Whether two plans to read are taken, and one to write is not.
fn are_taken(alloc: Global, table: &mut LockTable) -> bool {
    plan_and_take(alloc, table, 1, &READ) == Ok(None)
        && plan_and_take(alloc, table, 2, &READ) == Ok(None)
        && plan_and_take(alloc, table, 2, &WRITE) == Ok(Some(trans(1)))
        && table.mode_of(trans(2), &WHOLE) == Some(Mode::Read)
}

// Whether it is taken once the other reader is gone, who finds it in its way then.
fn is_taken_alone(alloc: Global, table: &mut LockTable) -> bool {
    table.release_all(trans(1));
    plan_and_take(alloc, table, 2, &WRITE) == Ok(None)
        && table.mode_of(trans(2), &WHOLE) == Some(Mode::Write)
        && plan_and_take(alloc, table, 1, &READ) == Ok(Some(trans(2)))
        && table.mode_of(trans(1), &WHOLE).is_none()
}

#[test]
fn a_plan_is_taken_where_nobody_is_in_its_way(rt: HostRuntime) {
    let mut table = LockTable::new(rt.alloc());
    assert!(rt; are_taken(rt.alloc(), &mut table));
    assert!(rt; is_taken_alone(rt.alloc(), &mut table));
}

// Who stands in the way of the locks that a transaction held before a restart, or the transaction itself where it waits.
fn regain(
    alloc: Global,
    table: &mut LockTable,
    by: u32,
    list: &[(Resource, Mode)],
) -> Result<Option<TransId>, OutOfMemory> {
    let trans = trans(by);
    if !table.is_granted(trans) {
        return Ok(Some(trans));
    }
    let locks = needs_of(alloc, list)?;
    table.regain(trans, locks)
}

const LEAF: Resource = Resource::Leaf(Key::PageOf(FILE, 3));

const READ_LEAF: [(Resource, Mode); 2] = [(WHOLE, Mode::IntendRead), (LEAF, Mode::Read)];

const WRITE_LEAF: [(Resource, Mode); 2] = [(LEAF, Mode::Write), (WHOLE, Mode::IntendWrite)];

const INTEND: [(Resource, Mode); 1] = [(WHOLE, Mode::IntendWrite)];

// Whether a reader regains its locks, and a writer of the same leaf does not.
fn are_regained(alloc: Global, table: &mut LockTable) -> bool {
    regain(alloc, table, 1, &READ_LEAF) == Ok(None)
        && table.mode_of(trans(1), &LEAF) == Some(Mode::Read)
        && regain(alloc, table, 2, &WRITE_LEAF) == Ok(Some(trans(1)))
        && table.mode_of(trans(2), &WHOLE).is_none()
}

// Whether others do that agree with the reader, or have no locks.
fn are_others_regained(alloc: Global, table: &mut LockTable) -> bool {
    regain(alloc, table, 3, &INTEND) == Ok(None)
        && table.mode_of(trans(3), &WHOLE) == Some(Mode::IntendWrite)
        && regain(alloc, table, 4, &[]) == Ok(None)
}

// Whether the writer does once the reader is gone.
fn is_writer_regained(alloc: Global, table: &mut LockTable) -> bool {
    table.release_all(trans(1));
    regain(alloc, table, 2, &WRITE_LEAF) == Ok(None)
        && table.mode_of(trans(2), &LEAF) == Some(Mode::Write)
}

#[test]
fn locks_that_agree_are_regained(rt: HostRuntime) {
    let mut table = LockTable::new(rt.alloc());
    assert!(rt; are_regained(rt.alloc(), &mut table));
    assert!(rt; are_others_regained(rt.alloc(), &mut table));
    assert!(rt; is_writer_regained(rt.alloc(), &mut table));
}

fn crosses<T: Send + Sync>() {}

#[test]
fn tables_cross_threads(_rt: HostRuntime) {
    crosses::<LockTable>();
    crosses::<Plan>();
    crosses::<Request>();
    crosses::<Grant>();
    crosses::<Needs>();
}
