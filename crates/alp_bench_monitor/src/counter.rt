//! A state that counts how often it was changed, at a monitor and in a mutex.
ghost use Rattle.std.specs.Prelude.{◌≡◌, ◌<◌};
ghost use Rattle.std.specs.Thread.{IsSync};
ghost use Rattle.alp_monitor.specs.Passes.{IsPassOf, IsOutside};

use alp_monitor::{Monitor, Pass, Story};
use std::alloc::{AllocError, Global};
use std::sync::{Mutex, Wait};
use std::thread;
use std::thread::Threads;

// The most entries that a state may have before a turn adds one.
const ROOM: u64 = 1 << 62;

// A state of which nothing is known but how often it was changed.
#[derive(Drop)]
struct Counter {
    turns: u64,
}

impl Story for Counter {
    ghost use Rattle.std.specs.Prelude.{replicate};

    type Base = ();

    type Entry = ();

    ghost base = { λ s. tt };

    ghost entries = { λ s. replicate s.turns tt };

    fn count(&self) -> u64 {
        self.turns
    }
}

// One turn, which adds one entry. Answers how many there are then.
fn turn<R: Wait>(rt: &R, monitor: &Monitor<Counter>, pass: Pass<Counter>) -> (Pass<Counter>, u64)
    requires own { IsPassOf monitor.now pass }
    requires outside { IsOutside pass }
    ensures own { IsPassOf monitor.now result.0 }
    ensures outside { IsOutside result.0 }
{
    let mut turn = monitor.enter(rt, pass);
    if turn.state.turns < ROOM {
        turn.state.turns += 1;
    }
    let count = turn.state.turns;
    (monitor.leave(turn), count)
}

// What one thread does at the monitor. Answers how many entries there are behind its last turn.
fn take_turns<R: Wait>(rt: &R, monitor: &Monitor<Counter>, pass: Pass<Counter>, each: u32) -> u64
    requires own { IsPassOf monitor.now pass }
    requires outside { IsOutside pass }
{
    let mut pass = pass;
    let mut count = 0;
    for _ in 0..each {
        (pass, count) = turn(rt, monitor, pass);
    }
    count
}

// What one thread does at the mutex. Answers how often it was changed before its last turn, and with it.
fn lock_often<R: Wait>(rt: &R, mutex: &Mutex<Counter>, each: u32) -> u64 {
    let mut count = 0;
    for _ in 0..each {
        let mut state = mutex.lock(rt);
        state.turns = state.turns.saturating_add(1);
        count = state.turns;
    }
    count
}

// The greatest of the counts, which is that of the last turn of all.
fn last_of(counts: &[u64]) -> u64 {
    let mut most = 0;
    for count in counts {
        most = most.max(*count);
    }
    most
}

/// How often a state was changed at a monitor, where each thread makes so many turns.
pub(crate) fn count_turns<R: Threads + Wait + Sync>(
    rt: &R,
    alloc: Global,
    threads: u32,
    each: u32,
) -> Result<u64, AllocError>
    requires { 0 < threads }
{
    let Ok((monitor, passes)) = Monitor::new(alloc, Counter { turns: 0 }, threads) else {
        return Err(AllocError);
    };
    let counts = thread::map_vec(
        rt,
        passes,
        &|pass| -> u64
            requires { IsPassOf monitor pass × IsOutside pass }
        { take_turns(rt, &monitor, pass, each) },
    )?;
    Ok(last_of(counts.as_slice()))
}

/// How often a state was changed in a mutex, where each thread takes it so often.
pub(crate) fn count_locks<R: Threads + Wait + Sync>(
    rt: &R,
    alloc: Global,
    threads: u32,
    each: u32,
) -> Result<u64, AllocError> {
    let mutex = Mutex::new(Counter { turns: 0 });
    let counts = thread::map_indices(
        rt,
        alloc,
        threads as usize,
        &|_| lock_often(rt, &mutex, each),
    )?;
    Ok(last_of(counts.as_slice()))
}
