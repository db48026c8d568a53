//! Passes that sleep are woken when the one that is inside leaves.
ghost use Rattle.std.specs.Thread.{IsSync};
ghost use Rattle.alp_monitor.specs.Passes.{IsReady, number};

use super::numbers::Numbers;
use super::turns::{Done, add, close, of_four, waiting};
use crate::board::WORD;
use crate::{Monitor, Pass};
use std::alloc::{AllocError, Global};
use std::hint::spin_loop;
use std::sync::Wait;
use std::test::Fail;
use std::thread;
use std::thread::Threads;
use std::time::{Clock, Duration};

// Returns once so many passes are counted as waiting, and had time to fall asleep.
fn until_waiting<R: Wait + Clock>(rt: &R, monitor: &Monitor<Numbers>, passes: u64) {
    for _ in rt.forever() {
        if waiting(monitor) == passes {
            let _ = thread::sleep(rt, Duration::from_millis(5));
            return;
        }
        spin_loop();
    }
}

// Returns once a pass is inside.
fn until_taken<R: Wait>(rt: &R, monitor: &Monitor<Numbers>) {
    for _ in rt.forever() {
        if monitor.table.shared.peek(WORD) % 2 != 0 {
            return;
        }
        spin_loop();
    }
}

// A list of one place.
fn one(alloc: Global, place: usize) -> Vec<usize> {
    let mut places = Vec::new(alloc);
    let _ = places.push(place);
    places
}

// One turn, which adds the number and lasts until so many other passes sleep.
fn hold<R: Wait + Clock>(
    rt: &R,
    monitor: &Monitor<Numbers>,
    pass: Pass<Numbers>,
    alloc: Global,
    first: u64,
    sleepers: u64,
) -> Done
    requires { IsReady monitor.now (number pass) pass }
    ensures { IsReady monitor.now (number pass) result.pass }
{
    let mut turn = monitor.enter(rt, pass);
    until_waiting(rt, monitor, sleepers);
    let place = turn.state.items.len();
    let _ = turn.state.items.push(first);
    Done {
        pass: monitor.leave(turn),
        first,
        places: one(alloc, place),
    }
}

// One turn, which adds the number. It is asked for while another pass is inside.
fn sleep<R: Wait>(
    rt: &R,
    monitor: &Monitor<Numbers>,
    pass: Pass<Numbers>,
    alloc: Global,
    first: u64,
) -> Done
    requires { IsReady monitor.now (number pass) pass }
    ensures { IsReady monitor.now (number pass) result.pass }
{
    until_taken(rt, monitor);
    let (pass, place) = add(rt, monitor, pass, first);
    Done {
        pass,
        first,
        places: one(alloc, place),
    }
}

// One pass sleeps while another is inside; the others make their turns once both came back.
fn lone_sleeper<R: Threads + Wait + Clock + Sync>(
    rt: &R,
    alloc: Global,
) -> Result<bool, AllocError> {
    let (monitor, ((a, b), (c, d)), room) = of_four(alloc, 7, 4, 0)?;
    let (a, b) = thread::join(
        rt,
        || -> Done
            requires { IsReady monitor (number a) a }
            ensures { IsReady monitor (number a) result.pass }
        { hold(rt, &monitor, a, alloc, 10, 1) },
        || -> Done
            requires { IsReady monitor (number b) b }
            ensures { IsReady monitor (number b) result.pass }
        { sleep(rt, &monitor, b, alloc, 20) },
    );
    let c = hold(rt, &monitor, c, alloc, 30, 0);
    let d = hold(rt, &monitor, d, alloc, 40, 0);
    Ok(close(monitor, room, 7, 1, ((a, b), (c, d))))
}

// Two passes that sleep while another is inside.
fn two_sleepers<R: Threads + Wait + Sync>(
    rt: &R,
    monitor: &Monitor<Numbers>,
    passes: (Pass<Numbers>, Pass<Numbers>),
    alloc: Global,
) -> (Done, Done)
    requires { IsReady monitor.now (number passes.0) passes.0 × IsReady monitor.now (number passes.1) passes.1 }
    ensures first { IsReady monitor.now (number passes.0) result.0.pass }
    ensures second { IsReady monitor.now (number passes.1) result.1.pass }
{
    let (a, b) = passes;
    thread::join(
        rt,
        || -> Done
            requires { IsReady monitor.now (number a) a }
            ensures { IsReady monitor.entry.now (number a) result.pass }
        { sleep(rt, monitor, a, alloc, 30) },
        || -> Done
            requires { IsReady monitor.now (number b) b }
            ensures { IsReady monitor.entry.now (number b) result.pass }
        { sleep(rt, monitor, b, alloc, 40) },
    )
}

// A pass that holds the state, and one that sleeps.
fn holder_and_sleeper<R: Threads + Wait + Clock + Sync>(
    rt: &R,
    monitor: &Monitor<Numbers>,
    passes: (Pass<Numbers>, Pass<Numbers>),
    alloc: Global,
) -> (Done, Done)
    requires { IsReady monitor.now (number passes.0) passes.0 × IsReady monitor.now (number passes.1) passes.1 }
    ensures first { IsReady monitor.now (number passes.0) result.0.pass }
    ensures second { IsReady monitor.now (number passes.1) result.1.pass }
{
    let (a, b) = passes;
    thread::join(
        rt,
        || -> Done
            requires { IsReady monitor.now (number a) a }
            ensures { IsReady monitor.entry.now (number a) result.pass }
        { hold(rt, monitor, a, alloc, 10, 3) },
        || -> Done
            requires { IsReady monitor.now (number b) b }
            ensures { IsReady monitor.entry.now (number b) result.pass }
        { sleep(rt, monitor, b, alloc, 20) },
    )
}

// Three passes sleep while one is inside. Each is woken by the one that leaves before it.
fn many_sleepers<R: Threads + Wait + Clock + Sync>(
    rt: &R,
    alloc: Global,
) -> Result<bool, AllocError> {
    let (monitor, (ab, cd), room) = of_four(alloc, 7, 4, 0)?;
    let (ab, cd) = thread::join(
        rt,
        || -> (Done, Done)
            requires { IsReady monitor (number ab.0) ab.0 × IsReady monitor (number ab.1) ab.1 × IsSync R.row }
            ensures { IsReady monitor (number ab.0) result.0.pass × IsReady monitor (number ab.1) result.1.pass }
        { holder_and_sleeper(rt, &monitor, ab, alloc) },
        || -> (Done, Done)
            requires { IsReady monitor (number cd.0) cd.0 × IsReady monitor (number cd.1) cd.1 × IsSync R.row }
            ensures { IsReady monitor (number cd.0) result.0.pass × IsReady monitor (number cd.1) result.1.pass }
        { two_sleepers(rt, &monitor, cd, alloc) },
    );
    Ok(close(monitor, room, 7, 1, (ab, cd)))
}

#[test]
fn a_lone_sleeper_is_woken(rt: HostRuntime) -> Result<(), Fail> {
    let alloc = rt.alloc();
    for _ in 0..20 {
        assert!(rt; lone_sleeper(&rt, alloc)?);
    }
    Ok(())
}

#[test]
fn many_sleepers_are_woken(rt: HostRuntime) -> Result<(), Fail> {
    let alloc = rt.alloc();
    for _ in 0..20 {
        assert!(rt; many_sleepers(&rt, alloc)?);
    }
    Ok(())
}
