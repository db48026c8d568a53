//! Four threads make a thousand turns each at one monitor.
ghost use Rattle.std.specs.Prelude.{◌≡◌, ◌<◌};
ghost use Rattle.std.specs.Thread.{IsSync};
ghost use Rattle.alp_monitor.specs.Passes.{IsReady, number};

use super::numbers::Numbers;
use super::turns::{Done, add, close, of_four};
use crate::{Monitor, Pass};
use std::alloc::{AllocError, Global};
use std::sync::Wait;
use std::test::Fail;
use std::thread;
use std::thread::Threads;

// A thousand turns, which add the numbers from `first` on.
fn work<R: Wait>(
    rt: &R,
    monitor: &Monitor<Numbers>,
    mut pass: Pass<Numbers>,
    alloc: Global,
    first: u64,
) -> Done
    requires ready { IsReady monitor.now (number pass) pass }
    requires small { first < 10000 }
    ensures { IsReady monitor.now (number pass) result.pass }
{
    let mut places = Vec::new(alloc);
    for number in first..first + 1000 {
        let (back, place) = add(rt, monitor, pass, number);
        pass = back;
        let _ = places.push(place);
    }
    Done {
        pass,
        first,
        places,
    }
}

// Two threads.
fn two<R: Threads + Wait + Sync>(
    rt: &R,
    monitor: &Monitor<Numbers>,
    passes: (Pass<Numbers>, Pass<Numbers>),
    alloc: Global,
    first: u64,
) -> (Done, Done)
    requires ready { IsReady monitor.now (number passes.0) passes.0 × IsReady monitor.now (number passes.1) passes.1 }
    requires small { first < 9000 }
    ensures first { IsReady monitor.now (number passes.0) result.0.pass }
    ensures second { IsReady monitor.now (number passes.1) result.1.pass }
{
    let (a, b) = passes;
    thread::join(
        rt,
        || -> Done
            requires { IsReady monitor.now (number a) a × (first < 9000) }
            ensures { IsReady monitor.entry.now (number a) result.pass }
        { work(rt, monitor, a, alloc, first) },
        || -> Done
            requires { IsReady monitor.now (number b) b × (first < 9000) }
            ensures { IsReady monitor.entry.now (number b) result.pass }
        { work(rt, monitor, b, alloc, first + 1000) },
    )
}

fn four<R: Threads + Wait + Sync>(rt: &R, alloc: Global, pause: u32) -> Result<bool, AllocError> {
    let (monitor, (ab, cd), room) = of_four(alloc, 7, 4000, pause)?;
    let (ab, cd) = thread::join(
        rt,
        || -> (Done, Done)
            requires { IsReady monitor (number ab.0) ab.0 × IsReady monitor (number ab.1) ab.1 × IsSync R.row }
            ensures { IsReady monitor (number ab.0) result.0.pass × IsReady monitor (number ab.1) result.1.pass }
        { two(rt, &monitor, ab, alloc, 0) },
        || -> (Done, Done)
            requires { IsReady monitor (number cd.0) cd.0 × IsReady monitor (number cd.1) cd.1 × IsSync R.row }
            ensures { IsReady monitor (number cd.0) result.0.pass × IsReady monitor (number cd.1) result.1.pass }
        { two(rt, &monitor, cd, alloc, 2000) },
    );
    Ok(close(monitor, room, 7, 1000, (ab, cd)))
}

#[test]
fn four_threads(rt: HostRuntime) -> Result<(), Fail> {
    let alloc = rt.alloc();
    assert!(rt; four(&rt, alloc, 0)?);
    Ok(())
}

// Each turn lasts longer than a pass looks before it sleeps.
#[test]
fn four_threads_that_sleep(rt: HostRuntime) -> Result<(), Fail> {
    let alloc = rt.alloc();
    assert!(rt; four(&rt, alloc, 1000)?);
    Ok(())
}
