//! Sixteen threads at eight monitors, each with passes of two of them.
ghost use Rattle.std.specs.Prelude.{◌≡◌, ◌<◌};
ghost use Rattle.std.specs.Thread.{IsSync};
ghost use Rattle.alp_monitor.specs.Passes.{IsReady, number};

use super::numbers::Numbers;
use super::turns::{Done, Passes, add, close, of_four};
use crate::{Monitor, Pass};
use std::alloc::{AllocError, Global};
use std::sync::Wait;
use std::test::Fail;
use std::thread;
use std::thread::Threads;

// How many turns a thread makes at each of its two monitors.
const ROUNDS: u64 = 100;

// What one thread brings back from its two monitors.
#[derive(Drop)]
struct Round {
    left: Done,
    right: Done,
}

// One thread, which goes from one monitor to the other and adds the numbers from `first` on.
fn work<R: Wait>(
    rt: &R,
    left: &Monitor<Numbers>,
    right: &Monitor<Numbers>,
    passes: (Pass<Numbers>, Pass<Numbers>),
    alloc: Global,
    first: u64,
) -> Round
    requires left { IsReady left.now (number passes.0) passes.0 }
    requires right { IsReady right.now (number passes.1) passes.1 }
    requires small { first < 100000 }
    ensures left { IsReady left.entry.now (number passes.0) result.left.pass }
    ensures right { IsReady right.entry.now (number passes.1) result.right.pass }
{
    let (mut on_left, mut on_right) = passes;
    let mut left_places = Vec::new(alloc);
    let mut right_places = Vec::new(alloc);
    for number in first..first + ROUNDS {
        let (back, place) = add(rt, left, on_left, number);
        on_left = back;
        let _ = left_places.push(place);
        let (back, place) = add(rt, right, on_right, number);
        on_right = back;
        let _ = right_places.push(place);
    }
    Round {
        left: Done {
            pass: on_left,
            first,
            places: left_places,
        },
        right: Done {
            pass: on_right,
            first,
            places: right_places,
        },
    }
}

// Two threads, each with a pass of both monitors.
fn link<R: Threads + Wait + Sync>(
    rt: &R,
    left: &Monitor<Numbers>,
    right: &Monitor<Numbers>,
    passes: Passes,
    alloc: Global,
    first: u64,
) -> (Round, Round)
    requires lefts { IsReady left.now (number passes.0.0) passes.0.0 × IsReady left.now (number passes.0.1) passes.0.1 }
    requires rights { IsReady right.now (number passes.1.0) passes.1.0 × IsReady right.now (number passes.1.1) passes.1.1 }
    requires small { first < 90000 }
    ensures lefts { IsReady left.entry.now (number passes.0.0) result.0.left.pass × IsReady left.entry.now (number passes.0.1) result.1.left.pass }
    ensures rights { IsReady right.entry.now (number passes.1.0) result.0.right.pass × IsReady right.entry.now (number passes.1.1) result.1.right.pass }
{
    let (lefts, rights) = passes;
    let one = (lefts.0, rights.0);
    let two = (lefts.1, rights.1);
    thread::join(
        rt,
        || -> Round
            requires { IsReady left.now (number one.0) one.0 × IsReady right.now (number one.1) one.1 × (first < 90000) }
            ensures { IsReady left.entry.now (number one.0) result.left.pass × IsReady right.entry.now (number one.1) result.right.pass }
        { work(rt, left, right, one, alloc, first) },
        || -> Round
            requires { IsReady left.now (number two.0) two.0 × IsReady right.now (number two.1) two.1 × (first < 90000) }
            ensures { IsReady left.entry.now (number two.0) result.left.pass × IsReady right.entry.now (number two.1) result.right.pass }
        { work(rt, left, right, two, alloc, first + 1000) },
    )
}

// Four threads at two monitors. Answers whether all turns stand.
fn pair<R: Threads + Wait + Sync>(rt: &R, alloc: Global, name: u64) -> Result<bool, AllocError>
    requires { name < 1000 }
{
    let (left, (lefts, more_lefts), left_room) = of_four(alloc, name, 400, 0)?;
    let (right, (rights, more_rights), right_room) = of_four(alloc, name + 1, 400, 0)?;
    let one = (lefts, rights);
    let two = (more_lefts, more_rights);
    let ((a, b), (c, d)) = thread::join(
        rt,
        || -> (Round, Round)
            requires { IsReady left (number one.0.0) one.0.0 × IsReady left (number one.0.1) one.0.1 × IsReady right (number one.1.0) one.1.0 × IsReady right (number one.1.1) one.1.1 × IsSync R.row }
            ensures { IsReady left (number one.0.0) result.0.left.pass × IsReady left (number one.0.1) result.1.left.pass × IsReady right (number one.1.0) result.0.right.pass × IsReady right (number one.1.1) result.1.right.pass }
        { link(rt, &left, &right, one, alloc, 0) },
        || -> (Round, Round)
            requires { IsReady left (number two.0.0) two.0.0 × IsReady left (number two.0.1) two.0.1 × IsReady right (number two.1.0) two.1.0 × IsReady right (number two.1.1) two.1.1 × IsSync R.row }
            ensures { IsReady left (number two.0.0) result.0.left.pass × IsReady left (number two.0.1) result.1.left.pass × IsReady right (number two.1.0) result.0.right.pass × IsReady right (number two.1.1) result.1.right.pass }
        { link(rt, &left, &right, two, alloc, 2000) },
    );
    let at_left = close(
        left,
        left_room,
        name,
        100,
        ((a.left, b.left), (c.left, d.left)),
    );
    let at_right = close(
        right,
        right_room,
        name + 1,
        100,
        ((a.right, b.right), (c.right, d.right)),
    );
    Ok(at_left && at_right)
}

// Eight threads at four monitors.
fn two_pairs<R: Threads + Wait + Sync>(rt: &R, alloc: Global, name: u64) -> Result<bool, AllocError>
    requires { name < 100 }
{
    let (one, two) = thread::join(
        rt,
        || -> Result<bool, AllocError>
            requires { (name < 100) × IsSync R.row }
        { pair(rt, alloc, name) },
        || -> Result<bool, AllocError>
            requires { (name < 100) × IsSync R.row }
        { pair(rt, alloc, name + 2) },
    );
    Ok(one? && two?)
}

fn sixteen<R: Threads + Wait + Sync>(rt: &R, alloc: Global) -> Result<bool, AllocError> {
    let (one, two) = thread::join(
        rt,
        || -> Result<bool, AllocError>
            requires { IsSync R.row }
        { two_pairs(rt, alloc, 0) },
        || -> Result<bool, AllocError>
            requires { IsSync R.row }
        { two_pairs(rt, alloc, 4) },
    );
    Ok(one? && two?)
}

#[test]
fn sixteen_threads(rt: HostRuntime) -> Result<(), Fail> {
    let alloc = rt.alloc();
    assert!(rt; sixteen(&rt, alloc)?);
    Ok(())
}
