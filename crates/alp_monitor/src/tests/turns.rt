//! Turns that add a number, and what the tests do with the passes of four threads.
ghost use Rattle.std.specs.Prelude.{◌≡◌, ◌<◌, ◌≤◌, [], IfOk};
ghost use Rattle.std.specs.Vec.{vec_len, vec_capacity};
ghost use Rattle.alp_monitor.specs.Passes.{IsPassOf, IsOutside, IsSamePass, IsReady, pass_count};

use super::numbers::Numbers;
use crate::board::WAITING;
use crate::{Monitor, Pass};
use std::alloc::{AllocError, Global};
use std::hint::spin_loop;
use std::sync::Wait;

// A pass that came back, the first of the numbers that it added, and where they stand.
#[derive(Drop)]
pub(super) struct Done {
    pub(super) pass: Pass<Numbers>,
    pub(super) first: u64,
    pub(super) places: Vec<usize>,
}

pub(super) type Passes = (
    (Pass<Numbers>, Pass<Numbers>),
    (Pass<Numbers>, Pass<Numbers>),
);

// How many passes are counted as waiting.
pub(super) fn waiting(monitor: &Monitor<Numbers>) -> u64 {
    monitor.table.shared.peek(WAITING) / 2
}

// One turn, which adds the number. Returns the place that it got.
pub(super) fn add<R: Wait>(
    rt: &R,
    monitor: &Monitor<Numbers>,
    pass: Pass<Numbers>,
    number: u64,
) -> (Pass<Numbers>, usize)
    requires own { IsPassOf monitor.now pass }
    requires outside { IsOutside pass }
    ensures { IsSamePass pass result.0 × IsOutside result.0 }
{
    let mut turn = monitor.enter(rt, pass);
    let place = turn.state.items.len();
    let _ = turn.state.items.push(number);
    for _ in 0..turn.state.pause {
        spin_loop();
    }
    (monitor.leave(turn), place)
}

// A monitor of an empty list with this name, four passes, and a list with room for them. Each turn
// lasts for the pause.
pub(super) fn of_four(
    alloc: Global,
    name: u64,
    room: usize,
    pause: u32,
) -> Result<(Monitor<Numbers>, Passes, Vec<Pass<Numbers>>), AllocError>
    ensures count { IfOk result (λ r. pass_count r.0 ≡ 4) }
    ensures first { IfOk result (λ r. IsReady r.0 0 r.1.0.0) }
    ensures second { IfOk result (λ r. IsReady r.0 1 r.1.0.1) }
    ensures third { IfOk result (λ r. IsReady r.0 2 r.1.1.0) }
    ensures fourth { IfOk result (λ r. IsReady r.0 3 r.1.1.1) }
    ensures room { IfOk result (λ r. (r.2.items ≡ []) × (vec_len r.2 ≡ 0) × (4 ≤ vec_capacity r.2)) }
{
    let numbers = Numbers {
        name,
        items: Vec::with_capacity(alloc, room)?,
        pause,
    };
    let Ok((monitor, mut passes)) = Monitor::new(alloc, numbers, 4) else {
        return Err(AllocError);
    };
    let d = passes.take_last();
    let c = passes.take_last();
    let b = passes.take_last();
    let a = passes.take_last();
    Ok((monitor, ((a, b), (c, d)), passes))
}

// Hands the four passes back. Answers whether the list has this name, and the numbers of `each` turns
// of each pass, where they were made, and no others, and that no pass is counted as waiting.
pub(super) fn close(
    monitor: Monitor<Numbers>,
    mut room: Vec<Pass<Numbers>>,
    name: u64,
    each: usize,
    done: ((Done, Done), (Done, Done)),
) -> bool
    requires small { each < 10000 }
    requires count { pass_count monitor ≡ 4 }
    requires first { IsReady monitor 0 done.0.0.pass }
    requires second { IsReady monitor 1 done.0.1.pass }
    requires third { IsReady monitor 2 done.1.0.pass }
    requires fourth { IsReady monitor 3 done.1.1.pass }
    requires room { (room.items ≡ []) × (vec_len room ≡ 0) × (4 ≤ vec_capacity room) }
{
    let none_waits = waiting(&monitor) == 0;
    let ((a, b), (c, d)) = done;
    room.push_reserved(a.pass);
    room.push_reserved(b.pass);
    room.push_reserved(c.pass);
    room.push_reserved(d.pass);
    let numbers = monitor.close(room);
    none_waits
        && numbers.name == name
        && numbers.items.len() == 4 * each
        && numbers.have(a.first, each, &a.places)
        && numbers.have(b.first, each, &b.places)
        && numbers.have(c.first, each, &c.places)
        && numbers.have(d.first, each, &d.places)
}
