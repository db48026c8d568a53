//! Passes, from monitors to errands and back.
ghost use Rattle.std.specs.Prelude.{◌≡◌, ◌≤◌, ◌<◌, ◌+◌, ◌^◌, ◌++◌, ◌∷◌, [], length, slice_get, Some, IfErr, OnOk, OnErr};
ghost use Rattle.std.specs.Vec.{vec_len, vec_capacity};
ghost use Rattle.alp_monitor.specs.Passes.{AreFresh, pass_count, first_base};
ghost use Rattle.alp_storm.specs.Storms.{HaveLast, HaveSpace, Gathers, Spreads, AreRings, AreOpen, AreEmpty, AreAsBefore, Opened, AllCount, AreRooms, IsClosed, AreClosed, HaveTasks};

use crate::errand::Errand;
use crate::host::Host;
use alp_base::OutOfMemory;
use alp_monitor::{Monitor, Pass};
use std::alloc::Global;

// Takes the last pass of each ring, in order.
fn gather<S: Host>(errands: &mut Vec<Errand<S>>, room: &mut Vec<Pass<S>>)
    requires rings { HaveLast errands.old.items }
    requires room { (room.old.items ≡ []) × (vec_len room.old ≡ 0) × (vec_len errands.old ≤ vec_capacity room.old) }
    ensures count { (vec_len errands.new ≡ vec_len errands.old) × (vec_len room.new ≡ vec_len errands.old) }
    ensures each { Gathers errands.old.items errands.new.items room.new.items }
{
    for number in 0..errands.len() {
        let errand = &mut errands[number];
        room.push_reserved(errand.ring.take_last());
    }
}

// Closes the last monitor, and gives its state.
fn close_last<S: Host>(
    monitors: &mut Vec<Monitor<S>>,
    rooms: &mut Vec<Vec<Pass<S>>>,
    errands: &mut Vec<Errand<S>>,
) -> S
    requires some { 0 < vec_len monitors.old }
    requires rings { AreRings S.base monitors.old.items errands.old.items }
    requires counts { AllCount monitors.old.items (vec_len errands.old) }
    requires rooms { (vec_len rooms.old ≡ vec_len monitors.old) × AreRooms rooms.old.items (vec_len errands.old) }
    ensures one_fewer { (vec_len monitors.new + 1 ≡ vec_len monitors.old) × (vec_len rooms.new ≡ vec_len monitors.new) × (vec_len errands.new ≡ vec_len errands.old) }
    ensures others { (m : _) × (monitors.old.items ≡ monitors.new.items ++ m ∷ []) × IsClosed S.base S.entries m (vec_len monitors.new) errands.old.items result }
    ensures rings { AreRings S.base monitors.new.items errands.new.items }
    ensures counts { AllCount monitors.new.items (vec_len errands.new) }
    ensures rooms { AreRooms rooms.new.items (vec_len errands.new) }
    ensures tasks { HaveTasks errands.old.items errands.new.items }
    ensures before { (i : _) (m : _) (y : _) → slice_get monitors.new.items i ≡ Some m → IsClosed S.base S.entries m i errands.new.items y → IsClosed S.base S.entries m i errands.old.items y }
{
    let Some(monitor) = monitors.pop() else {
        unreachable!()
    };
    let Some(mut room) = rooms.pop() else {
        unreachable!()
    };
    gather(errands, &mut room);
    monitor.close(room)
}

/// Closes all monitors, and gives their states, in order.
pub(crate) fn close_all<S: Host>(
    monitors: &mut Vec<Monitor<S>>,
    rooms: &mut Vec<Vec<Pass<S>>>,
    errands: &mut Vec<Errand<S>>,
    states: &mut Vec<S>,
)
    requires rings { AreRings S.base monitors.old.items errands.old.items }
    requires counts { AllCount monitors.old.items (vec_len errands.old) }
    requires rooms { (vec_len rooms.old ≡ vec_len monitors.old) × AreRooms rooms.old.items (vec_len errands.old) }
    requires states { (states.old.items ≡ []) × (vec_len states.old ≡ 0) × (vec_len monitors.old ≤ vec_capacity states.old) }
    ensures none_left { (vec_len monitors.new ≡ 0) × (vec_len rooms.new ≡ 0) × (vec_len errands.new ≡ vec_len errands.old) }
    ensures count { vec_len states.new ≡ vec_len monitors.old }
    ensures capacity { vec_capacity states.new ≡ vec_capacity states.old }
    ensures tasks { HaveTasks errands.old.items errands.new.items }
    ensures closed { AreClosed S.base S.entries monitors.old.items errands.old.items states.new.items }
{
    if monitors.is_empty() {
        return;
    }
    let state = close_last(monitors, rooms, errands);
    close_all(monitors, rooms, errands, states);
    states.push_reserved(state);
}

// Deals the passes of one monitor, each errand its own.
fn spread<S: Host>(room: &mut Vec<Pass<S>>, errands: &mut Vec<Errand<S>>)
    requires count { vec_len room.old ≡ vec_len errands.old }
    requires space { HaveSpace errands.old.items }
    ensures none_left { (room.new.items ≡ []) × (vec_len room.new ≡ 0) × (vec_capacity room.new ≡ vec_capacity room.old) }
    ensures count { vec_len errands.new ≡ vec_len errands.old }
    ensures each { Spreads errands.old.items errands.new.items room.old.items }
{
    let mut left = errands.len();
    while left > 0 {
        left -= 1;
        let pass = room.take_last();
        let errand = &mut errands[left];
        errand.ring.push_reserved(pass);
    }
}

// Opens a monitor of one state more.
fn open_one<S: Host>(
    alloc: Global,
    state: S,
    monitors: &mut Vec<Monitor<S>>,
    rooms: &mut Vec<Vec<Pass<S>>>,
    errands: &mut Vec<Errand<S>>,
) -> Result<(), (S, OutOfMemory)>
    requires errands { HaveSpace errands.old.items × (0 < vec_len errands.old) × (vec_len errands.old < 2 ^ 32) }
    requires monitors { vec_len monitors.old < vec_capacity monitors.old }
    requires rooms { vec_len rooms.old < vec_capacity rooms.old }
    requires empty { S.entries state ≡ [] }
    ensures errands { vec_len errands.new ≡ vec_len errands.old }
    ensures capacity { (vec_capacity monitors.new ≡ vec_capacity monitors.old) × (vec_capacity rooms.new ≡ vec_capacity rooms.old) }
    ensures ok { OnOk result ((m : _) × (room : _) × (v : _) × (monitors.new.items ≡ monitors.old.items ++ m ∷ []) × (rooms.new.items ≡ rooms.old.items ++ v ∷ [])
        × Spreads errands.old.items errands.new.items room × AreFresh S.base m room × (length room ≡ vec_len errands.old) × (pass_count m ≡ vec_len errands.old)
        × ((v.items ≡ []) × (vec_len v ≡ 0) × (vec_len errands.old ≤ vec_capacity v)) × (first_base S.base m ≡ S.base state)) }
    ensures err { IfErr result (λ e. (e.0 ≡ state) × (monitors.new ≡ monitors.old) × (rooms.new ≡ rooms.old) × (errands.new ≡ errands.old)) }
{
    let (monitor, mut room) = Monitor::new(alloc, state, errands.len() as u32)?;
    spread(&mut room, errands);
    monitors.push_reserved(monitor);
    rooms.push_reserved(room);
    Ok(())
}

/// Opens a monitor of each state, in order, with a pass for each errand. Where memory is refused those that were opened are closed again,
/// and the states come back as they were.
pub(crate) fn open_all<S: Host>(
    alloc: Global,
    servers: usize,
    states: &mut Vec<S>,
    monitors: &mut Vec<Monitor<S>>,
    rooms: &mut Vec<Vec<Pass<S>>>,
    errands: &mut Vec<Errand<S>>,
) -> Result<(), OutOfMemory>
    requires errands { AreOpen S.base servers [] errands.old.items × (0 < vec_len errands.old) × (vec_len errands.old < 2 ^ 32) }
    requires few { vec_len states.old ≤ servers }
    requires monitors { (monitors.old.items ≡ []) × (vec_len monitors.old ≡ 0) × (vec_len states.old ≤ vec_capacity monitors.old) }
    requires rooms { (rooms.old.items ≡ []) × (vec_len rooms.old ≡ 0) × (vec_len states.old ≤ vec_capacity rooms.old) }
    requires empty { AreEmpty S.base S.entries states.old.items }
    ensures errands { vec_len errands.new ≡ vec_len errands.old }
    ensures tasks { HaveTasks errands.old.items errands.new.items }
    ensures capacity { vec_capacity states.new ≡ vec_capacity states.old }
    ensures room { OnOk result ((vec_capacity monitors.new ≡ vec_capacity monitors.old) × (vec_capacity rooms.new ≡ vec_capacity rooms.old)) }
    ensures ok { OnOk result (Opened S.base S.entries servers states.old.items monitors.new.items rooms.new.items errands.old.items errands.new.items) }
    ensures none_left { OnOk result (vec_len states.new ≡ 0) }
    ensures err { OnErr result ((vec_len states.new ≡ vec_len states.old) × AreAsBefore S.base S.entries states.old.items states.new.items) }
{
    let Some(state) = states.pop() else {
        return Ok(());
    };
    if let Err(fault) = open_all(alloc, servers, states, monitors, rooms, errands) {
        states.push_reserved(state);
        return Err(fault);
    }
    let Err((state, fault)) = open_one(alloc, state, monitors, rooms, errands) else {
        return Ok(());
    };
    close_all(monitors, rooms, errands, states);
    states.push_reserved(state);
    Err(fault)
}
