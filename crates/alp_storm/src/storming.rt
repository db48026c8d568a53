//! A storm over servers: monitors are opened, all errands run, and the servers come back.
ghost use Rattle.std.specs.Prelude.{◌≡◌, ◌+◌, ◌<◌, ◌≤◌, ◌^◌, ◌++◌, ◌∷◌, [], List, length, map, IfOk};
ghost use Rattle.std.specs.Vec.{vec_len, vec_capacity};
ghost use Rattle.alp_jobs.specs.States.{JobState};
ghost use Rattle.alp_storm.specs.Lists.{IsRoomFor, IsLoaded};
ghost use Rattle.alp_storm.specs.Errands.{AreDue};
ghost use Rattle.alp_storm.specs.Storms.{AreEmpty, AllCount, HasRun, KeepBases, AreOpen, AreRooms, AreReady, HasStormed, IsDownFault, task_of, work, carrier_to, carriers_to, carriers_from, end_of, job_in, jobs_in, fault_in, or_else, first_fault};

use crate::errand::{Errand, Scene, Task};
use crate::fault::StormFault;
use crate::host::Host;
use crate::opening::{close_all, open_all};
use crate::threads::run_in_threads;
use alp_base::OutOfMemory;
use alp_carrier::{Pair, Plan};
use alp_jobs::{Gate, Job};
use alp_monitor::{Monitor, Pass};
use std::alloc::Global;
use std::sync::Wait;
use std::sync::atomic::AtomicBool;
use std::thread::Threads;

// So many carriers there are at most, and more than there are pairs of eight servers.
const MOST_CARRIERS: usize = 64;

/// What came of a storm: its servers and its jobs, in order, and why it did not come to its end, if it did not.
#[derive(Drop)]
pub struct Stormed<S: Host + Drop> {
    pub states: Vec<S>,
    pub jobs: Vec<Job>,
    pub fault: Option<StormFault>,
}

// All lists that a storm needs, with room for all that comes into them.
#[derive(Drop)]
struct Lists<S: Host + Drop> {
    rings: Vec<Vec<Pass<S>>>,
    errands: Vec<Errand<S>>,
    done: Vec<Errand<S>>,
    monitors: Vec<Monitor<S>>,
    rooms: Vec<Vec<Pass<S>>>,
    jobs: Vec<Job>,
}

// Lists of passes, each with room for so many.
fn new_lists<S: Host>(
    alloc: Global,
    count: usize,
    room: usize,
) -> Result<Vec<Vec<Pass<S>>>, OutOfMemory>
    ensures count { IfOk result (λ v. (vec_len v ≡ count) × (length v.items ≡ count)) }
    ensures empty { IfOk result (λ v. AreRooms v.items room) }
{
    let mut lists = Vec::with_capacity(alloc, count)?;
    for _ in 0..count {
        let list = Vec::with_capacity(alloc, room)?;
        lists.push_reserved(list);
    }
    Ok(lists)
}

fn reserve<S: Host + Drop>(
    alloc: Global,
    jobs: usize,
    servers: usize,
) -> Result<Lists<S>, OutOfMemory>
    requires few { (servers ≤ 8) × (jobs < 2 ^ 16) }
    ensures { IfOk result (IsRoomFor jobs servers) }
{
    let count = jobs + MOST_CARRIERS;
    Ok(Lists {
        rings: new_lists(alloc, count, servers)?,
        errands: Vec::with_capacity(alloc, count)?,
        done: Vec::with_capacity(alloc, count)?,
        monitors: Vec::with_capacity(alloc, servers)?,
        rooms: Vec::with_capacity(alloc, servers)?,
        jobs: Vec::with_capacity(alloc, jobs)?,
    })
}

// An errand of a worker.
fn put_worker<S: Host + Drop>(
    job: Job,
    servers: usize,
    rings: &mut Vec<Vec<Pass<S>>>,
    errands: &mut Vec<Errand<S>>,
)
    requires rings { AreRooms rings.old.items servers × (1 ≤ length rings.old.items) }
    requires errands { AreOpen S.base servers [] errands.old.items × (length errands.old.items + 1 ≤ vec_capacity errands.old) }
    ensures rings { AreRooms rings.new.items servers × (length rings.old.items ≡ length rings.new.items + 1) }
    ensures open { AreOpen S.base servers [] errands.new.items }
    ensures room { (vec_capacity errands.new ≡ vec_capacity errands.old) × (length errands.new.items ≡ length errands.old.items + 1) }
    ensures tasks { map task_of errands.new.items ≡ map task_of errands.old.items ++ work job ∷ [] }
{
    let ring = rings.take_last();
    let task = Task::Work { job, fault: None };
    errands.push_reserved(Errand { task, ring });
}

// An errand of a worker for each job.
fn put_workers<S: Host + Drop>(
    jobs: Vec<Job>,
    servers: usize,
    rings: &mut Vec<Vec<Pass<S>>>,
    errands: &mut Vec<Errand<S>>,
)
    requires rings { AreRooms rings.old.items servers × (length jobs.items ≤ length rings.old.items) }
    requires errands { AreOpen S.base servers [] errands.old.items × (length errands.old.items + length jobs.items ≤ vec_capacity errands.old) }
    ensures rings { AreRooms rings.new.items servers × (length rings.new.items + length jobs.items ≡ length rings.old.items) }
    ensures open { AreOpen S.base servers [] errands.new.items }
    ensures room { (vec_capacity errands.new ≡ vec_capacity errands.old) × (length errands.new.items ≡ length errands.old.items + length jobs.items) }
    ensures tasks { map task_of errands.new.items ≡ map task_of errands.old.items ++ map work jobs.items }
{
    for job in jobs {
        put_worker(job, servers, rings, errands);
    }
}

// An errand of a carrier from one server to another. No server sends to itself.
fn put_carrier<S: Host + Drop>(
    pair: Pair,
    servers: usize,
    rings: &mut Vec<Vec<Pass<S>>>,
    errands: &mut Vec<Errand<S>>,
)
    requires rings { AreRooms rings.old.items servers × (1 ≤ length rings.old.items) }
    requires errands { AreOpen S.base servers [] errands.old.items × (length errands.old.items + 1 ≤ vec_capacity errands.old) }
    ensures rings { AreRooms rings.new.items servers × (length rings.old.items ≤ length rings.new.items + 1) }
    ensures open { AreOpen S.base servers [] errands.new.items }
    ensures room { (vec_capacity errands.new ≡ vec_capacity errands.old) × (length errands.new.items ≤ length errands.old.items + 1) }
    ensures tasks { map task_of errands.new.items ≡ map task_of errands.old.items ++ carrier_to pair.from pair.first pair.to }
{
    if pair.to == pair.from {
        return;
    }
    let ring = rings.take_last();
    errands.push_reserved(Errand {
        task: Task::Carry {
            pair,
            next: 0,
            lost: 0,
        },
        ring,
    });
}

// An errand of a carrier from this server to each other one of so many.
fn put_carriers_from<S: Host + Drop>(
    from: u8,
    first: u32,
    servers: u8,
    rings: &mut Vec<Vec<Pass<S>>>,
    errands: &mut Vec<Errand<S>>,
)
    requires rings { AreRooms rings.old.items servers × (servers ≤ length rings.old.items) × (servers ≤ 8) }
    requires errands { AreOpen S.base servers [] errands.old.items × (length errands.old.items + servers ≤ vec_capacity errands.old) }
    ensures rings { AreRooms rings.new.items servers × (length rings.old.items ≤ length rings.new.items + servers) }
    ensures open { AreOpen S.base servers [] errands.new.items }
    ensures room { (vec_capacity errands.new ≡ vec_capacity errands.old) × (length errands.new.items ≤ length errands.old.items + servers) }
    ensures tasks { map task_of errands.new.items ≡ map task_of errands.old.items ++ carriers_to from first servers }
{
    for place in 0..servers {
        let pair = Pair {
            from,
            to: place + 1,
            first,
        };
        put_carrier(pair, usize::from(servers), rings, errands);
    }
}

// An errand of a carrier for each ordered pair of servers.
fn put_carriers<S: Host + Drop>(
    states: &[S],
    rings: &mut Vec<Vec<Pass<S>>>,
    errands: &mut Vec<Errand<S>>,
)
    requires few { length states.now ≤ 8 }
    requires empty { AreEmpty S.base S.entries states.now }
    requires rings { AreRooms rings.old.items (length states.now) × (64 ≤ length rings.old.items) }
    requires errands { AreOpen S.base (length states.now) [] errands.old.items × (length errands.old.items + 64 ≤ vec_capacity errands.old) }
    ensures open { AreOpen S.base (length states.now) [] errands.new.items }
    ensures room { (vec_capacity errands.new ≡ vec_capacity errands.old) × (length errands.new.items ≤ length errands.old.items + 64) }
    ensures tasks { map task_of errands.new.items ≡ map task_of errands.old.items ++ carriers_from (length states.now) 0 (map (end_of S.base S.sight) states.now) }
{
    let servers = states.len() as u8;
    for place in 0..servers {
        let first = states[usize::from(place)].sent_count();
        put_carriers_from(place + 1, first, servers, rings, errands);
    }
}

// The fault, or else the other one.
fn or_other(first: Option<StormFault>, other: Option<StormFault>) -> Option<StormFault>
    ensures { result ≡ or_else first other }
{
    match first {
        Some(fault) => Some(fault),
        None => other,
    }
}

// The job that comes back, if it is a worker's, and the first fault so far.
fn take_job<S: Host + Drop>(
    errand: Errand<S>,
    jobs: &mut Vec<Job>,
    first: Option<StormFault>,
) -> Option<StormFault>
    requires room { length jobs.old.items + length (job_in errand.task) ≤ vec_capacity jobs.old }
    ensures jobs { jobs.new.items ≡ jobs.old.items ++ job_in errand.task }
    ensures room { vec_capacity jobs.new ≡ vec_capacity jobs.old }
    ensures first { result ≡ or_else first (fault_in errand.task) }
{
    let Errand { task, .. } = errand;
    match task {
        Task::Work { job, fault } => {
            jobs.push_reserved(job);
            or_other(first, fault)
        }
        Task::Carry { .. } => first,
    }
}

// The jobs that come back, in order, and the first fault of them.
fn take_jobs<S: Host + Drop>(done: Vec<Errand<S>>, jobs: &mut Vec<Job>) -> Option<StormFault>
    requires room { length jobs.old.items + length (jobs_in (map task_of done.items)) ≤ vec_capacity jobs.old }
    ensures jobs { jobs.new.items ≡ jobs.old.items ++ jobs_in (map task_of done.items) }
    ensures first { result ≡ first_fault (map task_of done.items) }
{
    let mut first = None;
    for errand in done {
        first = take_job(errand, jobs, first);
    }
    first
}

// The disk of the first server that went down failed, if one did.
fn find_down<S: Host>(states: &[S]) -> Option<StormFault>
    ensures { IsDownFault S.base S.entries S.log S.sight states.now result }
{
    for state in states {
        if state.is_down() {
            return Some(StormFault::DiskFault {
                server: state.server(),
            });
        }
    }
    None
}

// All errands run at monitors that stand open, and the monitors are closed.
fn run_open<S: Host + Send + Drop, R: Threads + Wait + Sync, G: Gate + Sync>(
    rt: &R,
    gate: &G,
    alloc: Global,
    plan: Plan,
    mut states: Vec<S>,
    lists: Lists<S>,
) -> Stormed<S>
    requires due { AreDue S.base S.sight lists.monitors.items lists.errands.items }
    requires done { (lists.done.items ≡ []) × (vec_len lists.done ≡ 0) × (length lists.errands.items ≤ vec_capacity lists.done) }
    requires counts { AllCount lists.monitors.items (length lists.errands.items) × (length lists.rooms.items ≡ length lists.monitors.items) × AreRooms lists.rooms.items (length lists.errands.items) }
    requires states { (states.items ≡ []) × (vec_len states ≡ 0) × (length lists.monitors.items ≤ vec_capacity states) }
    requires jobs { (lists.jobs.items ≡ []) × (length (jobs_in (map task_of lists.errands.items)) ≤ vec_capacity lists.jobs) }
    ensures { HasRun S.base S.entries S.log S.sight plan.seed lists.monitors.items lists.errands.items result.states.items result.jobs.items result.fault }
{
    let Lists {
        errands,
        done,
        mut monitors,
        mut rooms,
        mut jobs,
        ..
    } = lists;
    let over = AtomicBool::new(false);
    let scene = Scene {
        alloc,
        monitors: monitors.as_slice(),
        plan,
        over: &over,
    };
    let mut done = run_in_threads(rt, gate, &scene, errands, done);
    close_all(&mut monitors, &mut rooms, &mut done, &mut states);
    let fault = or_other(take_jobs(done, &mut jobs), find_down(states.as_slice()));
    Stormed {
        states,
        jobs,
        fault,
    }
}

// Monitors are opened, all errands run, and the monitors are closed.
fn run_over<S: Host + Send + Drop, R: Threads + Wait + Sync, G: Gate + Sync>(
    rt: &R,
    gate: &G,
    alloc: Global,
    plan: Plan,
    mut states: Vec<S>,
    mut lists: Lists<S>,
) -> Stormed<S>
    requires loaded { (jobs : List JobState) × IsLoaded S.base S.sight states.items jobs lists × AreReady jobs }
    requires empty { AreEmpty S.base S.entries states.items }
    ensures count { length result.states.items ≡ length states.items }
    ensures bases { KeepBases S.base states.items result.states.items }
    ensures storm { (jobs : List JobState) → IsLoaded S.base S.sight states.items jobs lists → AreReady jobs → HasStormed S.base S.entries S.log S.sight plan.seed states.items jobs result.states.items result.jobs.items result.fault }
{
    let servers = states.len();
    if let Err(_) = open_all(
        alloc,
        servers,
        &mut states,
        &mut lists.monitors,
        &mut lists.rooms,
        &mut lists.errands,
    ) {
        let Lists {
            errands,
            mut jobs,
            ..
        } = lists;
        let _ = take_jobs(errands, &mut jobs);
        return Stormed {
            states,
            jobs,
            fault: Some(StormFault::OutOfMemory),
        };
    }
    run_open(rt, gate, alloc, plan, states, lists)
}

/// Plays the jobs, each in a thread of its own, beside a carrier for each ordered pair of servers, which brings by the plan what is sent from
/// now on. The servers and the jobs come back in order. What was sent and not taken when the last worker came back is left.
pub fn storm<S: Host + Send + Drop, R: Threads + Wait + Sync, G: Gate + Sync>(
    rt: &R,
    gate: &G,
    alloc: Global,
    plan: Plan,
    states: Vec<S>,
    jobs: Vec<Job>,
) -> Stormed<S>
    requires servers { (1 ≤ length states.items) × (length states.items ≤ 8) }
    requires jobs { (1 ≤ length jobs.items) × (length jobs.items < 2 ^ 16) × AreReady jobs.items }
    requires empty { AreEmpty S.base S.entries states.items }
    ensures count { length result.states.items ≡ length states.items }
    ensures bases { KeepBases S.base states.items result.states.items }
    ensures storm { HasStormed S.base S.entries S.log S.sight plan.seed states.items jobs.items result.states.items result.jobs.items result.fault }
{
    let Ok(mut lists) = reserve::<S>(alloc, jobs.len(), states.len()) else {
        return Stormed {
            states,
            jobs,
            fault: Some(StormFault::OutOfMemory),
        };
    };
    put_workers(jobs, states.len(), &mut lists.rings, &mut lists.errands);
    put_carriers(states.as_slice(), &mut lists.rings, &mut lists.errands);
    run_over(rt, gate, alloc, plan, states, lists)
}
