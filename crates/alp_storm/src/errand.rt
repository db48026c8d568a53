//! What a thread of a storm is to do, and what it gives back.
ghost use Rattle.std.specs.Prelude.{◌≡◌, ◌≤◌, ◌+◌, ℕ, length};
ghost use Rattle.alp_monitor.specs.Passes.{IsHeld, number};
ghost use Rattle.alp_carrier.specs.Takes.{sent_before};
ghost use Rattle.alp_storm.specs.Errands.{IsDue, IsDone, IsPairOf, IsFirst, HasCarriedOn, HasCarriedBy};
ghost use Rattle.alp_storm.specs.Rings.{IsRing};

use crate::fault::StormFault;
use crate::host::Host;
use crate::ring::put;
use crate::worker::Worker;
use alp_carrier::{Carried, Pair, Plan, Route, carry};
use alp_jobs::{Gate, Job};
use alp_monitor::{Monitor, Pass};
use std::alloc::Global;
use std::sync::Wait;
use std::sync::atomic::AtomicBool;

/// What a thread is to do, and how it went.
#[derive(Drop)]
pub enum Task {
    /// A client's job. Where it did not come to its end it says why.
    Work { job: Job, fault: Option<StormFault> },
    /// The messages of one server to another are brought. It comes back with the next place, and with the count of those that were missed.
    Carry { pair: Pair, next: u32, lost: u32 },
}

/// A task, and one pass at each monitor. A thread takes it and gives it back.
#[derive(Drop)]
pub struct Errand<S: Host> {
    pub task: Task,
    pub ring: Vec<Pass<S>>,
}

/// What all threads share.
#[derive(Drop)]
pub(crate) struct Scene<'a, S: Host> {
    pub(crate) alloc: Global,
    pub(crate) monitors: &'a [Monitor<S>],
    pub(crate) plan: Plan,
    /// Whether all workers came back.
    pub(crate) over: &'a AtomicBool,
}

impl<S: Host> Errand<S> {
    /// Whether it is a carrier's.
    pub(crate) fn carries(&self) -> bool {
        matches!(self.task, Task::Carry { .. })
    }

    /// It is done.
    pub(crate) fn run<R: Wait, G: Gate>(
        self,
        rt: &R,
        gate: &G,
        scene: &Scene<S>,
        number: usize,
    ) -> Errand<S>
        requires { IsDue S.base S.sight scene.now.monitors.now number self }
        ensures { IsDone S.base S.log S.sight scene.now.plan.seed scene.now.monitors.now number self result }
    {
        let Errand { task, ring } = self;
        match task {
            Task::Work { job, .. } => {
                let worker = Worker { number, job, ring };
                let (worker, fault) = worker.work(rt, gate, scene.alloc, scene.monitors);
                let Worker { job, ring, .. } = worker;
                Errand {
                    task: Task::Work { job, fault },
                    ring,
                }
            }
            Task::Carry { pair, .. } => carry_by(rt, scene, pair, ring),
        }
    }
}

// The place of a server among the monitors.
fn index_of(server: u8) -> usize
    requires { 1 ≤ server }
    ensures { server ≡ result + 1 }
{
    usize::from(server) - 1
}

// Brings the messages along a route, by the plan of its pair.
fn carry_along<S: Host, R: Wait>(
    rt: &R,
    scene: &Scene<S>,
    route: &Route<S>,
    sender: Pass<S>,
    receiver: Pass<S>,
) -> Carried<S>
    requires sender { IsHeld S.base route.now.from.now (number sender) sender }
    requires receiver { IsHeld S.base route.now.to.now (number receiver) receiver }
    requires first { route.now.pair.first ≤ length (sent_before S.base S.sight route.now.from.now sender) }
    ensures { HasCarriedOn S.base S.sight scene.now.plan.seed route.now.pair route.now.from.now route.now.to.now sender receiver result }
{
    let plan = scene.plan.of_pair(route.pair.from, route.pair.to);
    carry(rt, route, plan, sender, receiver, scene.over)
}

// Brings the messages of a pair, by its passes of the ring.
fn carry_by<S: Host, R: Wait>(
    rt: &R,
    scene: &Scene<S>,
    pair: Pair,
    mut ring: Vec<Pass<S>>,
) -> Errand<S>
    requires ring { (k : ℕ) × IsRing S.base scene.now.monitors.now k ring.items }
    requires fits { IsPairOf (length scene.now.monitors.now) pair }
    requires first { IsFirst S.base S.sight scene.now.monitors.now pair ring.items }
    ensures { HasCarriedBy S.base S.sight scene.now.plan.seed scene.now.monitors.now pair ring.items result }
{
    let from = index_of(pair.from);
    let to = index_of(pair.to);
    let at = if from < to { from } else { from - 1 };
    let receiver = ring.remove(to);
    let sender = ring.remove(at);
    let route = Route {
        pair,
        from: &scene.monitors[from],
        to: &scene.monitors[to],
    };
    let Carried {
        sender,
        receiver,
        next,
        lost,
    } = carry_along(rt, scene, &route, sender, receiver);
    put(&mut ring, at, sender);
    put(&mut ring, to, receiver);
    Errand {
        task: Task::Carry { pair, next, lost },
        ring,
    }
}
