//! The threads of a storm.
ghost use Rattle.std.specs.Prelude.{◌≡◌, ◌≤◌, []};
ghost use Rattle.std.specs.Vec.{vec_len, vec_capacity};
ghost use Rattle.alp_storm.specs.Errands.{IsDue, AreDue, IsDone, AreDone};

use crate::errand::{Errand, Scene};
use crate::host::Host;
use alp_jobs::Gate;
use alp_monitor::Monitor;
use std::snapshot::Snapshot;
use std::sync::Wait;
use std::sync::atomic::{AtomicBool, Ordering};
use std::thread;
use std::thread::{Promise, Scope, Threads};

// The errand with this number comes back done.
struct Back<'a, S: Host> {
    monitors: &'a [Monitor<S>],
    seed: u64,
    number: usize,
    before: Snapshot<Errand<S>>,
}

impl<'a, S: Host> Drop for Back<'a, S> {
    fn drop(self) {
        let Self {
            monitors: _,
            seed: _,
            number: _,
            before: _,
        } = self;
    }
}

impl<'a, S: Host> Promise<Errand<S>> for Back<'a, S> {
    ghost kept_by = { λ p r. IsDone S.base S.log S.sight p.seed p.monitors.now p.number p.before.value r };
}

// Starts a thread for each errand, the last first, and waits for all. What could not be started runs here, once all errands before it
// came back.
fn run_all<'s, 'e, S: Host + Send, R: Threads + Wait + Sync, G: Gate + Sync>(
    scope: &'s Scope<'s, &'e ()>,
    rt: &'e R,
    gate: &'e G,
    scene: &'e Scene<'e, S>,
    errands: &mut Vec<Errand<S>>,
    done: &mut Vec<Errand<S>>,
)
    requires errands { AreDue S.base S.sight scene.now.monitors.now errands.old.items }
    requires room { (done.old.items ≡ []) × (vec_len done.old ≡ 0) × (vec_len errands.old ≤ vec_capacity done.old) }
    ensures none_left { vec_len errands.new ≡ 0 }
    ensures capacity { vec_capacity done.new ≡ vec_capacity done.old }
    ensures back { AreDone S.base S.log S.sight scene.now.plan.seed scene.now.monitors.now errands.old.items done.new.items }
{
    let Some(errand) = errands.pop() else {
        return;
    };
    let number = errands.len();
    let carries = errand.carries();
    let promise = Back {
        monitors: scene.monitors,
        seed: scene.plan.seed,
        number,
        before: Snapshot::of(&errand),
    };
    let started = scope.spawn_with(
        promise,
        move || -> Errand<S>
            requires { IsDue S.base S.sight scene.now.monitors.now number errand }
            ensures { IsDone S.base S.log S.sight scene.entry.now.plan.seed scene.entry.now.monitors.now number errand result }
        { errand.run(rt, gate, scene, number) },
    );
    run_all(scope, rt, gate, scene, errands, done);
    if carries {
        scene.over.store(true, Ordering::SeqCst);
    }
    match started {
        Ok(handle) => done.push_reserved(handle.join(rt)),
        Err(refused) => done.push_reserved((refused.value)()),
    }
}

/// All errands, each in a thread of its own: carriers stand behind workers, and so begin first.
pub(crate) fn run_in_threads<S: Host + Send, R: Threads + Wait + Sync, G: Gate + Sync>(
    rt: &R,
    gate: &G,
    scene: &Scene<S>,
    errands: Vec<Errand<S>>,
    done: Vec<Errand<S>>,
) -> Vec<Errand<S>>
    requires errands { AreDue S.base S.sight scene.now.monitors.now errands.items }
    requires room { (done.items ≡ []) × (vec_len done ≡ 0) × (vec_len errands ≤ vec_capacity done) }
    ensures back { AreDone S.base S.log S.sight scene.now.plan.seed scene.now.monitors.now errands.items result.items }
{
    thread::scope(
        thread::scope_env(),
        rt,
        |scope| -> Vec<Errand<S>>
            requires { AreDue S.base S.sight scene.now.monitors.now errands.items × (done.items ≡ []) × (vec_len done ≡ 0) × (vec_len errands ≤ vec_capacity done) }
            ensures { AreDone S.base S.log S.sight scene.entry.now.plan.seed scene.entry.now.monitors.now errands.items result.items }
        {
            let mut errands = errands;
            let mut done = done;
            run_all(scope, rt, gate, scene, &mut errands, &mut done);
            errands.destroy_empty();
            done
        },
    )
}
