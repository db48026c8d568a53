//! The program `alp_bench_monitor THREADS TURNS LOCKS`: so many threads make so many turns each at one monitor, and take a `Mutex` round
//! the same state so often. It prints how often each state was changed, and takes no time: `bench/monitor.sh` does.
#![tactic(auto)]

mod counter;
mod words;

ghost use Rattle.std.specs.Prelude.{◌<◌, IfOk, IfSome};

use counter::{count_locks, count_turns};
use std::alloc::Global;
use std::process::ExitCode;
use std::rt::Runtime;
use std::sync::Wait;
use std::thread::Threads;
use std::{env, io};
use words::{Plan, USAGE, read_words};

// What the words after the program's name ask for.
fn asked(rt: &HostRuntime) -> io::Result<Option<Plan>>
    ensures { IfOk result (λ found. IfSome found (λ plan. 0 < plan.threads)) }
{
    let mut words = Vec::new(rt.alloc());
    for word in env::args(rt)?.skip(1) {
        words.push(word)?;
    }
    Ok(read_words(words.as_slice()))
}

fn show<R: Runtime + Threads + Wait + Sync>(rt: &R, alloc: Global, plan: Plan) -> io::Result<()>
    requires { 0 < plan.threads }
{
    let threads = plan.threads;
    let turns = count_turns(rt, alloc, threads, plan.turns)?;
    println!(rt; "monitor: {threads} threads, {turns} turns")?;
    let locks = count_locks(rt, alloc, threads, plan.locks)?;
    println!(rt; "mutex: {threads} threads, {locks} turns")
}

fn main(rt: HostRuntime) -> ExitCode {
    match asked(&rt) {
        Ok(Some(plan)) => match show(&rt, rt.alloc(), plan) {
            Ok(()) => ExitCode::SUCCESS,
            Err(_fault) => ExitCode::from(1),
        },
        _ => {
            let _ = eprint!(rt; "{USAGE}");
            ExitCode::from(1)
        }
    }
}
