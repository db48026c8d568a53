//! A carrier between two depots, in a thread beside one that sends.
ghost use Rattle.std.specs.Prelude.{◌≡◌, ◌+◌, ◌<◌, [], length};
ghost use Rattle.alp_monitor.specs.Passes.{AreFresh, IsHeld, number};
ghost use Rattle.alp_carrier_tests.specs.Depots.{is_open_of};

use crate::{Deed, Depot, Record};
use alp_base::{JoinNo, TransId};
use alp_carrier::{Carried, Pair, Plan, Route, carry};
use alp_journal::{Envelope, Message};
use alp_monitor::{Monitor, Pass};
use std::alloc::{AllocError, Global};
use std::sync::Wait;
use std::sync::atomic::{AtomicBool, Ordering};
use std::test::Fail;
use std::thread;
use std::thread::Threads;

// What comes of forty messages from server 1 to server 2 by the plan of the seed 5. Another program
// made the list.
const BROUGHT: [u32; 43] = [
    0, 1, 1, 2, 4, 3, 5, 5, 6, 7, 8, 9, 10, 11, 11, 12, 12, 13, 15, 14, 16, 17, 17, 18, 20, 20, 19,
    21, 22, 23, 24, 27, 28, 29, 30, 31, 32, 33, 33, 34, 35, 38, 39,
];

// What a carrier did: the numbers of the messages that came, and what it took and lost.
struct Outcome {
    came: Vec<u32>,
    next: u32,
    lost: u32,
}

// The passes of the thread that sends, and those of the carrier.
struct Passes {
    talker: Pass<Depot>,
    sender: Pass<Depot>,
    receiver: Pass<Depot>,
}

fn envelope(to: u8, number: u32) -> Envelope {
    let trans = TransId {
        server: 1,
        epoch: 1,
        counter: number,
    };
    let join = JoinNo {
        server: to,
        epoch: 1,
        counter: number,
    };
    Envelope {
        to,
        message: Message::Done { trans, join },
    }
}

fn send<R: Wait>(
    rt: &R,
    monitor: &Monitor<Depot>,
    pass: Pass<Depot>,
    envelope: Envelope,
) -> Pass<Depot>
    requires held { IsHeld is_open_of monitor.now (number pass) pass }
    ensures held { IsHeld is_open_of monitor.now (number pass) result }
{
    let mut turn = monitor.enter(rt, pass);
    let _ = turn.state.send(envelope);
    monitor.leave(turn)
}

// Sends forty messages to server 2, and as many to server 3, and tells then that it is over.
fn send_forty_each<R: Wait>(
    rt: &R,
    monitor: &Monitor<Depot>,
    mut pass: Pass<Depot>,
    over: &AtomicBool,
)
    requires held { IsHeld is_open_of monitor.now (number pass) pass }
{
    for message in 0..40 {
        pass = send(rt, monitor, pass, envelope(2, message));
        pass = send(rt, monitor, pass, envelope(3, message));
    }
    over.store(true, Ordering::SeqCst);
}

fn depot(alloc: Global, is_open: bool) -> Depot
    ensures { result.records ≡ [] }
{
    Depot::new(alloc, is_open)
}

// The last of some new passes.
fn take_pass(monitor: &Monitor<Depot>, passes: &mut Vec<Pass<Depot>>) -> Pass<Depot>
    requires fresh { AreFresh is_open_of monitor.now passes.old.items }
    requires some { 0 < length passes.old.items }
    ensures held { IsHeld is_open_of monitor.now (number result) result }
    ensures others { AreFresh is_open_of monitor.now passes.new.items }
    ensures count { length passes.new.items + 1 ≡ length passes.old.items }
{
    passes.take_last()
}

// The numbers of the messages that came.
fn numbers(alloc: Global, records: &[Record]) -> Result<Vec<u32>, AllocError> {
    let mut numbers = Vec::new(alloc);
    for record in records {
        if let Deed::Came { from: _, message } = record.deed {
            if let Message::Done { trans, join: _ } = message {
                numbers.push(trans.counter)?;
            }
        }
    }
    Ok(numbers)
}

fn numbers_at<R: Wait>(
    rt: &R,
    alloc: Global,
    monitor: &Monitor<Depot>,
    pass: Pass<Depot>,
) -> Result<Vec<u32>, AllocError>
    requires held { IsHeld is_open_of monitor.now (number pass) pass }
{
    let turn = monitor.enter(rt, pass);
    let numbers = numbers(alloc, turn.state.records());
    let _ = monitor.leave(turn);
    numbers
}

// One thread sends, and beside it another carries from server 1 to server 2.
fn carry_beside<R: Threads + Wait + Sync>(
    rt: &R,
    a: &Monitor<Depot>,
    b: &Monitor<Depot>,
    passes: Passes,
) -> Carried<Depot>
    requires talker { IsHeld is_open_of a.now (number passes.talker) passes.talker }
    requires sender { IsHeld is_open_of a.now (number passes.sender) passes.sender }
    requires receiver { IsHeld is_open_of b.now (number passes.receiver) passes.receiver }
    ensures { IsHeld is_open_of b.now (number passes.receiver) result.receiver }
{
    let Passes {
        talker,
        sender,
        receiver,
    } = passes;
    let over = AtomicBool::new(false);
    let pair = Pair {
        from: 1,
        to: 2,
        first: 0,
    };
    let plan = Plan { seed: 5 }.of_pair(1, 2);
    let ((), carried) = thread::join(
        rt,
        || -> ()
            requires { IsHeld is_open_of a.now (number talker) talker }
        { send_forty_each(rt, a, talker, &over) },
        || -> Carried<Depot>
            requires { IsHeld is_open_of a.now (number sender) sender × IsHeld is_open_of b.now (number receiver) receiver × (pair.first ≡ 0) }
            ensures { IsHeld is_open_of b.entry.now (number receiver) result.receiver }
        {
            let route = Route {
                pair,
                from: a,
                to: b,
            };
            carry(rt, &route, plan, sender, receiver, &over)
        },
    );
    carried
}

fn carry_to<R: Threads + Wait + Sync>(
    rt: &R,
    alloc: Global,
    is_open: bool,
) -> Result<Outcome, AllocError> {
    let Ok((a, mut of_a)) = Monitor::new(alloc, depot(alloc, true), 2) else {
        return Err(AllocError);
    };
    let Ok((b, mut of_b)) = Monitor::new(alloc, depot(alloc, is_open), 1) else {
        return Err(AllocError);
    };
    let talker = take_pass(&a, &mut of_a);
    let sender = take_pass(&a, &mut of_a);
    let receiver = take_pass(&b, &mut of_b);
    let passes = Passes {
        talker,
        sender,
        receiver,
    };
    let Carried {
        sender: _,
        receiver,
        next,
        lost,
    } = carry_beside(rt, &a, &b, passes);
    let came = numbers_at(rt, alloc, &b, receiver)?;
    Ok(Outcome { came, next, lost })
}

// All forty were taken, beside the forty to server 3, and came as the plan says.
fn all_came<R: Threads + Wait + Sync>(rt: &R, alloc: Global) -> Result<bool, AllocError> {
    let Outcome { came, next, lost } = carry_to(rt, alloc, true)?;
    Ok(came.as_slice() == BROUGHT.as_slice() && next == 80 && lost == 0)
}

// All forty were taken, none came, and each time is counted that the plan let one come.
fn none_came<R: Threads + Wait + Sync>(rt: &R, alloc: Global) -> Result<bool, AllocError> {
    let Outcome { came, next, lost } = carry_to(rt, alloc, false)?;
    Ok(came.is_empty() && next == 80 && lost == 43)
}

#[test]
fn forty_come_by_the_plan(rt: HostRuntime) -> Result<(), Fail> {
    let alloc = rt.alloc();
    assert!(rt; all_came(&rt, alloc)?);
    Ok(())
}

#[test]
fn none_comes_to_a_depot_that_is_shut(rt: HostRuntime) -> Result<(), Fail> {
    let alloc = rt.alloc();
    assert!(rt; none_came(&rt, alloc)?);
    Ok(())
}
