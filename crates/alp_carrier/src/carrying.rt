//! A carrier on its way.
ghost use Rattle.std.specs.Prelude.{◌≡◌, ◌+◌, ◌<◌, ◌≤◌, ◌^◌, length, IfSome};
ghost use Rattle.alp_monitor.specs.Passes.{IsHeld, number};
ghost use Rattle.alp_carrier.specs.Plans.{delayed_by};
ghost use Rattle.alp_carrier.specs.Takes.{sent_before};
ghost use Rattle.alp_carrier.specs.OnWay.{IsReadyToGo, GoesOn, HasRolled, Finishes};
ghost use Rattle.alp_carrier.specs.Carries.{HasCarried};

use crate::deliver::{bring_by, bring_delayed};
use crate::plan::{Fate, Plan, roll_fate};
use crate::route::Route;
use crate::station::Station;
use crate::steps::{Delivery, Look, look_at};
use crate::taken::Taken;
use alp_monitor::{Monitor, Pass};
use rand_pcg::Pcg32;
use std::sync::Wait;
use std::sync::atomic::{AtomicBool, Ordering};
use std::thread;

// A carrier that finds nothing yields so many times at most before it looks again.
const MOST_YIELDS: u32 = 64;

/// The passes of a carrier that is done.
#[derive(Drop)]
pub struct Carried<S: Station> {
    pub sender: Pass<S>,
    pub receiver: Pass<S>,
    /// The messages before this place of all that was sent were taken, and no later one.
    pub next: u32,
    /// How often a message did not come that the plan let come: a message that was to come twice may
    /// count twice. The count stays at its greatest number.
    pub lost: u32,
}

// A carrier on its way, with the next place, the dice, and the message that it delays.
#[derive(Drop)]
struct Way<S: Station> {
    sender: Pass<S>,
    delivery: Delivery<S>,
    next: u32,
    dice: Pcg32,
    delayed: Option<Taken>,
}

fn delay(fate: Fate, x: Taken) -> Option<Taken>
    ensures { result ≡ delayed_by fate x }
{
    match fate {
        Fate::Lost => None,
        Fate::Twice => None,
        Fate::Delayed => Some(x),
        Fate::Once => None,
    }
}

// The message's roll is made, and it comes as that says. After it comes the one that was delayed.
fn bring_next<S: Station, R: Wait>(
    rt: &R,
    monitor: &Monitor<S>,
    from: u8,
    way: Way<S>,
    x: Taken,
) -> Way<S>
    requires held { IsHeld S.base monitor.now (number way.delivery.pass) way.delivery.pass }
    requires timely { S.sight.is_timely x.message }
    requires delayed { IfSome way.delayed (λ y. S.sight.is_timely y.message) }
    ensures { HasRolled S.base S.sight monitor.now from x way result }
{
    let Way {
        sender,
        delivery,
        next,
        mut dice,
        delayed,
    } = way;
    let fate = roll_fate(&mut dice);
    let delivery = bring_by(rt, monitor, from, delivery, fate, &x);
    let delivery = bring_delayed(rt, monitor, from, delivery, delayed);
    Way {
        sender,
        delivery,
        next,
        dice,
        delayed: delay(fate, x),
    }
}

// Takes what stands at the next place, if it is for the receiver. Tells whether anything stands there.
fn take_next<S: Station, R: Wait>(rt: &R, route: &Route<S>, way: Way<S>) -> (Way<S>, bool)
    requires ready { IsReadyToGo S.base S.sight route.now way }
    requires room { way.next + 1 < 2 ^ 32 }
    ensures { GoesOn S.base S.sight route.now way result.0 result.1 }
{
    let Way {
        sender,
        delivery,
        next,
        dice,
        delayed,
    } = way;
    let Look { pass, seen, shown } = look_at(rt, route.from, sender, next);
    let Some(envelope) = shown else {
        let way = Way {
            sender: pass,
            delivery,
            next,
            dice,
            delayed,
        };
        return (way, false);
    };
    let way = Way {
        sender: pass,
        delivery,
        next: next + 1,
        dice,
        delayed,
    };
    if envelope.to != route.pair.to {
        return (way, true);
    }
    let x = Taken {
        message: envelope.message,
        seen,
    };
    (bring_next(rt, route.to, route.pair.from, way, x), true)
}

// A message that is still delayed comes.
fn finish<S: Station, R: Wait>(rt: &R, monitor: &Monitor<S>, from: u8, way: Way<S>) -> Carried<S>
    requires held { IsHeld S.base monitor.now (number way.delivery.pass) way.delivery.pass }
    requires delayed { IfSome way.delayed (λ x. S.sight.is_timely x.message) }
    ensures { Finishes S.base S.sight monitor.now from way result }
{
    let Way {
        sender,
        delivery,
        next,
        dice: _,
        delayed,
    } = way;
    let Delivery { pass, lost } = bring_delayed(rt, monitor, from, delivery, delayed);
    Carried {
        sender,
        receiver: pass,
        next,
        lost,
    }
}

// A carrier that found nothing gives the processor to others so many times. Gives how often it does the next time: twice as often, up to a
// limit, and once after it found something.
fn rest_for(times: u32, took: bool) -> u32 {
    if took {
        return 1;
    }
    for _ in 0..times {
        thread::yield_now();
    }
    if times >= MOST_YIELDS {
        return MOST_YIELDS;
    }
    times * 2
}

/// Takes what the first server of the route sent to the second, in order and each once, and brings
/// it as the plan says. It ends once `over` was read as true and nothing more stood there, or where
/// the numbers of places end. While it finds nothing it looks less and less often, up to a limit. A
/// message comes less often than the plan says only where the receiver is shut, memory is refused or
/// ranks end.
pub fn carry<S: Station, R: Wait>(
    rt: &R,
    route: &Route<S>,
    plan: Plan,
    sender: Pass<S>,
    receiver: Pass<S>,
    over: &AtomicBool,
) -> Carried<S>
    requires sender { IsHeld S.base route.now.from.now (number sender) sender }
    requires receiver { IsHeld S.base route.now.to.now (number receiver) receiver }
    requires first { route.now.pair.first ≤ length (sent_before S.base S.sight route.now.from.now sender) }
    ensures { HasCarried S.base S.sight route.now plan.seed sender receiver result }
{
    let mut way = Way {
        sender,
        delivery: Delivery {
            pass: receiver,
            lost: 0,
        },
        next: route.pair.first,
        dice: plan.dice(),
        delayed: None,
    };
    let mut rest = 1u32;
    for _ in rt.forever() {
        let last = over.load(Ordering::SeqCst);
        if way.next == u32::MAX {
            return finish(rt, route.to, route.pair.from, way);
        }
        let (back, took) = take_next(rt, route, way);
        way = back;
        if !took && last {
            return finish(rt, route.to, route.pair.from, way);
        }
        rest = rest_for(rest, took);
    }
    unreachable!()
}
