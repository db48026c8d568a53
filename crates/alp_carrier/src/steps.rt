//! The single turns of a carrier.
ghost use Rattle.std.specs.Prelude.{◌≡◌, ◌<◌, ◌≤◌, ◌^◌, ◌∷◌, [], length, IfSome, IfNone, true, if◌then◌else◌};
ghost use Rattle.alp_monitor.specs.History.{entries_in};
ghost use Rattle.alp_monitor.specs.Passes.{IsHeld, number, turns, front, first_base};
ghost use Rattle.alp_carrier.specs.Sights.{IsShown};
ghost use Rattle.alp_carrier.specs.Takes.{IsLater, sent_before, last_before};
ghost use Rattle.alp_carrier.specs.Brings.{HandsIn, Brings, counted};

use crate::station::Station;
use crate::taken::Taken;
use alp_journal::Envelope;
use alp_monitor::{Monitor, Pass};
use std::sync::Wait;

/// What a turn at the sender saw: its last rank, and what stands at one place of all that it sent.
#[derive(Drop)]
pub(crate) struct Look<S: Station> {
    pub(crate) pass: Pass<S>,
    pub(crate) seen: u64,
    pub(crate) shown: Option<Envelope>,
}

/// The pass at the receiver, and how many messages did not come that the plan let come.
#[derive(Drop)]
pub(crate) struct Delivery<S: Station> {
    pub(crate) pass: Pass<S>,
    pub(crate) lost: u32,
}

/// A turn without an entry, which looks at one place of all that was sent.
pub(crate) fn look_at<S: Station, R: Wait>(
    rt: &R,
    monitor: &Monitor<S>,
    pass: Pass<S>,
    place: u32,
) -> Look<S>
    requires held { IsHeld S.base monitor.now (number pass) pass }
    ensures later { IsLater S.base monitor.now pass result.pass }
    ensures turns { turns result.pass ≡ turns pass }
    ensures seen { result.seen ≡ last_before S.base S.sight monitor.now result.pass }
    ensures shown { IfSome result.shown (IsShown S.sight (first_base S.base monitor.now) (entries_in (front result.pass)) place) }
    ensures none { IfNone result.shown (length (sent_before S.base S.sight monitor.now result.pass) ≤ place) }
{
    let turn = monitor.enter(rt, pass);
    let seen = turn.state.last_rank();
    let shown = turn.state.emitted(place);
    Look {
        pass: monitor.leave(turn),
        seen,
        shown,
    }
}

// The message comes, where ranks do not end. Tells whether it did.
fn hand_in<S: Station>(state: &mut S, from: u8, x: &Taken) -> bool
    requires timely { S.sight.is_timely x.now.message }
    ensures base { S.base state.new ≡ S.base state.old }
    ensures entries { HandsIn S.sight (S.base state.old) from x.now (S.entries state.old) (S.entries state.new) result }
    ensures few { result ≡ true → length (S.entries state.old) < 2 ^ 62 }
{
    if state.last_rank() >= 1 << 62 || x.seen >= 1 << 62 {
        return false;
    }
    let before = state.count();
    let _ = state.deliver(from, x.message, x.seen);
    state.count() > before
}

fn count_missed(lost: u32, came: bool) -> u32
    ensures { result ≡ (if came then lost else counted lost 1) }
{
    if came { lost } else { lost.saturating_add(1) }
}

/// A turn in which a message comes, where it can.
pub(crate) fn bring<S: Station, R: Wait>(
    rt: &R,
    monitor: &Monitor<S>,
    from: u8,
    delivery: Delivery<S>,
    x: &Taken,
) -> Delivery<S>
    requires held { IsHeld S.base monitor.now (number delivery.pass) delivery.pass }
    requires timely { S.sight.is_timely x.now.message }
    ensures { Brings S.base S.sight monitor.now from delivery result (x.now ∷ []) }
{
    let Delivery { pass, lost } = delivery;
    let mut turn = monitor.enter(rt, pass);
    let came = hand_in(&mut turn.state, from, x);
    Delivery {
        pass: monitor.leave(turn),
        lost: count_missed(lost, came),
    }
}
