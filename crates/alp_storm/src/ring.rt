//! The passes of a thread, one at each monitor.
ghost use Rattle.std.specs.Prelude.{◌≡◌, ◌⊎◌, ℕ, ◌<◌, ◌≤◌, ◌+◌, length, IfSome, IfNone};
ghost use Rattle.std.specs.List.{insert};
ghost use Rattle.std.specs.Vec.{vec_len, vec_capacity};
ghost use Rattle.alp_storm.specs.Logs.{IsWorkers};
ghost use Rattle.alp_storm.specs.Rings.{IsRing, IsTurned, StandsAt};
ghost use Rattle.alp_storm.specs.Turns.{Took};

use crate::fault::StormFault;
use crate::host::{Answer, Host};
use crate::turn::take_turn;
use alp_journal::Event;
use alp_monitor::{Monitor, Pass};
use std::sync::Wait;

/// The place of the server of this number, which is one of so many.
pub(crate) fn place_of(server: u8, servers: usize) -> Option<usize>
    ensures some { IfSome result (StandsAt servers server) }
    ensures none { IfNone result ((server ≡ 0) ⊎ (servers < server)) }
{
    if server == 0 {
        return None;
    }
    if usize::from(server) > servers {
        return None;
    }
    Some(usize::from(server) - 1)
}

/// Puts a pass back, for which there is room.
pub(crate) fn put<T: Drop>(list: &mut Vec<T>, at: usize, element: T)
    requires { (at ≤ vec_len list.old) × (vec_len list.old < vec_capacity list.old) }
    ensures items { list.new.items ≡ insert list.old.items at element }
    ensures capacity { vec_capacity list.old ≤ vec_capacity list.new }
    ensures len { vec_len list.new ≡ vec_len list.old + 1 }
{
    let Ok(()) = list.insert(at, element) else {
        unreachable!()
    };
}

/// Asks the server at that place in one turn.
pub(crate) fn turn_at<S: Host, R: Wait>(
    rt: &R,
    monitors: &[Monitor<S>],
    ring: &mut Vec<Pass<S>>,
    at: usize,
    event: Event,
) -> Result<Answer, StormFault>
    requires at { at < length monitors.now }
    requires ring { (k : ℕ) × IsRing S.base monitors.now k ring.old.items }
    requires asked { IsWorkers event }
    ensures took { IsTurned S.base monitors.now at (λ m p q. Took S.base S.log m event p q result) ring.old.items ring.new.items }
    ensures ring { (k : ℕ) → IsRing S.base monitors.now k ring.old.items → IsRing S.base monitors.now k ring.new.items }
{
    let pass = ring.remove(at);
    let (pass, answered) = take_turn(rt, &monitors[at], pass, event);
    put(ring, at, pass);
    answered
}
