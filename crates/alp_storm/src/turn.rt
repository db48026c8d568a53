//! A turn of a worker.
ghost use Rattle.std.specs.Prelude.{◌≡◌};
ghost use Rattle.alp_monitor.specs.Passes.{IsHeld, number};
ghost use Rattle.alp_storm.specs.Logs.{IsWorkers};
ghost use Rattle.alp_storm.specs.Turns.{Took};

use crate::fault::StormFault;
use crate::host::{Answer, Host};
use alp_journal::Event;
use alp_monitor::{Monitor, Pass};
use std::sync::Wait;

/// Asks a server in one turn.
pub(crate) fn take_turn<S: Host, R: Wait>(
    rt: &R,
    monitor: &Monitor<S>,
    pass: Pass<S>,
    event: Event,
) -> (Pass<S>, Result<Answer, StormFault>)
    requires held { IsHeld S.base monitor.now (number pass) pass }
    requires asked { IsWorkers event }
    ensures { Took S.base S.log monitor.now event pass result.0 result.1 }
{
    let mut turn = monitor.enter(rt, pass);
    let answered = turn.state.step(event);
    (monitor.leave(turn), answered)
}
