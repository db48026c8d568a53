//! How a message is brought by its fate.
ghost use Rattle.std.specs.Prelude.{◌∷◌, [], IfSome, option_to_list};
ghost use Rattle.alp_monitor.specs.Passes.{IsHeld, number};
ghost use Rattle.alp_carrier.specs.Plans.{brought_by};
ghost use Rattle.alp_carrier.specs.Brings.{Brings};

use crate::plan::Fate;
use crate::station::Station;
use crate::steps::{Delivery, bring};
use crate::taken::Taken;
use alp_monitor::Monitor;
use std::sync::Wait;

fn bring_twice<S: Station, R: Wait>(
    rt: &R,
    monitor: &Monitor<S>,
    from: u8,
    delivery: Delivery<S>,
    x: &Taken,
) -> Delivery<S>
    requires held { IsHeld S.base monitor.now (number delivery.pass) delivery.pass }
    requires timely { S.sight.is_timely x.now.message }
    ensures { Brings S.base S.sight monitor.now from delivery result (x.now ∷ x.now ∷ []) }
{
    let delivery = bring(rt, monitor, from, delivery, x);
    bring(rt, monitor, from, delivery, x)
}

/// A message comes as its fate says, but for a delay.
pub(crate) fn bring_by<S: Station, R: Wait>(
    rt: &R,
    monitor: &Monitor<S>,
    from: u8,
    delivery: Delivery<S>,
    fate: Fate,
    x: &Taken,
) -> Delivery<S>
    requires held { IsHeld S.base monitor.now (number delivery.pass) delivery.pass }
    requires timely { S.sight.is_timely x.now.message }
    ensures { Brings S.base S.sight monitor.now from delivery result (brought_by fate x.now) }
{
    match fate {
        Fate::Lost => delivery,
        Fate::Twice => bring_twice(rt, monitor, from, delivery, x),
        Fate::Delayed => delivery,
        Fate::Once => bring(rt, monitor, from, delivery, x),
    }
}

/// The message that was delayed comes, if there is one.
pub(crate) fn bring_delayed<S: Station, R: Wait>(
    rt: &R,
    monitor: &Monitor<S>,
    from: u8,
    delivery: Delivery<S>,
    delayed: Option<Taken>,
) -> Delivery<S>
    requires held { IsHeld S.base monitor.now (number delivery.pass) delivery.pass }
    requires timely { IfSome delayed (λ x. S.sight.is_timely x.message) }
    ensures { Brings S.base S.sight monitor.now from delivery result (option_to_list delayed) }
{
    let Some(x) = delayed else {
        return delivery;
    };
    bring(rt, monitor, from, delivery, &x)
}
