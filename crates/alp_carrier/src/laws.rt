//! What holds of each carrier, by the contract of `carry`.
ghost use Rattle.alp_carrier.specs.Claims.{BringsWhatWasSent, BringsTwiceAtMost};

use crate::station::Station;

/// Each turn of a carrier at the receiver brought a message that the sender had sent to it, by an
/// entry with a smaller rank. The carrier's pass saw that, at one of the places that it took.
pub fn brought_messages_were_sent<S: Station>()
    ensures { BringsWhatWasSent S.base S.sight }
{}

/// Each message comes at most twice as often as it was sent: whatever messages weigh, those that a
/// carrier brought weigh at most twice what it took.
pub fn messages_come_twice_at_most<S: Station>()
    ensures { BringsTwiceAtMost S.base S.sight }
{}
