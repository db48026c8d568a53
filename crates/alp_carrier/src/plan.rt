//! What becomes of messages on their way.
ghost use Rattle.std.specs.Prelude.{◌≡◌, ◌+◌, ◌*◌, ◌%◌, ◌^◌};
ghost use Rattle.alp_carrier.specs.Plans.{dice_of, roll as rolled, fate_of};

use rand_core::SeedableRng;
use rand_core::utils::NextWord;
use rand_pcg::Pcg32;

/// What becomes of a message: it is lost, it is brought twice, it is delayed until the next one had
/// its roll, or it is brought once.
#[derive(Clone, Copy, PartialEq, Eq)]
pub enum Fate {
    Lost,
    Twice,
    Delayed,
    Once,
}

/// The seed of all fates: those of a run, or those of the messages of one pair of servers.
#[derive(Clone, Copy, PartialEq, Eq)]
pub struct Plan {
    pub seed: u64,
}

impl Plan {
    /// The plan of a pair of servers, by the plan of the run.
    pub fn of_pair(self, from: u8, to: u8) -> Plan
        ensures { result.seed ≡ (self.seed + (16 * from + to)) % 2 ^ 64 }
    {
        let pair = 16 * u64::from(from) + u64::from(to);
        Plan {
            seed: self.seed.wrapping_add(pair),
        }
    }

    /// The dice before the first message.
    #[tactic(auto, unfolding(crate::specs::Plans::dice_of))]
    pub(crate) fn dice(self) -> Pcg32
        ensures { result ≡ dice_of self.seed }
    {
        Pcg32::seed_from_u64(self.seed)
    }
}

// A number below 8.
#[tactic(auto, unfolding(crate::specs::Plans::roll))]
fn roll(dice: &mut Pcg32) -> u32
    ensures value { result ≡ (rolled dice.old).0 }
    ensures dice { dice.new ≡ (rolled dice.old).1 }
{
    dice.next_word() % 8
}

fn fate_for(roll: u32) -> Fate
    ensures { result ≡ fate_of roll }
{
    match roll {
        0 => Fate::Lost,
        1 => Fate::Twice,
        2 => Fate::Delayed,
        _ => Fate::Once,
    }
}

/// What becomes of the next message.
pub(crate) fn roll_fate(dice: &mut Pcg32) -> Fate
    ensures fate { result ≡ fate_of (rolled dice.old).0 }
    ensures dice { dice.new ≡ (rolled dice.old).1 }
{
    let rolled = roll(dice);
    fate_for(rolled)
}
