//! What is rolled.
ghost use Rattle.std.specs.Prelude.{◌≡◌, ◌<◌};
ghost use Rattle.alp_drill.specs.Rolls.{roll as rolled, dice_of};

use rand_core::SeedableRng;
use rand_core::utils::NextWord;
use rand_pcg::Pcg32;

/// The generator, and the server that was stopped last.
#[derive(Drop)]
pub struct Dice {
    pub rng: Pcg32,
    pub stopped: u8,
}

impl Dice {
    /// The dice of a seed, before the first roll.
    #[tactic(auto, unfolding(crate::specs::Rolls::dice_of))]
    pub(crate) fn new(seed: u64) -> Dice
        ensures { result ≡ dice_of seed }
    {
        Dice {
            rng: Pcg32::seed_from_u64(seed),
            stopped: 1,
        }
    }

    /// A number below `sides`.
    #[tactic(auto, unfolding(crate::specs::Rolls::roll))]
    pub(crate) fn roll(&mut self, sides: u32) -> u32
        requires { 0 < sides }
        ensures value { result ≡ (rolled sides self.old).0 }
        ensures dice { self.new ≡ (rolled sides self.old).1 }
        ensures below { result < sides }
    {
        self.rng.next_word() % sides
    }
}
