ghost use Rattle.std.specs.Prelude.{◌≡◌};
ghost use Rattle.alp_anchor.specs.declared.fault.AnchorFault.TheVariants.{Halted};

use alp_base::Halt;
use thiserror::Error;

/// Why no anchor was read.
#[derive(Clone, Copy, Debug, PartialEq, Eq, Error)]
pub enum AnchorFault {
    #[error("{0}")]
    Halted(Halt),
    /// No open anchor names this server; `found` is how the first page begins.
    #[error("not a volume")]
    NotAVolume { found: [u8; 24] },
    /// Two open anchors, of which neither is the other's successor. The place is page 1.
    #[error("damaged at page {place}")]
    Damaged { place: u32 },
}

impl From<Halt> for AnchorFault {
    ghost from_gives = { λ halt fault. fault ≡ Halted halt };

    fn from(halt: Halt) -> Self {
        AnchorFault::Halted(halt)
    }
}
