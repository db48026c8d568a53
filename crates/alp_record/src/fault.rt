ghost use Rattle.std.specs.Prelude.{◌≡◌};
ghost use Rattle.alp_record.specs.declared.fault.RecordFault.TheVariants.{Halted, OutOfMemory as NoMemory};

use alp_base::{Halt, OutOfMemory};
use thiserror::Error;

/// Why no record was read.
#[derive(Clone, Copy, Debug, PartialEq, Eq, Error)]
pub enum RecordFault {
    #[error("{0}")]
    Halted(Halt),
    #[error("out of memory")]
    OutOfMemory,
    /// The gate is open, and no record of the generation stands there. The place is the header's page.
    #[error("damaged at page {place}")]
    Damaged { place: u32 },
}

impl From<Halt> for RecordFault {
    ghost from_gives = { λ halt fault. fault ≡ Halted halt };

    fn from(halt: Halt) -> Self {
        RecordFault::Halted(halt)
    }
}

impl From<OutOfMemory> for RecordFault {
    ghost from_gives = { λ refused fault. fault ≡ NoMemory };

    fn from(_refused: OutOfMemory) -> Self {
        RecordFault::OutOfMemory
    }
}
