ghost use Rattle.std.specs.Prelude.{◌≡◌};
ghost use Rattle.alp_base.specs.declared.faults.Halt.TheVariants.{Failed as HaltFailed, Stopped as HaltStopped};
ghost use Rattle.alp_wal.specs.declared.fault.WalFault.TheVariants.{Failed, Stopped, OutOfMemory as NoMemory};

use alp_base::{Halt, OutOfMemory};
use thiserror::Error;

/// Why a log did not commit, or made no checkpoint.
#[derive(Clone, Copy, Debug, PartialEq, Eq, Error)]
pub enum WalFault {
    #[error("the device failed")]
    Failed,
    #[error("the device was stopped")]
    Stopped,
    /// The log is as before, but for room that a commit made for notes.
    #[error("out of memory")]
    OutOfMemory,
    /// A record of the live notes and one of the batch are longer than an area. The log is as before.
    #[error("the log is too small")]
    Full,
    /// An earlier commit or checkpoint of this log failed or was stopped.
    #[error("the log has stopped")]
    Dead,
}

impl From<OutOfMemory> for WalFault {
    ghost from_gives = { λ refused fault. fault ≡ NoMemory };

    fn from(_refused: OutOfMemory) -> Self {
        WalFault::OutOfMemory
    }
}
