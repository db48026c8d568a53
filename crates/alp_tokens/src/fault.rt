//! Why a part of a line was not read.
ghost use Rattle.std.specs.Prelude.{◌≡◌};
ghost use Rattle.alp_tokens.specs.declared.fault.LineFault.TheVariants as line_fault;

use std::alloc::{AllocError, AllocFailed};
use thiserror::Error;

/// Why a part of a line was not read.
#[derive(Clone, Copy, Debug, PartialEq, Eq, Error)]
pub enum LineFault {
    #[error("outside the script language")]
    Outside,
    #[error("out of memory")]
    OutOfMemory,
}

impl From<AllocError> for LineFault {
    ghost from_gives = { λ _ e. e ≡ line_fault.OutOfMemory };

    fn from(_refused: AllocError) -> LineFault {
        LineFault::OutOfMemory
    }
}

impl<T: Drop> From<AllocFailed<T>> for LineFault {
    ghost from_gives = { λ _ e. e ≡ line_fault.OutOfMemory };

    fn from(_refused: AllocFailed<T>) -> LineFault {
        LineFault::OutOfMemory
    }
}
