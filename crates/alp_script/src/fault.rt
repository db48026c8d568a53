//! Why a script was not read.
ghost use Rattle.std.specs.Prelude.{◌≡◌};
ghost use Rattle.alp_script.specs.declared.fault.ScriptFault.TheVariants as script_fault;

use std::alloc::{AllocError, AllocFailed};
use thiserror::Error;

/// Why a script was not read.
#[derive(Clone, Copy, Debug, PartialEq, Eq, Error)]
pub enum ScriptFault {
    /// The first line that is outside the script language, counted from 1.
    #[error("line {line} is outside the script language")]
    Bad { line: u32 },
    /// The script has a line more than the most, whatever that line holds.
    #[error("the script has too many lines")]
    TooLong,
    #[error("the script could not be read")]
    ReadFault,
    #[error("out of memory")]
    OutOfMemory,
}

impl From<AllocError> for ScriptFault {
    ghost from_gives = { λ _ e. e ≡ script_fault.OutOfMemory };

    fn from(_refused: AllocError) -> ScriptFault {
        ScriptFault::OutOfMemory
    }
}

impl<T: Drop> From<AllocFailed<T>> for ScriptFault {
    ghost from_gives = { λ _ e. e ≡ script_fault.OutOfMemory };

    fn from(_refused: AllocFailed<T>) -> ScriptFault {
        ScriptFault::OutOfMemory
    }
}
