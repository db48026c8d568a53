//! Why a call was not performed.
ghost use Rattle.std.specs.Prelude.{◌≡◌};
ghost use Rattle.alp_base.specs.Faults.{IsOfVolume};
ghost use Rattle.alp_calls.specs.Looks.{fault_as};
ghost use Rattle.alp_calls.specs.declared.fault.CallFault.TheVariants.{OutOfMemory as NoMemory};

use alp_base::{OutOfMemory, VaultFault};
use std::alloc::{AllocError, AllocFailed};
use thiserror::Error;

/// Why a call was not performed. The part is as it was.
#[derive(Clone, Copy, Debug, PartialEq, Eq, Error)]
pub enum CallFault {
    /// The vault's count of faults rose.
    #[error("a cell could not be read")]
    Failed,
    /// The vault was stopped.
    #[error("the vault was stopped")]
    Stopped,
    #[error("out of memory")]
    OutOfMemory,
}

impl From<OutOfMemory> for CallFault {
    ghost from_gives = { λ _ fault. fault ≡ NoMemory };

    fn from(_refused: OutOfMemory) -> CallFault {
        CallFault::OutOfMemory
    }
}

impl From<AllocError> for CallFault {
    ghost from_gives = { λ _ fault. fault ≡ NoMemory };

    fn from(_refused: AllocError) -> CallFault {
        CallFault::OutOfMemory
    }
}

impl<T: Drop> From<AllocFailed<T>> for CallFault {
    ghost from_gives = { λ _ fault. fault ≡ NoMemory };

    fn from(_refused: AllocFailed<T>) -> CallFault {
        CallFault::OutOfMemory
    }
}

/// What a vault that is a volume answers to a look.
pub(super) fn fault_of(fault: VaultFault) -> CallFault
    requires { IsOfVolume fault }
    ensures { result ≡ fault_as fault }
{
    match fault {
        VaultFault::Stopped => CallFault::Stopped,
        VaultFault::OutOfMemory => CallFault::OutOfMemory,
        _ => CallFault::Failed,
    }
}
