//! Why a server does not regain what its notes keep.
ghost use Rattle.std.specs.Prelude.{◌≡◌};
ghost use Rattle.alp_calls.specs.declared.fault.CallFault.TheVariants.{OutOfMemory as NoMemory};
ghost use Rattle.alp_regain.specs.declared.fault.RegainFault.TheVariants.{Vault as OfVault};

use alp_base::OutOfMemory;
use alp_calls::CallFault;
use std::alloc::{AllocError, AllocFailed};
use thiserror::Error;

/// Why a server does not regain what its notes keep. The vault holds what it held.
#[derive(Clone, Copy, Debug, PartialEq, Eq, Error)]
pub enum RegainFault {
    /// A note is not in its format, or not one that can stand beside the others and the files.
    #[error("a note is not in its format")]
    BadNote,
    /// The vault gave no answer, or there is no memory.
    #[error("the vault gave no answer")]
    Vault(CallFault),
}

impl From<CallFault> for RegainFault {
    ghost from_gives = { λ f fault. fault ≡ OfVault f };

    fn from(fault: CallFault) -> RegainFault {
        RegainFault::Vault(fault)
    }
}

impl From<OutOfMemory> for RegainFault {
    ghost from_gives = { λ _ fault. fault ≡ OfVault NoMemory };

    fn from(_refused: OutOfMemory) -> RegainFault {
        RegainFault::Vault(CallFault::OutOfMemory)
    }
}

impl From<AllocError> for RegainFault {
    ghost from_gives = { λ _ fault. fault ≡ OfVault NoMemory };

    fn from(_refused: AllocError) -> RegainFault {
        RegainFault::Vault(CallFault::OutOfMemory)
    }
}

impl<T: Drop> From<AllocFailed<T>> for RegainFault {
    ghost from_gives = { λ _ fault. fault ≡ OfVault NoMemory };

    fn from(_refused: AllocFailed<T>) -> RegainFault {
        RegainFault::Vault(CallFault::OutOfMemory)
    }
}
