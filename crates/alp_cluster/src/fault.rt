//! Why a script is not played to its end.
ghost use Rattle.std.specs.Prelude.{◌≡◌};
ghost use Rattle.alp_cluster.specs.declared.fault.RunFault.TheVariants as run_fault;

use alp_base::OutOfMemory;
use alp_node::StartFault;
use std::alloc::{AllocError, AllocFailed};
use thiserror::Error;

/// Why a script was not played to its end.
#[derive(Clone, Copy, Debug, PartialEq, Eq, Error)]
pub enum RunFault {
    /// The disk of this server failed.
    #[error("the disk of server {server} failed")]
    DiskFault { server: u8 },
    #[error("out of memory")]
    OutOfMemory,
    /// The journal of a server has no room for another entry.
    #[error("a journal is full")]
    JournalFull,
    /// This server did not start again.
    #[error("server {server} did not start again")]
    Start { server: u8, fault: StartFault },
}

impl From<OutOfMemory> for RunFault {
    ghost from_gives = { λ _ fault. fault ≡ run_fault.OutOfMemory };

    fn from(_refused: OutOfMemory) -> RunFault {
        RunFault::OutOfMemory
    }
}

impl From<AllocError> for RunFault {
    ghost from_gives = { λ _ fault. fault ≡ run_fault.OutOfMemory };

    fn from(_refused: AllocError) -> RunFault {
        RunFault::OutOfMemory
    }
}

impl<T: Drop> From<AllocFailed<T>> for RunFault {
    ghost from_gives = { λ _ fault. fault ≡ run_fault.OutOfMemory };

    fn from(_refused: AllocFailed<T>) -> RunFault {
        RunFault::OutOfMemory
    }
}
