//! Why a worker does not come to the end of its job.
ghost use Rattle.std.specs.Prelude.{◌≡◌};
ghost use Rattle.alp_storm.specs.declared.fault.StormFault.TheVariants as fault;

use alp_base::OutOfMemory;
use std::alloc::{AllocError, AllocFailed};
use thiserror::Error;

/// Why a storm did not come to its end.
#[derive(Clone, Copy, Debug, PartialEq, Eq, Error)]
pub enum StormFault {
    /// The disk of this server failed.
    #[error("the disk of server {server} failed")]
    DiskFault { server: u8 },
    #[error("out of memory")]
    OutOfMemory,
    /// The journal of this server has no room for another entry.
    #[error("the journal of server {server} is full")]
    JournalFull { server: u8 },
    /// A job goes to a server that is none of the storm's.
    #[error("no server of the storm is server {server}")]
    NoServer { server: u8 },
    /// A job sends bytes that spell no request.
    #[error("a frame spells no request")]
    BadFrame,
}

impl From<OutOfMemory> for StormFault {
    ghost from_gives = { λ _ f. f ≡ fault.OutOfMemory };

    fn from(_refused: OutOfMemory) -> StormFault {
        StormFault::OutOfMemory
    }
}

impl From<AllocError> for StormFault {
    ghost from_gives = { λ _ f. f ≡ fault.OutOfMemory };

    fn from(_refused: AllocError) -> StormFault {
        StormFault::OutOfMemory
    }
}

impl<T: Drop> From<AllocFailed<T>> for StormFault {
    ghost from_gives = { λ _ f. f ≡ fault.OutOfMemory };

    fn from(_refused: AllocFailed<T>) -> StormFault {
        StormFault::OutOfMemory
    }
}
