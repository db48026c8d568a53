//! Why a client comes no further.
use alp_base::OutOfMemory;
use std::alloc::AllocFailed;
use thiserror::Error;

/// Why a client comes no further.
#[derive(Clone, Copy, Debug, PartialEq, Eq, Error)]
pub enum ServeFault {
    #[error("out of memory: end other programs, and try again")]
    OutOfMemory,
    #[error("the server went down, since its file could not be written: check the folder")]
    Down,
    #[error("the server refused a call: take a new folder, or ask for fewer transactions")]
    Refused,
    #[error("the server's journal is full: ask for fewer transactions")]
    JournalFull,
}

impl From<OutOfMemory> for ServeFault {
    fn from(_: OutOfMemory) -> ServeFault {
        ServeFault::OutOfMemory
    }
}

impl<T: Drop> From<AllocFailed<T>> for ServeFault {
    fn from(_: AllocFailed<T>) -> ServeFault {
        ServeFault::OutOfMemory
    }
}
