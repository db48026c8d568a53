//! What goes wrong in a test before it asserts anything.
use alp_base::OutOfMemory;
use std::alloc::{AllocError, AllocFailed};

#[derive(Clone, Copy, Debug, PartialEq, Eq)]
pub(super) enum Wrong {
    Memory,
    Disk,
    Start,
    Cell,
    Room,
    Commit,
    Recovery,
}

impl From<OutOfMemory> for Wrong {
    fn from(_refused: OutOfMemory) -> Wrong {
        Wrong::Memory
    }
}

impl<T: Drop> From<AllocFailed<T>> for Wrong {
    fn from(_refused: AllocFailed<T>) -> Wrong {
        Wrong::Memory
    }
}

impl From<AllocError> for Wrong {
    fn from(_refused: AllocError) -> Wrong {
        Wrong::Memory
    }
}
