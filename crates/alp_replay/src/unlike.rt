//! Why a report is not what one thread would leave.
use alp_base::OutOfMemory;
use std::alloc::{AllocError, AllocFailed};
use std::io;
use thiserror::Error;

/// Why a report is not what one thread would leave, or could not be compared.
#[derive(Debug, Drop, Error)]
pub enum Unlike {
    #[error("out of memory")]
    OutOfMemory,
    /// What the report lacks.
    #[error("the report lacks {0}")]
    Report(&'static str),
}

impl From<OutOfMemory> for Unlike {
    fn from(_refused: OutOfMemory) -> Unlike {
        Unlike::OutOfMemory
    }
}

impl From<AllocError> for Unlike {
    fn from(_refused: AllocError) -> Unlike {
        Unlike::OutOfMemory
    }
}

impl<T: Drop> From<AllocFailed<T>> for Unlike {
    fn from(_refused: AllocFailed<T>) -> Unlike {
        Unlike::OutOfMemory
    }
}

impl From<io::Error> for Unlike {
    fn from(_refused: io::Error) -> Unlike {
        Unlike::OutOfMemory
    }
}
