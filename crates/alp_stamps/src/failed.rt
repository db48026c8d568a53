//! Why the program came no further.
use alp_acknowledge::ServeFault;
use alp_base::OutOfMemory;
use alp_bay::BayFault;
use std::alloc::{AllocError, AllocFailed};
use std::io;
use thiserror::Error;

/// Why the program came no further.
#[derive(Clone, Copy, Debug, Error)]
pub(crate) enum Failed {
    #[error("the words are no folder and no count of commits")]
    Words,
    #[error("{0}")]
    Serve(ServeFault),
    #[error("no volume of server 1: name a folder that is there, whose server1.vol is its volume or missing, and that no other program has open")]
    Volume,
    #[error("out of memory: end other programs, and try again")]
    OutOfMemory,
    #[error("the words could not be read, or the lines could not be written: check the output")]
    Host,
}

impl From<ServeFault> for Failed {
    fn from(fault: ServeFault) -> Failed {
        Failed::Serve(fault)
    }
}

impl From<OutOfMemory> for Failed {
    fn from(_fault: OutOfMemory) -> Failed {
        Failed::OutOfMemory
    }
}

impl From<AllocError> for Failed {
    fn from(_fault: AllocError) -> Failed {
        Failed::OutOfMemory
    }
}

impl<T: Drop> From<AllocFailed<T>> for Failed {
    fn from(_refused: AllocFailed<T>) -> Failed {
        Failed::OutOfMemory
    }
}

impl From<io::Error> for Failed {
    fn from(_fault: io::Error) -> Failed {
        Failed::Host
    }
}

impl From<BayFault> for Failed {
    fn from(fault: BayFault) -> Failed {
        match fault {
            BayFault::Failed => Failed::Volume,
            BayFault::OutOfMemory => Failed::OutOfMemory,
        }
    }
}
