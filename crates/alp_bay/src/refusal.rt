//! Why the host gave no folder, or no disk.
ghost use Rattle.std.specs.Prelude.{◌≡◌};
ghost use Rattle.alp_bay.specs.declared.refusal.Refusal.TheVariants.{Host, Locked};
ghost use Rattle.alp_bay.specs.declared.refusal.HostFault.TheVariants.{Refused, OutOfMemory as NoMemory};

use alp_base::OutOfMemory;
use std::fs::{Metadata, TryLockError};
use std::io;

/// Why there is no folder, or no disk: what the host said.
#[derive(Drop)]
pub enum Refusal {
    /// A call failed.
    Host(io::Error),
    /// The file could not be locked: another program has it.
    Locked(TryLockError),
    /// A folder has a name, and this one is empty.
    NoName,
    /// What stands at the name is no folder.
    NoFolder(Metadata),
    /// The length of the file is no whole number of pages, or not one that a disk can have.
    Length(Metadata),
}

/// The host refused, or there was no memory.
#[derive(Drop)]
pub(crate) enum HostFault {
    Refused(Refusal),
    OutOfMemory,
}

impl From<io::Error> for HostFault {
    ghost from_gives = { λ refused fault. fault ≡ Refused (Host refused) };

    fn from(refused: io::Error) -> HostFault {
        HostFault::Refused(Refusal::Host(refused))
    }
}

impl From<TryLockError> for HostFault {
    ghost from_gives = { λ refused fault. fault ≡ Refused (Locked refused) };

    fn from(refused: TryLockError) -> HostFault {
        HostFault::Refused(Refusal::Locked(refused))
    }
}

impl From<OutOfMemory> for HostFault {
    ghost from_gives = { λ _ fault. fault ≡ NoMemory };

    fn from(_refused: OutOfMemory) -> HostFault {
        HostFault::OutOfMemory
    }
}
