//! Why a run ends before its report.
ghost use Rattle.std.specs.Prelude.{◌≡◌};
ghost use Rattle.alp_top.specs.declared.fault.NoReport.TheVariants as no_report;
ghost use Rattle.alp_top.specs.Faults.{played, of_bay, of_vault as of_vault_said, of_start as of_start_said};

use alp_base::{OutOfMemory, VaultFault};
use alp_bay::BayFault;
use alp_cluster::RunFault;
use alp_node::StartFault;
use thiserror::Error;

/// Why there is no report of a run.
#[derive(Clone, Copy, Debug, PartialEq, Eq, Error)]
pub enum NoReport {
    #[error("the bay failed")]
    Bay,
    /// The disk of this server failed.
    #[error("the disk of server {server} failed")]
    Disk { server: u8 },
    #[error("out of memory")]
    OutOfMemory,
    /// The journal of a server has no room for another entry.
    #[error("a journal is full")]
    JournalFull,
    /// The epochs of this server's volume are used up.
    #[error("server {server} has no epoch left")]
    EpochEnd { server: u8 },
    /// The disk of this server is not new and holds no volume of it; its first page begins so.
    #[error("the disk of server {server} is not a volume of it")]
    NotAVolume { server: u8, found: [u8; 24] },
    /// This page of the disk of this server is not in its format; 0 is a note.
    #[error("the disk of server {server} is damaged at page {place}")]
    Damaged { server: u8, place: u32 },
}

impl From<OutOfMemory> for NoReport {
    ghost from_gives = { λ _ fault. fault ≡ no_report.OutOfMemory };

    fn from(_refused: OutOfMemory) -> NoReport {
        NoReport::OutOfMemory
    }
}

impl From<RunFault> for NoReport {
    ghost from_gives = { λ f fault. fault ≡ played f };

    fn from(fault: RunFault) -> NoReport {
        match fault {
            RunFault::DiskFault { server } => NoReport::Disk { server },
            RunFault::OutOfMemory => NoReport::OutOfMemory,
            RunFault::JournalFull => NoReport::JournalFull,
            RunFault::Start { server, fault } => of_start(server, fault),
        }
    }
}

impl From<BayFault> for NoReport {
    ghost from_gives = { λ f fault. fault ≡ of_bay f };

    fn from(fault: BayFault) -> NoReport {
        match fault {
            BayFault::Failed => NoReport::Bay,
            BayFault::OutOfMemory => NoReport::OutOfMemory,
        }
    }
}

/// A fault of this server's vault, of the whole run.
pub fn of_vault(server: u8, fault: VaultFault) -> NoReport
    ensures { result ≡ of_vault_said server fault }
{
    match fault {
        VaultFault::Failed => NoReport::Disk { server },
        VaultFault::Stopped => NoReport::Disk { server },
        VaultFault::OutOfMemory => NoReport::OutOfMemory,
        VaultFault::NotAVolume { found } => NoReport::NotAVolume { server, found },
        VaultFault::Damaged { place } => NoReport::Damaged { server, place },
    }
}

/// That of this server, which did not start.
pub fn of_start(server: u8, fault: StartFault) -> NoReport
    ensures { result ≡ of_start_said server fault }
{
    match fault {
        StartFault::Vault(fault) => of_vault(server, fault),
        StartFault::BadNote => NoReport::Damaged { server, place: 0 },
        StartFault::EpochEnd => NoReport::EpochEnd { server },
    }
}
