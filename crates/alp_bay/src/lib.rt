//! Where the disks of the servers of a run come from, and where they go back to.
#![tactic(auto)]

mod bay;
mod fault_count;
mod folder;
mod held_file;
mod host_bay;
mod host_disk;
mod mem_bay;
mod open;
mod refusal;
mod volume_file;

pub use bay::{Bay, BayFault};
pub use host_bay::HostBay;
pub use host_disk::HostDisk;
pub use mem_bay::MemBay;
pub use refusal::Refusal;
pub use volume_file::VolumeFile;
