//! Disks of pages: what a read gives, and what a crash may leave.
//!
//! Between two syncs each range that was written may hold any bytes after a crash, and the bytes
//! outside it stay. After a sync a crash leaves what a read gives.
#![tactic(auto)]

mod disk;
mod file_disk;
mod fuse;
mod gate;
mod mem_disk;
mod outcomes;
mod pending_write;
mod runs;

pub use disk::Disk;
pub use file_disk::FileDisk;
pub use fuse::Fuse;
pub use gate::OPEN_GATE;
pub use mem_disk::MemDisk;
pub use runs::{write_span, write_synced};
