//! The log of a disk: batches of home pages and notes, committed whole or not at all.
#![tactic(auto)]

mod append;
mod begin;
mod checkpoint;
mod commit;
mod fault;
mod found;
mod home;
mod index;
mod laws;
mod live;
mod mounting;
mod moving;
mod prepare;
mod read;
mod turning;
mod wal;

pub use begin::bare;
pub use fault::WalFault;
pub use found::{Found, all_below};
pub use laws::{a_disk_has_one_reading, refusals_are_exact};
pub use mounting::mount;
pub use wal::Wal;
