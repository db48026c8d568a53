//! The store: a vault on a disk.
//!
//! It stands between a server, which sees cells and notes, and a disk: volumes are planned by alp_volume, pages come
//! through the buffers of alp_pool, and what changes together goes to the log of alp_wal as one batch.
#![tactic(auto)]

mod batch;
mod commit;
mod fetch;
mod home_pages;
mod new_volume;
mod notes;
mod of_server;
mod open;
mod recover;
mod shelf;
mod stage;
mod start;
mod store;

pub use store::Store;
