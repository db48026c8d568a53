//! Plays the lines of a script on its servers: the clients' calls, the exchange of frames, messages, timeouts, stops and restarts.
#![tactic(auto)]

mod carrying;
mod cluster;
mod exchange;
mod fault;
mod fits;
mod parties;
mod restarts;
mod server;
mod settling;
mod station;
mod stations;
mod step;

pub use cluster::Cluster;
pub use fault::RunFault;
pub use server::Server;
pub use station::Station;
pub use step::JOURNAL_ENTRIES_MOST;
