//! Storms: the threads of clients and of carriers, over servers that take turns at monitors.
#![tactic(auto)]

mod errand;
mod exchange;
mod fault;
mod host;
mod laws;
mod opening;
mod ring;
mod storming;
mod threads;
mod turn;
mod worker;

pub use errand::{Errand, Task};
pub use fault::StormFault;
pub use host::{Answer, Host};
pub use laws::own_jobs_stop_for_servers_alone;
pub use storming::{Stormed, storm};
pub use worker::Worker;
