//! Scripts that are rolled from a seed. That of a drill: three servers, eight owners and two hundred files, and rounds with stops and
//! restarts. And those of a storm: its setup, and the jobs of its clients.
#![tactic(auto)]

mod adding;
mod dice;
mod files;
mod rounds;
mod script;
mod setup;
mod shape;
mod start;
mod storms;
mod transactions;
mod words;

pub use script::drill;
pub use storms::{Storm, storm_job, storm_script, storm_setup};
