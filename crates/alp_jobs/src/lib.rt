//! What a client thread of a storm does for its job: the frames that it sends, and the Ticks and Timeouts that it gives.
#![tactic(auto)]

mod gate;
mod items;
mod job;
mod laws;
mod queues;
mod stage;
mod to_do;

pub use gate::{Gate, OpenGate};
pub use job::Job;
pub use laws::{jobs_are_patient, ticks_follow_collects};
pub use stage::{Stage, Way};
pub use to_do::ToDo;
