//! Refusals as bytes: of each its number, and behind it what it tells; and enums as bytes.
#![tactic(auto)]

mod laws;
mod read;
mod read_reason;
mod write;
mod write_reason;

pub use laws::refusals_are_a_form;
pub use read::read_refusal;
pub use write::put_refusal;
