//! Carriers: threads that bring the messages of one server to another, by a plan that loses some,
//! repeats some and delays some.
#![tactic(auto)]

mod carrying;
mod deliver;
mod laws;
mod plan;
mod route;
mod station;
mod steps;
mod taken;

pub use carrying::{Carried, carry};
pub use laws::{brought_messages_were_sent, messages_come_twice_at_most};
pub use plan::{Fate, Plan};
pub use route::{Pair, Route};
pub use station::Station;
pub use taken::Taken;
