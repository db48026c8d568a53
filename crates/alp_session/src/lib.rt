//! The clients of a script: the frames that each sends for a line, and what it makes of those that it is handed.
#![tactic(auto)]

mod asking;
mod calls;
mod client;
mod clients;
mod frames;
mod greeted;
mod meaning;
mod memory;
mod sessions;
mod waiting;
mod waits;

pub use asking::{Asking, Sending};
pub use client::Client;
pub use clients::{Clients, lending_loses_nothing};
pub use frames::{Addressed, Frames};
pub use greeted::Greeted;
pub use meaning::Meaning;
pub use memory::{Opens, Words};
pub use sessions::Sessions;
pub use waiting::{Next, Purpose, Settings, Waiting};
pub use waits::Waits;
