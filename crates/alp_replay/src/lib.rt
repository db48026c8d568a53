//! Scripts made from a number, with waits, timeouts, stops and restarts, and what one thread makes of what they commit. A test
//! plays such a script by the program and hands its report to `Replay::takes`.
#![tactic(auto)]

mod deeds;
mod makes;
mod replay;
mod unlike;

pub use deeds::{Deed, Line};
pub use makes::Maker;
pub use replay::{Counts, Replay};
pub use unlike::Unlike;
