//! A bay whose devices are believed: each stands beside a model in memory, and what the model holds is told of it.
//!
//! With it what is proved of disks in memory is said of a folder. A read in which the two differ is a fault, so what is left to
//! believe is that a file keeps what was not read again.
#![tactic(auto)]

mod believed;
mod believed_bay;
mod faults;

pub use believed::Believed;
pub use believed_bay::BelievedBay;
