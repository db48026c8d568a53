//! A new volume is made of a disk: an anchor, an area of the log without records, home pages of zeros.
#![tactic(auto)]

mod formatting;

pub use formatting::format;
