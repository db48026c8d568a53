//! A disk in memory of which nothing is told, for tests of what stands on disks.
#![tactic(auto)]

mod silent;

pub use silent::Silent;
