//! Tests of the program's top call, on disks in memory and in a folder: whole scripts and what they print, calls of the disk, the
//! source and the sink that fail, and stops at each call of a commit. And the headline of a run in a folder that is believed.
#![tactic(auto)]

mod believed;
#[cfg(test)]
mod tests;

pub use believed::run_believed;
