//! Tests of what a server stands on: modes, fields, notes, records of owners, frames, the lock table, a vault in memory, and parts that
//! an earlier run left ready.
#![tactic(auto)]

#[cfg(test)]
mod tests;
