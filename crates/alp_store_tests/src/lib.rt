//! Tests of a store as a whole: failing reads, stopped commits, changes with restarts, a volume that is full, and disks with
//! notes that a run before left there. They take disks in memory of which nothing is told, so that a commit asks nothing of the
//! cells that a store holds. What it asks of cells that are told is shown for the vault in memory that makes the same changes.
#![tactic(auto)]

#[cfg(test)]
mod tests;
