//! Tests of the crates of the disk: disks and what a crash leaves of them, anchors, batches, records, notes, page buffers, new
//! volumes, and where disks stand.
#![tactic(auto)]

#[cfg(test)]
mod tests;
