//! What stood as a berth was made, and an entry with its rank.
use alp_journal::Entry;
use alp_node::Node;
use alp_vault::Vault;
use std::snapshot::Snapshot;

/// A server and the ranks of its entries, as they stood when its berth was made. It takes no bytes.
#[derive(Drop)]
pub struct Made<V: Vault> {
    pub node: Snapshot<Node<V>>,
    pub ranks: Snapshot<Vec<u64>>,
}

/// An entry with its rank. Proofs alone speak of it: none is ever built.
pub struct Ranked {
    pub entry: Entry,
    pub rank: u64,
}
