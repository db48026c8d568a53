//! What is left of a server of a run.
use alp_node::{Down, Node};
use alp_vault::Vault;

/// A server of a run: it is up, or its device stopped it; or it did not start again.
#[derive(Drop)]
pub enum Server<V: Vault> {
    Up(Node<V>),
    Fallen(Down<V>),
}
