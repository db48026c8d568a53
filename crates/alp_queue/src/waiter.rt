//! A request that waits.
use crate::{Locks, Needs};
use alp_base::TransId;

/// A request that waits, with what it is tried by and all that a grant of it will need.
#[derive(Drop)]
pub struct Waiter {
    pub trans: TransId,
    /// What was asked.
    pub needs: Needs,
    /// The resources on which the transaction's mode would rise, in their order, each once, with the
    /// modes that a grant would leave.
    pub rises: Needs,
    /// All that the transaction will hold after a grant. It stands here so that a grant takes no memory.
    pub after: Locks,
    /// The transaction holds a lock on a resource that it asks for.
    pub converts: bool,
}
