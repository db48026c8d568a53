//! Requests for locks, and their answers.
use alp_base::{Choice, TransId};
use alp_queue::Needs;

/// What a transaction asks for, all or nothing, and what is to be done where another stands in its
/// way.
#[derive(Drop)]
pub struct Request {
    /// Who asks. It has no request that waits.
    pub trans: TransId,
    /// The resources, each with the mode that is to be held besides what is held already.
    pub needs: Needs,
    /// Whether to wait or to fail where another transaction stands in the way.
    pub choice: Choice,
}

/// The answer to a request.
#[derive(Clone, Copy, PartialEq, Eq)]
pub enum Grant {
    /// All modes are held now.
    Granted,
    /// The least transaction that stands in the way on the first resource where one does: files
    /// before leaves, in the order of keys.
    Conflict { holder: TransId },
    /// The request waits. `LockTable::take_woken` says when it was granted.
    Queued,
}
