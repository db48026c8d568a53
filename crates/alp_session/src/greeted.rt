//! One session.
use alp_base::TransId;

/// A session as its client knows it: the server's epoch, the number of the last call, and the transaction of which it knows a part
/// there, if any.
#[derive(Clone, Copy)]
pub struct Greeted {
    pub epoch: u32,
    pub last: u32,
    pub joined: Option<TransId>,
}
