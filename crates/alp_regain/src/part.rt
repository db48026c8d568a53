//! A part that an earlier run left ready.
use alp_base::{JoinNo, TransId};
use alp_trans::Part;

/// A part that an earlier run left ready.
#[derive(Drop)]
pub struct RegainedPart {
    pub join: JoinNo,
    pub trans: TransId,
    /// The time of its vote.
    pub ts: u64,
    pub client: u8,
    /// What it intends, counted. Nothing is open in it.
    pub part: Part,
    /// How many resources it has locked.
    pub locks: u32,
}
