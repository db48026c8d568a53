//! Decisions that were found.
use alp_base::{JoinNo, Stamp};

/// A transaction that is committed, with its parts on other servers.
#[derive(Drop)]
pub struct Decision {
    pub stamp: Stamp,
    pub joins: Vec<JoinNo>,
}
