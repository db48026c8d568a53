//! Lists in acts and entries.
use crate::Act;
use alp_base::{JoinNo, Sequence, Stamp};

/// Parts of a transaction on other servers.
pub type Parts = Sequence<JoinNo>;

/// Stamps of transactions.
pub type Stamps = Sequence<Stamp>;

/// The acts of an entry.
pub type Acts = Sequence<Act>;
