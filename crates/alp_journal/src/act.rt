//! What took effect in a step.
use crate::{Message, Parts, Stamps};
use alp_base::{JoinNo, Stamp, TransId};

/// One thing that took effect in a step.
#[derive(Drop)]
pub enum Act {
    Sent {
        to: u8,
        message: Message,
    },
    /// A lock request of the transaction was granted.
    Granted {
        trans: TransId,
    },
    /// The id was given to a new transaction.
    Drawn {
        trans: TransId,
    },
    Registered {
        trans: TransId,
        join: JoinNo,
    },
    Readied {
        trans: TransId,
        join: JoinNo,
        ts: u64,
    },
    /// The transaction is committed, with these parts on other servers.
    Decided {
        stamp: Stamp,
        parts: Parts,
    },
    Applied {
        join: JoinNo,
        stamp: Stamp,
    },
    /// The transaction's part here holds no lock and no intent any more.
    Released {
        trans: TransId,
    },
    Forgot {
        trans: TransId,
    },
    /// What a restart found: the parts that are ready, and the decisions that are not forgotten.
    Regained {
        epoch: u32,
        clock: u64,
        ready: Parts,
        decided: Stamps,
    },
    /// The device was stopped, and the server is down.
    Stopped,
    /// The device failed, and the server is down.
    Failed,
}
