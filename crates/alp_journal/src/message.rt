//! What servers say to each other about a transaction that runs on several of them.
use alp_base::{JoinNo, Stamp, TransId};
use alp_files::{Cause, Why};

/// A message of two-phase commit with presumed abort (Mohan, Lindsay and Obermarck 1986).
#[derive(Clone, Copy, PartialEq, Eq)]
pub enum Message {
    /// A worker asks to take part, for this client.
    Register {
        trans: TransId,
        join: JoinNo,
        client: u8,
    },
    Joined {
        trans: TransId,
        join: JoinNo,
    },
    JoinRefused {
        trans: TransId,
        join: JoinNo,
    },
    /// The coordinator asks for the vote.
    Ask {
        trans: TransId,
        join: JoinNo,
    },
    /// The vote for the commit, with the least time that it may get.
    Ready {
        trans: TransId,
        join: JoinNo,
        ts: u64,
    },
    /// The vote against it.
    No {
        trans: TransId,
        join: JoinNo,
        why: Why,
    },
    Commit {
        trans: TransId,
        join: JoinNo,
        stamp: Stamp,
    },
    Abort {
        trans: TransId,
        join: JoinNo,
        cause: Cause,
    },
    /// The worker has applied the commit and forgets the join.
    Done {
        trans: TransId,
        join: JoinNo,
    },
    /// A worker that voted asks how it ended.
    Inquire {
        trans: TransId,
        join: JoinNo,
    },
}

/// A message on its way.
#[derive(Clone, Copy, PartialEq, Eq)]
pub struct Envelope {
    pub to: u8,
    pub message: Message,
}
