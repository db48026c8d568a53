//! What stands in a depot.
use alp_journal::{Envelope, Message};

/// Something that was sent, or a message that came.
#[derive(Clone, Copy, Drop)]
pub enum Deed {
    Sent { envelope: Envelope },
    Came { from: u8, message: Message },
}

#[derive(Clone, Copy, Drop)]
pub struct Record {
    pub rank: u64,
    pub deed: Deed,
}

/// An envelope, and the rank of its record.
#[derive(Clone, Copy, Drop)]
pub struct Outgoing {
    pub rank: u64,
    pub envelope: Envelope,
}
