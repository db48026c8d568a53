//! The log of a run: what each server did, and what each client sent and was handed.
use crate::{Journal, Opening};
use alp_base::Bytes;
use alp_files::{Call, Reply};

/// How a frame came to be sent: by the client's own line, by a line that sent it again, or as the bytes of a raw line.
#[derive(Clone, Copy, PartialEq, Eq)]
pub enum Mark {
    Own,
    Repeated,
    Raw,
}

/// What was sent: a call with the client, the epoch and the number that its frame named, or bytes that spell none.
#[derive(Drop)]
pub enum Sent {
    Call {
        client: u8,
        epoch: u32,
        number: u32,
        call: Call,
    },
    Bytes(Bytes),
}

/// One thing that a client sent to a server at a line of the script, what it was handed (nothing is silence), and where
/// the entry of it stands in that server's journal, if it made one.
#[derive(Drop)]
pub struct Item {
    pub line: u32,
    pub server: u8,
    pub mark: Mark,
    pub sent: Sent,
    pub reply: Option<Reply>,
    pub place: Option<u32>,
}

/// A server: what it was started on, what it did, and the rank of each entry.
#[derive(Drop)]
pub struct ServerLog<O: Opening> {
    pub server: u8,
    pub opening: O,
    pub journal: Journal,
    pub ranks: Vec<u64>,
}

/// All that a run did. A rank orders the entries of all servers: an entry that depends on another has the greater rank.
/// What a client sent and was handed stands at its number, in its order.
#[derive(Drop)]
pub struct RunLog<O: Opening> {
    pub servers: Vec<ServerLog<O>>,
    pub clients: Vec<Vec<Item>>,
}
