//! Frames of requests and replies.
use alp_files::{Call, Reply};

/// The first byte of a request.
pub const REQUEST_MARK: u8 = 0x51;

/// The first byte of a reply.
pub const REPLY_MARK: u8 = 0x50;

/// A call, with what the server needs to tell it from others.
#[derive(Drop, PartialEq, Eq)]
pub struct Request {
    /// From 1 to 16.
    pub client: u8,
    /// That of the session.
    pub epoch: u32,
    /// From 1 on, one more for each call of the client.
    pub number: u32,
    /// What is asked.
    pub call: Call,
}

/// The reply to the request of that client and number.
#[derive(Drop, PartialEq, Eq)]
pub struct ReplyFrame {
    /// From 1 to 16.
    pub client: u8,
    /// That of the server.
    pub epoch: u32,
    /// That of the request.
    pub number: u32,
    /// What the server answers.
    pub reply: Reply,
}
