//! Calls that wait, and what a client does next for a line.
use alp_base::{FileId, Name};

/// What the answer to a call that waits is good for: a word that it binds, a file that it opens, a part of the transaction that it
/// makes, or nothing more.
#[derive(Clone, Copy)]
pub enum Purpose {
    Word(Name),
    Open(FileId),
    Part,
    Nothing,
}

/// A call that was answered that it waits: where, and its number there.
#[derive(Clone, Copy)]
pub struct Waiting {
    pub server: u8,
    pub number: u32,
    pub purpose: Purpose,
    /// How many collects of it were answered so too.
    pub asked: u32,
}

/// What a client does next for its line.
#[derive(Clone, Copy, PartialEq, Eq)]
pub enum Next {
    /// It sends the frame of the line.
    Call,
    /// It collects the call that came to wait last, once messages were carried.
    Collect,
    /// Its patience is at an end, and its transaction times out.
    TimeOut,
    /// Nothing: the line is over.
    Over,
}

/// What lines set for all clients.
#[derive(Clone, Copy)]
pub struct Settings {
    /// A call that is to wait is collected once in its line.
    pub collects: bool,
    /// After so many collects of one call that were answered that it waits, its transaction times out.
    pub patience: u32,
}
