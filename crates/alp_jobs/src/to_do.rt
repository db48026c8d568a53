//! What a job does next.
use alp_base::TransId;
use alp_session::Addressed;

/// What a job does next.
#[derive(Drop)]
pub enum ToDo {
    /// It sends the frame.
    Frame(Addressed),
    /// It gives a Tick at the server.
    Tick { server: u8 },
    /// It gives a Timeout of the transaction at the server.
    Timeout { server: u8, trans: TransId },
    /// It does nothing outside, and goes on to what comes next in it.
    Onward,
    /// All is done.
    Done,
}
