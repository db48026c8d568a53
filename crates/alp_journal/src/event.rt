//! What comes to a server.
use crate::Message;
use alp_base::TransId;
use alp_files::Call;

/// One thing that a server answers in one step.
#[derive(Drop)]
pub enum Event {
    /// A client's call, with the epoch and the number that it gave.
    Call {
        client: u8,
        epoch: u32,
        number: u32,
        call: Call,
    },
    Arrive {
        from: u8,
        message: Message,
    },
    /// The transaction timed out.
    Timeout {
        trans: TransId,
    },
    /// Time to say again what was not answered.
    Tick,
    Force,
    Restart,
}
