//! Frames: every request and every reply as bytes.
//!
//! Each has one spelling, and a decoder answers a value exactly where its input is the spelling of
//! that value. The forms stand in `specs/`, a line for each tag.
#![tactic(auto)]

mod frame;
mod head;
mod laws;
mod read_call;
mod read_change;
mod read_reply;
mod reply;
mod request;
mod write_call;
mod write_change;
mod write_reply;

pub use frame::{REPLY_MARK, REQUEST_MARK, ReplyFrame, Request};
pub use laws::frames_are_forms;
pub use reply::{decode_reply, encode_reply};
pub use request::{decode_request, encode_request};
