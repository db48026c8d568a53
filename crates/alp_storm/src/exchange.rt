//! The frames of a worker's calls.
ghost use Rattle.std.specs.Prelude.{◌≡◌, IfOk, IfSome, OnOk};
ghost use Rattle.alp_rpc.specs.Frames.{IsHead};
ghost use Rattle.alp_rpc.specs.Replies.{IsSendable};
ghost use Rattle.alp_session.specs.Frames.{told_by, mark_of as mark_said};
ghost use Rattle.alp_storm.specs.Works.{handed_by};

use alp_base::{Bytes, OutOfMemory};
use alp_files::Reply;
use alp_journal::Mark;
use alp_lines::Line;
use alp_rpc::{ReplyFrame, encode_reply};
use std::alloc::Global;

/// Whether a line sends a frame of its own, one again, or bytes as they are.
pub(crate) fn mark_of(line: &Line) -> Mark
    ensures { result ≡ mark_said line.now }
{
    match line {
        Line::Repeat { .. } | Line::Old { .. } => Mark::Repeated,
        Line::Raw { .. } => Mark::Raw,
        _ => Mark::Own,
    }
}

/// The frame of the reply, which tells just that, and the reply.
pub(crate) fn spell(
    alloc: Global,
    epoch: u32,
    client: u8,
    number: u32,
    reply: Option<Reply>,
) -> (Result<Option<Bytes>, OutOfMemory>, Option<Reply>)
    requires head { IsHead client number }
    requires sendable { IfSome reply IsSendable }
    ensures reply { result.1 ≡ reply }
    ensures bytes { IfOk result.0 (λ b. b ≡ handed_by epoch client number reply) }
    ensures told { OnOk result.0 (told_by (handed_by epoch client number reply) ≡ reply) }
{
    let Some(reply) = reply else {
        return (Ok(None), None);
    };
    let frame = ReplyFrame {
        client,
        epoch,
        number,
        reply,
    };
    match encode_reply(alloc, &frame) {
        Ok(bytes) => (Ok(Some(bytes)), Some(frame.reply)),
        Err(OutOfMemory) => (Err(OutOfMemory), Some(frame.reply)),
    }
}
