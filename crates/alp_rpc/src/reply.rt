//! Replies as bytes, and bytes as replies.
ghost use Rattle.std.specs.Prelude.{◌≡◌, IfOk, IfSome, OnOk, Some};
ghost use Rattle.alp_fields.specs.Forms.{IsRead, IsWritten, whole};
ghost use Rattle.alp_rpc.specs.declared.frame.ReplyFrame.{ReplyFrame as Answer};
ghost use Rattle.alp_rpc.specs.Frames.{reply_frame, IsSendableReply};

use crate::head::{put_head, read_head};
use crate::read_reply::read_reply;
use crate::write_reply::put_reply;
use crate::{REPLY_MARK, ReplyFrame};
use alp_base::{Bytes, OutOfMemory};
use alp_fields::{FieldReader, put_u8};
use std::alloc::Global;

#[tactic(auto, unfolding(crate::specs::Frames::reply_frame, alp_fields::specs::Forms::u8))]
fn put_frame(out: &mut Vec<u8>, frame: &ReplyFrame) -> Result<(), OutOfMemory>
    requires { IsSendableReply frame.now }
    ensures { OnOk result (IsWritten reply_frame frame.now out.old.items out.new.items) }
{
    put_u8(out, REPLY_MARK)?;
    put_head(out, frame.client, frame.epoch, frame.number)?;
    put_reply(out, &frame.reply)
}

/// The one spelling of a reply.
///
/// The client is from 1 to 16, the number from 1 on, the time of a stamp one that clocks may show, and there are from
/// 1 to 255 pages.
pub fn encode_reply(alloc: Global, reply: &ReplyFrame) -> Result<Bytes, OutOfMemory>
    requires { IsSendableReply reply.now }
    ensures spelled { IfOk result (λ bytes. bytes ≡ reply_frame.spell reply.now) }
    ensures fits { OnOk result (reply_frame.Fits reply.now) }
{
    let mut out = Vec::new(alloc);
    put_frame(&mut out, reply)?;
    Ok(Bytes::new(out))
}

#[tactic(auto, unfolding(crate::specs::Frames::reply_frame))]
fn read_frame(alloc: Global, reader: &mut FieldReader) -> Result<Option<ReplyFrame>, OutOfMemory>
    ensures { IfOk result (IsRead reply_frame reader.old reader.new) }
{
    let Some(mark) = reader.u8() else {
        return Ok(None);
    };
    if mark != REPLY_MARK {
        return Ok(None);
    }
    let Some((client, epoch, number)) = read_head(reader) else {
        return Ok(None);
    };
    let Some(reply) = read_reply(alloc, reader)? else {
        return Ok(None);
    };
    Ok(Some(ReplyFrame {
        client,
        epoch,
        number,
        reply,
    }))
}

fn exact(alloc: Global, bytes: &[u8]) -> Result<Option<ReplyFrame>, OutOfMemory>
    ensures { IfOk result (λ found. found ≡ whole reply_frame bytes.now) }
{
    let mut reader = FieldReader::new(bytes);
    let Some(found) = read_frame(alloc, &mut reader)? else {
        return Ok(None);
    };
    if !reader.is_empty() {
        return Ok(None);
    }
    Ok(Some(found))
}

/// The reply that the bytes spell, if they spell one.
pub fn decode_reply(alloc: Global, bytes: &[u8]) -> Result<Option<ReplyFrame>, OutOfMemory>
    ensures exact { IfOk result (λ found. found ≡ whole reply_frame bytes.now) }
    // What is read is spelled so, and may be sent.
    ensures found { IfOk result (λ found. IfSome found (λ r. (bytes.now ≡ reply_frame.spell r) × reply_frame.Fits r)) }
    ensures sendable { IfOk result (λ found. IfSome found IsSendableReply) }
    // What is spelled so is read.
    ensures only { (r : Answer) → reply_frame.Fits r → bytes.now ≡ reply_frame.spell r → IfOk result (λ found. found ≡ Some r) }
{
    exact(alloc, bytes)
}
