//! The server's side of an exchange: from the bytes of a frame to the bytes of its reply.
ghost use Rattle.std.specs.Prelude.{◌≡◌, ◌≤◌, ◌<◌, ◌^◌, false, IfOk, IfSome};
ghost use Rattle.alp_fields.specs.Forms.{whole};
ghost use Rattle.alp_rpc.specs.Frames.{request as request_form, IsHead, IsSendable as IsSendableRequest};
ghost use Rattle.alp_rpc.specs.Replies.{IsSendable};
ghost use Rattle.alp_session.specs.Frames.{told_by};
ghost use Rattle.alp_cluster.specs.Exchanges.{IsAsked, IsTurnedAway, IsHanded, EndsHanding, event_of, place_for};
ghost use Rattle.alp_course.specs.Happens.{handed_for};
ghost use Rattle.alp_cluster.specs.Fills.{OnEnd};
ghost use Rattle.alp_cluster.specs.Servers.{IsOn, HasGone, EndsStep};

use crate::fault::RunFault;
use crate::fits::reply_fits;
use crate::step::step;
use alp_base::{Bytes, OutOfMemory};
use alp_files::{Call, Refusal, Reply};
use alp_journal::{Event, Item, Mark, Sent};
use alp_node::Node;
use alp_rpc::{ReplyFrame, Request, decode_request, encode_reply};
use alp_vault::Vault;
use std::alloc::Global;

/// What a frame said to the server, and what the server answered, as a value and as bytes: nothing is silence. The value takes no memory
/// after the step. Where there was none for the bytes, that is told.
#[derive(Drop)]
pub(crate) struct Handed {
    sent: Sent,
    reply: Option<Reply>,
    bytes: Result<Option<Bytes>, OutOfMemory>,
    /// Where the entry of it stands in the journal, if there is one.
    place: Option<u32>,
}

impl Handed {
    /// The item of the line that sent the frame, and the bytes.
    pub(crate) fn into_item(
        self,
        line: u32,
        server: u8,
        mark: Mark,
    ) -> (Item, Result<Option<Bytes>, OutOfMemory>)
        ensures item { result.0 ≡ record { line = line; server = server; mark = mark; sent = self.sent; reply = self.reply; place = self.place } }
        ensures bytes { result.1 ≡ self.bytes }
    {
        let Handed {
            sent,
            reply,
            bytes,
            place,
        } = self;
        let item = Item {
            line,
            server,
            mark,
            sent,
            reply,
            place,
        };
        (item, bytes)
    }
}

// A call that shares the pages of the other.
fn copied(call: &Call) -> Result<Call, OutOfMemory>
    ensures { IfOk result (λ copy. copy ≡ call.now) }
{
    let copy = call.clone()?;
    Ok(copy)
}

// The frame of the reply, where there is memory for it, and the reply. Such a frame tells just that.
fn spell(
    alloc: Global,
    epoch: u32,
    client: u8,
    number: u32,
    reply: Option<Reply>,
) -> (Result<Option<Bytes>, OutOfMemory>, Option<Reply>)
    requires head { IsHead client number }
    requires sendable { IfSome reply IsSendable }
    ensures reply { result.1 ≡ reply }
    ensures bytes { IfOk result.0 (λ b. b ≡ handed_for epoch client number reply) }
    ensures told { told_by (handed_for epoch client number reply) ≡ reply }
{
    let Some(reply) = reply else {
        return (Ok(None), None);
    };
    let frame = ReplyFrame {
        client,
        epoch,
        number,
        reply,
    };
    reply_fits(&frame);
    match encode_reply(alloc, &frame) {
        Ok(bytes) => (Ok(Some(bytes)), Some(frame.reply)),
        Err(OutOfMemory) => (Err(OutOfMemory), Some(frame.reply)),
    }
}

// Where the next entry stands, which a server that is down does not make.
fn place_of(is_down: bool, at: usize) -> Option<u32>
    requires { is_down ≡ false → at < 2 ^ 32 }
    ensures { result ≡ place_for is_down at }
{
    if is_down {
        return None;
    }
    Some(at as u32)
}

// The server is asked what the request says.
fn ask<V: Vault>(alloc: Global, node: &mut Node<V>, request: Request) -> Result<Handed, RunFault>
    requires request { IsSendableRequest request }
    requires fits { request_form.Fits request }
    requires on { IsOn V.Vault node.old }
    ensures gone { HasGone V.Vault (Unit {0}) node.old.kept.vault node.new.kept.vault result }
    ensures ended { OnEnd result (λ f. EndsStep V.Vault f node.old node.new (event_of request)) }
    ensures asked { IfOk result (IsAsked V.Vault node.old node.new request) }
{
    let Request {
        client,
        epoch,
        number,
        call,
    } = request;
    let is_down = node.is_down();
    let at = node.journal().entries().len();
    let sent = Sent::Call {
        client,
        epoch,
        number,
        call: copied(&call)?,
    };
    let asked = Event::Call {
        client,
        epoch,
        number,
        call,
    };
    let reply = step(node, asked)?;
    let (bytes, reply) = spell(alloc, node.epoch(), client, number, reply);
    Ok(Handed {
        sent,
        reply,
        bytes,
        place: place_of(is_down, at),
    })
}

// The bytes are outside the grammar of requests: the server takes no step. The refusal names no call, so its number is the
// first.
fn refuse<V: Vault>(
    alloc: Global,
    node: &Node<V>,
    client: u8,
    frame: &[u8],
) -> Result<Handed, OutOfMemory>
    requires client { (1 ≤ client) × (client ≤ 16) }
    ensures refused { IfOk result (IsTurnedAway node.now node.now client frame.now) }
{
    let sent = Sent::Bytes(Bytes::new(Vec::from_slice(alloc, frame)?));
    let refused = Some(Reply::Refused(Refusal::BadFrame));
    let (bytes, reply) = spell(alloc, node.epoch(), client, 1, refused);
    Ok(Handed {
        sent,
        reply,
        bytes,
        place: None,
    })
}

/// A server is handed the frame of a client and hands back its reply: the bytes are read, the server takes its step, or says that
/// it is down, and the reply is spelled. What is handed back takes no memory after the step but for the bytes of the reply.
pub(crate) fn hand<V: Vault>(
    alloc: Global,
    node: &mut Node<V>,
    client: u8,
    frame: &[u8],
) -> Result<Handed, RunFault>
    requires client { (1 ≤ client) × (client ≤ 16) }
    requires on { IsOn V.Vault node.old }
    ensures gone { HasGone V.Vault (Unit {0}) node.old.kept.vault node.new.kept.vault result }
    ensures ended { OnEnd result (λ f. EndsHanding V.Vault f node.old node.new (whole request_form frame.now)) }
    ensures handed { IfOk result (IsHanded V.Vault node.old node.new client frame.now (whole request_form frame.now)) }
{
    match decode_request(alloc, frame)? {
        Some(request) => ask(alloc, node, request),
        None => Ok(refuse(alloc, node, client, frame)?),
    }
}
