//! Requests as bytes, and bytes as requests.
ghost use Rattle.std.specs.Prelude.{◌≡◌, IfOk, IfSome, OnOk, Some};
ghost use Rattle.alp_fields.specs.Forms.{IsRead, IsWritten, whole};
ghost use Rattle.alp_rpc.specs.declared.frame.Request.{Request as Asked};
ghost use Rattle.alp_rpc.specs.Frames.{request as request_form, IsSendable};

use crate::head::{put_head, read_head};
use crate::read_call::read_call;
use crate::write_call::put_call;
use crate::{REQUEST_MARK, Request};
use alp_base::{Bytes, OutOfMemory};
use alp_fields::{FieldReader, put_u8};
use std::alloc::Global;

#[tactic(auto, unfolding(crate::specs::Frames::request, alp_fields::specs::Forms::u8))]
fn put_request(out: &mut Vec<u8>, request: &Request) -> Result<(), OutOfMemory>
    requires { IsSendable request.now }
    ensures { OnOk result (IsWritten request_form request.now out.old.items out.new.items) }
{
    put_u8(out, REQUEST_MARK)?;
    put_head(out, request.client, request.epoch, request.number)?;
    put_call(out, &request.call)
}

/// The one spelling of a request.
///
/// The client is from 1 to 16, the number from 1 on, the time of a stamp one that clocks may show, a run not empty, a
/// mode of pages no intention, and written pages are as many as their run has.
pub fn encode_request(alloc: Global, request: &Request) -> Result<Bytes, OutOfMemory>
    requires { IsSendable request.now }
    ensures spelled { IfOk result (λ bytes. bytes ≡ request_form.spell request.now) }
    ensures fits { OnOk result (request_form.Fits request.now) }
{
    let mut out = Vec::new(alloc);
    put_request(&mut out, request)?;
    Ok(Bytes::new(out))
}

#[tactic(auto, unfolding(crate::specs::Frames::request))]
fn read_request(alloc: Global, reader: &mut FieldReader) -> Result<Option<Request>, OutOfMemory>
    ensures { IfOk result (IsRead request_form reader.old reader.new) }
{
    let Some(mark) = reader.u8() else {
        return Ok(None);
    };
    if mark != REQUEST_MARK {
        return Ok(None);
    }
    let Some((client, epoch, number)) = read_head(reader) else {
        return Ok(None);
    };
    let Some(call) = read_call(alloc, reader)? else {
        return Ok(None);
    };
    Ok(Some(Request {
        client,
        epoch,
        number,
        call,
    }))
}

fn exact(alloc: Global, bytes: &[u8]) -> Result<Option<Request>, OutOfMemory>
    ensures { IfOk result (λ found. found ≡ whole request_form bytes.now) }
{
    let mut reader = FieldReader::new(bytes);
    let Some(found) = read_request(alloc, &mut reader)? else {
        return Ok(None);
    };
    if !reader.is_empty() {
        return Ok(None);
    }
    Ok(Some(found))
}

/// The request that the bytes spell, if they spell one.
pub fn decode_request(alloc: Global, bytes: &[u8]) -> Result<Option<Request>, OutOfMemory>
    ensures exact { IfOk result (λ found. found ≡ whole request_form bytes.now) }
    // What is read is spelled so, and may be sent.
    ensures found { IfOk result (λ found. IfSome found (λ r. (bytes.now ≡ request_form.spell r) × request_form.Fits r)) }
    ensures sendable { IfOk result (λ found. IfSome found IsSendable) }
    // What is spelled so is read.
    ensures only { (r : Asked) → request_form.Fits r → bytes.now ≡ request_form.spell r → IfOk result (λ found. found ≡ Some r) }
{
    exact(alloc, bytes)
}
