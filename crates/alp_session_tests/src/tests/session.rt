//! Tests of alp_session.
ghost use Rattle.std.specs.Prelude.{IfOk, IsTrue};
ghost use Rattle.alp_rpc.specs.Replies.{IsSendable};
ghost use Rattle.alp_session.specs.Calls.{IsAskable};
ghost use Rattle.alp_session.specs.Frames.{IsReady};

use alp_base::{Bytes, Choice, Name, OutOfMemory, TransId};
use alp_files::{Call, Refusal, Reply};
use alp_lines::Line;
use alp_rpc::{ReplyFrame, decode_request, encode_reply};
use alp_session::{Addressed, Client, Next, Settings, Words};
use std::alloc::Global;
use std::test::Fail;

const TRANS: TransId = TransId {
    server: 1,
    epoch: 2,
    counter: 3,
};

fn name(text: &[u8]) -> Result<Name, Fail> {
    Ok(Name::parse(text).ok_or("a name")?)
}

// Whether the stamp that the client was told is one of a clock.
fn is_ready(client: &Client) -> bool
    ensures { IsTrue result → IsReady 2 client.now }
{
    client.told.ts <= 1 << 62
}

const BEGIN: Line = Line::Begin {
    client: 2,
    server: 1,
};

const REPEAT: Line = Line::Repeat { client: 2 };

const OLD: Line = Line::Old { client: 2 };

const COLLECT: Line = Line::Collect { client: 2 };

const COMMIT: Line = Line::Commit { client: 2 };

// The frame of a greeting of client 2 as ann.
const HELLO: &[u8] = b"\x51\x02\x00\x00\x00\x00\x00\x00\x00\x01\x01\x03ann";

// And that of its answer in epoch 1.
const WELCOME: &[u8] = b"\x50\x02\x00\x00\x00\x01\x00\x00\x00\x01\x01\x00\x00\x00\x01";

// The frame by which it begins a transaction, having been told of no stamp.
const BEGINNING: &[u8] =
    b"\x51\x02\x00\x00\x00\x01\x00\x00\x00\x02\x02\x00\x00\x00\x00\x00\x00\x00\x00\x00\x00\x00\x00\x00\x00\x00\x00\x00";

// A call that is to wait is collected in its line, and the second collect is one too many.
const SETTINGS: Settings = Settings {
    collects: true,
    patience: 2,
};

// What a frame asks for.
#[derive(Clone, Copy, PartialEq, Eq)]
enum Asked {
    Hello,
    Begin,
    Join(TransId),
    ReadOwner,
    Collect(u32),
    Commit,
    Other,
}

fn asked_by(call: &Call) -> Asked {
    match call {
        Call::Hello { .. } => Asked::Hello,
        Call::Begin { .. } => Asked::Begin,
        Call::Join { trans } => Asked::Join(*trans),
        Call::ReadOwner { .. } => Asked::ReadOwner,
        Call::Collect { number } => Asked::Collect(*number),
        Call::Finish { commit: true, .. } => Asked::Commit,
        _ => Asked::Other,
    }
}

// Of a frame of client 2: the server that it goes to, the epoch and the number that it names, and what it asks for.
#[derive(Clone, Copy, PartialEq, Eq)]
struct Sent {
    to: u8,
    epoch: u32,
    number: u32,
    asked: Asked,
}

const fn describe(to: u8, epoch: u32, number: u32, asked: Asked) -> Sent {
    Sent {
        to,
        epoch,
        number,
        asked,
    }
}

fn read_frame(alloc: Global, frame: &Addressed) -> Result<Sent, Fail> {
    let request = decode_request(alloc, frame.bytes.as_slice())?.ok_or("a request")?;
    Ok(describe(
        frame.server,
        request.epoch,
        request.number,
        asked_by(&request.call),
    ))
}

// The frame of a reply to client 2.
fn reply(alloc: Global, reply: Reply) -> Result<Option<Bytes>, OutOfMemory>
    requires { IsSendable reply }
{
    let frame = ReplyFrame {
        client: 2,
        epoch: 1,
        number: 2,
        reply,
    };
    Ok(Some(encode_reply(alloc, &frame)?))
}

// What threads may share and hand over.
fn crosses<T: Send + Sync>(_value: &T) {}

// Client 2, and what the words of the script stand for. A client crosses threads.
#[derive(Drop)]
struct Desk {
    client: Client,
    words: Words,
}

impl Desk {
    // Nobody was greeted, and the client is ann.
    fn new(alloc: Global) -> Result<Desk, Fail> {
        let mut client = Client::new(alloc);
        crosses(&client);
        client.name = name(b"ann")?;
        Ok(Desk {
            client,
            words: Words::new(alloc),
        })
    }

    // What the client sends for the line, if anything.
    fn asks(&self, alloc: Global, line: &Line) -> Result<Option<Addressed>, Fail>
        requires { IsAskable line.now }
    {
        if !is_ready(&self.client) {
            return Err("a stamp of a clock".into());
        }
        Ok(self.client.asks(alloc, 2, &self.words, line)?)
    }

    // Whether it sends nothing.
    fn is_silent(&self, alloc: Global, line: &Line) -> Result<bool, Fail>
        requires { IsAskable line.now }
    {
        Ok(self.asks(alloc, line)?.is_none())
    }

    // Whether it sends a frame of these bytes.
    fn sends_bytes(&self, alloc: Global, line: &Line, bytes: &[u8]) -> Result<bool, Fail>
        requires { IsAskable line.now }
    {
        let frame = self.asks(alloc, line)?.ok_or("a frame")?;
        Ok(frame.bytes.as_slice() == bytes)
    }

    // Whether it sends that.
    fn sends(&self, alloc: Global, line: &Line, wanted: Sent) -> Result<bool, Fail>
        requires { IsAskable line.now }
    {
        let frame = self.asks(alloc, line)?.ok_or("a frame")?;
        let sent = read_frame(alloc, &frame)?;
        Ok(sent == wanted)
    }

    // What it does next for its line when it is handed the bytes for a frame, which is that of a collect or that of the line.
    fn hears(
        &mut self,
        alloc: Global,
        line: &Line,
        next: Next,
        handed: Option<Bytes>,
    ) -> Result<Next, Fail>
        requires { IsAskable line.now }
    {
        let asked = if next == Next::Collect {
            self.asks(alloc, &COLLECT)?
        } else {
            self.asks(alloc, line)?
        };
        let frame = asked.ok_or("a frame")?;
        Ok(self.client.hears(alloc, &mut self.words, SETTINGS, line, next, frame, &handed)?)
    }

    // Whether it does that next when it is told the reply.
    fn goes(
        &mut self,
        alloc: Global,
        line: &Line,
        next: Next,
        told: Reply,
        after: Next,
    ) -> Result<bool, Fail>
        requires line { IsAskable line.now }
        requires told { IsSendable told }
    {
        let handed = reply(alloc, told)?;
        Ok(self.hears(alloc, line, next, handed)? == after)
    }

    // It is greeted by server 1, and begins a transaction there.
    fn begins(&mut self, alloc: Global) -> Result<bool, Fail> {
        let welcome = Bytes::new(Vec::from_slice(alloc, WELCOME)?);
        self.hears(alloc, &BEGIN, Next::Call, Some(welcome))?;
        let begun = Reply::Begun { trans: TRANS };
        self.goes(alloc, &BEGIN, Next::Call, begun, Next::Over)
    }
}

// The client with a transaction: its last two frames are those of a greeting and of a begin.
fn begun(alloc: Global) -> Result<Desk, Fail> {
    let mut desk = Desk::new(alloc)?;
    if !desk.begins(alloc)? {
        return Err("a transaction".into());
    }
    Ok(desk)
}

fn sends_nothing_again(alloc: Global) -> Result<bool, Fail> {
    let desk = Desk::new(alloc)?;
    Ok(desk.is_silent(alloc, &REPEAT)? && desk.is_silent(alloc, &OLD)?)
}

fn sends_the_last_two(alloc: Global, desk: &Desk) -> Result<bool, Fail> {
    Ok(
        desk.sends(alloc, &REPEAT, describe(1, 1, 2, Asked::Begin))?
            && desk.sends_bytes(alloc, &REPEAT, BEGINNING)?
            && desk.sends_bytes(alloc, &OLD, HELLO)?,
    )
}

// What is sent again is not the last frame of the client.
fn hears_of_both(alloc: Global, desk: &mut Desk) -> Result<bool, Fail> {
    let begun = Reply::Begun { trans: TRANS };
    Ok(
        desk.hears(alloc, &OLD, Next::Call, None)? == Next::Over
            && desk.goes(alloc, &REPEAT, Next::Call, begun, Next::Over)?,
    )
}

fn sends_again(alloc: Global) -> Result<bool, Fail> {
    let mut desk = begun(alloc)?;
    Ok(
        sends_the_last_two(alloc, &desk)?
            && hears_of_both(alloc, &mut desk)?
            && sends_the_last_two(alloc, &desk)?,
    )
}

#[test]
fn sends_its_last_frames_again(rt: HostRuntime) -> Result<(), Fail> {
    assert!(rt; sends_nothing_again(rt.alloc())? && sends_again(rt.alloc())?);
    Ok(())
}

// The line by which client 2 asks for an owner of server 2.
fn owner_there() -> Result<Line, Fail>
    ensures { IfOk result IsAskable }
{
    Ok(Line::ReadOwner {
        client: 2,
        server: 2,
        owner: name(b"ann")?,
        choice: Choice::Wait,
    })
}

const NOT_YET: Reply = Reply::Refused(Refusal::NotYet);

const OTHER: TransId = TransId {
    server: 1,
    epoch: 2,
    counter: 4,
};

// It greets server 2, joins its transaction there, and asks for the owner.
fn greets_and_joins(alloc: Global, desk: &mut Desk, line: &Line) -> Result<bool, Fail>
    requires { IsAskable line.now }
{
    let (call, welcome) = (Next::Call, Reply::Welcome { epoch: 4 });
    Ok(
        desk.sends(alloc, line, describe(2, 0, 1, Asked::Hello))?
            && desk.goes(alloc, line, call, welcome, call)?
            && desk.sends(alloc, line, describe(2, 4, 2, Asked::Join(TRANS)))?
            && desk.goes(alloc, line, call, Reply::Joined, call)?
            && desk.sends(alloc, line, describe(2, 4, 3, Asked::ReadOwner))?
            && desk.goes(alloc, line, call, Reply::Plain, Next::Over)?,
    )
}

// Its next transaction has no part at the other server yet.
fn joins_the_next(alloc: Global, desk: &mut Desk, line: &Line) -> Result<bool, Fail>
    requires { IsAskable line.now }
{
    desk.client.begins(&BEGIN);
    let begun = Reply::Begun { trans: OTHER };
    desk.goes(alloc, &BEGIN, Next::Call, begun, Next::Over)?;
    desk.sends(alloc, line, describe(2, 4, 4, Asked::Join(OTHER)))
}

// It ends the transaction where that began.
fn joins_there(alloc: Global) -> Result<bool, Fail> {
    let (mut desk, line) = (begun(alloc)?, owner_there()?);
    Ok(
        greets_and_joins(alloc, &mut desk, &line)?
            && desk.sends(alloc, &COMMIT, describe(1, 1, 3, Asked::Commit))?
            && joins_the_next(alloc, &mut desk, &line)?,
    )
}

// At another server a client greets, and joins its transaction before its first call there.
#[test]
fn joins_at_another_server(rt: HostRuntime) -> Result<(), Fail> {
    assert!(rt; joins_there(rt.alloc())?);
    Ok(())
}

// Client 2 with a session at server 2, where its transaction has no part.
fn greeted_there(alloc: Global, line: &Line) -> Result<Desk, Fail>
    requires { IsAskable line.now }
{
    let mut desk = begun(alloc)?;
    let welcome = Reply::Welcome { epoch: 4 };
    desk.goes(alloc, line, Next::Call, welcome, Next::Call)?;
    Ok(desk)
}

// A join waits, is collected, and the line goes on.
fn waits_and_goes_on(alloc: Global, desk: &mut Desk, line: &Line) -> Result<bool, Fail>
    requires { IsAskable line.now }
{
    let (call, collect) = (Next::Call, Next::Collect);
    Ok(
        desk.goes(alloc, line, call, NOT_YET, collect)?
            && desk.sends(alloc, &COLLECT, describe(2, 4, 3, Asked::Collect(2)))?
            && desk.goes(alloc, line, collect, Reply::Joined, call)?
            && desk.client.waiting.first().is_none()
            && desk.sends(alloc, line, describe(2, 4, 4, Asked::ReadOwner))?,
    )
}

fn collects_there(alloc: Global) -> Result<bool, Fail> {
    let line = owner_there()?;
    let mut desk = greeted_there(alloc, &line)?;
    waits_and_goes_on(alloc, &mut desk, &line)
}

// A join that waits is collected as any call, and the line goes on behind that collect.
#[test]
fn collects_a_join(rt: HostRuntime) -> Result<(), Fail> {
    assert!(rt; collects_there(rt.alloc())?);
    Ok(())
}

// Its session at server 2 is stale: it greets that server again, and asks it to join.
fn greets_again(alloc: Global, desk: &mut Desk, line: &Line) -> Result<bool, Fail>
    requires { IsAskable line.now }
{
    let (call, welcome) = (Next::Call, Reply::Welcome { epoch: 5 });
    let stale = Reply::Refused(Refusal::StaleSession { epoch: 5 });
    desk.goes(alloc, line, call, Reply::Joined, call)?;
    desk.goes(alloc, line, call, stale, call)?;
    Ok(
        desk.sends(alloc, line, describe(2, 0, 1, Asked::Hello))?
            && desk.goes(alloc, line, call, welcome, call)?
            && desk.sends(alloc, line, describe(2, 5, 2, Asked::Join(TRANS)))?,
    )
}

// Whether this is the client's transaction.
fn is_in(client: &Client, wanted: TransId) -> bool {
    match client.trans {
        Some(trans) => trans == wanted,
        None => false,
    }
}

// The part is gone, and the transaction is still the client's.
fn keeps_its_transaction(alloc: Global, desk: &mut Desk, line: &Line) -> Result<bool, Fail>
    requires { IsAskable line.now }
{
    let gone = Reply::Refused(Refusal::UnknownTrans);
    Ok(
        desk.goes(alloc, line, Next::Call, gone, Next::Over)?
            && is_in(&desk.client, TRANS)
            && desk.sends(alloc, &COMMIT, describe(1, 1, 3, Asked::Commit))?,
    )
}

fn joins_again(alloc: Global) -> Result<bool, Fail> {
    let line = owner_there()?;
    let mut desk = greeted_there(alloc, &line)?;
    Ok(greets_again(alloc, &mut desk, &line)? && keeps_its_transaction(alloc, &mut desk, &line)?)
}

// A stale session takes with it what the client knew there, and nothing at other servers.
#[test]
fn joins_again_behind_a_restart(rt: HostRuntime) -> Result<(), Fail> {
    assert!(rt; joins_again(rt.alloc())?);
    Ok(())
}
