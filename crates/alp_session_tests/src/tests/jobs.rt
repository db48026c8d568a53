//! Tests of alp_jobs: two jobs of a storm, played against answers that are written down.
ghost use Rattle.std.specs.Prelude.{◌≡◌, ◌≤◌, Some, IfOk, IfSome, IsTrue};
ghost use Rattle.std.specs.List.{AllByRecursion};
ghost use Rattle.alp_rpc.specs.Calls.{is_run_mode as is_run_mode_said};
ghost use Rattle.alp_rpc.specs.Frames.{request};
ghost use Rattle.alp_rpc.specs.Replies.{IsSendable};
ghost use Rattle.alp_session.specs.Calls.{IsAskable};
ghost use Rattle.alp_session.specs.Crowds.{client_at, request_next};
ghost use Rattle.alp_session.specs.Frames.{IsReady, mark_of as mark_said, sent_by, told_by as told_said};
ghost use Rattle.alp_jobs.specs.Does.{asked_at};
ghost use Rattle.alp_jobs.specs.Jobs.{frame_due};

use alp_base::{Bytes, OutOfMemory, Stamp, TransId};
use alp_files::{Call, Cause, Refusal, Reply};
use alp_jobs::{Job, ToDo};
use alp_journal::{Item, Mark, Sent};
use alp_lines::{Line, text_in};
use alp_modes::Mode;
use alp_rpc::{ReplyFrame, decode_reply, decode_request, encode_reply};
use alp_session::{Addressed, Clients};
use std::alloc::Global;
use std::test::Fail;

const TRANS: TransId = TransId {
    server: 1,
    epoch: 1,
    counter: 1,
};

fn is_run_mode(mode: Mode) -> bool
    ensures { result ≡ is_run_mode_said mode }
{
    matches!(mode, Mode::Read | Mode::Update | Mode::Write)
}

// Of the lines of these jobs, those with a frame.
fn is_askable(line: &Line) -> bool
    ensures { IsTrue result → IsAskable line.now }
{
    match line {
        Line::ReadPages { run, mode, .. } => run.count >= 1 && is_run_mode(*mode),
        Line::WritePages { .. } | Line::LockPages { .. } => false,
        _ => true,
    }
}

fn read_line(alloc: Global, text: &[u8]) -> Result<Line, Fail>
    ensures { IfOk result IsAskable }
{
    let Ok(Some(line)) = text_in(alloc, text) else {
        return Err("a line".into());
    };
    if !is_askable(&line) {
        return Err("a line that is asked".into());
    }
    Ok(line)
}

// The job of a client, whose patience is so long, with one transaction.
fn job_of(alloc: Global, number: u8, patience: u32, lines: Vec<Line>) -> Result<Job, Fail>
    requires number { number ≤ 16 }
    requires lines { AllByRecursion IsAskable lines.items }
{
    let mut clients = Clients::new(alloc)?;
    clients.declares(&Line::Patience { count: patience });
    let lent = clients.lend(alloc, number)?;
    let transactions = Vec::from_array(alloc, [lines])?;
    Ok(Job::new(alloc, number, lent, transactions))
}

// Whether the stamp that the client was told is one of a clock.
fn is_ready(job: &Job) -> bool
    ensures { IsTrue result → IsReady job.now.number (client_at job.now.crowd job.now.number) }
{
    let number = job.number();
    number >= 1 && number <= 16 && job.told().ts <= 1 << 62
}

// What is answered, by a letter.
fn reply_by(letter: u8) -> Result<Reply, Fail>
    ensures { IfOk result IsSendable }
{
    match letter {
        b'w' => Ok(Reply::Welcome { epoch: 1 }),
        b'b' => Ok(Reply::Begun { trans: TRANS }),
        b'n' => Ok(Reply::Refused(Refusal::NotYet)),
        b'o' => Ok(Reply::Opened { open_no: 1 }),
        b'p' => Ok(Reply::Plain),
        b'c' => Ok(Reply::Committed {
            stamp: Stamp {
                ts: 7,
                trans: TRANS,
            },
        }),
        b't' => Ok(Reply::Refused(Refusal::Aborted {
            cause: Cause::TimedOut,
        })),
        _ => Err("an answer".into()),
    }
}

// The letter of a call.
fn letter_of(call: &Call) -> u8 {
    match call {
        Call::Hello { .. } => b'h',
        Call::Begin { .. } => b'b',
        Call::OpenFile { .. } => b'o',
        Call::ReadPages { .. } => b'r',
        Call::Collect { .. } => b'c',
        Call::Finish { commit: true, .. } => b'f',
        Call::Finish { commit: false, .. } => b'a',
        _ => b'?',
    }
}

// What the bytes of a frame say, and the letter of its call.
fn read_sent(alloc: Global, bytes: &Bytes) -> Result<(Sent, u8), Fail>
    ensures { IfOk result (λ x. x.0 ≡ sent_by bytes.now) }
{
    let Some(request) = decode_request(alloc, bytes.as_slice())? else {
        return Ok((Sent::Bytes(bytes.clone()?), b'?'));
    };
    let letter = letter_of(&request.call);
    let sent = Sent::Call {
        client: request.client,
        epoch: request.epoch,
        number: request.number,
        call: request.call,
    };
    Ok((sent, letter))
}

fn told_by(alloc: Global, handed: &Option<Bytes>) -> Result<Option<Reply>, OutOfMemory>
    ensures { IfOk result (λ told. told ≡ told_said handed.now) }
{
    let Some(bytes) = handed else {
        return Ok(None);
    };
    let Some(frame) = decode_reply(alloc, bytes.as_slice())? else {
        return Ok(None);
    };
    Ok(Some(frame.reply))
}

fn mark_of(line: &Line) -> Mark
    ensures { result ≡ mark_said line.now }
{
    match line {
        Line::Repeat { .. } | Line::Old { .. } => Mark::Repeated,
        Line::Raw { .. } => Mark::Raw,
        _ => Mark::Own,
    }
}

// The bytes of an answer.
fn handed_by(alloc: Global, letter: u8) -> Result<Option<Bytes>, Fail> {
    let frame = ReplyFrame {
        client: 2,
        epoch: 1,
        number: 2,
        reply: reply_by(letter)?,
    };
    Ok(Some(encode_reply(alloc, &frame)?))
}

// The frame is answered so. Gives the letter of its call.
fn answered(alloc: Global, job: &mut Job, frame: Addressed, answer: u8) -> Result<u8, Fail>
    requires asked { frame_due job.old ≡ Some frame }
    requires fits { IfSome (request_next job.old.crowd job.old.number job.old.line (asked_at job.old.stage)) request.Fits }
{
    job.make_room()?;
    let handed = handed_by(alloc, answer)?;
    let (sent, letter) = read_sent(alloc, &frame.bytes)?;
    let item = Item {
        line: 0,
        server: frame.server,
        mark: mark_of(job.line()),
        sent,
        reply: told_by(alloc, &handed)?,
        place: None,
    };
    job.hears(alloc, frame, item, &handed)?;
    Ok(letter)
}

// The deeds of the job, each by a letter, where its frames are answered so.
fn deeds_of(alloc: Global, mut job: Job, answers: &[u8]) -> Result<Vec<u8>, Fail> {
    let (mut deeds, mut next) = (Vec::new(alloc), 0usize);
    for _ in 0..99 {
        if !is_ready(&job) {
            return Err("a stamp of a clock".into());
        }
        match job.next_deed(alloc)? {
            ToDo::Frame(frame) => {
                let answer = *answers.get(next).ok_or("an answer")?;
                next = next.saturating_add(1);
                deeds.push(answered(alloc, &mut job, frame, answer)?)?;
            }
            ToDo::Tick { .. } => {
                job.ticked();
                deeds.push(b'T')?;
            }
            ToDo::Timeout { .. } => {
                job.timed_out();
                deeds.push(b'!')?;
            }
            ToDo::Onward => job.goes_on()?,
            ToDo::Done => return Ok(deeds),
        }
    }
    Err("an end".into())
}

// An open and a commit wait.
fn is_played(alloc: Global) -> Result<bool, Fail> {
    let lines = Vec::from_array(
        alloc,
        [
            read_line(alloc, b"2 begin 1")?,
            read_line(alloc, b"2 open f31 change iw wait")?,
            read_line(alloc, b"2 read f31 2 2 r wait")?,
            read_line(alloc, b"2 commit")?,
        ],
    )?;
    let job = job_of(alloc, 2, 50, lines)?;
    let played = deeds_of(alloc, job, b"wbnnopnc")?;
    Ok(played.as_slice() == b"hbocTcrfc".as_slice())
}

// The first open waits for longer than patience, and its transaction is timed out.
fn is_given_up(alloc: Global) -> Result<bool, Fail> {
    let lines = Vec::from_array(
        alloc,
        [
            read_line(alloc, b"3 begin 1")?,
            read_line(alloc, b"3 open f38 change iw wait")?,
            read_line(alloc, b"3 read f38 12 2 r wait")?,
            read_line(alloc, b"3 open f4 change iw wait")?,
            read_line(alloc, b"3 read f4 3 4 r wait")?,
            read_line(alloc, b"3 commit")?,
        ],
    )?;
    let job = job_of(alloc, 3, 2, lines)?;
    let played = deeds_of(alloc, job, b"wbnnntt")?;
    Ok(played.as_slice() == b"hbocTcT!ca".as_slice())
}

#[test]
fn jobs_are_played(rt: HostRuntime) -> Result<(), Fail> {
    assert!(rt; is_played(rt.alloc())? && is_given_up(rt.alloc())?);
    Ok(())
}
