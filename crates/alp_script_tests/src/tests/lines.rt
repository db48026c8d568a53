//! Tests of alp_lines: what lines say, and which are outside.
mod outside;
mod said;

use alp_base::{Access, Choice, Run};
use alp_lines::{Line, text_in};
use alp_modes::Mode;
use alp_tokens::LineFault;
use std::alloc::Global;

// What a line says that names nothing but numbers, or how it takes a lock: in which mode, to what purpose where it opens a file, and
// on which pages where it names some.
#[derive(Clone, Copy, PartialEq, Eq)]
enum Sense {
    Tick(u8),
    Force(u8),
    Stop(u8, u32),
    Restart(u8, u64),
    Settle,
    Carry(u8, u8),
    Lose(u8, u8),
    Again(u8, u8),
    Timeout(u8, u8),
    Collect(u8),
    Repeat(u8),
    Old(u8),
    Outcome(u8),
    Opens(Access, Mode),
    Reads(Run, Mode),
    Locks(Run, Mode),
    Other,
}

// So of a line at a server, or between two.
fn event_of(line: &Line) -> Sense {
    match line {
        Line::Tick { server } => Sense::Tick(*server),
        Line::Force { server } => Sense::Force(*server),
        Line::Stop { server, calls } => Sense::Stop(*server, *calls),
        Line::Restart { server, pick } => Sense::Restart(*server, *pick),
        Line::Settle => Sense::Settle,
        Line::Carry { from, to } => Sense::Carry(*from, *to),
        Line::Lose { from, to } => Sense::Lose(*from, *to),
        Line::Again { from, to } => Sense::Again(*from, *to),
        Line::Timeout { server, client } => Sense::Timeout(*server, *client),
        _ => Sense::Other,
    }
}

// Of a line by which a client takes a lock and does not wait.
fn lock_of(line: &Line) -> Sense {
    match line {
        Line::OpenFile {
            access,
            mode,
            choice: Choice::Fail,
            ..
        } => Sense::Opens(*access, *mode),
        Line::ReadPages {
            run,
            mode,
            choice: Choice::Fail,
            ..
        } => Sense::Reads(*run, *mode),
        Line::LockPages {
            run,
            mode,
            choice: Choice::Fail,
            ..
        } => Sense::Locks(*run, *mode),
        _ => event_of(line),
    }
}

fn said_by(line: &Line) -> Sense {
    match line {
        Line::Collect { client } => Sense::Collect(*client),
        Line::Repeat { client } => Sense::Repeat(*client),
        Line::Old { client } => Sense::Old(*client),
        Line::Outcome { client } => Sense::Outcome(*client),
        _ => lock_of(line),
    }
}

// What the text of a line says, where it says something.
fn read(alloc: Global, text: &[u8]) -> Result<Line, LineFault> {
    match text_in(alloc, text) {
        Ok(Some(line)) => Ok(line),
        Ok(None) => Err(LineFault::Outside),
        Err(fault) => Err(fault),
    }
}

fn meaning(alloc: Global, text: &[u8]) -> Result<Sense, LineFault> {
    let line = read(alloc, text)?;
    Ok(said_by(&line))
}

// Whether each of these texts says what stands beside it.
fn say(alloc: Global, texts: &[(&[u8], Sense)]) -> bool {
    for (text, wanted) in texts {
        if meaning(alloc, *text) != Ok(*wanted) {
            return false;
        }
    }
    true
}

// Whether the text is outside.
fn is_outside(alloc: Global, text: &[u8]) -> bool {
    match text_in(alloc, text) {
        Ok(_said) => false,
        Err(fault) => fault == LineFault::Outside,
    }
}
