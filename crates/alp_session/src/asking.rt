//! What a client asks in a session.
ghost use Rattle.std.specs.Prelude.{◌≡◌};
ghost use Rattle.alp_session.specs.Calls.{needs_part as needs_part_said, is_collect as is_collect_said, asking_of as asking_of_said, asking_for as asking_said, call_asked as call_asked_said};
ghost use Rattle.alp_session.specs.Clients.{is_joined as is_joined_said};

use crate::{Next, Settings};
use alp_base::TransId;
use alp_files::Call;
use alp_lines::Line;

/// What a client asks for its line in a session.
#[derive(Clone, Copy, PartialEq, Eq)]
pub enum Asking {
    /// The call of the line.
    Call,
    /// To join its transaction, before the call of the line.
    Join(TransId),
    /// The reply of the call that came to wait last.
    Collect,
}

/// Where and under which number a frame of a line was sent in a session, at which stage of the line, and what is set then.
#[derive(Clone, Copy)]
pub struct Sending {
    pub server: u8,
    pub number: u32,
    pub next: Next,
    pub settings: Settings,
}

// Whether a line is for a call of a file or of an owner, which is one of a part of the transaction.
fn needs_part(line: &Line) -> bool
    ensures { result ≡ needs_part_said line.now }
{
    match line {
        Line::Begin { .. } | Line::Commit { .. } | Line::Abort { .. } => false,
        Line::Outcome { .. } | Line::Collect { .. } => false,
        _ => true,
    }
}

// Whether a line collects, or has come to its collect.
fn is_collect(line: &Line, next: Next) -> bool
    ensures { result ≡ is_collect_said line.now next }
{
    match (line, next) {
        (_, Next::Collect) => true,
        (Line::Collect { .. }, _) => true,
        _ => false,
    }
}

// Whether the client knows of a part of the transaction where its session joined this one, if any.
fn is_joined(joined: Option<TransId>, trans: TransId) -> bool
    ensures { result ≡ is_joined_said joined trans }
{
    match joined {
        Some(joined) => joined == trans,
        None => false,
    }
}

// The call of the line itself, or a `Join` before it.
fn asking_of(joined: Option<TransId>, trans: Option<TransId>, line: &Line) -> Asking
    ensures { result ≡ asking_of_said joined trans line.now }
{
    let Some(trans) = trans else {
        return Asking::Call;
    };
    if needs_part(line) && !is_joined(joined, trans) {
        return Asking::Join(trans);
    }
    Asking::Call
}

/// What a client of this transaction asks for its line in a session that joined that one.
pub(crate) fn asking_for(
    joined: Option<TransId>,
    trans: Option<TransId>,
    line: &Line,
    next: Next,
) -> Asking
    ensures { result ≡ asking_said joined trans line.now next }
{
    if is_collect(line, next) {
        return Asking::Collect;
    }
    asking_of(joined, trans, line)
}

/// The call that it sends for that.
pub(crate) fn call_asked(asking: Asking, call: Call) -> Call
    ensures { result ≡ call_asked_said asking call }
{
    match asking {
        Asking::Join(trans) => Call::Join { trans },
        _ => call,
    }
}
