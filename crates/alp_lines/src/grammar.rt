//! What the words of a line say.
ghost use Rattle.std.specs.Prelude.{◌≡◌};
ghost use Rattle.alp_tokens.specs.Telling.{Tells};
ghost use Rattle.alp_tokens.specs.Words.{shown};
ghost use Rattle.alp_lines.specs.Grammar.{servers_line as servers_said, volume_line as volume_said, client_line as client_said, patience_line as patience_said, auto_line as auto_said, event_by as event_said_by, line_of_client as said_of_client, line_by as said_by, line_of as said_of, is_skipped as is_skipped_said, line_said, text_said};

use crate::Line;
use crate::client_lines::{bare_line, line_by_verb};
use crate::event_lines::{
    again_line, carry_line, force_line, lose_line, restart_line, stop_line, tick_line, timeout_line,
};
use crate::limits::{AREA_LEAST, AREA_MOST, HOME_LEAST, HOME_MOST, PATIENCE_MOST};
use crate::operands::{client, server};
use alp_tokens::{LineFault, is_line, name, says, within, words_in};
use std::alloc::Global;

#[tactic(auto, unfolding(crate::specs::Grammar::servers_line))]
fn servers_line(args: &[&[u8]]) -> Result<Line, LineFault>
    ensures { Tells result (servers_said (shown args.now)) }
{
    match args {
        [count] => {
            let count = server(count)?;
            Ok(Line::Servers { count })
        }
        _ => Err(LineFault::Outside),
    }
}

#[tactic(auto, unfolding(crate::specs::Grammar::volume_line))]
fn volume_line(args: &[&[u8]]) -> Result<Line, LineFault>
    ensures { Tells result (volume_said (shown args.now)) }
{
    match args {
        [at, home, area] => {
            let server = server(at)?;
            let home = within(home, HOME_LEAST, HOME_MOST)?;
            let area = within(area, AREA_LEAST, AREA_MOST)?;
            Ok(Line::Volume { server, home, area })
        }
        _ => Err(LineFault::Outside),
    }
}

#[tactic(auto, unfolding(crate::specs::Grammar::client_line))]
fn client_line(args: &[&[u8]]) -> Result<Line, LineFault>
    ensures { Tells result (client_said (shown args.now)) }
{
    match args {
        [number, principal] => {
            let client = client(number)?;
            let name = name(principal)?;
            Ok(Line::Client { client, name })
        }
        _ => Err(LineFault::Outside),
    }
}

#[tactic(auto, unfolding(crate::specs::Grammar::patience_line))]
fn patience_line(args: &[&[u8]]) -> Result<Line, LineFault>
    ensures { Tells result (patience_said (shown args.now)) }
{
    match args {
        [count] => {
            let count = within(count, 1, PATIENCE_MOST)?;
            Ok(Line::Patience { count })
        }
        _ => Err(LineFault::Outside),
    }
}

#[tactic(auto, unfolding(crate::specs::Grammar::auto_line))]
fn auto_line(args: &[&[u8]]) -> Result<Line, LineFault>
    ensures { Tells result (auto_said (shown args.now)) }
{
    match args {
        [word] if says(word, b"on") => Ok(Line::Auto { on: true }),
        [word] if says(word, b"off") => Ok(Line::Auto { on: false }),
        _ => Err(LineFault::Outside),
    }
}

#[tactic(auto, unfolding(crate::specs::Grammar::line_of_client))]
fn line_of_client(alloc: Global, number: &[u8], args: &[&[u8]]) -> Result<Line, LineFault>
    ensures { Tells result (said_of_client number.now (shown args.now)) }
{
    match args {
        [verb, args @ ..] => {
            let client = client(number)?;
            line_by_verb(alloc, client, verb, args)
        }
        [] => Err(LineFault::Outside),
    }
}

// A line by its first word, where that declares and sets nothing.
#[tactic(auto, unfolding(crate::specs::Grammar::event_by))]
fn event_by(alloc: Global, first: &[u8], args: &[&[u8]]) -> Result<Line, LineFault>
    ensures { Tells result (event_said_by first.now (shown args.now)) }
{
    if says(first, b"timeout") {
        timeout_line(args)
    } else if says(first, b"tick") {
        tick_line(args)
    } else if says(first, b"force") {
        force_line(args)
    } else if says(first, b"stop") {
        stop_line(args)
    } else if says(first, b"restart") {
        restart_line(args)
    } else if says(first, b"settle") {
        bare_line(Line::Settle, args)
    } else if says(first, b"carry") {
        carry_line(args)
    } else if says(first, b"lose") {
        lose_line(args)
    } else if says(first, b"again") {
        again_line(args)
    } else {
        line_of_client(alloc, first, args)
    }
}

#[tactic(auto, unfolding(crate::specs::Grammar::line_by))]
fn line_by(alloc: Global, first: &[u8], args: &[&[u8]]) -> Result<Line, LineFault>
    ensures { Tells result (said_by first.now (shown args.now)) }
{
    if says(first, b"servers") {
        servers_line(args)
    } else if says(first, b"volume") {
        volume_line(args)
    } else if says(first, b"client") {
        client_line(args)
    } else if says(first, b"patience") {
        patience_line(args)
    } else if says(first, b"auto") {
        auto_line(args)
    } else {
        event_by(alloc, first, args)
    }
}

fn line_of(alloc: Global, words: &[&[u8]]) -> Result<Line, LineFault>
    ensures { Tells result (said_of (shown words.now)) }
{
    match words {
        [first, args @ ..] => line_by(alloc, first, args),
        [] => Err(LineFault::Outside),
    }
}

fn is_skipped(text: &[u8]) -> bool
    ensures { result ≡ is_skipped_said text.now }
{
    match text {
        [] => true,
        [first, ..] => *first == b'#',
    }
}

#[tactic(auto, unfolding(crate::specs::Grammar::line_said))]
fn line_in(alloc: Global, text: &[u8]) -> Result<Line, LineFault>
    ensures { Tells result (line_said text.now) }
{
    let words = words_in(alloc, text)?;
    line_of(alloc, words.as_slice())
}

/// What the text of a line says: maybe nothing.
#[tactic(auto, unfolding(crate::specs::Grammar::text_said))]
pub fn text_in(alloc: Global, text: &[u8]) -> Result<Option<Line>, LineFault>
    ensures { Tells result (text_said text.now) }
{
    if !is_line(text) {
        return Err(LineFault::Outside);
    }
    if is_skipped(text) {
        return Ok(None);
    }
    let line = line_in(alloc, text)?;
    Ok(Some(line))
}
