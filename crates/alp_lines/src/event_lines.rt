//! What the words of a line say that is no client's: what happens at a server, and to the messages from one to another.
ghost use Rattle.std.specs.Prelude.{◌≡◌};
ghost use Rattle.alp_tokens.specs.Telling.{Tells};
ghost use Rattle.alp_tokens.specs.Words.{shown};
ghost use Rattle.alp_lines.specs.EventLines.{one_server as one_server_said, two_servers as two_servers_said, tick_line as tick_said, force_line as force_said, timeout_line as timeout_said, stop_line as stop_said, restart_line as restart_said, carry_line as carry_said, lose_line as lose_said, again_line as again_said};

use crate::Line;
use crate::operands::{client, server};
use alp_tokens::{LineFault, word32, word64};

// The server that is the one word of a line.
#[tactic(auto, unfolding(crate::specs::EventLines::one_server))]
fn one_server(args: &[&[u8]]) -> Result<u8, LineFault>
    ensures { Tells result (one_server_said (shown args.now)) }
{
    match args {
        [at] => server(at),
        _ => Err(LineFault::Outside),
    }
}

// The two servers that are the words of a line.
#[tactic(auto, unfolding(crate::specs::EventLines::two_servers))]
fn two_servers(args: &[&[u8]]) -> Result<(u8, u8), LineFault>
    ensures { Tells result (two_servers_said (shown args.now)) }
{
    match args {
        [from, to] => {
            let from = server(from)?;
            let to = server(to)?;
            Ok((from, to))
        }
        _ => Err(LineFault::Outside),
    }
}

#[tactic(auto, unfolding(crate::specs::EventLines::tick_line))]
pub(crate) fn tick_line(args: &[&[u8]]) -> Result<Line, LineFault>
    ensures { Tells result (tick_said (shown args.now)) }
{
    let server = one_server(args)?;
    Ok(Line::Tick { server })
}

#[tactic(auto, unfolding(crate::specs::EventLines::force_line))]
pub(crate) fn force_line(args: &[&[u8]]) -> Result<Line, LineFault>
    ensures { Tells result (force_said (shown args.now)) }
{
    let server = one_server(args)?;
    Ok(Line::Force { server })
}

#[tactic(auto, unfolding(crate::specs::EventLines::timeout_line))]
pub(crate) fn timeout_line(args: &[&[u8]]) -> Result<Line, LineFault>
    ensures { Tells result (timeout_said (shown args.now)) }
{
    match args {
        [at, number] => {
            let server = server(at)?;
            let client = client(number)?;
            Ok(Line::Timeout { server, client })
        }
        _ => Err(LineFault::Outside),
    }
}

#[tactic(auto, unfolding(crate::specs::EventLines::stop_line))]
pub(crate) fn stop_line(args: &[&[u8]]) -> Result<Line, LineFault>
    ensures { Tells result (stop_said (shown args.now)) }
{
    match args {
        [at, calls] => {
            let server = server(at)?;
            let calls = word32(calls)?;
            Ok(Line::Stop { server, calls })
        }
        _ => Err(LineFault::Outside),
    }
}

#[tactic(auto, unfolding(crate::specs::EventLines::restart_line))]
pub(crate) fn restart_line(args: &[&[u8]]) -> Result<Line, LineFault>
    ensures { Tells result (restart_said (shown args.now)) }
{
    match args {
        [at, pick] => {
            let server = server(at)?;
            let pick = word64(pick)?;
            Ok(Line::Restart { server, pick })
        }
        _ => Err(LineFault::Outside),
    }
}

#[tactic(auto, unfolding(crate::specs::EventLines::carry_line))]
pub(crate) fn carry_line(args: &[&[u8]]) -> Result<Line, LineFault>
    ensures { Tells result (carry_said (shown args.now)) }
{
    let (from, to) = two_servers(args)?;
    Ok(Line::Carry { from, to })
}

#[tactic(auto, unfolding(crate::specs::EventLines::lose_line))]
pub(crate) fn lose_line(args: &[&[u8]]) -> Result<Line, LineFault>
    ensures { Tells result (lose_said (shown args.now)) }
{
    let (from, to) = two_servers(args)?;
    Ok(Line::Lose { from, to })
}

#[tactic(auto, unfolding(crate::specs::EventLines::again_line))]
pub(crate) fn again_line(args: &[&[u8]]) -> Result<Line, LineFault>
    ensures { Tells result (again_said (shown args.now)) }
{
    let (from, to) = two_servers(args)?;
    Ok(Line::Again { from, to })
}
