//! A script that is read in pieces.
ghost use Rattle.std.specs.Prelude.{◌≡◌, ℕ, ◌+◌, ◌==◌, List, [], ◌∷◌, ◌++◌, length, false, IfOk, IfErr, OnErr, OnOk, ◌<◌, ◌≤◌};
ghost use Rattle.std.specs.Str.Lines.{strip_carriage_return};
ghost use Rattle.alp_tokens.specs.Telling.{TellsBy};
ghost use Rattle.alp_script.specs.Script.{flaw_at as flaw_said, read_at as said_at, script, with_front, ended as ended_said, script_from, numbered, step as step_said};
ghost use Rattle.alp_script.specs.declared.fault.ScriptFault.TheVariants as fault;
ghost use Rattle.alp_script.specs.Progress.{Progress, at_start, resume, Follows, Takes, Gives};

use crate::context::Context;
use crate::numbered::SCRIPT_LINES_MOST;
use crate::{NumberedLine, ScriptFault};
use alp_lines::{Line, text_in};
use alp_tokens::{LINE_BYTES, LineFault};
use std::alloc::Global;
use std::marker::Model;

/// A reader that is given a script in pieces, and keeps the lines so far and the unfinished one.
#[derive(Drop)]
pub struct Reader {
    alloc: Global,
    context: Context,
    lines: u32,
    partial: Vec<u8>,
    said: Vec<NumberedLine>,
}

impl Model for Reader {
    ghost use Rattle.alp_script.specs.Progress.{Progress, IsUnfinished};

    ghost Value = { Progress };

    ghost view = { λ r. record { said = r.said.items; known = r.context; lines = r.lines; partial = r.partial.items } };

    ghost invariant = { λ r. IsUnfinished r.lines r.partial.items };
}

fn step(context: &mut Context, said: &Option<Line>) -> Result<(), LineFault>
    ensures { TellsBy (λ _. context.new) result (step_said context.old said.now) }
{
    match said {
        Some(line) => context.next(line),
        None => Ok(()),
    }
}

#[tactic(auto, unfolding(crate::specs::Script::read_at))]
fn read_at(
    alloc: Global,
    context: &mut Context,
    number: u32,
    text: &[u8],
) -> Result<Option<Line>, LineFault>
    ensures few { OnOk result (number ≤ SCRIPT_LINES_MOST) }
    ensures said { TellsBy (λ said. (said, context.new)) result (said_at context.old number text.now) }
{
    if number > SCRIPT_LINES_MOST {
        return Err(LineFault::Outside);
    }
    let said = text_in(alloc, text)?;
    step(context, &said)?;
    Ok(said)
}

// What is wrong with a script whose line of this number is the first that is outside, or one too many.
#[tactic(auto, unfolding(crate::specs::Script::flaw_at))]
fn flaw_at(number: u32) -> ScriptFault
    ensures { result ≡ flaw_said number }
{
    if number <= SCRIPT_LINES_MOST {
        ScriptFault::Bad { line: number }
    } else {
        ScriptFault::TooLong
    }
}

// Keeps the line, where there is one.
fn keep(said: &mut Vec<NumberedLine>, number: u32, line: Option<Line>) -> Result<(), ScriptFault>
    ensures kept { OnOk result (said.new.items ≡ said.old.items ++ numbered number line) }
    ensures err { IfErr result (λ e. e ≡ fault.OutOfMemory) }
{
    if let Some(line) = line {
        said.push(NumberedLine { number, line })?;
    }
    Ok(())
}

fn without_return(line: &[u8]) -> &[u8]
    ensures { result.now ≡ strip_carriage_return line.now }
{
    let len = line.len();
    if len > 0 && line[len - 1] == b'\r' {
        &line[..len - 1]
    } else {
        line
    }
}

// The lines of a script that ends here.
fn ended(
    context: &Context,
    number: u32,
    said: Vec<NumberedLine>,
) -> Result<Vec<NumberedLine>, ScriptFault>
    ensures { Gives (λ v. v.items) result (with_front said.items (ended_said context.now number)) }
{
    if context.has_servers() {
        Ok(said)
    } else {
        Err(ScriptFault::Bad { line: number })
    }
}

// The lines of a script that ends with this line.
fn last_line(
    alloc: Global,
    mut context: Context,
    number: u32,
    text: &[u8],
    mut said: Vec<NumberedLine>,
) -> Result<Vec<NumberedLine>, ScriptFault>
    ensures { Gives (λ v. v.items) result (with_front said.items (script_from context number (text.now ∷ []))) }
{
    match read_at(alloc, &mut context, number, text) {
        Ok(line) => {
            keep(&mut said, number, line)?;
            ended(&context, number + 1, said)
        }
        Err(LineFault::Outside) => Err(flaw_at(number)),
        Err(LineFault::OutOfMemory) => Err(ScriptFault::OutOfMemory),
    }
}

impl Reader {
    /// A reader that was given nothing yet.
    pub fn new(alloc: Global) -> Reader
        ensures start { result ≡ at_start }
        ensures whole { (bytes : List ℕ) → resume result bytes ≡ script bytes }
    {
        Reader {
            alloc,
            context: Context::new(alloc),
            lines: 0,
            partial: Vec::new(alloc),
            said: Vec::new(alloc),
        }
    }

    // Adds a byte to the unfinished line.
    fn hold(&mut self, byte: u8) -> Result<(), ScriptFault>
        requires { (byte == 10) ≡ false }
        ensures { Takes self.old self.new (byte ∷ []) result }
    {
        if self.partial.len() > LINE_BYTES {
            return Err(flaw_at(self.lines + 1));
        }
        self.partial.push(byte)?;
        Ok(())
    }

    // Ends the unfinished line.
    fn end_line(&mut self) -> Result<(), ScriptFault>
        ensures { Takes self.old self.new (10 ∷ []) result }
    {
        let number = self.lines + 1;
        let text = without_return(self.partial.as_slice());
        match read_at(self.alloc, &mut self.context, number, text) {
            Ok(line) => {
                keep(&mut self.said, number, line)?;
                self.lines = number;
                self.partial.clear();
                Ok(())
            }
            Err(LineFault::Outside) => Err(flaw_at(number)),
            Err(LineFault::OutOfMemory) => Err(ScriptFault::OutOfMemory),
        }
    }

    fn take(&mut self, byte: u8) -> Result<(), ScriptFault>
        ensures { Takes self.old self.new (byte ∷ []) result }
    {
        if byte == b'\n' {
            self.end_line()
        } else {
            self.hold(byte)
        }
    }

    /// Takes the next piece of the script. After an `Err` the script is bad, and nothing more is to be fed.
    pub fn feed(&mut self, piece: &[u8]) -> Result<(), ScriptFault>
        ensures { Takes self.old self.new piece.now result }
    {
        for byte in piece {
            self.take(*byte)?;
        }
        Ok(())
    }

    /// The lines of the script, where nothing follows.
    pub fn finish(self) -> Result<Vec<NumberedLine>, ScriptFault>
        ensures { Gives (λ v. v.items) result (resume self []) }
    {
        let Reader {
            alloc,
            context,
            lines,
            partial,
            said,
        } = self;
        if partial.is_empty() {
            return ended(&context, lines + 1, said);
        }
        last_line(alloc, context, lines + 1, partial.as_slice(), said)
    }
}
