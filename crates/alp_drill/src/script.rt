//! The whole script of a drill.
ghost use Rattle.std.specs.Prelude.{◌≡◌, ◌≤◌, ◌<◌, ◌+◌, ◌++◌, ◌∷◌, [], IfOk, OnOk, length};
ghost use Rattle.alp_script.specs.Accepted.{IsAccepted, servers_said};
ghost use Rattle.alp_drill.specs.Script.{drill_lines, drill_script, counted as counted_said};

use crate::adding::add;
use crate::dice::Dice;
use crate::files::roll_pages;
use crate::rounds::rounds;
use crate::shape::drill_shape;
use crate::start::set_up;
use alp_base::OutOfMemory;
use alp_lines::Line;
use alp_script::NumberedLine;
use std::alloc::Global;

fn lines_of(alloc: Global, seed: u64, size: u32) -> Result<Vec<Line>, OutOfMemory>
    ensures { IfOk result (λ lines. lines.items ≡ drill_lines seed size) }
{
    let shape = drill_shape();
    let mut dice = Dice::new(seed);
    let pages = roll_pages(alloc, &mut dice, shape)?;
    let files = pages.as_slice();
    let mut script = Vec::new(alloc);
    add(&mut script, Line::Servers { count: 3 })?;
    set_up(alloc, &mut script, shape, files)?;
    rounds(alloc, &mut script, &mut dice, files, size)?;
    Ok(script)
}

// Puts a line with its number behind the others.
fn add_counted(script: &mut Vec<NumberedLine>, line: Line) -> Result<(), OutOfMemory>
    requires { length script.old.items < 200000 }
    ensures { OnOk result (script.new.items ≡ script.old.items ++ record { number = length script.old.items + 1; line = line } ∷ []) }
{
    let number = script.len() as u32 + 1;
    script.push(NumberedLine { number, line })?;
    Ok(())
}

/// The lines with their numbers.
pub(crate) fn counted(alloc: Global, lines: Vec<Line>) -> Result<Vec<NumberedLine>, OutOfMemory>
    requires { length lines.items ≤ 200000 }
    ensures { IfOk result (λ script. script.items ≡ counted_said 1 lines.items) }
{
    let mut script = Vec::with_capacity(alloc, lines.len())?;
    for line in lines {
        add_counted(&mut script, line)?;
    }
    Ok(script)
}

/// The script of the drill with this seed and `size` rounds, at most 5,000: a script of the language, for three servers, whose
/// lines are numbered from 1. Fails for want of memory alone.
pub fn drill(alloc: Global, seed: u64, size: u32) -> Result<Vec<NumberedLine>, OutOfMemory>
    requires { size ≤ 5000 }
    // The lines are those that the seed and the size make.
    ensures script { IfOk result (λ lines. lines.items ≡ drill_script seed size) }
    // Each stands where it may and is of the language's forms, their numbers rise, and they are not too many.
    ensures accepted { IfOk result (λ lines. IsAccepted lines.items) }
    ensures servers { IfOk result (λ lines. servers_said lines.items ≡ 3) }
{
    let lines = lines_of(alloc, seed, size)?;
    let script = counted(alloc, lines)?;
    Ok(script)
}
