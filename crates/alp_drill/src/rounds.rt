//! The rounds of a drill: stops, restarts, and a transaction each.
ghost use Rattle.std.specs.Prelude.{◌≡◌, ◌<◌, ◌≤◌, ◌+◌, ◌++◌, ◌∷◌, [], OnOk};
ghost use Rattle.alp_drill.specs.Adds.{Adds};
ghost use Rattle.alp_drill.specs.Shapes.{drill_shape as drill_said, IsShape};
ghost use Rattle.alp_drill.specs.Files.{AreFiles};
ghost use Rattle.alp_drill.specs.Rounds.{is_stop as is_stop_said, is_restart as is_restart_said, stopping, restarting};
ghost use Rattle.alp_drill.specs.Rounds.{turn_of as turn_said, round as round_said, rounds as rounds_said};

use crate::adding::add;
use crate::dice::Dice;
use crate::files::client_of;
use crate::shape::{Turn, drill_shape};
use crate::transactions::transaction;
use alp_base::{Choice, OutOfMemory};
use alp_lines::Line;
use std::alloc::Global;

// The rounds are parted into so many stretches of equal length, the last maybe shorter or missing; each but the first begins with
// a stop.
const STOPS: u32 = 6;

// So many rounds behind the round of a stop the server is started again, where the stretch is that long.
const DOWN: u32 = 3;

// A server, of three, is stopped.
const PLACES: u32 = 3;

fn is_stop(period: u32, number: u32) -> bool
    requires { 0 < period }
    ensures { result ≡ is_stop_said period number }
{
    0 < number && number % period == 0
}

fn is_restart(period: u32, number: u32) -> bool
    requires { 0 < period }
    ensures { result ≡ is_restart_said period number }
{
    period < number && number % period == DOWN
}

// In some rounds a server is to stop.
fn stop(
    script: &mut Vec<Line>,
    dice: &mut Dice,
    period: u32,
    number: u32,
) -> Result<(), OutOfMemory>
    requires { 0 < period }
    ensures { OnOk result (Adds script.old.items script.new.items dice.new (stopping period number dice.old)) }
{
    if !is_stop(period, number) {
        return Ok(());
    }
    let which = dice.roll(PLACES);
    let calls = dice.roll(16);
    let server = 1 + which as u8;
    dice.stopped = server;
    add(script, Line::Stop { server, calls })?;
    Ok(())
}

// In some rounds the server that was stopped last starts again.
fn restart(
    script: &mut Vec<Line>,
    dice: &mut Dice,
    period: u32,
    number: u32,
) -> Result<(), OutOfMemory>
    requires { 0 < period }
    ensures { OnOk result (Adds script.old.items script.new.items dice.new (restarting period number dice.old)) }
{
    if !is_restart(period, number) {
        return Ok(());
    }
    let roll = dice.roll(8);
    let pick = roll as u64;
    let server = dice.stopped;
    add(script, Line::Restart { server, pick })?;
    add(script, Line::Settle)?;
    Ok(())
}

// Whose transaction it is in a round.
fn turn_of(number: u32) -> Turn
    ensures turn { result ≡ turn_said number }
    ensures sizes { IsShape result.shape }
    ensures shape { result.shape ≡ drill_said }
{
    let shape = drill_shape();
    let client = client_of(shape, number);
    Turn {
        shape,
        client,
        number,
        choice: Choice::Fail,
    }
}

fn round(
    alloc: Global,
    script: &mut Vec<Line>,
    dice: &mut Dice,
    pages: &[u32],
    period: u32,
    number: u32,
) -> Result<(), OutOfMemory>
    requires files { AreFiles drill_said pages.now }
    requires period { 0 < period }
    ensures { OnOk result (Adds script.old.items script.new.items dice.new (round_said pages.now period number dice.old)) }
{
    stop(script, dice, period, number)?;
    restart(script, dice, period, number)?;
    let turn = turn_of(number);
    transaction(alloc, script, dice, turn, pages)?;
    Ok(())
}

/// So many rounds.
pub(crate) fn rounds(
    alloc: Global,
    script: &mut Vec<Line>,
    dice: &mut Dice,
    pages: &[u32],
    size: u32,
) -> Result<(), OutOfMemory>
    requires { AreFiles drill_said pages.now }
    ensures { OnOk result (Adds script.old.items script.new.items dice.new (rounds_said pages.now size dice.old)) }
{
    let period = size / STOPS + 1;
    for number in 0..size {
        round(alloc, script, dice, pages, period, number)?;
    }
    Ok(())
}
