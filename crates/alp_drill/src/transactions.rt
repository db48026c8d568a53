//! A transaction: where it begins, what it opens, reads and writes, and how it ends.
ghost use Rattle.std.specs.Prelude.{◌≡◌, ◌<◌, ◌+◌, ◌++◌, ◌∷◌, [], OnOk, min as lesser_said};
ghost use Rattle.alp_drill.specs.Adds.{Adds};
ghost use Rattle.alp_drill.specs.Shapes.{IsShape};
ghost use Rattle.alp_drill.specs.Files.{AreFiles};
ghost use Rattle.alp_drill.specs.Transactions.{beginning, writing, ending};
ghost use Rattle.alp_drill.specs.Transactions.{visit as visit_said, visits as visits_said, transaction as transaction_said};

use crate::adding::add;
use crate::dice::Dice;
use crate::shape::{Turn, files_of};
use crate::words::{name, text};
use alp_base::{Access, Name, OutOfMemory, Run};
use alp_lines::{FileWord, Line};
use alp_modes::Mode;
use std::alloc::Global;

fn lesser(a: u32, b: u32) -> u32
    ensures { result ≡ lesser_said a b }
{
    if a < b { a } else { b }
}

fn begin(script: &mut Vec<Line>, dice: &mut Dice, turn: Turn) -> Result<(), OutOfMemory>
    requires { IsShape turn.shape }
    ensures { OnOk result (Adds script.old.items script.new.items dice.new (beginning turn dice.old)) }
{
    let which = dice.roll(u32::from(turn.shape.servers));
    let server = 1 + which as u8;
    let client = turn.client;
    add(script, Line::Begin { client, server })?;
    Ok(())
}

// Maybe the pages that were read are written.
#[tactic(auto, unfolding(crate::specs::Transactions::writing))]
fn write(
    alloc: Global,
    script: &mut Vec<Line>,
    dice: &mut Dice,
    turn: Turn,
    word: Name,
    run: Run,
) -> Result<(), OutOfMemory>
    ensures { OnOk result (Adds script.old.items script.new.items dice.new (writing turn (FileWord.Word word) run dice.old)) }
{
    let side = dice.roll(2);
    if side != 0 {
        return Ok(());
    }
    let text = text(alloc, "t", turn.number)?;
    let line = Line::WritePages {
        client: turn.client,
        file: FileWord::Word(word),
        run,
        text,
        choice: turn.choice,
    };
    add(script, line)?;
    Ok(())
}

// Opens a file and reads some of its pages.
fn visit(
    alloc: Global,
    script: &mut Vec<Line>,
    dice: &mut Dice,
    turn: Turn,
    pages: &[u32],
) -> Result<(), OutOfMemory>
    requires shape { IsShape turn.shape }
    requires files { AreFiles turn.shape pages.now }
    ensures { OnOk result (Adds script.old.items script.new.items dice.new (visit_said pages.now turn dice.old)) }
{
    let files = files_of(turn.shape);
    let place = dice.roll(files);
    let word = name(alloc, "f", place)?;
    let most = pages[place as usize];
    let first = dice.roll(most);
    let more = dice.roll(4);
    let fewer = lesser(more, most - first - 1);
    let count = 1 + fewer as u8;
    let run = Run { first, count };
    let open_line = Line::OpenFile {
        client: turn.client,
        file: FileWord::Word(word),
        access: Access::Change,
        mode: Mode::IntendWrite,
        choice: turn.choice,
    };
    let read_line = Line::ReadPages {
        client: turn.client,
        file: FileWord::Word(word),
        run,
        mode: Mode::Read,
        choice: turn.choice,
    };
    add(script, open_line)?;
    add(script, read_line)?;
    write(alloc, script, dice, turn, word, run)?;
    Ok(())
}

fn visits(
    alloc: Global,
    script: &mut Vec<Line>,
    dice: &mut Dice,
    turn: Turn,
    pages: &[u32],
) -> Result<(), OutOfMemory>
    requires shape { IsShape turn.shape }
    requires files { AreFiles turn.shape pages.now }
    ensures { OnOk result (Adds script.old.items script.new.items dice.new (visits_said pages.now turn dice.old)) }
{
    let more = dice.roll(3);
    let count = 1 + more;
    for _ in 0..count {
        visit(alloc, script, dice, turn, pages)?;
    }
    Ok(())
}

#[tactic(auto, unfolding(crate::specs::Transactions::ending))]
fn end(script: &mut Vec<Line>, dice: &mut Dice, client: u8) -> Result<(), OutOfMemory>
    ensures { OnOk result (Adds script.old.items script.new.items dice.new (ending client dice.old)) }
{
    let side = dice.roll(20);
    if side == 0 {
        add(script, Line::Abort { client })?;
        return Ok(());
    }
    add(script, Line::Commit { client })?;
    Ok(())
}

/// A transaction on files of so many pages.
pub(crate) fn transaction(
    alloc: Global,
    script: &mut Vec<Line>,
    dice: &mut Dice,
    turn: Turn,
    pages: &[u32],
) -> Result<(), OutOfMemory>
    requires shape { IsShape turn.shape }
    requires files { AreFiles turn.shape pages.now }
    ensures { OnOk result (Adds script.old.items script.new.items dice.new (transaction_said pages.now turn dice.old)) }
{
    begin(script, dice, turn)?;
    visits(alloc, script, dice, turn, pages)?;
    end(script, dice, turn.client)?;
    Ok(())
}
