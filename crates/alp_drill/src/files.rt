//! The files: how many pages each has, and the lines that create them.
ghost use Rattle.std.specs.Prelude.{◌≡◌, ◌<◌, ◌+◌, ◌%◌, ◌++◌, ◌∷◌, [], IfOk, OnOk};
ghost use Rattle.alp_drill.specs.Shapes.{files_of as files_said, IsShape};
ghost use Rattle.alp_drill.specs.Files.{client_of as client_said, server_of as server_said, pages_of_files, AreFiles, create_line, group, groups};

use crate::adding::add;
use crate::dice::Dice;
use crate::shape::{FILES_PER_GROUP, Shape, files_of};
use crate::words::{list_of, name};
use alp_base::{Choice, OutOfMemory};
use alp_lines::Line;
use std::alloc::Global;

// The remainder of a turn by so many servers or owners.
fn remainder(turn: u32, count: u32) -> u32
    requires { 0 < count }
    ensures value { result ≡ turn % count }
    ensures below { result < count }
{
    turn % count
}

/// The client whose turn it is: one of the owners' clients.
pub(crate) fn client_of(shape: Shape, turn: u32) -> u8
    requires { IsShape shape }
    ensures { result ≡ client_said shape turn }
{
    let which = remainder(turn, u32::from(shape.owners));
    2 + which as u8
}

// The number of the owner whose client that is.
fn owner_of(shape: Shape, turn: u32) -> u32
    requires { IsShape shape }
    ensures { result ≡ 1 + turn % shape.owners }
{
    let which = remainder(turn, u32::from(shape.owners));
    1 + which
}

fn server_of(shape: Shape, turn: u32) -> u8
    requires { IsShape shape }
    ensures { result ≡ server_said shape turn }
{
    let which = remainder(turn, u32::from(shape.servers));
    1 + which as u8
}

/// Rolls how many pages each file has.
#[tactic(auto, unfolding(crate::specs::Files::pages_of_files))]
pub(crate) fn roll_pages(
    alloc: Global,
    dice: &mut Dice,
    shape: Shape,
) -> Result<Vec<u32>, OutOfMemory>
    requires { IsShape shape }
    ensures pages { IfOk result (λ pages. pages.items ≡ (pages_of_files shape dice.old).0) }
    ensures dice { OnOk result (dice.new ≡ (pages_of_files shape dice.old).1) }
    ensures files { IfOk result (λ pages. AreFiles shape pages.items) }
{
    let count = files_of(shape);
    let mut pages = Vec::new(alloc);
    for _ in 0..count {
        pages.push(1 + dice.roll(shape.pages))?;
    }
    Ok(pages)
}

fn create_file(
    alloc: Global,
    script: &mut Vec<Line>,
    shape: Shape,
    pages: &[u32],
    group: u32,
    file: u32,
) -> Result<(), OutOfMemory>
    requires shape { IsShape shape }
    requires files { AreFiles shape pages.now }
    requires file { file < files_said shape }
    ensures { OnOk result (script.new.items ≡ script.old.items ++ create_line shape pages.now group file ∷ []) }
{
    let word = name(alloc, "f", file)?;
    let owner = name(alloc, "o", owner_of(shape, group))?;
    let read = list_of(alloc, b"World")?;
    let modify = list_of(alloc, b"World")?;
    let line = Line::Create {
        client: client_of(shape, group),
        server: server_of(shape, group),
        word,
        owner,
        size: pages[file as usize],
        read,
        modify,
        choice: Choice::Fail,
    };
    add(script, line)?;
    Ok(())
}

// A transaction that creates some of the files.
fn create_group(
    alloc: Global,
    script: &mut Vec<Line>,
    shape: Shape,
    pages: &[u32],
    number: u32,
) -> Result<(), OutOfMemory>
    requires shape { IsShape shape }
    requires files { AreFiles shape pages.now }
    requires number { number < shape.groups }
    ensures { OnOk result (script.new.items ≡ script.old.items ++ group shape pages.now number) }
{
    let client = client_of(shape, number);
    let server = server_of(shape, number);
    add(script, Line::Begin { client, server })?;
    for i in 0..FILES_PER_GROUP {
        create_file(
            alloc,
            script,
            shape,
            pages,
            number,
            FILES_PER_GROUP * number + i,
        )?;
    }
    add(script, Line::Commit { client })?;
    Ok(())
}

/// Creates all files.
pub(crate) fn create_files(
    alloc: Global,
    script: &mut Vec<Line>,
    shape: Shape,
    pages: &[u32],
) -> Result<(), OutOfMemory>
    requires shape { IsShape shape }
    requires files { AreFiles shape pages.now }
    ensures { OnOk result (script.new.items ≡ script.old.items ++ groups shape pages.now) }
{
    for number in 0..shape.groups {
        create_group(alloc, script, shape, pages, number)?;
    }
    Ok(())
}
