//! What the operands of a line say.
ghost use Rattle.std.specs.Prelude.{◌≡◌, ◌∷◌, [], Some};
ghost use Rattle.alp_tokens.specs.Telling.{Tells};
ghost use Rattle.alp_tokens.specs.Words.{shown};
ghost use Rattle.alp_lines.specs.Operands.{server_of, client_of, run_of, choice_of, access_of, purpose_of, mode_of, is_page_mode as is_page_mode_said, page_mode_of, reading_of, change_of};

use crate::limits::RUN_MOST;
use alp_base::{Access, AccessList, CLIENTS, Choice, Name, Run, SERVERS};
use alp_files::PropChange;
use alp_modes::Mode;
use alp_tokens::{LineFault, list, name, says, within, word16, word32, word64};
use std::alloc::Global;

pub(crate) fn server(word: &[u8]) -> Result<u8, LineFault>
    ensures { Tells result (server_of word.now) }
{
    let server = within(word, 1, SERVERS as u32)?;
    Ok(server as u8)
}

pub(crate) fn client(word: &[u8]) -> Result<u8, LineFault>
    ensures { Tells result (client_of word.now) }
{
    let client = within(word, 1, CLIENTS as u32)?;
    Ok(client as u8)
}

#[tactic(auto, unfolding(crate::specs::Operands::run_of))]
pub(crate) fn run(first: &[u8], count: &[u8]) -> Result<Run, LineFault>
    ensures { Tells result (run_of first.now count.now) }
{
    let first = word32(first)?;
    let count = within(count, 1, RUN_MOST)?;
    Ok(Run {
        first,
        count: count as u8,
    })
}

// What is to be done where a lock is in the way.
#[tactic(auto, unfolding(crate::specs::Operands::choice_of))]
pub(crate) fn choice(end: &[&[u8]]) -> Result<Choice, LineFault>
    ensures { Tells result (choice_of (shown end.now)) }
{
    match end {
        [] => Ok(Choice::Fail),
        [word] if says(word, b"fail") => Ok(Choice::Fail),
        [word] if says(word, b"wait") => Ok(Choice::Wait),
        _ => Err(LineFault::Outside),
    }
}

// The access list of one name.
fn only(alloc: Global, name: Name) -> Result<AccessList, LineFault>
    ensures { Tells result (Some (name ∷ [])) }
{
    let mut names = Vec::new(alloc);
    names.push(name)?;
    Ok(AccessList::new(names))
}

// Who may read a new file and who may change it, and what is to be done where a lock is in the way.
#[tactic(auto, unfolding(crate::specs::Operands::access_of))]
pub(crate) fn access(
    alloc: Global,
    end: &[&[u8]],
) -> Result<(AccessList, AccessList, Choice), LineFault>
    ensures { Tells result (access_of (shown end.now)) }
{
    match end {
        [read, modify, end @ ..] => {
            let read = list(alloc, read)?;
            let modify = list(alloc, modify)?;
            let choice = choice(end)?;
            Ok((read, modify, choice))
        }
        _ => {
            let choice = choice(end)?;
            let read = only(alloc, Name::spelled(b"World"))?;
            let modify = only(alloc, Name::spelled(b"Owner"))?;
            Ok((read, modify, choice))
        }
    }
}

// What a file is opened for.
#[tactic(auto, unfolding(crate::specs::Operands::purpose_of))]
pub(crate) fn purpose(word: &[u8]) -> Result<Access, LineFault>
    ensures { Tells result (purpose_of word.now) }
{
    if says(word, b"read") {
        Ok(Access::ReadOnly)
    } else if says(word, b"change") {
        Ok(Access::Change)
    } else {
        Err(LineFault::Outside)
    }
}

// The lock on all of a file.
#[tactic(auto, unfolding(crate::specs::Operands::mode_of))]
pub(crate) fn mode(word: &[u8]) -> Result<Mode, LineFault>
    ensures { Tells result (mode_of word.now) }
{
    if says(word, b"ir") {
        Ok(Mode::IntendRead)
    } else if says(word, b"iw") {
        Ok(Mode::IntendWrite)
    } else if says(word, b"r") {
        Ok(Mode::Read)
    } else if says(word, b"u") {
        Ok(Mode::Update)
    } else if says(word, b"riw") {
        Ok(Mode::ReadIntendWrite)
    } else if says(word, b"w") {
        Ok(Mode::Write)
    } else {
        Err(LineFault::Outside)
    }
}

// Whether the word says a lock on pages.
fn is_page_mode(word: &[u8]) -> bool
    ensures { result ≡ is_page_mode_said word.now }
{
    says(word, b"r") || says(word, b"u") || says(word, b"w")
}

// The lock on pages, which is no intention.
#[tactic(auto, unfolding(crate::specs::Operands::page_mode_of))]
pub(crate) fn page_mode(word: &[u8]) -> Result<Mode, LineFault>
    ensures { Tells result (page_mode_of word.now) }
{
    if says(word, b"r") {
        Ok(Mode::Read)
    } else if says(word, b"u") {
        Ok(Mode::Update)
    } else if says(word, b"w") {
        Ok(Mode::Write)
    } else {
        Err(LineFault::Outside)
    }
}

// How pages are read, and what is to be done where a lock is in the way.
#[tactic(auto, unfolding(crate::specs::Operands::reading_of))]
pub(crate) fn reading(end: &[&[u8]]) -> Result<(Mode, Choice), LineFault>
    ensures { Tells result (reading_of (shown end.now)) }
{
    match end {
        [word, end @ ..] if is_page_mode(word) => {
            let mode = page_mode(word)?;
            let choice = choice(end)?;
            Ok((mode, choice))
        }
        _ => {
            let choice = choice(end)?;
            Ok((Mode::Read, choice))
        }
    }
}

// A property of a file and its new value.
#[tactic(auto, unfolding(crate::specs::Operands::change_of))]
pub(crate) fn change(alloc: Global, property: &[u8], value: &[u8]) -> Result<PropChange, LineFault>
    ensures { Tells result (change_of property.now value.now) }
{
    if says(property, b"owner") {
        Ok(PropChange::Owner(name(value)?))
    } else if says(property, b"name") {
        Ok(PropChange::Name(name(value)?))
    } else if says(property, b"type") {
        Ok(PropChange::TypeNo(word16(value)?))
    } else if says(property, b"bytes") {
        Ok(PropChange::ByteLength(word64(value)?))
    } else if says(property, b"read") {
        Ok(PropChange::Read(list(alloc, value)?))
    } else if says(property, b"modify") {
        Ok(PropChange::Modify(list(alloc, value)?))
    } else {
        Err(LineFault::Outside)
    }
}
