//! What the words of a client's line say, behind the client's number.
ghost use Rattle.std.specs.Prelude.{◌≡◌};
ghost use Rattle.alp_tokens.specs.Telling.{Tells};
ghost use Rattle.alp_tokens.specs.Words.{shown};
ghost use Rattle.alp_lines.specs.ClientLines.{begin_line as begin_said, bare_line as bare_said, raw_line as raw_said, make_owner_line as make_owner_said, read_owner_line as read_owner_said, quota_line as quota_said, file_line as file_said, create_line as create_said, open_line as open_said, close_line as close_said, delete_line as delete_said, write_line as write_said, read_line as read_said, lock_line as lock_said, size_line as size_said, props_line as props_said, change_line as change_said, line_on_file as said_on_file, line_by_verb as said_by_verb};

use crate::Line;
use crate::file_words::{file_word, new_word};
use crate::hex::hex;
use crate::operands::{access, change, choice, mode, page_mode, purpose, reading, run, server};
use alp_tokens::{LineFault, list, name, says, text, word32};
use std::alloc::Global;

#[tactic(auto, unfolding(crate::specs::ClientLines::begin_line))]
fn begin_line(client: u8, args: &[&[u8]]) -> Result<Line, LineFault>
    ensures { Tells result (begin_said client (shown args.now)) }
{
    match args {
        [at] => {
            let server = server(at)?;
            Ok(Line::Begin { client, server })
        }
        _ => Err(LineFault::Outside),
    }
}

/// The line, where no words stand behind its verb.
#[tactic(auto, unfolding(crate::specs::ClientLines::bare_line))]
pub(crate) fn bare_line(line: Line, args: &[&[u8]]) -> Result<Line, LineFault>
    ensures { Tells result (bare_said line (shown args.now)) }
{
    if args.is_empty() {
        Ok(line)
    } else {
        Err(LineFault::Outside)
    }
}

#[tactic(auto, unfolding(crate::specs::ClientLines::raw_line))]
fn raw_line(alloc: Global, client: u8, args: &[&[u8]]) -> Result<Line, LineFault>
    ensures { Tells result (raw_said client (shown args.now)) }
{
    match args {
        [at, digits] => {
            let server = server(at)?;
            let bytes = hex(alloc, digits)?;
            Ok(Line::Raw {
                client,
                server,
                bytes,
            })
        }
        _ => Err(LineFault::Outside),
    }
}

#[tactic(auto, unfolding(crate::specs::ClientLines::make_owner_line))]
fn make_owner_line(alloc: Global, client: u8, args: &[&[u8]]) -> Result<Line, LineFault>
    ensures { Tells result (make_owner_said client (shown args.now)) }
{
    match args {
        [at, owner, quota, create, end @ ..] => {
            let server = server(at)?;
            let owner = name(owner)?;
            let quota = word32(quota)?;
            let create = list(alloc, create)?;
            let choice = choice(end)?;
            Ok(Line::MakeOwner {
                client,
                server,
                owner,
                quota,
                create,
                choice,
            })
        }
        _ => Err(LineFault::Outside),
    }
}

#[tactic(auto, unfolding(crate::specs::ClientLines::read_owner_line))]
fn read_owner_line(client: u8, args: &[&[u8]]) -> Result<Line, LineFault>
    ensures { Tells result (read_owner_said client (shown args.now)) }
{
    match args {
        [at, owner, end @ ..] => {
            let server = server(at)?;
            let owner = name(owner)?;
            let choice = choice(end)?;
            Ok(Line::ReadOwner {
                client,
                server,
                owner,
                choice,
            })
        }
        _ => Err(LineFault::Outside),
    }
}

#[tactic(auto, unfolding(crate::specs::ClientLines::quota_line))]
fn quota_line(client: u8, args: &[&[u8]]) -> Result<Line, LineFault>
    ensures { Tells result (quota_said client (shown args.now)) }
{
    match args {
        [at, owner, quota, end @ ..] => {
            let server = server(at)?;
            let owner = name(owner)?;
            let quota = word32(quota)?;
            let choice = choice(end)?;
            Ok(Line::SetQuota {
                client,
                server,
                owner,
                quota,
                choice,
            })
        }
        _ => Err(LineFault::Outside),
    }
}

#[tactic(auto, unfolding(crate::specs::ClientLines::file_line))]
fn file_line(alloc: Global, client: u8, server: u8, args: &[&[u8]]) -> Result<Line, LineFault>
    ensures { Tells result (file_said client server (shown args.now)) }
{
    match args {
        [word, owner, size, end @ ..] => {
            let word = new_word(alloc, word)?;
            let owner = name(owner)?;
            let size = word32(size)?;
            let (read, modify, choice) = access(alloc, end)?;
            Ok(Line::Create {
                client,
                server,
                word,
                owner,
                size,
                read,
                modify,
                choice,
            })
        }
        _ => Err(LineFault::Outside),
    }
}

#[tactic(auto, unfolding(crate::specs::ClientLines::create_line))]
fn create_line(alloc: Global, client: u8, args: &[&[u8]]) -> Result<Line, LineFault>
    ensures { Tells result (create_said client (shown args.now)) }
{
    match args {
        [at, args @ ..] => {
            let server = server(at)?;
            file_line(alloc, client, server, args)
        }
        [] => Err(LineFault::Outside),
    }
}

#[tactic(auto, unfolding(crate::specs::ClientLines::open_line))]
fn open_line(alloc: Global, client: u8, args: &[&[u8]]) -> Result<Line, LineFault>
    ensures { Tells result (open_said client (shown args.now)) }
{
    match args {
        [file, purposed, lock, end @ ..] => {
            let file = file_word(alloc, file)?;
            let access = purpose(purposed)?;
            let mode = mode(lock)?;
            let choice = choice(end)?;
            Ok(Line::OpenFile {
                client,
                file,
                access,
                mode,
                choice,
            })
        }
        _ => Err(LineFault::Outside),
    }
}

#[tactic(auto, unfolding(crate::specs::ClientLines::close_line))]
fn close_line(alloc: Global, client: u8, args: &[&[u8]]) -> Result<Line, LineFault>
    ensures { Tells result (close_said client (shown args.now)) }
{
    match args {
        [file] => {
            let file = file_word(alloc, file)?;
            Ok(Line::CloseFile { client, file })
        }
        _ => Err(LineFault::Outside),
    }
}

#[tactic(auto, unfolding(crate::specs::ClientLines::delete_line))]
fn delete_line(alloc: Global, client: u8, args: &[&[u8]]) -> Result<Line, LineFault>
    ensures { Tells result (delete_said client (shown args.now)) }
{
    match args {
        [file, end @ ..] => {
            let file = file_word(alloc, file)?;
            let choice = choice(end)?;
            Ok(Line::DeleteFile {
                client,
                file,
                choice,
            })
        }
        [] => Err(LineFault::Outside),
    }
}

#[tactic(auto, unfolding(crate::specs::ClientLines::write_line))]
fn write_line(alloc: Global, client: u8, args: &[&[u8]]) -> Result<Line, LineFault>
    ensures { Tells result (write_said client (shown args.now)) }
{
    match args {
        [file, first, count, bytes, end @ ..] => {
            let file = file_word(alloc, file)?;
            let run = run(first, count)?;
            let text = text(alloc, bytes)?;
            let choice = choice(end)?;
            Ok(Line::WritePages {
                client,
                file,
                run,
                text,
                choice,
            })
        }
        _ => Err(LineFault::Outside),
    }
}

#[tactic(auto, unfolding(crate::specs::ClientLines::read_line))]
fn read_line(alloc: Global, client: u8, args: &[&[u8]]) -> Result<Line, LineFault>
    ensures { Tells result (read_said client (shown args.now)) }
{
    match args {
        [file, first, count, end @ ..] => {
            let file = file_word(alloc, file)?;
            let run = run(first, count)?;
            let (mode, choice) = reading(end)?;
            Ok(Line::ReadPages {
                client,
                file,
                run,
                mode,
                choice,
            })
        }
        _ => Err(LineFault::Outside),
    }
}

#[tactic(auto, unfolding(crate::specs::ClientLines::lock_line))]
fn lock_line(alloc: Global, client: u8, args: &[&[u8]]) -> Result<Line, LineFault>
    ensures { Tells result (lock_said client (shown args.now)) }
{
    match args {
        [file, first, count, lock, end @ ..] => {
            let file = file_word(alloc, file)?;
            let run = run(first, count)?;
            let mode = page_mode(lock)?;
            let choice = choice(end)?;
            Ok(Line::LockPages {
                client,
                file,
                run,
                mode,
                choice,
            })
        }
        _ => Err(LineFault::Outside),
    }
}

#[tactic(auto, unfolding(crate::specs::ClientLines::size_line))]
fn size_line(alloc: Global, client: u8, args: &[&[u8]]) -> Result<Line, LineFault>
    ensures { Tells result (size_said client (shown args.now)) }
{
    match args {
        [file, size, end @ ..] => {
            let file = file_word(alloc, file)?;
            let size = word32(size)?;
            let choice = choice(end)?;
            Ok(Line::SetSize {
                client,
                file,
                size,
                choice,
            })
        }
        _ => Err(LineFault::Outside),
    }
}

#[tactic(auto, unfolding(crate::specs::ClientLines::props_line))]
fn props_line(alloc: Global, client: u8, args: &[&[u8]]) -> Result<Line, LineFault>
    ensures { Tells result (props_said client (shown args.now)) }
{
    match args {
        [file] => {
            let file = file_word(alloc, file)?;
            Ok(Line::ReadProps { client, file })
        }
        _ => Err(LineFault::Outside),
    }
}

#[tactic(auto, unfolding(crate::specs::ClientLines::change_line))]
fn change_line(alloc: Global, client: u8, args: &[&[u8]]) -> Result<Line, LineFault>
    ensures { Tells result (change_said client (shown args.now)) }
{
    match args {
        [file, property, value, end @ ..] => {
            let file = file_word(alloc, file)?;
            let change = change(alloc, property, value)?;
            let choice = choice(end)?;
            Ok(Line::WriteProps {
                client,
                file,
                change,
                choice,
            })
        }
        _ => Err(LineFault::Outside),
    }
}

// What is to be done with a file that is there.
#[tactic(auto, unfolding(crate::specs::ClientLines::line_on_file))]
fn line_on_file(alloc: Global, client: u8, verb: &[u8], args: &[&[u8]]) -> Result<Line, LineFault>
    ensures { Tells result (said_on_file client verb.now (shown args.now)) }
{
    if says(verb, b"open") {
        open_line(alloc, client, args)
    } else if says(verb, b"close") {
        close_line(alloc, client, args)
    } else if says(verb, b"delete") {
        delete_line(alloc, client, args)
    } else if says(verb, b"read") {
        read_line(alloc, client, args)
    } else if says(verb, b"write") {
        write_line(alloc, client, args)
    } else if says(verb, b"lock") {
        lock_line(alloc, client, args)
    } else if says(verb, b"size") {
        size_line(alloc, client, args)
    } else if says(verb, b"props") {
        props_line(alloc, client, args)
    } else if says(verb, b"change") {
        change_line(alloc, client, args)
    } else {
        Err(LineFault::Outside)
    }
}

/// What a client is to do, by its verb.
#[tactic(auto, unfolding(crate::specs::ClientLines::line_by_verb))]
pub(crate) fn line_by_verb(
    alloc: Global,
    client: u8,
    verb: &[u8],
    args: &[&[u8]],
) -> Result<Line, LineFault>
    ensures { Tells result (said_by_verb client verb.now (shown args.now)) }
{
    if says(verb, b"begin") {
        begin_line(client, args)
    } else if says(verb, b"commit") {
        bare_line(Line::Commit { client }, args)
    } else if says(verb, b"abort") {
        bare_line(Line::Abort { client }, args)
    } else if says(verb, b"outcome") {
        bare_line(Line::Outcome { client }, args)
    } else if says(verb, b"collect") {
        bare_line(Line::Collect { client }, args)
    } else if says(verb, b"repeat") {
        bare_line(Line::Repeat { client }, args)
    } else if says(verb, b"old") {
        bare_line(Line::Old { client }, args)
    } else if says(verb, b"raw") {
        raw_line(alloc, client, args)
    } else if says(verb, b"mkowner") {
        make_owner_line(alloc, client, args)
    } else if says(verb, b"owner") {
        read_owner_line(client, args)
    } else if says(verb, b"quota") {
        quota_line(client, args)
    } else if says(verb, b"create") {
        create_line(alloc, client, args)
    } else {
        line_on_file(alloc, client, verb, args)
    }
}
