//! The lines that declare the clients, and those that make the owners.
ghost use Rattle.std.specs.Prelude.{◌≡◌, ◌≤◌, ◌<◌, ◌++◌, ◌∷◌, [], OnOk, map};
ghost use Rattle.std.specs.List.{range_with_len};
ghost use Rattle.alp_drill.specs.Setup.{client_line, clients, owner_line, owners_at, owners as owners_said};

use crate::adding::add;
use crate::shape::Shape;
use crate::words::{list_of, name};
use alp_base::{Choice, Name, OutOfMemory};
use alp_lines::Line;
use std::alloc::Global;

// The most pages that an owner may be charged for.
const QUOTA: u32 = 100_000;

fn declare_client(alloc: Global, script: &mut Vec<Line>, owner: u8) -> Result<(), OutOfMemory>
    requires { owner < 255 }
    ensures { OnOk result (script.new.items ≡ script.old.items ++ client_line owner ∷ []) }
{
    let name = name(alloc, "o", u32::from(owner))?;
    let client = owner + 1;
    add(script, Line::Client { client, name })?;
    Ok(())
}

/// Declares the administrator, and a client for each of so many owners.
pub(crate) fn declare(alloc: Global, script: &mut Vec<Line>, owners: u8) -> Result<(), OutOfMemory>
    requires { owners < 255 }
    ensures { OnOk result (script.new.items ≡ script.old.items ++ clients owners) }
{
    let name = Name::spelled(b"Admin");
    add(script, Line::Client { client: 1, name })?;
    for i in 0..owners {
        declare_client(alloc, script, i + 1)?;
    }
    Ok(())
}

fn make_owner(
    alloc: Global,
    script: &mut Vec<Line>,
    server: u8,
    owner: u8,
) -> Result<(), OutOfMemory>
    ensures { OnOk result (script.new.items ≡ script.old.items ++ owner_line server owner ∷ []) }
{
    let name = name(alloc, "o", u32::from(owner))?;
    let create = list_of(alloc, b"Owner")?;
    let line = Line::MakeOwner {
        client: 1,
        server,
        owner: name,
        quota: QUOTA,
        create,
        choice: Choice::Fail,
    };
    add(script, line)?;
    Ok(())
}

fn make_owners_at(
    alloc: Global,
    script: &mut Vec<Line>,
    owners: u8,
    server: u8,
) -> Result<(), OutOfMemory>
    ensures { OnOk result (script.new.items ≡ script.old.items ++ owners_at owners server) }
{
    for i in 0..owners {
        make_owner(alloc, script, server, i + 1)?;
    }
    Ok(())
}

/// Makes the owners at each server.
pub(crate) fn make_owners(
    alloc: Global,
    script: &mut Vec<Line>,
    shape: Shape,
) -> Result<(), OutOfMemory>
    ensures { OnOk result (script.new.items ≡ script.old.items ++ owners_said shape) }
{
    let begin = Line::Begin {
        client: 1,
        server: 1,
    };
    add(script, begin)?;
    for i in 0..shape.servers {
        make_owners_at(alloc, script, shape.owners, i + 1)?;
    }
    add(script, Line::Commit { client: 1 })?;
    Ok(())
}
