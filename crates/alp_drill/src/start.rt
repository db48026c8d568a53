//! What stands before the rounds or jobs: the clients, their owners, and the files.
ghost use Rattle.std.specs.Prelude.{◌≡◌, ◌++◌, OnOk};
ghost use Rattle.alp_drill.specs.Shapes.{IsShape};
ghost use Rattle.alp_drill.specs.Files.{AreFiles};
ghost use Rattle.alp_drill.specs.Start.{setup};

use crate::files::create_files;
use crate::setup::{declare, make_owners};
use crate::shape::Shape;
use alp_base::OutOfMemory;
use alp_lines::Line;
use std::alloc::Global;

/// Declares the clients, makes the owners and creates the files.
pub(crate) fn set_up(
    alloc: Global,
    script: &mut Vec<Line>,
    shape: Shape,
    pages: &[u32],
) -> Result<(), OutOfMemory>
    requires shape { IsShape shape }
    requires files { AreFiles shape pages.now }
    ensures { OnOk result (script.new.items ≡ script.old.items ++ setup shape pages.now) }
{
    declare(alloc, script, shape.owners)?;
    make_owners(alloc, script, shape)?;
    create_files(alloc, script, shape, pages)?;
    Ok(())
}
