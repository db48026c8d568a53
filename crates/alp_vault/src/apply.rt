//! A change of cells in memory, made in place.
ghost use Rattle.std.specs.Prelude.{◌≡◌, OnOk, OnErr};
ghost use Rattle.std.specs.FinMap as map;
ghost use Rattle.alp_files.specs.Files.{AreFiles};
ghost use Rattle.alp_files.specs.Edits.{edits_map};
ghost use Rattle.alp_files.specs.Changes.{edits_of};

use crate::counted::CountedCells;
use crate::puts::{kept_cells, put_all};
use crate::sweep::{sweep_all, sweeps_in};
use alp_base::{Change, OutOfMemory};
use std::alloc::Global;

/// Makes the whole change, or none of it where there is no memory for all.
///
/// The puts come first, since they alone want memory. What the drops and cuts take away is then cleared but for
/// what was put, and its size says where to look, so that the cost is about the change and not about the map.
pub fn apply(cells: &mut CountedCells, alloc: Global, change: &Change) -> Result<(), OutOfMemory>
    requires { AreFiles (map.get cells.old) }
    ensures ok { OnOk result (cells.new ≡ edits_map (edits_of change.now) cells.old) }
    ensures err { OnErr result (cells.new ≡ cells.old) }
{
    let sweeps = sweeps_in(alloc, cells, change)?;
    let puts = change.puts.as_slice();
    let kept = kept_cells(alloc, sweeps.as_slice(), puts)?;
    put_all(cells, alloc, puts)?;
    sweep_all(cells, &kept, sweeps.as_slice());
    Ok(())
}
