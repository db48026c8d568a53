//! Keys that are cleared.
ghost use Rattle.std.specs.Prelude.{◌≡◌, ◌<◌, ◌++◌, ◌&&◌, length, IfOk, map as list_map};
ghost use Rattle.std.specs.FinMap as map;
ghost use Rattle.std.specs.Ordering.{eq_by_cmp};
ghost use Rattle.alp_base.specs.declared.key.Key.{Key as AKey};
ghost use Rattle.alp_base.specs.Keys.{key_cmp};
ghost use Rattle.alp_vault.specs.Sweeps.{is_page_between, is_swept, is_swept_by, left_of, size_at, drop_sweep, cut_sweep, sweeps_of};

use crate::counted::CountedCells;
use alp_base::{Cell, Change, FileId, Key, OutOfMemory};
use alp_files::CellMap;
use std::alloc::Global;

/// The pages of a file from `first` on and below `end`, and its leader where the file goes.
#[derive(Clone, Copy)]
pub struct Sweep {
    pub file: FileId,
    pub first: u32,
    pub end: u32,
    pub leader: bool,
}

fn size_of(cells: &CountedCells, file: FileId) -> u32
    ensures { result ≡ size_at cells.now file }
{
    match cells.get(&Key::Leader(file)) {
        Some(Cell::Leader(props)) => props.size,
        _ => 0,
    }
}

fn add_drops(
    sweeps: &mut Vec<Sweep>,
    cells: &CountedCells,
    drops: &[FileId],
) -> Result<(), OutOfMemory>
    ensures { IfOk result (λ _. sweeps.new.items ≡ sweeps.old.items ++ list_map (drop_sweep cells.now) drops.now) }
{
    for file in drops {
        sweeps.push(Sweep {
            file: *file,
            first: 0,
            end: size_of(cells, *file),
            leader: true,
        })?;
    }
    Ok(())
}

fn add_cuts(
    sweeps: &mut Vec<Sweep>,
    cells: &CountedCells,
    cuts: &[(FileId, u32)],
) -> Result<(), OutOfMemory>
    ensures { IfOk result (λ _. sweeps.new.items ≡ sweeps.old.items ++ list_map (cut_sweep cells.now) cuts.now) }
{
    for cut in cuts {
        sweeps.push(Sweep {
            file: cut.0,
            first: cut.1,
            end: size_of(cells, cut.0),
            leader: false,
        })?;
    }
    Ok(())
}

/// What the drops and cuts of the change clear in these cells.
pub fn sweeps_in(
    alloc: Global,
    cells: &CountedCells,
    change: &Change,
) -> Result<Vec<Sweep>, OutOfMemory>
    ensures { IfOk result (λ v. v.items ≡ sweeps_of cells.now change.now) }
{
    let mut sweeps = Vec::new(alloc);
    add_drops(&mut sweeps, cells, change.drops.as_slice())?;
    add_cuts(&mut sweeps, cells, change.cuts.as_slice())?;
    Ok(sweeps)
}

// Clears the key, unless it is kept.
fn clear(cells: &mut CountedCells, kept: &CellMap, key: &Key)
    ensures { (q : AKey) → map.get cells.new q ≡ left_of (eq_by_cmp key_cmp q key.now) (map.contains_key kept.now q) (map.get cells.old q) }
{
    if kept.get(key).is_none() {
        cells.remove(key);
    }
}

fn clear_pages(cells: &mut CountedCells, kept: &CellMap, file: FileId, first: u32, end: u32)
    ensures { (q : AKey) → map.get cells.new q ≡ left_of (is_page_between file first end q) (map.contains_key kept.now q) (map.get cells.old q) }
{
    for number in first..end {
        clear(cells, kept, &Key::PageOf(file, number));
    }
}

fn sweep_one(cells: &mut CountedCells, kept: &CellMap, sweep: Sweep)
    ensures { (q : AKey) → map.get cells.new q ≡ left_of (is_swept sweep q) (map.contains_key kept.now q) (map.get cells.old q) }
{
    if sweep.leader {
        clear(cells, kept, &Key::Leader(sweep.file));
    }
    clear_pages(cells, kept, sweep.file, sweep.first, sweep.end);
}

/// Clears what the sweeps name, but for what is kept.
pub fn sweep_all(cells: &mut CountedCells, kept: &CellMap, sweeps: &[Sweep])
    ensures { (q : AKey) → map.get cells.new q ≡ left_of (is_swept_by sweeps.now q) (map.contains_key kept.now q) (map.get cells.old q) }
{
    for sweep in sweeps {
        sweep_one(cells, kept, *sweep);
    }
}
