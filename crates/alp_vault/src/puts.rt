//! Cells that are put together.
ghost use Rattle.std.specs.Prelude.{◌≡◌, ◌<◌, ℕ, List, [], ◌∷◌, ◌++◌, length, IfOk, OnOk, OnErr};
ghost use Rattle.std.specs.FinMap as map;
ghost use Rattle.alp_base.specs.declared.cell.Cell.{Cell as ACell};
ghost use Rattle.alp_files.specs.Cells.{Cells};
ghost use Rattle.alp_files.specs.Edits.{edits_map};
ghost use Rattle.alp_files.specs.Undo.{puts_of, LedBy};

use crate::counted::CountedCells;
use crate::sweep::Sweep;
use alp_base::{Cell, Key, OutOfMemory};
use alp_files::CellMap;
use std::alloc::Global;

// Puts a copy of the cell and notes what stood at its key. Pages are shared.
fn put_noted(
    cells: &mut CountedCells,
    before: &mut Vec<(Key, Option<Cell>)>,
    put: &(Key, Cell),
) -> Result<(), OutOfMemory>
    requires { length before.old.items < before.old.cap }
    ensures ok { OnOk result (cells.new ≡ map.insert cells.old put.now.0 put.now.1) }
    ensures noted { OnOk result (before.new.items ≡ before.old.items ++ (put.now.0, map.get cells.old put.now.0) ∷ []) }
    ensures err { OnErr result ((cells.new ≡ cells.old) × (before.new ≡ before.old)) }
    ensures room { before.new.cap ≡ before.old.cap }
{
    let copy = put.1.clone()?;
    let old = cells.put(put.0, copy)?;
    before.push_reserved((put.0, old));
    Ok(())
}

// What stood at the key stands there again.
fn restore(cells: &mut CountedCells, key: Key, old: Option<Cell>)
    ensures { (m : Cells) → (cell : ACell) → old ≡ map.get m key → cells.old ≡ map.insert m key cell → cells.new ≡ m }
{
    match old {
        Some(cell) => {
            let _ = cells.put(key, cell);
        }
        None => {
            cells.remove(&key);
        }
    }
}

// Takes puts back, the last one first.
fn take_back(cells: &mut CountedCells, mut before: Vec<(Key, Option<Cell>)>)
    ensures { (m : Cells) → LedBy m before.items cells.old → cells.new ≡ m }
{
    while let Some((key, old)) = before.pop() {
        restore(cells, key, old);
    }
}

/// Puts copies of all the cells, one after the other, or none where there is no memory for all.
pub fn put_all(
    cells: &mut CountedCells,
    alloc: Global,
    puts: &[(Key, Cell)],
) -> Result<(), OutOfMemory>
    ensures ok { OnOk result (cells.new ≡ edits_map (puts_of puts.now) cells.old) }
    ensures err { OnErr result (cells.new ≡ cells.old) }
{
    let mut before = Vec::with_capacity(alloc, puts.len())?;
    for put in puts {
        if put_noted(cells, &mut before, put).is_err() {
            take_back(cells, before);
            return Err(OutOfMemory);
        }
    }
    Ok(())
}

fn put_copy(kept: &mut CellMap, put: &(Key, Cell)) -> Result<(), OutOfMemory>
    ensures { OnOk result (kept.new ≡ map.insert kept.old put.now.0 put.now.1) }
{
    let copy = put.1.clone()?;
    kept.put(put.0, copy)
}

/// The cells that are put, by their keys, where something is swept.
pub fn kept_cells(
    alloc: Global,
    sweeps: &[Sweep],
    puts: &[(Key, Cell)],
) -> Result<CellMap, OutOfMemory>
    ensures { IfOk result (λ kept. 0 < length sweeps.now → kept ≡ edits_map (puts_of puts.now) map.empty) }
{
    let mut kept = CellMap::new(alloc);
    if sweeps.is_empty() {
        return Ok(kept);
    }
    for put in puts {
        put_copy(&mut kept, put)?;
    }
    Ok(kept)
}
