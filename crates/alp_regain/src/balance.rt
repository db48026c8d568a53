//! Whether owners are charged for what changes put and take away.
ghost use Rattle.std.specs.Prelude.{◌≡◌, ◌&&◌, ◌++◌, IfOk, OnOk, IsTrue, unwrap_or};
ghost use Rattle.std.specs.Option.{option_to_list};
ghost use Rattle.std.specs.FinMap as map;
ghost use Rattle.alp_base.specs.declared.key.Key.TheVariants as key;
ghost use Rattle.alp_files.specs.Needs.{through};
ghost use Rattle.alp_trans.specs.Parts.{change_of};
ghost use Rattle.alp_calls.specs.Looks.{Looks, fault_in};
ghost use Rattle.alp_regain.specs.Balance.{leader_file, files_put, touched_in, with_leader, leaders_with, owner_named, charge_in, is_even, is_even_for, are_even, is_balanced};
ghost use Rattle.alp_regain.specs.Sums.{charge_at, AreChargesOf, AreSmall};

use crate::charges::{Charges, charges_of};
use crate::seen::{fetched, seen};
use alp_base::{Cell, Change, FileId, Key, Name, OutOfMemory};
use alp_calls::CallFault;
use alp_files::CellMap;
use alp_trans::Intents;
use alp_vault::Vault;
use std::alloc::Global;

// ---- leaders that lie below

fn leader_of(key: &Key) -> Option<FileId>
    ensures { result ≡ leader_file key.now }
{
    match key {
        Key::Leader(file) => Some(*file),
        _ => None,
    }
}

// The file of a leader's key is one of them too.
fn push_file(files: &mut Vec<FileId>, key: &Key) -> Result<(), OutOfMemory>
    ensures { OnOk result (files.new.items ≡ files.old.items ++ option_to_list (leader_file key.now)) }
{
    match leader_of(key) {
        Some(file) => Ok(files.push(file)?),
        None => Ok(()),
    }
}

// So are the files whose leaders are put.
fn push_files(files: &mut Vec<FileId>, puts: &[(Key, Cell)]) -> Result<(), OutOfMemory>
    ensures { OnOk result (files.new.items ≡ files.old.items ++ files_put puts.now) }
{
    for put in puts {
        push_file(files, &put.0)?;
    }
    Ok(())
}

// Files that go, and those whose leaders are put.
fn files_touched(alloc: Global, change: &Change) -> Result<Vec<FileId>, OutOfMemory>
    ensures { IfOk result (λ files. files.items ≡ touched_in change.now) }
{
    let mut files = Vec::from_slice(alloc, change.drops.as_slice())?;
    push_files(&mut files, change.puts.as_slice())?;
    Ok(files)
}

// Gathers the leader of the file, if it has one.
fn gather_leader<V: Vault>(
    below: &mut CellMap,
    vault: &mut V,
    file: FileId,
) -> Result<(), CallFault>
    requires serving { IsTrue (V.serves vault.old) }
    ensures gathered { IsTrue (V.tells vault.old) → OnOk result (below.new ≡ with_leader file (map.get (V.held vault.old).cells (key.Leader file)) below.old) }
    ensures looked { Looks V.Vault vault.old vault.new (fault_in result) }
{
    match fetched(vault, &Key::Leader(file))? {
        Some(leader) => Ok(below.put(Key::Leader(file), leader)?),
        None => Ok(()),
    }
}

// The leaders of the files, as they lie below.
fn leaders_below<V: Vault>(
    alloc: Global,
    vault: &mut V,
    files: &[FileId],
) -> Result<CellMap, CallFault>
    requires serving { IsTrue (V.serves vault.old) }
    ensures leaders { IsTrue (V.tells vault.old) → IfOk result (λ below. below ≡ leaders_with (V.held vault.old).cells files.now map.empty) }
    ensures looked { Looks V.Vault vault.old vault.new (fault_in result) }
{
    let mut below = CellMap::new(alloc);
    for file in files {
        gather_leader(&mut below, vault, *file)?;
    }
    Ok(below)
}

// Those of the files that the change touches, in the order of their keys.
fn touched_below<V: Vault>(
    alloc: Global,
    vault: &mut V,
    change: &Change,
) -> Result<Vec<(Key, Cell)>, CallFault>
    requires serving { IsTrue (V.serves vault.old) }
    ensures leaders { IsTrue (V.tells vault.old) → IfOk result (λ es. es.items ≡ map.entries (leaders_with (V.held vault.old).cells (touched_in change.now) map.empty)) }
    ensures looked { Looks V.Vault vault.old vault.new (fault_in result) }
{
    let files = files_touched(alloc, change)?;
    let below = leaders_below(alloc, vault, files.as_slice())?;
    let leaders = below.copies(alloc)?;
    Ok(leaders)
}

// ---- owners

/// What owners are charged less for leaders that are touched, as they lie below, and more for those that are put.
#[derive(Drop)]
struct Moved {
    lost: Charges,
    put: Charges,
}

fn name_in(cell: &Cell) -> Option<Name>
    ensures { result ≡ owner_named cell.now }
{
    match cell {
        Cell::Leader(props) => Some(props.owner),
        Cell::Page(_) => None,
        Cell::Owner(record) => Some(record.name),
    }
}

fn charge_of(cell: Option<Cell>) -> Option<u32>
    ensures { result ≡ charge_in cell }
{
    match cell {
        Some(Cell::Owner(record)) => Some(record.charge),
        _ => None,
    }
}

// The charge in the owner's record that is seen.
fn charge_seen<V: Vault>(
    vault: &mut V,
    intents: &Intents,
    name: Name,
) -> Result<Option<u32>, CallFault>
    requires serving { IsTrue (V.serves vault.old) }
    ensures charge { IsTrue (V.tells vault.old) → IfOk result (λ n. n ≡ charge_in (through intents.now (map.get (V.held vault.old).cells) (key.OwnerOf name))) }
    ensures looked { Looks V.Vault vault.old vault.new (fault_in result) }
{
    Ok(charge_of(seen(vault, intents, &Key::OwnerOf(name))?))
}

// And in that which lies below, or 0.
fn charge_below<V: Vault>(vault: &mut V, name: Name) -> Result<u32, CallFault>
    requires serving { IsTrue (V.serves vault.old) }
    ensures charge { IsTrue (V.tells vault.old) → IfOk result (λ n. n ≡ unwrap_or (charge_in (map.get (V.held vault.old).cells (key.OwnerOf name))) 0) }
    ensures looked { Looks V.Vault vault.old vault.new (fault_in result) }
{
    Ok(charge_of(fetched(vault, &Key::OwnerOf(name))?).unwrap_or(0))
}

// Whether the owner's charge is that below, but for what moved.
fn is_even_owner<V: Vault>(
    vault: &mut V,
    intents: &Intents,
    moved: &Moved,
    name: Name,
) -> Result<bool, CallFault>
    requires serving { IsTrue (V.serves vault.old) }
    requires small { AreSmall moved.now.lost × AreSmall moved.now.put }
    ensures even { IsTrue (V.tells vault.old) → IfOk result (λ b. b ≡ is_even intents.now (V.held vault.old).cells (charge_at moved.now.lost) (charge_at moved.now.put) name) }
    ensures looked { Looks V.Vault vault.old vault.new (fault_in result) }
{
    let Some(charge) = charge_seen(vault, intents, name)? else {
        return Ok(true);
    };
    let below = charge_below(vault, name)?;
    let now = u128::from(charge) + moved.lost.of(&name);
    Ok(now == u128::from(below) + moved.put.of(&name))
}

// The same of the owner of the cell, if it has one.
fn is_even_cell<V: Vault>(
    vault: &mut V,
    intents: &Intents,
    moved: &Moved,
    cell: &Cell,
) -> Result<bool, CallFault>
    requires serving { IsTrue (V.serves vault.old) }
    requires small { AreSmall moved.now.lost × AreSmall moved.now.put }
    ensures even { IsTrue (V.tells vault.old) → IfOk result (λ b. b ≡ is_even_for intents.now (V.held vault.old).cells (charge_at moved.now.lost) (charge_at moved.now.put) (owner_named cell.now)) }
    ensures looked { Looks V.Vault vault.old vault.new (fault_in result) }
{
    match name_in(cell) {
        Some(name) => is_even_owner(vault, intents, moved, name),
        None => Ok(true),
    }
}

// And of all these cells.
fn are_even_cells<V: Vault>(
    vault: &mut V,
    intents: &Intents,
    moved: &Moved,
    cells: &[(Key, Cell)],
) -> Result<bool, CallFault>
    requires serving { IsTrue (V.serves vault.old) }
    requires small { AreSmall moved.now.lost × AreSmall moved.now.put }
    ensures even { IsTrue (V.tells vault.old) → IfOk result (λ b. b ≡ are_even intents.now (V.held vault.old).cells (charge_at moved.now.lost) (charge_at moved.now.put) cells.now) }
    ensures looked { Looks V.Vault vault.old vault.new (fault_in result) }
{
    for cell in cells {
        if !is_even_cell(vault, intents, moved, &cell.1)? {
            return Ok(false);
        }
    }
    Ok(true)
}

// And of all of these and those.
fn are_even_all<V: Vault>(
    vault: &mut V,
    intents: &Intents,
    moved: &Moved,
    below: &[(Key, Cell)],
    puts: &[(Key, Cell)],
) -> Result<bool, CallFault>
    requires serving { IsTrue (V.serves vault.old) }
    requires small { AreSmall moved.now.lost × AreSmall moved.now.put }
    ensures even { IsTrue (V.tells vault.old) → IfOk result (λ b. b ≡ (are_even intents.now (V.held vault.old).cells (charge_at moved.now.lost) (charge_at moved.now.put) below.now && are_even intents.now (V.held vault.old).cells (charge_at moved.now.lost) (charge_at moved.now.put) puts.now)) }
    ensures looked { Looks V.Vault vault.old vault.new (fault_in result) }
{
    if !are_even_cells(vault, intents, moved, below)? {
        return Ok(false);
    }
    are_even_cells(vault, intents, moved, puts)
}

// What moves where these leaders are touched and these cells are put.
fn moved_by(
    alloc: Global,
    below: &[(Key, Cell)],
    puts: &[(Key, Cell)],
) -> Result<Moved, OutOfMemory>
    ensures lost { IfOk result (λ m. AreChargesOf m.lost below.now) }
    ensures put { IfOk result (λ m. AreChargesOf m.put puts.now) }
    ensures small { IfOk result (λ m. AreSmall m.lost × AreSmall m.put) }
{
    let lost = charges_of(alloc, below)?;
    let put = charges_of(alloc, puts)?;
    Ok(Moved { lost, put })
}

/// Whether owners are charged for what the intents, which come to the change, put and take away.
pub(super) fn are_balanced<V: Vault>(
    alloc: Global,
    vault: &mut V,
    intents: &Intents,
    change: &Change,
) -> Result<bool, CallFault>
    requires serving { IsTrue (V.serves vault.old) }
    requires change { change.now ≡ change_of intents.now }
    ensures balanced { IsTrue (V.tells vault.old) → IfOk result (λ b. b ≡ is_balanced intents.now (V.held vault.old).cells) }
    ensures looked { Looks V.Vault vault.old vault.new (fault_in result) }
{
    let puts = change.puts.as_slice();
    let below = touched_below(alloc, vault, change)?;
    let moved = moved_by(alloc, below.as_slice(), puts)?;
    are_even_all(vault, intents, &moved, below.as_slice(), puts)
}
