//! What a ready part changes, as its note says it.
ghost use Rattle.std.specs.Prelude.{◌≡◌, ◌≤◌, true, false, IfOk, OnOk, IsTrue, Err, map as list_map};
ghost use Rattle.alp_files.specs.Act.{no_opens};
ghost use Rattle.alp_files.specs.Changes.{edits_of};
ghost use Rattle.alp_files.specs.Edits.{Drop as Dropped, Cut};
ghost use Rattle.alp_files.specs.Needs.{intents_from, intents_of as intents_said, changed};
ghost use Rattle.alp_vault.specs.Volumes.{fits_key as fits_key_said, fit_keys as fit_keys_said, changed_cells as changed_cells_said};
ghost use Rattle.alp_trans.specs.Counting.{AreCountsOf};
ghost use Rattle.alp_trans.specs.Parts.{own_of};
ghost use Rattle.alp_calls.specs.Looks.{Looks};
ghost use Rattle.alp_calls.specs.Parts.{IsPart, AllFit};
ghost use Rattle.alp_calls.specs.Regained.{IsNoted};
ghost use Rattle.alp_regain.specs.Faults.{fault_from};
ghost use Rattle.alp_regain.specs.declared.fault.RegainFault.TheVariants.{BadNote};

use crate::RegainFault;
use alp_base::{Cell, Change, FileId, Key, OutOfMemory, PAGES_PER_FILE};
use alp_calls::regained_part;
use alp_trans::{Gone, Intents, Part};
use alp_vault::Vault;
use std::alloc::Global;

// ---- what it comes to

fn drop_files(intents: &mut Intents, alloc: Global, files: &[FileId]) -> Result<(), OutOfMemory>
    ensures { OnOk result (intents.new ≡ intents_from intents.old (list_map Dropped files.now)) }
{
    for file in files {
        intents.change(alloc, Some(Gone::File(*file)), Vec::new(alloc))?;
    }
    Ok(())
}

fn cut_files(
    intents: &mut Intents,
    alloc: Global,
    cuts: &[(FileId, u32)],
) -> Result<(), OutOfMemory>
    ensures { OnOk result (intents.new ≡ intents_from intents.old (list_map (λ p. Cut p.0 p.1) cuts.now)) }
{
    for cut in cuts {
        intents.change(alloc, Some(Gone::Pages(cut.0, cut.1)), Vec::new(alloc))?;
    }
    Ok(())
}

// The cells and their keys. Pages are shared.
fn copies_of(alloc: Global, puts: &[(Key, Cell)]) -> Result<Vec<(Key, Cell)>, OutOfMemory>
    ensures { IfOk result (λ copies. copies.items ≡ puts.now) }
{
    let mut copies = Vec::new(alloc);
    for put in puts {
        copies.push((put.0, put.1.clone()?))?;
    }
    Ok(copies)
}

/// The change is intended too.
pub(super) fn add_change(
    intents: &mut Intents,
    alloc: Global,
    change: &Change,
) -> Result<(), OutOfMemory>
    ensures { OnOk result (intents.new ≡ intents_from intents.old (edits_of change.now)) }
{
    drop_files(intents, alloc, change.drops.as_slice())?;
    cut_files(intents, alloc, change.cuts.as_slice())?;
    let puts = copies_of(alloc, change.puts.as_slice())?;
    intents.change(alloc, None, puts)?;
    Ok(())
}

fn intents_of(alloc: Global, change: &Change) -> Result<Intents, OutOfMemory>
    ensures { IfOk result (λ i. i ≡ intents_said (edits_of change.now)) }
{
    let mut intents = Intents::new(alloc);
    add_change(&mut intents, alloc, change)?;
    Ok(intents)
}

// ---- its limits

fn fits_key(key: &Key, cell: &Cell) -> bool
    ensures { result ≡ fits_key_said key.now cell.now }
{
    match key {
        Key::Leader(_) => match cell {
            Cell::Leader(props) => props.size <= PAGES_PER_FILE,
            _ => false,
        },
        Key::PageOf(_, number) => match cell {
            Cell::Page(_) => *number < PAGES_PER_FILE,
            _ => false,
        },
        Key::OwnerOf(name) => match cell {
            Cell::Owner(record) => record.name == *name,
            _ => false,
        },
    }
}

fn fit_keys(puts: &[(Key, Cell)]) -> bool
    ensures { result ≡ fit_keys_said puts.now }
{
    puts.iter().all(|put| fits_key(&put.0, &put.1))
}

/// How many cells and files the change names.
pub(super) fn changed_cells(change: &Change) -> u128
    ensures { result ≡ changed_cells_said change.now }
{
    let puts = change.puts.as_slice().len() as u128;
    let cuts = change.cuts.as_slice().len() as u128;
    let drops = change.drops.as_slice().len() as u128;
    puts + cuts + drops
}

// Whether each cell that is put fits its key, and no more is changed than a part may change.
fn is_noted(change: &Change) -> bool
    ensures yes { result ≡ true → IsNoted change.now }
    ensures no { result ≡ false → IsNoted change.now → ⊥ }
{
    let cells = changed_cells(change);
    if cells > 256 {
        return false;
    }
    fit_keys(change.puts.as_slice())
}

/// The part that intends the change and has nothing open, where it is within the limits of a part and of files.
pub(super) fn part_of<V: Vault>(
    alloc: Global,
    vault: &mut V,
    change: &Change,
) -> Result<Part, RegainFault>
    requires serving { IsTrue (V.serves vault.old) }
    ensures intents { IfOk result (λ p. p.intents ≡ intents_said (edits_of change.now)) }
    ensures counts { IsTrue (V.tells vault.old) → IfOk result (λ p. AreCountsOf (V.held vault.old).cells (edits_of change.now) p.counts) }
    ensures part { IfOk result (λ p. IsPart p) }
    ensures own { IfOk result (λ p. own_of p ≡ no_opens) }
    ensures bad { result ≡ Err BadNote → changed (edits_of change.now) ≤ 256 → AllFit (intents_said (edits_of change.now)).puts → ⊥ }
    ensures looked { Looks V.Vault vault.old vault.new (fault_from result) }
{
    let intents = intents_of(alloc, change)?;
    let whole = intents.to_change(alloc)?;
    if !is_noted(&whole) {
        return Err(RegainFault::BadNote);
    }
    Ok(regained_part(alloc, vault, &whole)?)
}
