//! Parts that an earlier run left ready.
ghost use Rattle.std.specs.Prelude.{◌≡◌, ◌+◌, ◌≤◌, true, ◌∷◌, [], ◌++◌, length, map as list_map, IfOk, OnOk, IsTrue};
ghost use Rattle.alp_files.specs.Act.{no_opens};
ghost use Rattle.alp_files.specs.Changes.{edits_of};
ghost use Rattle.alp_files.specs.Edits.{Drop as Dropped, Cut};
ghost use Rattle.alp_files.specs.Needs.{intents_of};
ghost use Rattle.alp_files.specs.Undo.{puts_of};
ghost use Rattle.alp_vault.specs.Volumes.{changed_cells, fit_keys};
ghost use Rattle.alp_trans.specs.Counting.{AreCountsOf};
ghost use Rattle.alp_trans.specs.Parts.{own_of, gone_edit, AreBeside};
ghost use Rattle.alp_calls.specs.Looks.{Looks, fault_in};
ghost use Rattle.alp_calls.specs.Parts.{IsPart, ArePuts, edits_in};
ghost use Rattle.alp_calls.specs.Regained.{IsNoted, GoesOn};
ghost use Rattle.alp_calls.specs.declared.said.OpenChange.TheVariants.{Stay};

use crate::CallFault;
use crate::counting::counts_after;
use crate::performing::change;
use crate::said::{Effect, OpenChange};
use alp_base::{Cell, Change, FileId, Key, OutOfMemory};
use alp_trans::{Gone, Part};
use alp_vault::Vault;
use std::alloc::Global;

// The part intends this too, and its counts are with it.
fn take_in<V: Vault>(
    part: &mut Part,
    alloc: Global,
    vault: &mut V,
    effect: Effect,
) -> Result<(), CallFault>
    requires serving { IsTrue (V.serves vault.old) }
    requires part { IsPart part.old }
    requires puts { ArePuts effect.puts.items }
    requires beside { AreBeside effect.gone effect.puts.items }
    requires opens { effect.opens ≡ Stay }
    requires room { part.old.counts.cells + length (edits_in effect) ≤ 256 }
    ensures taken { OnOk result (GoesOn (V.tells vault.old) (V.held vault.old).cells part.old part.new (edits_in effect)) }
    ensures looked { Looks V.Vault vault.old vault.new (fault_in result) }
{
    let counts = counts_after(alloc, vault, part, effect.gone, &effect.puts)?;
    change(part, alloc, counts, effect)?;
    Ok(())
}

// Something of a file goes.
fn take_gone<V: Vault>(
    part: &mut Part,
    alloc: Global,
    vault: &mut V,
    gone: Gone,
) -> Result<(), CallFault>
    requires serving { IsTrue (V.serves vault.old) }
    requires part { IsPart part.old }
    requires room { part.old.counts.cells + 1 ≤ 256 }
    ensures taken { OnOk result (GoesOn (V.tells vault.old) (V.held vault.old).cells part.old part.new (gone_edit gone ∷ [])) }
    ensures looked { Looks V.Vault vault.old vault.new (fault_in result) }
{
    let effect = Effect {
        gone: Some(gone),
        puts: Vec::new(alloc),
        opens: OpenChange::Stay,
    };
    take_in(part, alloc, vault, effect)
}

// The files go.
fn drop_files<V: Vault>(
    part: &mut Part,
    alloc: Global,
    vault: &mut V,
    files: &[FileId],
) -> Result<(), CallFault>
    requires serving { IsTrue (V.serves vault.old) }
    requires part { IsPart part.old }
    requires room { part.old.counts.cells + length files.now ≤ 256 }
    ensures taken { OnOk result (GoesOn (V.tells vault.old) (V.held vault.old).cells part.old part.new (list_map Dropped files.now)) }
    ensures looked { Looks V.Vault vault.old vault.new (fault_in result) }
{
    for file in files {
        take_gone(part, alloc, vault, Gone::File(*file))?;
    }
    Ok(())
}

// Files lose their pages from a number on.
fn cut_files<V: Vault>(
    part: &mut Part,
    alloc: Global,
    vault: &mut V,
    cuts: &[(FileId, u32)],
) -> Result<(), CallFault>
    requires serving { IsTrue (V.serves vault.old) }
    requires part { IsPart part.old }
    requires room { part.old.counts.cells + length cuts.now ≤ 256 }
    ensures taken { OnOk result (GoesOn (V.tells vault.old) (V.held vault.old).cells part.old part.new (list_map (λ p. Cut p.0 p.1) cuts.now)) }
    ensures looked { Looks V.Vault vault.old vault.new (fault_in result) }
{
    for cut in cuts {
        take_gone(part, alloc, vault, Gone::Pages(cut.0, cut.1))?;
    }
    Ok(())
}

// The cells and their keys. Pages are shared.
fn copies_of(alloc: Global, puts: &[(Key, Cell)]) -> Result<Vec<(Key, Cell)>, OutOfMemory>
    ensures { IfOk result (λ copies. copies.items ≡ puts.now) }
{
    let mut copies = Vec::new(alloc);
    for put in puts {
        copies.push((put.0, put.1.clone()?))?;
    }
    Ok(copies)
}

// The cells are put, all at once.
fn put_cells<V: Vault>(
    part: &mut Part,
    alloc: Global,
    vault: &mut V,
    puts: &[(Key, Cell)],
) -> Result<(), CallFault>
    requires serving { IsTrue (V.serves vault.old) }
    requires part { IsPart part.old }
    requires fit { fit_keys puts.now ≡ true }
    requires room { part.old.counts.cells + length puts.now ≤ 256 }
    ensures taken { OnOk result (GoesOn (V.tells vault.old) (V.held vault.old).cells part.old part.new (puts_of puts.now)) }
    ensures looked { Looks V.Vault vault.old vault.new (fault_in result) }
{
    let copies = copies_of(alloc, puts)?;
    let effect = Effect {
        gone: None,
        puts: copies,
        opens: OpenChange::Stay,
    };
    take_in(part, alloc, vault, effect)
}

// All that goes with the change.
fn take_all_gone<V: Vault>(
    part: &mut Part,
    alloc: Global,
    vault: &mut V,
    change: &Change,
) -> Result<(), CallFault>
    requires serving { IsTrue (V.serves vault.old) }
    requires part { IsPart part.old }
    requires room { part.old.counts.cells + length change.now.drops + length change.now.cuts ≤ 256 }
    ensures taken { OnOk result (GoesOn (V.tells vault.old) (V.held vault.old).cells part.old part.new (list_map Dropped change.now.drops ++ list_map (λ p. Cut p.0 p.1) change.now.cuts)) }
    ensures looked { Looks V.Vault vault.old vault.new (fault_in result) }
{
    drop_files(part, alloc, vault, change.drops.as_slice())?;
    cut_files(part, alloc, vault, change.cuts.as_slice())
}

// The part intends all of the change.
fn take_change<V: Vault>(
    part: &mut Part,
    alloc: Global,
    vault: &mut V,
    change: &Change,
) -> Result<(), CallFault>
    requires serving { IsTrue (V.serves vault.old) }
    requires part { IsPart part.old }
    requires fit { fit_keys change.now.puts ≡ true }
    requires room { part.old.counts.cells + changed_cells change.now ≤ 256 }
    ensures taken { OnOk result (GoesOn (V.tells vault.old) (V.held vault.old).cells part.old part.new (edits_of change.now)) }
    ensures looked { Looks V.Vault vault.old vault.new (fault_in result) }
{
    take_all_gone(part, alloc, vault, change)?;
    put_cells(part, alloc, vault, change.puts.as_slice())
}

/// A part that an earlier run left ready: what it intends is this change, counted over what the vault holds. It has no opens.
/// Pages are shared.
pub fn regained_part<V: Vault>(
    alloc: Global,
    vault: &mut V,
    change: &Change,
) -> Result<Part, CallFault>
    requires serving { IsTrue (V.serves vault.old) }
    requires noted { IsNoted change.now }
    ensures intents { IfOk result (λ p. p.intents ≡ intents_of (edits_of change.now)) }
    ensures counts { IsTrue (V.tells vault.old) → IfOk result (λ p. AreCountsOf (V.held vault.old).cells (edits_of change.now) p.counts) }
    ensures part { IfOk result (λ p. IsPart p) }
    ensures own { IfOk result (λ p. own_of p ≡ no_opens) }
    ensures looked { Looks V.Vault vault.old vault.new (fault_in result) }
{
    let mut part = Part::new(alloc);
    take_change(&mut part, alloc, vault, change)?;
    Ok(part)
}
