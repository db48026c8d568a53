//! Looks at what a part sees: what it puts, or else what the vault holds unless that goes.
ghost use Rattle.std.specs.Prelude.{◌≡◌, ◌+◌, ◌^◌, ◌<◌, ◌≤◌, [], ◌∷◌, ◌++◌, length, IfOk, OnOk, IfSome, IsTrue, true};
ghost use Rattle.std.specs.FinMap as map;
ghost use Rattle.alp_base.specs.declared.key.Key.TheVariants as key;
ghost use Rattle.alp_base.specs.declared.lists.TheConstants.{PAGES_PER_FILE};
ghost use Rattle.alp_files.specs.Cells.{props_in, owner_in, page_in, same_name};
ghost use Rattle.alp_files.specs.Needs.{through};
ghost use Rattle.alp_vault.specs.Volumes.{fits_key};
ghost use Rattle.alp_calls.specs.Looks.{Looks, fault_in};
ghost use Rattle.alp_calls.specs.Parts.{AllFit};
ghost use Rattle.alp_files.specs.Cells.{pages_at};

use crate::CallFault;
use crate::fault::fault_of;
use alp_base::{Cell, FileId, Key, Name, OwnerRecord, Page, PageList, PageRef, Props, Run};
use alp_trans::Intents;
use alp_vault::Vault;
use std::alloc::Global;

pub(super) fn fetched<V: Vault>(vault: &mut V, key: &Key) -> Result<Option<Cell>, CallFault>
    requires { IsTrue (V.serves vault.old) }
    ensures cell { IsTrue (V.tells vault.old) → IfOk result (λ c. c ≡ map.get (V.held vault.old).cells key.now) }
    ensures fits { IfOk result (λ c. IfSome c (λ x. fits_key key.now x ≡ true)) }
    ensures looked { Looks V.Vault vault.old vault.new (fault_in result) }
{
    match vault.fetch(key) {
        Ok(cell) => Ok(cell),
        Err(fault) => Err(fault_of(fault)),
    }
}

fn cell_at<V: Vault>(vault: &mut V, intents: &Intents, key: &Key) -> Result<Option<Cell>, CallFault>
    requires serving { IsTrue (V.serves vault.old) }
    requires fit { AllFit intents.now.puts }
    ensures cell { IsTrue (V.tells vault.old) → IfOk result (λ c. c ≡ through intents.now (map.get (V.held vault.old).cells) key.now) }
    ensures fits { IfOk result (λ c. IfSome c (λ x. fits_key key.now x ≡ true)) }
    ensures looked { Looks V.Vault vault.old vault.new (fault_in result) }
{
    if let Some(cell) = intents.put_at(key) {
        let copy = cell.clone()?;
        return Ok(Some(copy));
    }
    if intents.is_gone(key) {
        return Ok(None);
    }
    fetched(vault, key)
}

pub(super) fn owner_at<V: Vault>(
    vault: &mut V,
    intents: &Intents,
    name: Name,
) -> Result<Option<OwnerRecord>, CallFault>
    requires serving { IsTrue (V.serves vault.old) }
    requires fit { AllFit intents.now.puts }
    ensures named { IfOk result (λ o. IfSome o (λ r. same_name r.name name ≡ true)) }
    ensures owner { IsTrue (V.tells vault.old) → IfOk result (λ o. o ≡ owner_in (through intents.now (map.get (V.held vault.old).cells) (key.OwnerOf name))) }
    ensures looked { Looks V.Vault vault.old vault.new (fault_in result) }
{
    match cell_at(vault, intents, &Key::OwnerOf(name))? {
        Some(Cell::Owner(record)) => Ok(Some(record)),
        _ => Ok(None),
    }
}

pub(super) fn props_at<V: Vault>(
    vault: &mut V,
    intents: &Intents,
    file: FileId,
) -> Result<Option<Props>, CallFault>
    requires serving { IsTrue (V.serves vault.old) }
    requires fit { AllFit intents.now.puts }
    ensures size { IfOk result (λ p. IfSome p (λ x. x.size ≤ PAGES_PER_FILE)) }
    ensures props { IsTrue (V.tells vault.old) → IfOk result (λ p. p ≡ props_in (through intents.now (map.get (V.held vault.old).cells) (key.Leader file))) }
    ensures looked { Looks V.Vault vault.old vault.new (fault_in result) }
{
    match cell_at(vault, intents, &Key::Leader(file))? {
        Some(Cell::Leader(props)) => Ok(Some(props)),
        _ => Ok(None),
    }
}

fn page_at<V: Vault>(
    alloc: Global,
    vault: &mut V,
    intents: &Intents,
    file: FileId,
    number: u32,
) -> Result<PageRef, CallFault>
    requires serving { IsTrue (V.serves vault.old) }
    requires fit { AllFit intents.now.puts }
    ensures page { IsTrue (V.tells vault.old) → IfOk result (λ p. p ≡ page_in (through intents.now (map.get (V.held vault.old).cells) (key.PageOf file number))) }
    ensures looked { Looks V.Vault vault.old vault.new (fault_in result) }
{
    match cell_at(vault, intents, &Key::PageOf(file, number))? {
        Some(Cell::Page(page)) => Ok(page),
        _ => {
            let zeros = PageRef::new(alloc, Page::zero())?;
            Ok(zeros)
        }
    }
}

// One page more.
fn push_page<V: Vault>(
    alloc: Global,
    vault: &mut V,
    intents: &Intents,
    file: FileId,
    number: u32,
    pages: &mut Vec<PageRef>,
) -> Result<(), CallFault>
    requires serving { IsTrue (V.serves vault.old) }
    requires fit { AllFit intents.now.puts }
    ensures page { IsTrue (V.tells vault.old) → OnOk result (pages.new.items ≡ pages.old.items ++ page_in (through intents.now (map.get (V.held vault.old).cells) (key.PageOf file number)) ∷ []) }
    ensures one { OnOk result (length pages.new.items ≡ length pages.old.items + 1) }
    ensures looked { Looks V.Vault vault.old vault.new (fault_in result) }
{
    let next = page_at(alloc, vault, intents, file, number)?;
    pages.push(next)?;
    Ok(())
}

/// The pages of a run, as many as it says.
pub(super) fn pages_of<V: Vault>(
    alloc: Global,
    vault: &mut V,
    intents: &Intents,
    file: FileId,
    run: Run,
) -> Result<PageList, CallFault>
    requires serving { IsTrue (V.serves vault.old) }
    requires fit { AllFit intents.now.puts }
    requires numbers { run.first + run.count < 2 ^ 32 }
    ensures pages { IsTrue (V.tells vault.old) → IfOk result (λ l. l ≡ pages_at (through intents.now (map.get (V.held vault.old).cells)) file run.first run.count) }
    ensures all { IfOk result (λ l. length l ≡ run.count) }
    ensures looked { Looks V.Vault vault.old vault.new (fault_in result) }
{
    let mut pages = Vec::new(alloc);
    for i in 0..run.count {
        let number = run.first + i as u32;
        if let Err(fault) = push_page(alloc, vault, intents, file, number, &mut pages) {
            return Err(fault);
        }
    }
    Ok(PageList::new(pages))
}
