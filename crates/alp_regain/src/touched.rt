//! Whether files stay well formed with what a part puts.
ghost use Rattle.std.specs.Prelude.{◌≡◌, true, false, IfOk, IsTrue, Ok, is_none, ℕ, List, All};
ghost use Rattle.std.specs.FinMap as map;
ghost use Rattle.alp_base.specs.declared.cell.Cell.TheVariants as cell;
ghost use Rattle.alp_base.specs.declared.key.Key.TheVariants as key;
ghost use Rattle.alp_files.specs.Needs.{through};
ghost use Rattle.alp_calls.specs.Looks.{Looks, fault_in};
ghost use Rattle.alp_regain.specs.Seen.{size_at, is_below, limit_by, limit_of, NoneBetween, Passes};
ghost use Rattle.alp_regain.specs.Touched.{EndsAt, IsGoodPut};

use crate::seen::{fetched, owner_stands, page_stands, seen};
use alp_base::{Cell, FileId, Key, Props};
use alp_calls::CallFault;
use alp_trans::Intents;
use alp_vault::Vault;

fn is_unseen<V: Vault>(
    vault: &mut V,
    intents: &Intents,
    file: FileId,
    number: u32,
) -> Result<bool, CallFault>
    requires serving { IsTrue (V.serves vault.old) }
    ensures none { IsTrue (V.tells vault.old) → IfOk result (λ b. b ≡ is_none (through intents.now (map.get (V.held vault.old).cells) (key.PageOf file number))) }
    ensures looked { Looks V.Vault vault.old vault.new (fault_in result) }
{
    Ok(seen(vault, intents, &Key::PageOf(file, number))?.is_none())
}

// Whether none of the file's pages from the first number on, and below the limit, is seen.
fn ends_between<V: Vault>(
    vault: &mut V,
    intents: &Intents,
    file: FileId,
    first: u32,
    limit: u32,
) -> Result<bool, CallFault>
    requires serving { IsTrue (V.serves vault.old) }
    ensures yes { IsTrue (V.tells vault.old) → result ≡ Ok true → NoneBetween (through intents.now (map.get (V.held vault.old).cells)) file first limit }
    ensures no { IsTrue (V.tells vault.old) → result ≡ Ok false → EndsAt (through intents.now (map.get (V.held vault.old).cells)) file first → ⊥ }
    ensures looked { Looks V.Vault vault.old vault.new (fault_in result) }
{
    for number in first..limit {
        if !is_unseen(vault, intents, file, number)? {
            return Ok(false);
        }
    }
    Ok(true)
}

fn size_in(cell: Option<Cell>) -> Option<u32>
    ensures { result ≡ size_at cell }
{
    match cell {
        Some(Cell::Leader(props)) => Some(props.size),
        _ => None,
    }
}

fn limit(size: Option<u32>, gone: Option<u32>) -> u32
    ensures { result ≡ limit_by size gone }
{
    match (size, gone) {
        (Some(size), Some(first)) => size.min(first),
        (Some(size), None) => size,
        (None, _) => 0,
    }
}

// The pages of the file that lie below and stay have numbers below this.
fn limit_for<V: Vault>(vault: &mut V, intents: &Intents, file: FileId) -> Result<u32, CallFault>
    requires serving { IsTrue (V.serves vault.old) }
    ensures limit { IsTrue (V.tells vault.old) → IfOk result (λ n. n ≡ limit_of intents.now (V.held vault.old).cells file) }
    ensures looked { Looks V.Vault vault.old vault.new (fault_in result) }
{
    let size = size_in(fetched(vault, &Key::Leader(file))?);
    Ok(limit(size, intents.first_gone(&file)))
}

// Whether the leader is good where it is put.
fn leader_passes<V: Vault>(
    vault: &mut V,
    intents: &Intents,
    file: FileId,
    props: &Props,
) -> Result<bool, CallFault>
    requires serving { IsTrue (V.serves vault.old) }
    ensures yes { IsTrue (V.tells vault.old) → result ≡ Ok true → Passes intents.now (V.held vault.old).cells (key.Leader file) (cell.Leader props.now) }
    ensures no { IsTrue (V.tells vault.old) → result ≡ Ok false → IsGoodPut (through intents.now (map.get (V.held vault.old).cells)) (key.Leader file) (cell.Leader props.now) → ⊥ }
    ensures looked { Looks V.Vault vault.old vault.new (fault_in result) }
{
    if !owner_stands(vault, intents, props.owner)? {
        return Ok(false);
    }
    let limit = limit_for(vault, intents, file)?;
    ends_between(vault, intents, file, props.size, limit)
}

// Whether the page is.
fn page_passes<V: Vault>(
    vault: &mut V,
    intents: &Intents,
    file: FileId,
    number: u32,
) -> Result<bool, CallFault>
    requires serving { IsTrue (V.serves vault.old) }
    ensures yes { IsTrue (V.tells vault.old) → result ≡ Ok true → is_below number (size_at (through intents.now (map.get (V.held vault.old).cells) (key.Leader file))) ≡ true }
    ensures no { IsTrue (V.tells vault.old) → result ≡ Ok false → (bytes : List ℕ) → IsGoodPut (through intents.now (map.get (V.held vault.old).cells)) (key.PageOf file number) (cell.Page bytes) → ⊥ }
    ensures looked { Looks V.Vault vault.old vault.new (fault_in result) }
{
    page_stands(vault, intents, file, number)
}

// Whether the cell is.
fn passes<V: Vault>(
    vault: &mut V,
    intents: &Intents,
    at: &Key,
    put: &Cell,
) -> Result<bool, CallFault>
    requires serving { IsTrue (V.serves vault.old) }
    ensures yes { IsTrue (V.tells vault.old) → result ≡ Ok true → Passes intents.now (V.held vault.old).cells at.now put.now }
    ensures no { IsTrue (V.tells vault.old) → result ≡ Ok false → IsGoodPut (through intents.now (map.get (V.held vault.old).cells)) at.now put.now → ⊥ }
    ensures looked { Looks V.Vault vault.old vault.new (fault_in result) }
{
    match (at, put) {
        (Key::Leader(file), Cell::Leader(props)) => leader_passes(vault, intents, *file, props),
        (Key::PageOf(file, number), Cell::Page(_)) => page_passes(vault, intents, *file, *number),
        _ => Ok(true),
    }
}

/// Whether all of these cells are.
pub(super) fn all_pass<V: Vault>(
    vault: &mut V,
    intents: &Intents,
    puts: &[(Key, Cell)],
) -> Result<bool, CallFault>
    requires serving { IsTrue (V.serves vault.old) }
    ensures yes { IsTrue (V.tells vault.old) → result ≡ Ok true → All (λ e. Passes intents.now (V.held vault.old).cells e.0 e.1) puts.now }
    ensures no { IsTrue (V.tells vault.old) → result ≡ Ok false → All (λ e. IsGoodPut (through intents.now (map.get (V.held vault.old).cells)) e.0 e.1) puts.now → ⊥ }
    ensures looked { Looks V.Vault vault.old vault.new (fault_in result) }
{
    for put in puts {
        if !passes(vault, intents, &put.0, &put.1)? {
            return Ok(false);
        }
    }
    Ok(true)
}
