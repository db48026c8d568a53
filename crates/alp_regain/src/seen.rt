//! What is seen through intents: what they put, or else what the vault holds unless that goes.
ghost use Rattle.std.specs.Prelude.{◌≡◌, IfOk, IsTrue};
ghost use Rattle.std.specs.FinMap as map;
ghost use Rattle.alp_base.specs.declared.key.Key.TheVariants as key;
ghost use Rattle.alp_files.specs.Needs.{through};
ghost use Rattle.alp_base.specs.Faults.{IsOfVolume};
ghost use Rattle.alp_calls.specs.Looks.{Looks, fault_as, fault_in};
ghost use Rattle.alp_regain.specs.Seen.{size_at, is_owner, is_below};

use alp_base::{Cell, FileId, Key, Name, VaultFault};
use alp_calls::CallFault;
use alp_trans::Intents;
use alp_vault::Vault;

// What a vault that is a volume answers to a look.
fn fault_of(fault: VaultFault) -> CallFault
    requires { IsOfVolume fault }
    ensures { result ≡ fault_as fault }
{
    match fault {
        VaultFault::Stopped => CallFault::Stopped,
        VaultFault::OutOfMemory => CallFault::OutOfMemory,
        _ => CallFault::Failed,
    }
}

/// The cell that the vault holds at the key.
pub(super) fn fetched<V: Vault>(vault: &mut V, key: &Key) -> Result<Option<Cell>, CallFault>
    requires { IsTrue (V.serves vault.old) }
    ensures cell { IsTrue (V.tells vault.old) → IfOk result (λ c. c ≡ map.get (V.held vault.old).cells key.now) }
    ensures looked { Looks V.Vault vault.old vault.new (fault_in result) }
{
    match vault.fetch(key) {
        Ok(cell) => Ok(cell),
        Err(fault) => Err(fault_of(fault)),
    }
}

/// The cell that is seen at the key.
pub(super) fn seen<V: Vault>(
    vault: &mut V,
    intents: &Intents,
    key: &Key,
) -> Result<Option<Cell>, CallFault>
    requires serving { IsTrue (V.serves vault.old) }
    ensures cell { IsTrue (V.tells vault.old) → IfOk result (λ c. c ≡ through intents.now (map.get (V.held vault.old).cells) key.now) }
    ensures looked { Looks V.Vault vault.old vault.new (fault_in result) }
{
    if let Some(cell) = intents.put_at(key) {
        let copy = cell.clone()?;
        return Ok(Some(copy));
    }
    if intents.is_gone(key) {
        return Ok(None);
    }
    fetched(vault, key)
}

/// The size in the leader that is seen.
pub(super) fn size_seen<V: Vault>(
    vault: &mut V,
    intents: &Intents,
    file: FileId,
) -> Result<Option<u32>, CallFault>
    requires serving { IsTrue (V.serves vault.old) }
    ensures size { IsTrue (V.tells vault.old) → IfOk result (λ s. s ≡ size_at (through intents.now (map.get (V.held vault.old).cells) (key.Leader file))) }
    ensures looked { Looks V.Vault vault.old vault.new (fault_in result) }
{
    match seen(vault, intents, &Key::Leader(file))? {
        Some(Cell::Leader(props)) => Ok(Some(props.size)),
        _ => Ok(None),
    }
}

/// Whether the owner is seen.
pub(super) fn owner_stands<V: Vault>(
    vault: &mut V,
    intents: &Intents,
    name: Name,
) -> Result<bool, CallFault>
    requires serving { IsTrue (V.serves vault.old) }
    ensures owner { IsTrue (V.tells vault.old) → IfOk result (λ b. b ≡ is_owner (through intents.now (map.get (V.held vault.old).cells) (key.OwnerOf name))) }
    ensures looked { Looks V.Vault vault.old vault.new (fault_in result) }
{
    match seen(vault, intents, &Key::OwnerOf(name))? {
        Some(Cell::Owner(_)) => Ok(true),
        _ => Ok(false),
    }
}

/// Whether the number is below the size in the leader that is seen.
pub(super) fn page_stands<V: Vault>(
    vault: &mut V,
    intents: &Intents,
    file: FileId,
    number: u32,
) -> Result<bool, CallFault>
    requires serving { IsTrue (V.serves vault.old) }
    ensures below { IsTrue (V.tells vault.old) → IfOk result (λ b. b ≡ is_below number (size_at (through intents.now (map.get (V.held vault.old).cells) (key.Leader file)))) }
    ensures looked { Looks V.Vault vault.old vault.new (fault_in result) }
{
    match size_seen(vault, intents, file)? {
        Some(size) => Ok(number < size),
        None => Ok(false),
    }
}
