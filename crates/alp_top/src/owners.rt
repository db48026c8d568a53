//! The owners that a vault holds in the end.
ghost use Rattle.std.specs.Prelude.{◌≡◌, IsTrue, IfOk, None, Some};
ghost use Rattle.std.specs.FinMap as map;
ghost use Rattle.alp_base.specs.declared.allowance.Allowance.TheVariants.{Free};
ghost use Rattle.alp_base.specs.declared.key.Key.TheVariants.{OwnerOf};
ghost use Rattle.alp_files.specs.Cells.{owner_in, owners_of};
ghost use Rattle.alp_cluster.specs.Servers.{HasGoneBy};
ghost use Rattle.alp_top.specs.Looks.{HasLooked};

use alp_base::{Cell, Key, Name, OutOfMemory, OwnerRecord, VaultFault};
use alp_cluster::RunFault;
use alp_vault::Vault;
use std::alloc::Global;

fn copied(alloc: Global, names: &[Name]) -> Result<Vec<Name>, OutOfMemory>
    ensures { IfOk result (λ v. v.items ≡ names.now) }
{
    let mut copies = Vec::new(alloc);
    copies.extend_from_slice(names)?;
    Ok(copies)
}

// The record that stands at the owner's key.
fn owner_record<V: Vault>(
    server: u8,
    vault: &mut V,
    name: Name,
) -> Result<Option<OwnerRecord>, RunFault>
    requires serving { IsTrue (V.serves vault.old) }
    requires free { V.allowance vault.old ≡ Free }
    requires server { V.server vault.old ≡ server }
    ensures gone { HasGoneBy V.Vault (λ s. s ≡ server) (Unit {0}) vault.old vault.new result }
    ensures looked { HasLooked V.Vault vault.old vault.new result }
    ensures record { IsTrue (V.tells vault.old) → IfOk result (λ o. o ≡ owner_in (map.get (V.held vault.old).cells (OwnerOf name))) }
{
    match vault.fetch(&Key::OwnerOf(name)) {
        Ok(Some(Cell::Owner(record))) => Ok(Some(record)),
        Ok(_) => Ok(None),
        Err(VaultFault::OutOfMemory) => Err(RunFault::OutOfMemory),
        Err(_) => Err(RunFault::DiskFault { server }),
    }
}

/// The records of all owners of the server, in rising order of their names.
pub fn owner_records<V: Vault>(
    alloc: Global,
    server: u8,
    vault: &mut V,
) -> Result<Vec<OwnerRecord>, RunFault>
    requires serving { IsTrue (V.serves vault.old) }
    requires free { V.allowance vault.old ≡ Free }
    requires server { V.server vault.old ≡ server }
    ensures gone { HasGoneBy V.Vault (λ s. s ≡ server) (Unit {0}) vault.old vault.new result }
    ensures looked { HasLooked V.Vault vault.old vault.new result }
    ensures owners { IsTrue (V.tells vault.old) → IfOk result (λ v. v.items ≡ owners_of (V.held vault.old).cells) }
{
    vault.knows();
    let names = copied(alloc, vault.owners())?;
    let mut records = Vec::with_capacity(alloc, names.len())?;
    for name in &names {
        if let Some(record) = owner_record(server, vault, *name)? {
            records.push(record)?;
        }
    }
    Ok(records)
}
