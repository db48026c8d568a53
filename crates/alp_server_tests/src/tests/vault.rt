//! Tests of alp_vault.
ghost use Rattle.std.specs.Prelude.{◌≡◌, ◌≤◌, IfOk, OnOk, IfSome, IsTrue, true, false};
ghost use Rattle.std.specs.FinMap as map;
ghost use Rattle.alp_files.specs.Edits.{edits_map};
ghost use Rattle.alp_files.specs.Changes.{edits_of};
ghost use Rattle.alp_vault.specs.MemVault.{held_by};
ghost use Rattle.alp_vault.specs.Stages.{is_serving};
ghost use Rattle.alp_vault.specs.Volumes.{IsVolumeOf};
ghost use Rattle.alp_base.specs.declared.faults.Sizes.{Sizes as SizesOf};

use alp_base::{
    AccessList, Bytes, Cell, Change, CutList, FileId, FileList, Key, Name, OutOfMemory,
    OwnerRecord, PutList, Sizes, VaultFault,
};
use alp_fields::{ClockNote, clock_change, read_clock};
use alp_vault::{MemVault, Vault};
use std::alloc::Global;
use std::test::*;

const CLOCK: ClockNote = ClockNote { epoch: 1, clock: 7 };

fn new_vault(alloc: Global) -> MemVault
    ensures empty { held_by result ≡ record { cells = map.empty; notes = map.empty } }
    ensures serves { is_serving result.stage ≡ true }
    ensures sizes { result.sizes ≡ record { home = 512; area = 64 } }
{
    MemVault::new(
        alloc,
        Sizes {
            home: 512,
            area: 64,
        },
        1,
        1,
    )
}

fn ann() -> Name {
    Name::spelled(b"ann")
}

/// The owner `ann` comes.
fn with_owner(alloc: Global) -> Result<Change, OutOfMemory>
    ensures room { IfOk result (λ c. (sizes : SizesOf) → 512 ≤ sizes.home → IsVolumeOf sizes (edits_map (edits_of c) map.empty)) }
{
    let name = ann();
    let record = OwnerRecord {
        name,
        quota: 9,
        charge: 0,
        create: AccessList::new(Vec::new(alloc)),
    };
    let put = (Key::OwnerOf(name), Cell::Owner(record));
    Ok(Change {
        drops: FileList::new(Vec::new(alloc)),
        cuts: CutList::new(Vec::new(alloc)),
        puts: PutList::new(vec![in alloc; put]?),
    })
}

/// Makes that change with the note of the clock, of a vault that holds nothing and passes so many changes.
fn commit_owner(
    alloc: Global,
    vault: &mut MemVault,
    changes: Option<u32>,
) -> Result<Result<(), VaultFault>, OutOfMemory>
    requires empty { held_by vault.old ≡ record { cells = map.empty; notes = map.empty } }
    requires serves { is_serving vault.old.stage ≡ true }
    requires sizes { vault.old.sizes ≡ record { home = 512; area = 64 } }
    ensures serves { IfOk result (λ done. OnOk done (is_serving vault.new.stage ≡ true)) }
{
    let change = with_owner(alloc)?;
    let clock = clock_change(alloc, CLOCK)?;
    vault.stop_after(changes);
    Ok(vault.commit(&change, &[clock]))
}

/// The owners, and the clock.
fn seen<V: Vault>(alloc: Global, vault: &V) -> Result<(u32, Option<ClockNote>), OutOfMemory>
    requires { IsTrue (V.serves vault.now) }
{
    let name = Bytes::new(vec![in alloc; b'C']?);
    let clock = match vault.note(&name) {
        Some(note) => read_clock(note.as_slice()),
        None => None,
    };
    Ok((vault.owner_count(), clock))
}

const FILE: FileId = FileId {
    server: 1,
    epoch: 1,
    counter: 1,
};

fn names_owner(owners: &[Name]) -> bool {
    match owners {
        [name] => *name == ann(),
        _ => false,
    }
}

/// Whether the vault counts the owner, and no file.
fn counts_owner<V: Vault>(vault: &V) -> bool
    requires { IsTrue (V.serves vault.now) }
{
    vault.used() == 0
        && vault.file_count() == 0
        && !vault.has_block(FILE, 0)
        && names_owner(vault.owners())
}

fn is_owner(cell: &Option<Cell>) -> bool {
    matches!(cell, Some(Cell::Owner(_)))
}

fn gives_owner<V: Vault>(vault: &mut V) -> bool
    requires { IsTrue (V.serves vault.old) }
{
    match vault.fetch(&Key::OwnerOf(ann())) {
        Ok(cell) => is_owner(&cell),
        Err(_fault) => false,
    }
}

/// Whether the vault holds the owner and the clock.
fn holds_both<V: Vault>(alloc: Global, vault: &mut V) -> Result<bool, OutOfMemory>
    requires { IsTrue (V.serves vault.old) }
{
    let found = seen(alloc, vault)?;
    Ok(found == (1, Some(CLOCK)) && counts_owner(vault) && gives_owner(vault))
}

fn is_read_back(alloc: Global) -> Result<bool, OutOfMemory> {
    let mut vault = new_vault(alloc);
    match commit_owner(alloc, &mut vault, None)? {
        Ok(()) => holds_both(alloc, &mut vault),
        Err(_fault) => Ok(false),
    }
}

#[test]
fn a_commit_is_read_back(rt: HostRuntime) -> Result<(), Fail> {
    assert!(rt; is_read_back(rt.alloc())?);
    Ok(())
}

/// What is seen after a crash with that pick, and a recovery.
fn seen_after<V: Vault>(
    alloc: Global,
    vault: V,
    pick: u64,
) -> Result<Option<(u32, Option<ClockNote>)>, OutOfMemory> {
    match vault.power_off(pick).recover() {
        Ok(back) => Ok(Some(seen(alloc, &back)?)),
        Err(_halted) => Ok(None),
    }
}

/// The same after a stopped commit.
fn after_a_stop(alloc: Global, pick: u64) -> Result<Option<(u32, Option<ClockNote>)>, OutOfMemory> {
    let mut vault = new_vault(alloc);
    if commit_owner(alloc, &mut vault, Some(0))? != Err(VaultFault::Stopped) {
        return Ok(None);
    }
    seen_after(alloc, vault, pick)
}

#[test]
fn a_stopped_commit_was_made_or_not(rt: HostRuntime) -> Result<(), Fail> {
    let alloc = rt.alloc();
    assert!(rt; after_a_stop(alloc, 0)? == Some((0, None)));
    assert!(rt; after_a_stop(alloc, 1)? == Some((1, Some(CLOCK))));
    Ok(())
}

/// The vault again, where it is stopped in its recovery.
fn stopped_again<V: Vault>(vault: V) -> Option<V>
    requires { V.serves vault ≡ false }
    ensures { IfSome result (λ again. V.serves again ≡ false) }
{
    match vault.recover() {
        Ok(_back) => None,
        Err((again, fault)) => {
            if fault == VaultFault::Stopped {
                Some(again)
            } else {
                None
            }
        }
    }
}

/// Whether the vault is stopped in its recovery, and in the next one too.
fn stops_twice<V: Vault>(vault: V) -> bool
    requires { V.serves vault ≡ false }
{
    match stopped_again(vault) {
        Some(again) => match stopped_again(again) {
            Some(_last) => true,
            None => false,
        },
        None => false,
    }
}

/// Whether it is so after a crash, where no change may pass.
fn stays_stopped<V: Vault>(vault: V) -> bool {
    let mut back = vault.power_off(0);
    back.stop_after(Some(0));
    stops_twice(back)
}

#[test]
fn a_stopped_vault_stays_stopped(rt: HostRuntime) {
    assert!(rt; stays_stopped(new_vault(rt.alloc())));
}

fn crosses<T: Send + Sync>() {}

#[test]
fn vaults_cross_threads(_rt: HostRuntime) {
    crosses::<MemVault>();
    crosses::<Change>();
}
