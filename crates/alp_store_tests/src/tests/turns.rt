//! Random changes with restarts, beside a vault in memory.
ghost use Rattle.std.specs.Prelude.{IsTrue, OnOk};

use super::changes::all_keys;
use super::fixtures::{SIZES, mem_disk, started};
use super::memory::Memory;
use super::quiet_disk::QuietDisk;
use super::serving::Serving;
use super::wrong::Wrong;
use alp_disk::Disk;
use alp_store::Store;
use alp_vault::{MemVault, Vault};
use std::alloc::Global;
use std::test::*;

// How many changes are made.
const TURNS: u32 = 1000;

// The next of numbers that look random.
fn next_number(seed: &mut u64) -> u32 {
    *seed = seed
        .wrapping_mul(6364136223846793005)
        .wrapping_add(1442695040888963407);
    (*seed >> 33) as u32
}

// The store, where it holds what the vault in memory holds and counts the same, with the same clock.
fn agreeing<V: Vault>(
    alloc: Global,
    store: Serving<V>,
    memory: &Memory,
) -> Result<Serving<V>, Wrong>
    requires { IsTrue (⟦<MemVault as Vault>⟧.serves memory.now.vault) }
{
    let mut store = store;
    for key in all_keys(alloc)? {
        let (next, same) = store.holds(memory.cells(), &key)?;
        store = next;
        if !same {
            return Err(Wrong::Cell);
        }
    }
    if store.counts(alloc)? != memory.counts(alloc)? {
        return Err(Wrong::Cell);
    }
    Ok(store)
}

// The store again: on its disk anew, or after a crash with a recovery.
fn again<D: Disk>(
    alloc: Global,
    store: Serving<Store<D>>,
    number: u32,
) -> Result<Serving<Store<D>>, Wrong> {
    if number % 2 == 0 {
        return started(alloc, store.into_disk()?, SIZES);
    }
    store.crash(u64::from(number))
}

// A change of both, maybe a restart of the store behind it, and maybe a look whether both hold the same.
fn step<D: Disk>(
    alloc: Global,
    store: Serving<Store<D>>,
    memory: &mut Memory,
    number: u32,
    clock: u32,
) -> Result<Serving<Store<D>>, Wrong>
    requires { IsTrue (⟦<MemVault as Vault>⟧.serves memory.old.vault) }
    ensures { OnOk result (IsTrue (⟦<MemVault as Vault>⟧.serves memory.new.vault)) }
{
    let change = memory.commit_next(alloc, number, clock)?;
    let mut store = store.commit(alloc, &change, clock)?;
    let more = number >> 20;
    if more % 10 == 0 {
        store = again(alloc, store, more / 10)?;
    }
    if more % 5 == 0 {
        return agreeing(alloc, store, memory);
    }
    Ok(store)
}

// All changes of both, and a look at the end.
fn play<D: Disk>(alloc: Global, disk: QuietDisk<D>, memory: &mut Memory) -> Result<(), Wrong>
    requires { IsTrue (⟦<MemVault as Vault>⟧.serves memory.old.vault) }
    ensures { OnOk result (IsTrue (⟦<MemVault as Vault>⟧.serves memory.new.vault)) }
{
    let mut store = started(alloc, disk, SIZES)?;
    let mut seed = 7u64;
    for turn in 0..TURNS {
        store = step(alloc, store, memory, next_number(&mut seed), turn + 1)?;
    }
    let _store = agreeing(alloc, store, memory)?;
    Ok(())
}

// Whether all changes were made, of which some deleted files and some took pages from them.
fn has_played(alloc: Global, memory: &Memory) -> Result<bool, Wrong>
    requires { IsTrue (⟦<MemVault as Vault>⟧.serves memory.now.vault) }
{
    let (_files, owners, _places, clock) = memory.counts(alloc)?;
    Ok(owners == 1 && clock == u64::from(TURNS) && memory.deleted > 0 && memory.cut > 0)
}

#[test]
fn changes_and_restarts_beside_a_vault_in_memory(rt: HostRuntime) -> Result<(), Fail> {
    let alloc = rt.alloc();
    let disk = mem_disk(alloc, SIZES, Vec::new(alloc))?;
    let mut memory = Memory::new(alloc);
    play(alloc, disk, &mut memory)?;
    assert!(rt; has_played(alloc, &memory)?);
    Ok(())
}
