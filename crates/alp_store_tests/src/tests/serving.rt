//! A vault that serves.
ghost use Rattle.std.specs.Prelude.{◌≡◌, IsTrue, false};
ghost use Rattle.alp_files.specs.Changes.{ArePutOnce};

use super::commits::{commit, counts_of};
use super::fixtures::same_cell;
use super::quiet_disk::QuietDisk;
use super::wrong::Wrong;
use alp_base::{Change, Key, VaultFault};
use alp_disk::Disk;
use alp_files::CellMap;
use alp_store::Store;
use alp_vault::Vault;
use std::alloc::Global;

// A vault that serves, of which nothing is told.
#[derive(Drop)]
pub(super) struct Serving<V: Vault> {
    vault: V,
    ghost serves: { IsTrue (V.serves vault) },
    ghost told: { V.tells vault ≡ false },
}

impl<V: Vault> Serving<V> {
    pub(super) fn of(vault: V) -> Serving<V>
        requires serves { IsTrue (V.serves vault) }
        requires told { V.tells vault ≡ false }
    {
        Serving { vault }
    }

    // Makes the change with the note of that clock.
    pub(super) fn commit(
        self,
        alloc: Global,
        change: &Change,
        clock: u32,
    ) -> Result<Serving<V>, Wrong>
        requires { ArePutOnce change.now.puts }
    {
        let Serving { mut vault } = self;
        match commit(alloc, &mut vault, change, clock) {
            Ok(true) => Ok(Serving { vault }),
            Ok(false) => Err(Wrong::Room),
            Err(_fault) => Err(Wrong::Commit),
        }
    }

    // The same, stopped after so many changing calls, and a crash with that pick. Gives whether it was stopped.
    pub(super) fn stopped(
        self,
        alloc: Global,
        change: &Change,
        clock: u32,
        calls: u32,
        pick: u64,
    ) -> Result<(Serving<V>, bool), Wrong>
        requires { ArePutOnce change.now.puts }
    {
        let Serving { mut vault } = self;
        vault.stop_after(Some(calls));
        match commit(alloc, &mut vault, change, clock) {
            Ok(true) => Ok((Serving { vault }, false)),
            Err(VaultFault::Stopped) => Ok((after_crash(vault, pick)?, true)),
            _ => Err(Wrong::Commit),
        }
    }

    pub(super) fn vault(&self) -> &V {
        &self.vault
    }

    pub(super) fn crash(self, pick: u64) -> Result<Serving<V>, Wrong> {
        after_crash(self.vault, pick)
    }

    // Whether it holds at the key what the map has there.
    pub(super) fn holds(self, cells: &CellMap, key: &Key) -> Result<(Serving<V>, bool), Wrong> {
        let Serving { mut vault } = self;
        match vault.fetch(key) {
            Ok(found) => {
                let same = same_cell(&found, cells.get(key));
                Ok((Serving { vault }, same))
            }
            Err(_fault) => Err(Wrong::Disk),
        }
    }

    pub(super) fn note_count(&self) -> usize {
        self.vault.note_names().len()
    }

    // Files, owners, places and the clock.
    pub(super) fn counts(&self, alloc: Global) -> Result<(u32, u32, u32, u64), Wrong> {
        counts_of(alloc, &self.vault)
    }
}

// What comes back from a crash, and is recovered.
fn after_crash<V: Vault>(vault: V, pick: u64) -> Result<Serving<V>, Wrong>
    requires { V.tells vault ≡ false }
{
    match vault.power_off(pick).recover() {
        Ok(vault) => Ok(Serving { vault }),
        Err(_halted) => Err(Wrong::Recovery),
    }
}

impl<D: Disk> Serving<Store<D>> {
    pub(super) fn into_disk(self) -> Result<QuietDisk<D>, Wrong> {
        QuietDisk::new(self.vault.into_disk())
    }
}
