//! A disk on which a store can be started.
ghost use Rattle.std.specs.Prelude.{◌≡◌, ◌≤◌, false};
ghost use Rattle.alp_vault.specs.Vault.{AreSizes, IsServer};

use super::serving::Serving;
use super::wrong::Wrong;
use alp_base::{Page, Sizes, VaultFault};
use alp_disk::Disk;
use alp_store::Store;
use std::alloc::Global;

// A disk of two pages or more, of which nothing is told.
#[derive(Drop)]
pub(super) struct QuietDisk<D: Disk> {
    disk: D,
    ghost told: { D.tells disk ≡ false },
    ghost long: { 2 ≤ D.size disk },
}

impl<D: Disk> QuietDisk<D> {
    pub(super) fn new(disk: D) -> Result<QuietDisk<D>, Wrong>
        requires { D.tells disk ≡ false }
    {
        if disk.pages() < 2 {
            return Err(Wrong::Disk);
        }
        Ok(QuietDisk { disk })
    }

    pub(super) fn pages(&self) -> u32 {
        self.disk.pages()
    }

    pub(super) fn read_page(&mut self, at: u32, page: &mut Page) -> Result<(), Wrong> {
        if at >= self.disk.pages() {
            return Err(Wrong::Disk);
        }
        match self.disk.read(at, page) {
            Ok(()) => Ok(()),
            Err(_halt) => Err(Wrong::Disk),
        }
    }

    pub(super) fn write_page(&mut self, at: u32, page: &Page) -> Result<(), Wrong> {
        if at >= self.disk.pages() {
            return Err(Wrong::Disk);
        }
        match self.disk.write(at, 0, page.bytes()) {
            Ok(()) => Ok(()),
            Err(_halt) => Err(Wrong::Disk),
        }
    }

    pub(super) fn sync(&mut self) -> Result<(), Wrong> {
        match self.disk.sync() {
            Ok(()) => Ok(()),
            Err(_halt) => Err(Wrong::Disk),
        }
    }

    // The store of server 1 of so many on the disk.
    pub(super) fn start(
        self,
        alloc: Global,
        servers: u8,
        sizes: Sizes,
    ) -> Result<Serving<Store<D>>, VaultFault>
        requires server { IsServer 1 servers }
        requires sizes { AreSizes sizes }
    {
        match Store::start(alloc, self.disk, 1, servers, sizes) {
            Ok(store) => Ok(Serving::of(store)),
            Err((_disk, fault)) => Err(fault),
        }
    }
}
