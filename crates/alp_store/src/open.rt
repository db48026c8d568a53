//! Opening the volume that a log holds.
ghost use Rattle.std.specs.Prelude.{◌≡◌, ◌≤◌, ◌+◌, ◌*◌, ℕ, None, Some, IsTrue, IfOk, IfErr, IsErrOf, MatchResult, OnOk, false};
ghost use Rattle.alp_base.specs.declared.faults.VaultFault.TheVariants as fault;
ghost use Rattle.alp_disk.specs.Calls.{Looked, OnlyRead};
ghost use Rattle.alp_files.specs.Cells.{Cells};
ghost use Rattle.alp_pages.specs.Damage.{damage_of};
ghost use Rattle.alp_pages.specs.Reading.{MayBeDamaged};
ghost use Rattle.alp_pages.specs.Volume.{StandFor};
ghost use Rattle.alp_pool.specs.Pools.{log_of, device_of};
ghost use Rattle.alp_vault.specs.Vault.{IsServer};
ghost use Rattle.alp_volume.specs.Known.{IsCatalog, Knows};
ghost use Rattle.alp_wal.specs.Wal.{disk_of, anchor_of, is_dead, IsLog, IsKnown};
ghost use Rattle.alp_store.specs.Told.{pages_of, told_by, contents_of};
ghost use Rattle.alp_store.specs.Reads.{IsReadOn, HasReadPagesAll};
ghost use Rattle.alp_store.specs.Holding.{HoldsBy};
ghost use Rattle.alp_store.specs.Shelves.{shelf_log, IsShelf};
ghost use Rattle.alp_store.specs.Starts.{IsDamagedHome, WhyNotOpened, HasOpenCause};

use crate::home_pages::HomePages;
use crate::shelf::Shelf;
use alp_base::{OutOfMemory, VaultFault};
use alp_disk::Disk;
use alp_volume::{Catalog, read_volume};
use alp_wal::{Wal, mount};
use std::alloc::Global;

/// The pages of a log in buffers, or its disk.
pub(super) fn buffered<D: Disk>(alloc: Global, log: Wal<D>) -> Result<HomePages<D>, (D, VaultFault)>
    requires log { IsLog (D.size (disk_of log)) log }
    requires known { IsTrue (D.tells (disk_of log)) → is_dead log ≡ false → IsKnown (D.size (disk_of log)) (D.seen (disk_of log)) (D.may_leave (disk_of log)) log }
    ensures log { IfOk result (λ p. log_of p ≡ log) }
    ensures back { IfErr result (λ e. e.0 ≡ disk_of log) }
    ensures memory { IfErr result (λ e. e.1 ≡ fault.OutOfMemory) }
{
    match HomePages::new(alloc, log) {
        Ok(pages) => Ok(pages),
        Err((log, OutOfMemory)) => Err((log.close(), VaultFault::OutOfMemory)),
    }
}

/// What memory is to keep of the volume; damage is named at its page of the disk.
fn read_catalog<D: Disk>(alloc: Global, pages: &mut HomePages<D>) -> Result<Catalog, VaultFault>
    requires { is_dead (log_of pages.old) ≡ false }
    ensures known { IsTrue (D.tells (device_of pages.old)) → (m : Cells) (standing : StandFor (anchor_of (log_of pages.old)).sizes.home (pages_of (told_by D.Disk (log_of pages.old))) m) → IfOk result (λ c. Knows (anchor_of (log_of pages.old)).sizes.home standing.volume c) }
    ensures sized { IfOk result (IsCatalog (anchor_of (log_of pages.old)).sizes.home) }
    ensures right { IsTrue (D.tells (device_of pages.old)) → OnOk result (damage_of (anchor_of (log_of pages.old)).sizes.home (pages_of (told_by D.Disk (log_of pages.old))) ≡ None) }
    ensures damaged { IsTrue (D.tells (device_of pages.old)) → (place : ℕ) → IsErrOf result (fault.Damaged place) → IsDamagedHome (anchor_of (log_of pages.old)).sizes (pages_of (told_by D.Disk (log_of pages.old))) place }
    ensures read { HasReadPagesAll D.Disk pages.old pages.new result }
{
    let sizes = pages.sizes();
    pages.knows();
    match read_volume(alloc, pages, sizes.home) {
        Ok(catalog) => Ok(catalog),
        Err(VaultFault::Damaged { place }) => Err(VaultFault::Damaged {
            place: place.saturating_add(2 + 2 * sizes.area),
        }),
        Err(fault) => Err(fault),
    }
}

/// The volume of these pages, or their disk.
pub(super) fn shelve<D: Disk>(
    alloc: Global,
    pages: HomePages<D>,
) -> Result<Shelf<D>, (D, VaultFault)>
    requires alive { is_dead (log_of pages) ≡ false }
    requires server { IsServer (anchor_of (log_of pages)).server (anchor_of (log_of pages)).servers }
    ensures shelf { IfOk result (IsShelf D.Disk) }
    ensures read { MatchResult result (λ s. IsReadOn D.Disk pages s.pages) (λ e. OnlyRead D.Disk (device_of pages) e.0) }
    ensures damaged { IsTrue (D.tells (device_of pages)) → IfErr result (λ e. (place : ℕ) → e.1 ≡ fault.Damaged place → IsDamagedHome (anchor_of (log_of pages)).sizes (pages_of (told_by D.Disk (log_of pages))) place) }
    ensures volume { IfErr result (λ e. MayBeDamaged e.1) }
    ensures cause { HasOpenCause D.Disk (λ s. disk_of (shelf_log s)) (device_of pages) result }
{
    pages.knows();
    let mut pages = pages;
    match read_catalog(alloc, &mut pages) {
        Ok(catalog) => Ok(Shelf { pages, catalog }),
        Err(fault) => Err((pages.close().close(), fault)),
    }
}

/// The volume on a disk, or the disk. Nothing that a read gives is changed.
pub(super) fn open<D: Disk>(
    alloc: Global,
    disk: D,
    server: u8,
    servers: u8,
) -> Result<Shelf<D>, (D, VaultFault)>
    requires pages { 2 ≤ D.size disk }
    requires server { IsServer server servers }
    ensures shelf { IfOk result (IsShelf D.Disk) }
    ensures holds { IsTrue (D.tells disk) → IfOk result (λ s. HoldsBy D.Disk (shelf_log s) (D.seen disk) (contents_of D.Disk (shelf_log s))) }
    ensures named { IfOk result (λ s. ((anchor_of (shelf_log s)).server ≡ server) × ((anchor_of (shelf_log s)).servers ≡ servers)) }
    ensures below { MatchResult result (λ s. Looked D.Disk disk (disk_of (shelf_log s))) (λ e. Looked D.Disk disk e.0) }
    ensures why_not { IsTrue (D.tells disk) → IfErr result (λ e. WhyNotOpened server servers (D.size disk) (D.seen disk) e.1) }
    ensures cause { HasOpenCause D.Disk (λ s. disk_of (shelf_log s)) disk result }
{
    let log = match mount(alloc, disk, server, servers) {
        Ok(log) => log,
        Err(refused) => return Err(refused),
    };
    let pages = match buffered(alloc, log) {
        Ok(pages) => pages,
        Err(refused) => return Err(refused),
    };
    shelve(alloc, pages)
}
