//! Recovering what a crash left.
ghost use Rattle.std.specs.Prelude.{◌≡◌, MatchResult, true, false};
ghost use Rattle.alp_wal.specs.Wal.{anchor_of};
ghost use Rattle.alp_store.specs.Recoveries.{IsReopened, IsGivenBack};
ghost use Rattle.alp_store.specs.Shelves.{IsStore};

use crate::open::open;
use crate::shelf::Shelf;
use alp_base::{Sizes, VaultFault};
use alp_disk::Disk;
use alp_wal::Wal;
use std::alloc::Global;

fn are_same(a: Sizes, b: Sizes) -> bool
    ensures yes { result ≡ true → a ≡ b }
    ensures other { result ≡ false → a ≡ b → ⊥ }
{
    a == b
}

/// The volume on the disk of a log, read anew; or the log with what it held.
pub(super) fn reopen<D: Disk>(
    alloc: Global,
    log: Wal<D>,
    server: u8,
    servers: u8,
) -> Result<Shelf<D>, (Wal<D>, VaultFault)>
    requires store { IsStore D.Disk log }
    requires number { (anchor_of log).server ≡ server }
    requires of_all { (anchor_of log).servers ≡ servers }
    ensures { MatchResult result (IsReopened D.Disk log) (λ e. IsGivenBack D.Disk log e.0 e.1) }
{
    let sizes = log.sizes();
    let (disk, found) = log.apart();
    match open(alloc, disk, server, servers) {
        Err((disk, fault)) => Err((Wal::over(alloc, disk, found), fault)),
        Ok(shelf) => {
            if !are_same(shelf.pages.sizes(), sizes) {
                let Shelf { pages, .. } = shelf;
                let disk = pages.close().close();
                let other = VaultFault::Damaged { place: 1 };
                return Err((Wal::over(alloc, disk, found), other));
            }
            Ok(shelf)
        }
    }
}
