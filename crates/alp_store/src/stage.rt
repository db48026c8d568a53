//! What a store is at a moment.
ghost use Rattle.std.specs.Prelude.{◌≡◌};

use crate::shelf::Shelf;
use alp_disk::Disk;
use alp_wal::Wal;

/// A volume that is open, or the log of one that fell.
#[derive(Drop)]
pub(super) enum Stage<D: Disk> {
    Open(Shelf<D>),
    Fallen(Wal<D>),
}

impl<D: Disk> Stage<D> {
    ghost use Rattle.alp_store.specs.Shelves.{stage_log};

    /// The log of either.
    pub(super) fn into_log(self) -> Wal<D>
        ensures { result ≡ stage_log self }
    {
        match self {
            Stage::Open(shelf) => {
                let Shelf { pages, .. } = shelf;
                pages.close()
            }
            Stage::Fallen(log) => log,
        }
    }
}
