//! Starting a store on a disk.
ghost use Rattle.std.specs.Prelude.{◌≡◌, ◌≤◌, ℕ, IsTrue, IfOk, IfErr, MatchResult, true};
ghost use Rattle.alp_anchor.specs.Anchor.{AreSizesOf, Counts};
ghost use Rattle.alp_disk.specs.Calls.{IsSameDevice, Looked};
ghost use Rattle.alp_vault.specs.Vault.{AreSizes, IsServer};
ghost use Rattle.alp_vault.specs.Volumes.{AreServerNotes};
ghost use Rattle.alp_wal.specs.Wal.{disk_of, anchor_of, notes_of};
ghost use Rattle.alp_store.specs.Holding.{HoldsBy};
ghost use Rattle.alp_store.specs.Shelves.{shelf_log, IsShelf};
ghost use Rattle.alp_store.specs.Starts.{IsNew, AreOfServer, IsStarted, HasFormatted, WhyNotStarted, HasOpenCause};
ghost use Rattle.alp_store.specs.Told.{contents_of};

use crate::new_volume::{create, is_new};
use crate::open::open;
use crate::shelf::Shelf;
use crate::stage::Stage;
use crate::store::Store;
use alp_base::{Halt, OutOfMemory, Sizes, VaultFault};
use alp_disk::Disk;
use std::alloc::Global;

/// The disk under a volume.
fn disk_under<D: Disk>(shelf: Shelf<D>) -> D
    ensures { result ≡ disk_of (shelf_log shelf) }
{
    let Shelf { pages, .. } = shelf;
    pages.close().close()
}

/// The volume of a server on a disk, with notes and files of that server.
fn open_own<D: Disk>(
    alloc: Global,
    disk: D,
    server: u8,
    servers: u8,
) -> Result<Shelf<D>, (D, VaultFault)>
    requires pages { 2 ≤ D.size disk }
    requires server { IsServer server servers }
    ensures shelf { IfOk result (IsShelf D.Disk) }
    ensures holds { IsTrue (D.tells disk) → IfOk result (λ s. HoldsBy D.Disk (shelf_log s) (D.seen disk) (contents_of D.Disk (shelf_log s))) }
    ensures own { IsTrue (D.tells disk) → IfOk result (λ s. AreOfServer server servers (contents_of D.Disk (shelf_log s))) }
    ensures counts { IsTrue (D.tells disk) → IfOk result (λ s. Counts (D.size disk) (D.seen disk) (anchor_of (shelf_log s))) }
    ensures notes { IfOk result (λ s. AreServerNotes server servers (notes_of (shelf_log s))) }
    ensures named { IfOk result (λ s. ((anchor_of (shelf_log s)).server ≡ server) × ((anchor_of (shelf_log s)).servers ≡ servers)) }
    ensures below { MatchResult result (λ s. Looked D.Disk disk (disk_of (shelf_log s))) (λ e. Looked D.Disk disk e.0) }
    ensures why_not { IsTrue (D.tells disk) → IfErr result (λ e. WhyNotStarted server servers (D.size disk) (D.seen disk) e.1) }
    ensures cause { HasOpenCause D.Disk (λ s. disk_of (shelf_log s)) disk result }
{
    let shelf = open(alloc, disk, server, servers)?;
    match shelf.is_of_server(alloc, server, servers) {
        Ok(true) => {
            shelf.pages.knows();
            Ok(shelf)
        }
        Ok(false) => Err((disk_under(shelf), VaultFault::Damaged { place: 0 })),
        Err(OutOfMemory) => Err((disk_under(shelf), VaultFault::OutOfMemory)),
    }
}

/// A new disk is formatted, and any other mounted.
fn shelf_on<D: Disk>(
    alloc: Global,
    disk: D,
    server: u8,
    servers: u8,
    sizes: Sizes,
) -> Result<Shelf<D>, (D, VaultFault)>
    requires pages { 2 ≤ D.size disk }
    requires sizes { AreSizes sizes }
    requires server { IsServer server servers }
    ensures shelf { IfOk result (IsShelf D.Disk) }
    ensures new { IsTrue (D.tells disk) → IsNew sizes (D.size disk) (D.seen disk) → HasFormatted D.Disk (λ s. shelf_log s) server servers sizes disk result }
    ensures mounted { IsTrue (D.tells disk) → (IsNew sizes (D.size disk) (D.seen disk) → ⊥) → IfOk result (λ s. IsStarted D.Disk disk (shelf_log s)) }
    ensures why_not { IsTrue (D.tells disk) → (IsNew sizes (D.size disk) (D.seen disk) → ⊥) → IfErr result (λ e. WhyNotStarted server servers (D.size disk) (D.seen disk) e.1) }
    ensures looked { IsTrue (D.tells disk) → (IsNew sizes (D.size disk) (D.seen disk) → ⊥) → MatchResult result (λ s. Looked D.Disk disk (disk_of (shelf_log s))) (λ e. Looked D.Disk disk e.0) }
    ensures notes { IfOk result (λ s. AreServerNotes server servers (notes_of (shelf_log s))) }
    ensures named { IfOk result (λ s. ((anchor_of (shelf_log s)).server ≡ server) × ((anchor_of (shelf_log s)).servers ≡ servers)) }
    ensures below { MatchResult result (λ s. IsSameDevice D.Disk disk (disk_of (shelf_log s))) (λ e. IsSameDevice D.Disk disk e.0) }
    ensures cause { HasOpenCause D.Disk (λ s. disk_of (shelf_log s)) disk result }
{
    let mut disk = disk;
    match is_new(&mut disk, sizes) {
        Ok(true) => create(alloc, disk, server, servers, sizes),
        Ok(false) => open_own(alloc, disk, server, servers),
        Err(Halt::Failed) => Err((disk, VaultFault::Failed)),
        Err(Halt::Stopped) => Err((disk, VaultFault::Stopped)),
    }
}

impl<D: Disk> Store<D> {
    /// A store on the disk of a server, one of so many. A new disk is formatted, to a volume of these sizes; any other keeps
    /// its own, and nothing that a read gives of it is changed. Notes of no format of the server, and files that it did not
    /// give, are damage at place 0; what the notes say of one another is not looked at.
    pub fn start(
        alloc: Global,
        disk: D,
        server: u8,
        servers: u8,
        sizes: Sizes,
    ) -> Result<Store<D>, (D, VaultFault)>
        requires pages { 2 ≤ D.size disk }
        requires sizes { AreSizes sizes }
        requires server { IsServer server servers }
        ensures serves { IfOk result (λ s. s.serves ≡ true) }
        // A new disk becomes a volume of these sizes that holds nothing; where memory is not there, it stays new. After a fault it is one
        // that a stop within the call could leave.
        ensures new { IsTrue (D.tells disk) → IsNew sizes (D.size disk) (D.seen disk) → HasFormatted D.Disk (λ s. s.log) server servers sizes disk result }
        // Any other is mounted, with the cells and notes of its reading. It reads on as before, and a crash leaves no more of it.
        ensures mounted { IsTrue (D.tells disk) → (IsNew sizes (D.size disk) (D.seen disk) → ⊥) → IfOk result (λ s. IsStarted D.Disk disk s.log) }
        ensures why_not { IsTrue (D.tells disk) → (IsNew sizes (D.size disk) (D.seen disk) → ⊥) → IfErr result (λ e. WhyNotStarted server servers (D.size disk) (D.seen disk) e.1) }
        ensures looked { IsTrue (D.tells disk) → (IsNew sizes (D.size disk) (D.seen disk) → ⊥) → MatchResult result (λ s. Looked D.Disk disk (disk_of s.log)) (λ e. Looked D.Disk disk e.0) }
        ensures sized { IfOk result (λ s. AreSizesOf (D.size (disk_of s.log)) (anchor_of s.log).sizes) }
        ensures notes { IfOk result (λ s. AreServerNotes server servers (notes_of s.log)) }
        ensures named { IfOk result (λ s. ((anchor_of s.log).server ≡ server) × ((anchor_of s.log).servers ≡ servers)) }
        ensures below { MatchResult result (λ s. IsSameDevice D.Disk disk (disk_of s.log)) (λ e. IsSameDevice D.Disk disk e.0) }
        ensures cause { HasOpenCause D.Disk (λ s. disk_of s.log) disk result }
    {
        let shelf = shelf_on(alloc, disk, server, servers, sizes)?;
        Ok(Store {
            alloc,
            server,
            servers,
            stage: Stage::Open(shelf),
            serves: true,
        })
    }
}
