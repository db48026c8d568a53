//! Whether notes and files are those of a server.
ghost use Rattle.std.specs.Prelude.{◌≡◌, IsTrue, IfOk, true, false, ◌&&◌, ◌==◌, nat_le};
ghost use Rattle.std.specs.List.{list_all};
ghost use Rattle.alp_vault.specs.Volumes.{AreServerNotes};
ghost use Rattle.alp_wal.specs.Wal.{disk_of, notes_of};
ghost use Rattle.alp_store.specs.Shelves.{shelf_log, IsShelf};
ghost use Rattle.alp_store.specs.Starts.{AreOfServer};
ghost use Rattle.alp_store.specs.Told.{contents_of};

use crate::notes::{are_server_notes, epoch_kept};
use crate::shelf::Shelf;
use alp_base::{FileId, OutOfMemory};
use alp_disk::Disk;
use std::alloc::Global;

/// Whether the ids were given by that server in epochs up to this one.
fn are_given(files: &[FileId], server: u8, epoch: u32) -> bool
    ensures { result ≡ list_all (λ f. f.server == server && nat_le f.epoch epoch) files.now }
{
    files.iter().all(|f| f.server == server && f.epoch <= epoch)
}

impl<D: Disk> Shelf<D> {
    /// Whether the notes are in the format of the server, which is one of so many, and the files its own, in epochs up to that of
    /// the clock's note.
    pub(super) fn is_of_server(
        &self,
        alloc: Global,
        server: u8,
        servers: u8,
    ) -> Result<bool, OutOfMemory>
        requires { IsShelf D.Disk self.now }
        ensures yes { IsTrue (D.tells (disk_of (shelf_log self.now))) → IfOk result (λ own. own ≡ true → AreOfServer server servers (contents_of D.Disk (shelf_log self.now))) }
        ensures other { IsTrue (D.tells (disk_of (shelf_log self.now))) → IfOk result (λ own. own ≡ false → AreOfServer server servers (contents_of D.Disk (shelf_log self.now)) → ⊥) }
        ensures notes { IfOk result (λ own. own ≡ true → AreServerNotes server servers (notes_of (shelf_log self.now))) }
    {
        let noted = are_server_notes(alloc, &self.pages, server, servers)?;
        if !noted {
            return Ok(false);
        }
        let epoch = epoch_kept(alloc, &self.pages)?;
        Ok(are_given(self.catalog.files.ids(), server, epoch))
    }
}
