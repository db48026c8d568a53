//! A store as its callers see it.
ghost use Rattle.std.specs.Prelude.{◌≡◌, IsTrue, true};
ghost use Rattle.alp_anchor.specs.Anchor.{AreSizesOf};
ghost use Rattle.alp_base.specs.Crashes.{Only};
ghost use Rattle.alp_disk.specs.Disk.{Image};
ghost use Rattle.alp_vault.specs.Contents.{Contents};
ghost use Rattle.alp_vault.specs.Vault.{serves_past_change};
ghost use Rattle.alp_wal.specs.Wal.{disk_of, anchor_of};
ghost use Rattle.alp_store.specs.Holding.{HoldsBy};
ghost use Rattle.alp_store.specs.Told.{contents_of};

use crate::recover::reopen;
use crate::shelf::Shelf;
use crate::stage::Stage;
use alp_base::{Bytes, Cell, Change, FileId, Key, Name, NoteChange, Sizes, VaultFault};
use alp_disk::Disk;
use alp_vault::Vault;
use alp_wal::Wal;
use std::alloc::Global;
use std::marker::Model;

/// A vault on a disk; seen as its log, and whether it serves.
#[derive(Drop)]
pub struct Store<D: Disk> {
    pub(super) alloc: Global,
    pub(super) server: u8,
    pub(super) servers: u8,
    pub(super) stage: Stage<D>,
    pub(super) serves: bool,
}

impl<D: Disk> Model for Store<D> {
    ghost use Rattle.std.specs.Coded.{codes};
    ghost use Rattle.alp_notes.specs.Held.{held_code};
    ghost use Rattle.alp_store.specs.StoreStates.{StoreOf};

    ghost Value = { StoreOf D };

    ghost coded = { Prim.hlevel (codes, D.code, held_code) };

    ghost use Rattle.alp_store.specs.Shelves.{stage_log, IsRight};

    ghost view = { λ s. record { log = stage_log s.stage; serves = s.serves } };

    ghost invariant = { λ s. IsRight D.Disk s.server s.servers s.serves s.stage };
}

/// Whether a store serves on after a change that failed so.
fn is_served_past(fault: &VaultFault) -> bool
    ensures { result ≡ serves_past_change fault.now }
{
    !matches!(fault, VaultFault::Failed | VaultFault::Stopped)
}

impl<D: Disk> Store<D> {
    /// The disk, as it is.
    pub fn into_disk(self) -> D
        ensures disk { result ≡ disk_of self.log }
        ensures sized { AreSizesOf (D.size result) (anchor_of self.log).sizes }
        // Of a store that serves, what the disk reads is what the store holds, and a crash leaves that.
        ensures holds { IsTrue (D.tells result) → self.serves ≡ true → HoldsBy D.Disk self.log (D.seen result) (contents_of D.Disk self.log) }
        ensures left { IsTrue (D.tells result) → self.serves ≡ true → Only (D.seen result) (D.may_leave result) }
        // Of any, whatever a crash leaves of the disk holds something.
        ensures whole { IsTrue (D.tells result) → (image : Image) → D.may_leave result image → (c : Contents) × HoldsBy D.Disk self.log image c }
    {
        let Store { stage, .. } = self;
        match stage {
            Stage::Open(shelf) => {
                let Shelf { pages, .. } = shelf;
                pages.knows();
                pages.close().close()
            }
            Stage::Fallen(log) => log.close(),
        }
    }
}

impl<D: Disk> Vault for Store<D> {
    ghost use Rattle.alp_store.specs.Told.{contents_of};
    ghost use Rattle.alp_store.specs.Holding.{MayLeave, LeftSince};
    ghost use Rattle.alp_store.specs.StoreLaws.{left_now, left_here};

    ghost tells = { λ s. D.tells (disk_of s.log) };

    ghost serves = { λ s. s.serves };

    ghost volume = { λ s. (anchor_of s.log).sizes };

    ghost server = { λ s. (anchor_of s.log).server };

    ghost servers = { λ s. (anchor_of s.log).servers };

    ghost held = { λ s. contents_of D.Disk s.log };

    ghost may_leave = { λ s. MayLeave D.Disk s.log };

    ghost left_since = { λ start s. LeftSince D.Disk start.log s.log };

    ghost faults = { λ s. D.faults (disk_of s.log) };

    ghost allowance = { λ s. D.allowance (disk_of s.log) };

    // What the disk's own crash with that pick may give.
    ghost crashed = { λ s pick back. D.crashed (disk_of s.log) pick (disk_of back.log) };

    ghost faults_end = { λ s. D.faults_end (disk_of s.log) };

    ghost counts_now = { λ start s c may. left_now D.Disk.own D.counts_now start.log s.log c may };

    ghost only_now = { λ s c was. left_here D.Disk.own D.only_now s.log c was };

    fn knows(&self) {
        let Stage::Open(shelf) = &self.stage else {
            return;
        };
        shelf.pages.knows();
    }

    fn sizes(&self) -> Sizes {
        match &self.stage {
            Stage::Open(shelf) => shelf.pages.sizes(),
            Stage::Fallen(log) => log.sizes(),
        }
    }

    fn used(&self) -> u32 {
        match &self.stage {
            Stage::Open(shelf) => shelf.used(),
            Stage::Fallen(_) => unreachable!(),
        }
    }

    fn file_count(&self) -> u32 {
        match &self.stage {
            Stage::Open(shelf) => shelf.file_count(),
            Stage::Fallen(_) => unreachable!(),
        }
    }

    fn owner_count(&self) -> u32 {
        match &self.stage {
            Stage::Open(shelf) => shelf.owner_count(),
            Stage::Fallen(_) => unreachable!(),
        }
    }

    fn owners(&self) -> &[Name] {
        match &self.stage {
            Stage::Open(shelf) => shelf.owners(),
            Stage::Fallen(_) => unreachable!(),
        }
    }

    fn has_block(&self, file: FileId, block: u32) -> bool {
        match &self.stage {
            Stage::Open(shelf) => shelf.has_block(file, block),
            Stage::Fallen(_) => unreachable!(),
        }
    }

    fn fetch(&mut self, key: &Key) -> Result<Option<Cell>, VaultFault> {
        let alloc = self.alloc;
        let fetched = match &mut self.stage {
            Stage::Open(shelf) => shelf.fetch(alloc, key),
            Stage::Fallen(_) => unreachable!(),
        };
        match fetched {
            Err(VaultFault::Stopped) => {
                self.serves = false;
                Err(VaultFault::Stopped)
            }
            fetched => fetched,
        }
    }

    fn note(&self, name: &Bytes) -> Option<&Bytes> {
        match &self.stage {
            Stage::Open(shelf) => shelf.pages.note(name),
            Stage::Fallen(_) => unreachable!(),
        }
    }

    fn note_names(&self) -> &[Bytes] {
        match &self.stage {
            Stage::Open(shelf) => shelf.pages.note_names(),
            Stage::Fallen(_) => unreachable!(),
        }
    }

    fn commit(&mut self, change: &Change, notes: &[NoteChange]) -> Result<(), VaultFault> {
        let alloc = self.alloc;
        let done = match &mut self.stage {
            Stage::Open(shelf) => shelf.commit(alloc, change, notes),
            Stage::Fallen(_) => unreachable!(),
        };
        match done {
            Ok(()) => Ok(()),
            Err(fault) => {
                self.serves = is_served_past(&fault);
                Err(fault)
            }
        }
    }

    fn stop_after(&mut self, calls: Option<u32>) {
        match &mut self.stage {
            Stage::Open(shelf) => shelf.pages.stop_after(calls),
            Stage::Fallen(log) => log.stop_after(calls),
        }
    }

    fn power_off(self, pick: u64) -> Self {
        let Store {
            alloc,
            server,
            servers,
            stage,
            ..
        } = self;
        let (disk, found) = stage.into_log().apart();
        let log = Wal::over(alloc, disk.power_off(pick), found);
        Store {
            alloc,
            server,
            servers,
            stage: Stage::Fallen(log),
            serves: false,
        }
    }

    fn recover(self) -> Result<Self, (Self, VaultFault)> {
        let Store {
            alloc,
            server,
            servers,
            stage,
            ..
        } = self;
        match reopen(alloc, stage.into_log(), server, servers) {
            Ok(shelf) => Ok(Store {
                alloc,
                server,
                servers,
                stage: Stage::Open(shelf),
                serves: true,
            }),
            Err((log, fault)) => Err((
                Store {
                    alloc,
                    server,
                    servers,
                    stage: Stage::Fallen(log),
                    serves: false,
                },
                fault,
            )),
        }
    }
}
