//! A bay whose disks are files of a folder, or in memory.
ghost use Rattle.std.specs.Prelude.{◌≡◌, ℕ, IfOk, IfSome, None, option_map};

use crate::fault_count::FaultCount;
use crate::folder::Folder;
use crate::open::open_volume;
use crate::refusal::Refusal;
use crate::{Bay, BayFault, HostDisk, MemBay};
use alp_base::OutOfMemory;
use alp_disk::Disk;
use std::alloc::Global;
use std::fs::{File, Files};

/// Files `server1.vol` to `server8.vol` of the folder that was chosen, or disks in memory where none was. It tells what
/// stands in memory alone, since no contract can say what a file gives.
#[derive(Drop)]
pub struct HostBay<R: Files<File = File> + Drop> {
    alloc: Global,
    files: R,
    memory: MemBay,
    folder: Option<Folder>,
    faults: FaultCount,
}

impl<R: Files<File = File> + Drop> HostBay<R> {
    ghost use Rattle.alp_bay.specs.HostBays.{host_disk_at};

    /// A bay in which nothing stands in memory, and for which no folder was chosen.
    pub fn new(alloc: Global, files: R) -> Result<HostBay<R>, OutOfMemory>
        ensures memory { IfOk result (λ bay. bay.folder ≡ None) }
        ensures empty { IfOk result (λ bay. (server : ℕ) → host_disk_at bay.memory server ≡ None) }
        ensures faults { IfOk result (λ bay. bay.faults.count ≡ 0) }
    {
        let memory = MemBay::new(alloc)?;
        Ok(HostBay {
            alloc,
            files,
            memory,
            folder: None,
            faults: FaultCount::new(),
        })
    }

    /// Why the host refused the last time.
    pub fn why(&self) -> Option<&Refusal>
        ensures { option_map (λ refusal. refusal.now) result ≡ self.now.faults.why }
    {
        self.faults.why()
    }
}

impl<R: Files<File = File> + Drop> Bay for HostBay<R> {
    ghost use Rattle.std.specs.Prelude.{◌≤◌, not, is_some, OnOk, OnErr, IsErrOf, IsTrue};
    ghost use Rattle.alp_bay.specs.Bays.{HasBayCause, IsTaken, IsEmptied, IsFilled};
    ghost use Rattle.alp_bay.specs.Refusals.{HasWhy, IsNoFolderAt, IsNoDiskFor};
    ghost use Rattle.alp_bay.specs.declared.bay.BayFault.TheVariants.{Failed};
    ghost use Rattle.alp_bay.specs.HostBays.{host_disk_at, host_folder, unnamed_tells, IsOfServer, IsBackAt};

    type Device = HostDisk;

    ghost tells = { λ b. not (is_some b.folder) };

    ghost at = { λ b server. host_disk_at b.memory server };

    ghost chosen = { λ b. host_folder b.folder };

    ghost faults = { λ b. b.faults.count };

    ghost told = { λ b none. unnamed_tells b.folder none };

    ghost faults_end = { λ b. b.faults.end };

    fn choose(&mut self, folder: Option<&str>) -> Result<(), BayFault>
        ensures named { OnOk result (host_folder self.new.folder ≡ option_map (λ name. name.now) folder.entry) }
        ensures refused { OnErr result (self.new.folder ≡ self.old.folder) }
        ensures places { self.new.memory ≡ self.old.memory }
        ensures cause { HasBayCause self.old.faults.count self.new.faults.count result }
        ensures why { IsErrOf result Failed → HasWhy (IsNoFolderAt (option_map (λ name. name.now) folder.entry)) self.new.faults.why }
    {
        let Some(name) = folder else {
            self.folder = None;
            return Ok(());
        };
        match Folder::find(self.alloc, &self.files, name) {
            Ok(found) => {
                self.folder = Some(found);
                Ok(())
            }
            Err(fault) => Err(self.faults.told(fault)),
        }
    }

    fn take(&mut self, server: u8, pages: u32) -> Result<HostDisk, BayFault>
        requires server { (1 ≤ server) × (server ≤ 8) }
        requires pages { 2 ≤ pages }
        ensures taken { IsTrue (not (is_some self.old.folder)) → IfOk result (IsTaken ⟦<HostDisk as Disk>⟧ (host_disk_at self.old.memory server) pages) }
        ensures emptied { IsTrue (not (is_some self.old.folder)) → OnOk result (IsEmptied (host_disk_at self.old.memory) (host_disk_at self.new.memory) server) }
        ensures refused { OnErr result (host_disk_at self.new.memory ≡ host_disk_at self.old.memory) }
        ensures aside { IsTrue (is_some self.old.folder) → self.new.memory ≡ self.old.memory }
        ensures named { IfSome self.old.folder (λ folder. IfOk result (λ disk. IsOfServer server disk folder)) }
        ensures long { IfOk result (λ disk. 2 ≤ ⟦<HostDisk as Disk>⟧.size disk) }
        ensures told { IsTrue (not (is_some self.old.folder)) → IfOk result (λ disk. IsTrue (⟦<HostDisk as Disk>⟧.tells disk)) }
        ensures chosen { self.new.folder ≡ self.old.folder }
        ensures cause { HasBayCause self.old.faults.count self.new.faults.count result }
        ensures why { IsErrOf result Failed → HasWhy IsNoDiskFor self.new.faults.why }
    {
        let Some(folder) = &self.folder else {
            return match self.memory.take(server, pages) {
                Ok(disk) => Ok(HostDisk::Memory(disk)),
                Err(fault) => Err(fault),
            };
        };
        match open_volume(self.alloc, &self.files, folder, server, pages) {
            Ok(disk) => Ok(HostDisk::File(disk)),
            Err(fault) => Err(self.faults.told(fault)),
        }
    }

    fn give(&mut self, server: u8, device: HostDisk)
        requires server { (1 ≤ server) × (server ≤ 8) }
        requires long { 2 ≤ ⟦<HostDisk as Disk>⟧.size device }
        requires told { IsTrue (not (is_some self.old.folder)) → IsTrue (⟦<HostDisk as Disk>⟧.tells device) }
        ensures given { IsTrue (not (is_some self.old.folder)) → IsFilled (host_disk_at self.old.memory) (host_disk_at self.new.memory) server device }
        ensures stands { IsBackAt server self.old.memory self.new.memory device }
        ensures chosen { self.new.folder ≡ self.old.folder }
        ensures faults { self.new.faults ≡ self.old.faults }
    {
        if let HostDisk::Memory(disk) = device {
            self.memory.give(server, disk);
        }
    }
}
