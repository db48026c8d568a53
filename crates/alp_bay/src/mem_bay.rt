//! A bay of disks in memory.
ghost use Rattle.std.specs.Prelude.{◌≡◌, ◌≤◌, ℕ, IfOk, length, None, true, refl, string_bytes};
ghost use Rattle.alp_disk.specs.MemDisk.{page_count};

use crate::{Bay, BayFault};
use alp_base::OutOfMemory;
use alp_disk::{Disk, MemDisk};
use std::alloc::Global;

// A disk of two pages or more.
#[derive(Drop)]
struct Standing {
    disk: MemDisk,
    ghost long: { 2 ≤ page_count disk },
}

/// Disks in memory, which stand there for as long as the bay does. It tells what stands at its places, and never fails. A folder
/// that is chosen for it changes nothing but what it says of the choice.
#[derive(Drop)]
pub struct MemBay {
    alloc: Global,
    // Each at its server's number, and none at 0.
    places: Vec<Option<Standing>>,
    folder: Option<String>,
    ghost many: { length places.items ≡ 9 },
}

/// A name of its own.
pub(crate) fn copied(alloc: Global, name: &str) -> Result<String, OutOfMemory>
    ensures { IfOk result (λ copy. string_bytes copy ≡ name.now) }
{
    let mut copy = String::new(alloc);
    copy.push_str(name)?;
    Ok(copy)
}

impl MemBay {
    ghost use Rattle.alp_bay.specs.MemBays.{disk_at};

    /// A bay in which no disk stands.
    pub fn new(alloc: Global) -> Result<MemBay, OutOfMemory>
        ensures empty { IfOk result (λ bay. (server : ℕ) → disk_at bay server ≡ None) }
    {
        let places = Vec::from_array(
            alloc,
            [None, None, None, None, None, None, None, None, None],
        )?;
        Ok(MemBay {
            alloc,
            places,
            folder: None,
        })
    }
}

impl Bay for MemBay {
    ghost use Rattle.std.specs.Prelude.{[], OnOk, OnErr};
    ghost use Rattle.alp_disk.specs.MemDisk.{fails_of};
    ghost use Rattle.alp_bay.specs.Bays.{folder_name, no_faults, HasBayCause, IsTaken, IsEmptied};
    ghost use Rattle.alp_bay.specs.MemBays.{disk_at};

    type Device = MemDisk;

    ghost tells = { λ _. true };

    ghost at = { λ b server. disk_at b server };

    ghost chosen = { λ b. folder_name b.folder };

    ghost faults = { λ _. 0 };

    ghost told = { λ _ _. refl };

    ghost faults_end = { λ _. no_faults };

    fn choose(&mut self, folder: Option<&str>) -> Result<(), BayFault> {
        self.folder = match folder {
            Some(name) => Some(copied(self.alloc, name)?),
            None => None,
        };
        Ok(())
    }

    fn take(&mut self, server: u8, pages: u32) -> Result<MemDisk, BayFault>
        requires server { (1 ≤ server) × (server ≤ 8) }
        requires pages { 2 ≤ pages }
        ensures taken { IfOk result (IsTaken ⟦<MemDisk as Disk>⟧ (disk_at self.old server) pages) }
        ensures emptied { OnOk result (IsEmptied (disk_at self.old) (disk_at self.new) server) }
        ensures refused { OnErr result (disk_at self.new ≡ disk_at self.old) }
        ensures long { IfOk result (λ disk. 2 ≤ page_count disk) }
        ensures chosen { self.new.folder ≡ self.old.folder }
        ensures cause { HasBayCause 0 0 result }

        // No call of a new disk is to fail.
        ensures sound { disk_at self.old server ≡ None → IfOk result (λ disk. fails_of disk ≡ []) }
    {
        match self.places[server as usize].take() {
            Some(standing) => Ok(standing.disk),
            None => Ok(MemDisk::new(self.alloc, pages, Vec::new(self.alloc))?),
        }
    }

    fn give(&mut self, server: u8, device: MemDisk) {
        self.places[server as usize] = Some(Standing { disk: device });
    }
}
