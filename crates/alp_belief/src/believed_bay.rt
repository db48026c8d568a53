//! A bay of believed devices.
ghost use Rattle.std.specs.Prelude.{◌≡◌, ◌≤◌, ℕ, IfOk, length, replicate, None, true, refl};
ghost use Rattle.alp_disk.specs.MemDisk.{page_count};

use crate::Believed;
use crate::faults::Faults;
use alp_base::OutOfMemory;
use alp_bay::{Bay, BayFault};
use alp_disk::{Disk, MemDisk};
use std::alloc::Global;

// A device of two pages or more.
#[derive(Drop)]
struct Standing<D: Disk> {
    device: Believed<D>,
    ghost long: { 2 ≤ page_count device.model },
}

/// A bay over another one, from which it takes each device once, and keeps it for as long as it stands itself. It tells what stands at
/// its places: to begin with new devices. Of a folder that holds volumes a read is a fault.
#[derive(Drop)]
pub struct BelievedBay<B: Bay + Drop> {
    alloc: Global,
    bay: B,
    // Each at its server's number, and none at 0.
    places: Vec<Option<Standing<B::Device>>>,
    faults: Faults,
    ghost many: { length places.items ≡ 9 },
}

fn no_places<D: Disk>(alloc: Global) -> Result<Vec<Option<Standing<D>>>, OutOfMemory>
    ensures { IfOk result (λ places. places.items ≡ replicate 9 None) }
{
    let mut places = Vec::new(alloc);
    for _ in 0..9u8 {
        places.push(None)?;
    }
    Ok(places)
}

impl<B: Bay + Drop> BelievedBay<B> {
    ghost use Rattle.alp_belief.specs.Beliefs.{believed_at};

    /// A bay in which no device stands.
    pub fn new(alloc: Global, bay: B) -> Result<BelievedBay<B>, OutOfMemory>
        ensures empty { IfOk result (λ b. (server : ℕ) → believed_at b.places.items server ≡ None) }
        ensures chosen { IfOk result (λ b. B.chosen b.bay ≡ B.chosen bay) }
        ensures faults { IfOk result (λ b. b.faults.count ≡ 0) }
    {
        let places = no_places(alloc)?;
        Ok(BelievedBay {
            alloc,
            bay,
            places,
            faults: Faults::new(),
        })
    }
}

impl<B: Bay + Drop> Bay for BelievedBay<B> {
    ghost use Rattle.std.specs.Prelude.{OnOk, OnErr, IsTrue};
    ghost use Rattle.std.specs.Option.{option_map};
    ghost use Rattle.alp_bay.specs.Bays.{HasBayCause, IsTaken, IsEmptied};
    ghost use Rattle.alp_belief.specs.Beliefs.{believed_at};

    type Device = Believed<B::Device>;

    ghost tells = { λ _. true };

    ghost at = { λ b server. believed_at b.places.items server };

    ghost chosen = { λ b. B.Bay.chosen b.bay };

    ghost faults = { λ b. b.faults.count };

    ghost told = { λ _ _. refl };

    ghost faults_end = { λ b. b.faults.end };

    fn choose(&mut self, folder: Option<&str>) -> Result<(), BayFault> {
        match self.bay.choose(folder) {
            Ok(()) => Ok(()),
            Err(fault) => Err(self.faults.told(fault)),
        }
    }

    fn take(&mut self, server: u8, pages: u32) -> Result<Believed<B::Device>, BayFault>
        requires server { (1 ≤ server) × (server ≤ 8) }
        requires pages { 2 ≤ pages }
        ensures taken { IfOk result (IsTaken ⟦<Believed<B::Device> as Disk>⟧ (believed_at self.old.places.items server) pages) }
        ensures emptied { OnOk result (IsEmptied (believed_at self.old.places.items) (believed_at self.new.places.items) server) }
        ensures refused { OnErr result (believed_at self.new.places.items ≡ believed_at self.old.places.items) }
        ensures long { IfOk result (λ device. 2 ≤ page_count device.model) }
        ensures chosen { B.chosen self.new.bay ≡ B.chosen self.old.bay }
        ensures cause { HasBayCause self.old.faults.count self.new.faults.count result }

        // Where none stands there, the device is what the bay below has for this server.
        ensures device { believed_at self.old.places.items server ≡ None → IsTrue (B.tells self.old.bay) → IfOk result (λ device. IsTaken B.Device.Disk (B.at self.old.bay server) pages device.disk) }
    {
        if let Some(standing) = self.places[server as usize].take() {
            return Ok(standing.device);
        }
        let model = MemDisk::new(self.alloc, pages, Vec::new(self.alloc))?;
        let disk = match self.bay.take(server, pages) {
            Ok(disk) => disk,
            Err(fault) => return Err(self.faults.told(fault)),
        };
        if disk.pages() != pages {
            self.bay.give(server, disk);
            return Err(self.faults.told(BayFault::Failed));
        }
        Ok(Believed::new(disk, model))
    }

    fn give(&mut self, server: u8, device: Believed<B::Device>) {
        self.places[server as usize] = Some(Standing { device });
    }
}
