//! A bay as the run of a program sees it.
ghost use Rattle.std.specs.Prelude.{◌≡◌, ℕ, ◌≤◌, ◌<◌, ◌^◌, Bool, IsTrue, List, Option, None, IfOk, OnErr, OnOk};
ghost use Rattle.std.specs.Option.{option_map};
ghost use Rattle.alp_base.specs.declared.allowance.Allowance.TheVariants.{Free};
ghost use Rattle.alp_bay.specs.declared.bay.BayFault.TheVariants.{OutOfMemory as NoMemory};
ghost use Rattle.alp_bay.specs.Bays.{HasBayCause, IsTaken, IsEmptied, IsFilled};

use alp_base::OutOfMemory;
use alp_disk::Disk;
use thiserror::Error;

/// Why a bay gave no device.
#[derive(Clone, Copy, Debug, PartialEq, Eq, Error)]
pub enum BayFault {
    #[error("the bay failed")]
    Failed,
    #[error("out of memory")]
    OutOfMemory,
}

impl From<OutOfMemory> for BayFault {
    ghost from_gives = { λ _ fault. fault ≡ NoMemory };

    fn from(_refused: OutOfMemory) -> BayFault {
        BayFault::OutOfMemory
    }
}

/// A place for the device of each of eight servers.
///
/// What stands at the places is said only where the bay tells it, as it does where no folder was chosen.
pub trait Bay {
    type Device: Disk + Send + Sync;

    /// Whether it tells what stands at its places.
    ghost tells: { Self → Bool };

    /// The device that stands at a server's place, if any.
    ghost at: { Self → ℕ → Option Self.Device };

    /// The folder whose files are its devices, where one was chosen.
    ghost chosen: { Self → Option (List ℕ) };

    /// How often the bay has failed.
    ghost faults: { Self → ℕ };

    /// From now on the devices are those of a folder, or those in memory where none is named.
    fn choose(&mut self, folder: Option<&str>) -> Result<(), BayFault>
        ensures named { OnOk result (chosen self.new ≡ option_map (λ name. name.now) folder.entry) }
        ensures refused { OnErr result (chosen self.new ≡ chosen self.old) }
        ensures places { at self.new ≡ at self.old }
        ensures cause { HasBayCause (faults self.old) (faults self.new) result };

    /// The device that stands at a server's place, which is empty from then on. Where none stands there it is a new one with
    /// so many pages, which reads as zeros.
    fn take(&mut self, server: u8, pages: u32) -> Result<Self::Device, BayFault>
        requires server { (1 ≤ server) × (server ≤ 8) }
        requires pages { 2 ≤ pages }
        ensures taken { IsTrue (tells self.old) → IfOk result (IsTaken Self.Device.Disk (at self.old server) pages) }
        ensures emptied { IsTrue (tells self.old) → OnOk result (IsEmptied (at self.old) (at self.new) server) }
        ensures refused { IsTrue (tells self.old) → OnErr result (at self.new ≡ at self.old) }
        ensures long { IfOk result (λ device. 2 ≤ Self.Device.size device) }
        ensures told { IsTrue (tells self.old) → IfOk result (λ device. IsTrue (Self.Device.tells device)) }
        ensures free { IfOk result (λ device. Self.Device.allowance device ≡ Free) }
        ensures tells { tells self.new ≡ tells self.old }
        ensures chosen { chosen self.new ≡ chosen self.old }
        ensures cause { HasBayCause (faults self.old) (faults self.new) result };

    /// The device stands at the server's place from now on. Takes no memory.
    fn give(&mut self, server: u8, device: Self::Device)
        requires server { (1 ≤ server) × (server ≤ 8) }
        requires long { 2 ≤ Self.Device.size device }
        requires free { Self.Device.allowance device ≡ Free }
        requires told { IsTrue (tells self.old) → IsTrue (Self.Device.tells device) }
        ensures given { IsTrue (tells self.old) → IsFilled (at self.old) (at self.new) server device }
        ensures tells { tells self.new ≡ tells self.old }
        ensures chosen { chosen self.new ≡ chosen self.old }
        ensures faults { faults self.new ≡ faults self.old };

    /// A bay for which no folder was chosen tells what stands in it.
    ghost told: { (bay : Self) → chosen bay ≡ None → IsTrue (tells bay) };

    /// The count of faults stands still at the end of its range.
    ghost faults_end: { (bay : Self) → faults bay < 2 ^ 64 };
}
