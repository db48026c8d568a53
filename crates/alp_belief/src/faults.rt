//! A count of the faults of a bay.
ghost use Rattle.std.specs.Prelude.{◌≡◌, ◌≤◌, ◌<◌, ◌^◌};
ghost use Rattle.alp_base.specs.Causes.{Rose};
ghost use Rattle.alp_bay.specs.declared.bay.BayFault.TheVariants.{Failed};

use alp_bay::BayFault;

/// How often a bay failed. It stands still at the end of its range.
#[derive(Drop)]
pub(crate) struct Faults {
    pub(crate) count: u64,
    ghost end: { count < 2 ^ 64 },
}

impl Faults {
    /// None yet.
    pub(crate) fn new() -> Faults
        ensures { result.count ≡ 0 }
    {
        Faults { count: 0 }
    }

    /// Counts this one, where the bay failed.
    pub(crate) fn told(&mut self, fault: BayFault) -> BayFault
        ensures same { result ≡ fault }
        ensures later { self.old.count ≤ self.new.count }
        ensures rose { fault ≡ Failed → Rose self.old.count self.new.count }
        ensures still { (fault ≡ Failed → ⊥) → self.new.count ≡ self.old.count }
    {
        match fault {
            BayFault::Failed => {
                self.count = self.count.saturating_add(1);
                BayFault::Failed
            }
            BayFault::OutOfMemory => BayFault::OutOfMemory,
        }
    }
}
