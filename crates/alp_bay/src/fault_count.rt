//! A count of faults.
ghost use Rattle.std.specs.Prelude.{◌≡◌, ◌≤◌, ◌<◌, ◌^◌, None, Some, option_map};
ghost use Rattle.alp_base.specs.Causes.{Rose};
ghost use Rattle.alp_bay.specs.Refusals.{MatchFault};
ghost use Rattle.alp_bay.specs.declared.bay.BayFault.TheVariants.{Failed, OutOfMemory as NoMemory};

use crate::BayFault;
use crate::refusal::{HostFault, Refusal};

/// How often the host refused, and why it did the last time. The count stands still at the end of its range.
#[derive(Drop)]
pub(crate) struct FaultCount {
    count: u64,
    why: Option<Refusal>,
    ghost end: { count < 2 ^ 64 },
}

impl FaultCount {
    /// No fault yet.
    pub(crate) fn new() -> FaultCount
        ensures count { result.count ≡ 0 }
        ensures why { result.why ≡ None }
    {
        FaultCount {
            count: 0,
            why: None,
        }
    }

    /// Counts a refusal, and keeps why it came.
    pub(crate) fn told(&mut self, fault: HostFault) -> BayFault
        ensures later { self.old.count ≤ self.new.count }
        ensures rose { result ≡ Failed → Rose self.old.count self.new.count }
        ensures still { result ≡ NoMemory → self.new ≡ self.old }
        ensures why { result ≡ Failed → MatchFault fault (λ refusal. self.new.why ≡ Some refusal) ⊥ }
    {
        match fault {
            HostFault::Refused(refusal) => {
                self.count = self.count.saturating_add(1);
                self.why = Some(refusal);
                BayFault::Failed
            }
            HostFault::OutOfMemory => BayFault::OutOfMemory,
        }
    }

    /// Why the host refused the last time.
    pub(crate) fn why(&self) -> Option<&Refusal>
        ensures { option_map (λ refusal. refusal.now) result ≡ self.now.why }
    {
        self.why.as_ref()
    }
}
