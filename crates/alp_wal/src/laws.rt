//! The laws of readings, as contracts.
ghost use Rattle.std.specs.Prelude.{◌≡◌, ℕ, List};
ghost use Rattle.alp_disk.specs.Disk.{Image as Pages};
ghost use Rattle.alp_wal.specs.State.{State};
ghost use Rattle.alp_base.specs.declared.faults.VaultFault.{VaultFault as Refusal};
ghost use Rattle.alp_base.specs.declared.faults.VaultFault.TheVariants.{NotAVolume, Damaged};
ghost use Rattle.alp_wal.specs.Reading.{Reads};
ghost use Rattle.alp_wal.specs.Mount.{IsOfDisk, WhyNotMounted};

/// A disk stands for one list of home pages and one map of notes, or for none.
pub fn a_disk_has_one_reading()
    ensures { (server servers n : ℕ) (image : Pages) (a b : State) → Reads server servers n image a → Reads server servers n image b → a ≡ b }
{}

/// What holds of the causes for which a disk is not mounted: a disk with a reading has none of its own, a
/// disk that is no volume is not a damaged one, and damage is in one place.
pub fn refusals_are_exact()
    ensures reading { (server servers n : ℕ) (image : Pages) (state : State) (fault : Refusal) → Reads server servers n image state → IsOfDisk fault → WhyNotMounted server servers n image fault → ⊥ }
    ensures apart { (server servers n : ℕ) (image : Pages) (found : List ℕ) (p : ℕ) → WhyNotMounted server servers n image (NotAVolume found) → WhyNotMounted server servers n image (Damaged p) → ⊥ }
    ensures place { (server servers n : ℕ) (image : Pages) (p q : ℕ) → WhyNotMounted server servers n image (Damaged p) → WhyNotMounted server servers n image (Damaged q) → p ≡ q }
{}
