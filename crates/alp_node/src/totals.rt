//! What live parts come to together.
ghost use Rattle.std.specs.Prelude.{◌≡◌, ◌+◌, ◌<◌, ◌≤◌, ◌^◌};
ghost use Rattle.alp_node.specs.Totals.{no_totals, with_part, without_part};

use alp_trans::Counts;

/// The places that live parts need on the volume, and the files and owners that they made.
#[derive(Clone, Copy)]
pub struct Totals {
    pub places: u32,
    pub files: u32,
    pub owners: u32,
}

impl Totals {
    /// Of no parts.
    pub fn none() -> Totals
        ensures { result ≡ no_totals }
    {
        Totals {
            places: 0,
            files: 0,
            owners: 0,
        }
    }

    /// With a part of these counts.
    pub fn with(self, counts: Counts) -> Totals
        requires places { self.places + counts.places < 2 ^ 32 }
        requires files { self.files + counts.files < 2 ^ 32 }
        requires owners { self.owners + counts.owners < 2 ^ 32 }
        ensures { result ≡ with_part self counts }
    {
        Totals {
            places: self.places + counts.places,
            files: self.files + counts.files,
            owners: self.owners + counts.owners,
        }
    }

    /// Without a part of these counts, which is one of them.
    pub fn without(self, counts: Counts) -> Totals
        requires places { counts.places ≤ self.places }
        requires files { counts.files ≤ self.files }
        requires owners { counts.owners ≤ self.owners }
        ensures { result ≡ without_part self counts }
    {
        Totals {
            places: self.places - counts.places,
            files: self.files - counts.files,
            owners: self.owners - counts.owners,
        }
    }
}
