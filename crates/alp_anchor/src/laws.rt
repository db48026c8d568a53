//! The law of anchors, as a contract.
ghost use Rattle.std.specs.Prelude.{◌≡◌, ℕ};
ghost use Rattle.alp_disk.specs.Disk.{Image as Pages};
ghost use Rattle.alp_anchor.specs.declared.anchor.Anchor.{Anchor as Said};
ghost use Rattle.alp_anchor.specs.Anchor.{Counts};

/// Of the anchors of one server at most one counts.
pub fn one_anchor_counts()
    ensures { (n : ℕ) (image : Pages) (a b : Said) → Counts n image a → Counts n image b → a.server ≡ b.server → a.servers ≡ b.servers → a ≡ b }
{}
