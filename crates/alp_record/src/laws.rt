//! The laws of records, as contracts.
ghost use Rattle.std.specs.Prelude.{◌≡◌, ℕ, List};
ghost use Rattle.alp_disk.specs.Disk.{Image as Pages};
ghost use Rattle.alp_record.specs.Record.{RecordAt, Records};

/// An area of a disk has the records of a generation in one way: each body is told by its pages, and
/// so is where they end.
pub fn records_are_read_one_way()
    ensures body { (image : Pages) (generation end at : ℕ) (a b : List ℕ) → RecordAt image generation end at a → RecordAt image generation end at b → a ≡ b }
    ensures records { (image : Pages) (generation end at : ℕ) (a b : List (List ℕ)) → Records image generation end at a → Records image generation end at b → a ≡ b }
{}
