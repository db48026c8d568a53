//! The laws of batches, as contracts.
ghost use Rattle.std.specs.Prelude.{◌≡◌, ◌<◌, ◌+◌, ◌*◌, ℕ, length, take, drop, slice_get, Some};
ghost use Rattle.alp_fields.specs.Forms.{IsForm, SpellsOnce};
ghost use Rattle.alp_batch.specs.declared.batch.PageImage.{PageImage as Image};
ghost use Rattle.alp_batch.specs.declared.batch.Batch.{Batch as Together};
ghost use Rattle.alp_batch.specs.Batch.{batch as batch_form, IsBatch, batch_length};

/// What is spelled is read back whatever follows it, and what is read was so spelled. No two batches
/// share a spelling, and none begins another's. The bytes of an image stand 516 apart.
pub fn batches_are_forms()
    ensures form { IsForm batch_form }
    ensures once { SpellsOnce batch_form }
    ensures long { (b : Together) → batch_form.Fits b → length (batch_form.spell b) ≡ batch_length b }
    ensures batch { (b : Together) → batch_form.Fits b → IsBatch b }
    ensures images { (b : Together) (i : ℕ) (one : Image) → batch_form.Fits b → slice_get b.images i ≡ Some one → take 512 (drop (6 + 516 * i) (batch_form.spell b)) ≡ one.page }
{}
