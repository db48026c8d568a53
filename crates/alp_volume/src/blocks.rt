//! Which blocks of a file have an index page, as bits.
ghost use Rattle.std.specs.Prelude.{◌≡◌, ◌<◌, ℕ, ◌==◌, not, slice_index};
ghost use Rattle.std.specs.Int.{bit_at};
ghost use Rattle.alp_pages.specs.Counted.{bit};

use alp_pages::Places;

// The blocks with that one, if it has a place.
fn with_block(blocks: u32, block: u32, place: u32) -> u32
    requires within { block < 32 }
    requires new { bit_at blocks block ≡ 0 }
    ensures own { bit_at result block ≡ bit (not (place == 0)) }
    ensures others { (b : ℕ) → (b ≡ block → ⊥) → bit_at result b ≡ bit_at blocks b }
{
    if place == 0 {
        return blocks;
    }
    blocks | 1 << block
}

/// The blocks whose index pages the leader names, one bit for each.
pub fn blocks_of(index: &Places) -> u32
    ensures { (b : ℕ) → b < 32 → bit_at result b ≡ bit (not (slice_index index.now b == 0)) }
{
    let mut blocks = 0u32;
    for block in 0..32u32 {
        blocks = with_block(blocks, block, index.at(block as usize));
    }
    blocks
}
