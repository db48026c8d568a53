//! Header pages.
ghost use Rattle.std.specs.Prelude.{◌≡◌, ◌<◌, ◌^◌, ℕ, MatchOption};
ghost use Rattle.alp_record.specs.Record.{header};

use alp_base::Page;
use alp_disk::OPEN_GATE;

/// The header page of a record, with an open gate.
pub fn header_page(generation: u32, size: u32) -> Page
    ensures { result ≡ header generation size }
{
    let g = generation.to_be_bytes();
    let s = size.to_be_bytes();
    Page::beginning(&[
        OPEN_GATE, 82, g[0], g[1], g[2], g[3], s[0], s[1], s[2], s[3],
    ])
}

/// The length of the body, where the page is an open header of this generation.
pub(super) fn body_size(page: &Page, generation: u32) -> Option<u32>
    ensures { MatchOption result ((n : ℕ) → n < 2 ^ 32 → page.now ≡ header generation n → ⊥) (λ n. (page.now ≡ header generation n) × (n < 2 ^ 32)) }
{
    let b = page.bytes();
    let size = u32::from_be_bytes([b[6], b[7], b[8], b[9]]);
    let spelled = header_page(generation, size);
    if b != spelled.bytes() {
        return None;
    }
    Some(size)
}
