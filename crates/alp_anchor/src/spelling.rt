//! Anchors as pages.
ghost use Rattle.std.specs.Prelude.{◌≡◌, ◌<◌, ◌≤◌, ℕ, ◌↔◌, IsTrue, MatchOption};
ghost use Rattle.alp_anchor.specs.Anchor.{AreSizesOf, IsOpen, IsOwn, open_anchor};

use crate::Anchor;
use alp_base::{Page, Sizes};
use alp_disk::OPEN_GATE;

/// The page of an anchor, with an open gate.
pub fn anchor_page(anchor: &Anchor) -> Page
    requires { anchor.now.sizes.area ≤ 4096 }
    ensures { result ≡ open_anchor anchor.now }
{
    let g = anchor.generation.to_be_bytes();
    let a = (anchor.sizes.area as u16).to_be_bytes();
    let h = anchor.sizes.home.to_be_bytes();
    Page::beginning(&[
        OPEN_GATE,
        65,
        76,
        80,
        73,
        78,
        69,
        49,
        g[0],
        g[1],
        g[2],
        g[3],
        anchor.area,
        anchor.server,
        anchor.servers,
        0,
        a[0],
        a[1],
        h[0],
        h[1],
        h[2],
        h[3],
    ])
}

/// The fields at their places, whether or not the page is an anchor.
fn fields(page: &Page, index: u8) -> Anchor
    ensures index { result.page ≡ index }
    ensures bytes { (b : Anchor) (n : ℕ) → IsOpen n page.now b → result ≡ record b { page = index } }
{
    let b = page.bytes();
    Anchor {
        page: index,
        generation: u32::from_be_bytes([b[8], b[9], b[10], b[11]]),
        area: b[12],
        server: b[13],
        servers: b[14],
        sizes: Sizes {
            area: u16::from_be_bytes([b[16], b[17]]) as u32,
            home: u32::from_be_bytes([b[18], b[19], b[20], b[21]]),
        },
    }
}

/// Whether the sizes are within the limits and make up so many pages.
fn are_sizes_of(sizes: Sizes, pages: u32) -> bool
    ensures { IsTrue result ↔ AreSizesOf pages sizes }
{
    if sizes.area < 64 || 4096 < sizes.area || sizes.home < 512 || 65536 < sizes.home {
        return false;
    }
    2 + 2 * sizes.area + sizes.home == pages
}

/// The anchor of a page, where it is an open one in the grammar.
fn decode(page: &Page, index: u8, pages: u32) -> Option<Anchor>
    requires { index ≤ 1 }
    ensures { MatchOption result ((b : Anchor) → IsOpen pages page.now b → ⊥) (λ a. IsOpen pages page.now a × (a.page ≡ index)) }
{
    let anchor = fields(page, index);
    if anchor.area > 1 || !are_sizes_of(anchor.sizes, pages) {
        return None;
    }
    let spelled = anchor_page(&anchor);
    if page.bytes() != spelled.bytes() {
        return None;
    }
    Some(anchor)
}

/// The anchor of a page, where it is an open one that names this server.
pub fn own_anchor(page: &Page, index: u8, pages: u32, server: u8, servers: u8) -> Option<Anchor>
    requires { index ≤ 1 }
    ensures { MatchOption result ((b : Anchor) → IsOwn server servers pages page.now b → ⊥) (λ a. IsOwn server servers pages page.now a × (a.page ≡ index)) }
{
    let anchor = decode(page, index, pages)?;
    if anchor.server != server {
        return None;
    }
    if anchor.servers != servers {
        return None;
    }
    Some(anchor)
}
