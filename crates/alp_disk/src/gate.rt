//! The gate of a page: its first byte, by which a reader tells whether the rest is there.

/// The first byte of a page that counts; with any other the page is closed.
///
/// A page is written behind a closed gate and synced, and a write of this one byte opens it.
pub const OPEN_GATE: u8 = 0xA5;
