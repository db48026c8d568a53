//! The header of a volume.
ghost use Rattle.std.specs.Prelude.{◌≡◌};
ghost use Rattle.alp_pages.specs.Pages.{header_page};

use alp_base::Page;

/// The name of the format, and its number behind it.
const HEADER: [u8; 8] = *b"VOLUME1\x01";

/// The first home page of every volume. Where all others are zeros, the volume holds nothing.
pub fn new_header() -> Page
    ensures { result ≡ header_page }
{
    Page::beginning(&HEADER)
}
