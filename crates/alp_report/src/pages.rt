//! Pages as text: the bytes up to the last that is not zero, those that cannot be seen as escapes.
ghost use Rattle.std.specs.Prelude.{◌≡◌, ℕ, ◌<◌, ◌∷◌, ◌++◌, ◌&&◌, ◌==◌, nat_le, not, OnOk, flat_map};
ghost use Rattle.alp_report.specs.Replies.{shown_part, hex_digit as digit_text, byte_text, page_text, pages_text};

use alp_base::PageRef;
use std::io::{self, Write};

const ZEROS: [u8; 64] = [0; 64];

/// The bytes without the zeros at their end, as far as these come in runs of 64: most pages end in many.
fn without_runs(bytes: &[u8]) -> &[u8]
    ensures { shown_part result.now ≡ shown_part bytes.now }
{
    let mut len = bytes.len();
    while len >= 64 && &bytes[len - 64..len] == ZEROS.as_slice() {
        len -= 64;
    }
    &bytes[..len]
}

/// The bytes up to the last that is not zero.
fn shown(bytes: &[u8]) -> &[u8]
    ensures { result.now ≡ shown_part bytes.now }
{
    let mut len = bytes.len();
    while len > 0 && bytes[len - 1] == 0 {
        len -= 1;
    }
    &bytes[..len]
}

fn stands_for_itself(byte: u8) -> bool
    ensures { result ≡ (nat_le 33 byte && nat_le byte 126 && not (byte == 37)) }
{
    33 <= byte && byte <= 126 && byte != b'%'
}

fn hex_digit(number: u8) -> u8
    requires { number < 16 }
    ensures { result ≡ digit_text number }
{
    if number < 10 {
        b'0' + number
    } else {
        b'a' + (number - 10)
    }
}

fn put_byte(out: &mut Vec<u8>, byte: u8) -> io::Result<()>
    ensures { OnOk result (out.new.items ≡ out.old.items ++ byte_text byte) }
{
    if stands_for_itself(byte) {
        out.extend_from_slice(&[byte])?;
    } else {
        out.extend_from_slice(&[b'%', hex_digit(byte / 16), hex_digit(byte % 16)])?;
    }
    Ok(())
}

fn put_bytes(out: &mut Vec<u8>, bytes: &[u8]) -> io::Result<()>
    ensures { OnOk result (out.new.items ≡ out.old.items ++ flat_map byte_text bytes.now) }
{
    for byte in bytes {
        put_byte(out, *byte)?;
    }
    Ok(())
}

fn put_page(out: &mut Vec<u8>, bytes: &[u8]) -> io::Result<()>
    ensures { OnOk result (out.new.items ≡ out.old.items ++ page_text bytes.now) }
{
    match shown(without_runs(bytes)) {
        [] => write!(out, "-"),
        [b'-'] => write!(out, "%2d"),
        shown => put_bytes(out, shown),
    }
}

/// Appends each page after a space.
pub(crate) fn put_pages(out: &mut Vec<u8>, pages: &[PageRef]) -> io::Result<()>
    ensures { OnOk result (out.new.items ≡ out.old.items ++ pages_text pages.now) }
{
    for page in pages {
        write!(out, " ")?;
        put_page(out, page.bytes())?;
    }
    Ok(())
}
