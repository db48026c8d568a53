//! The bytes that a word spells, two digits each.
ghost use Rattle.std.specs.Prelude.{◌≡◌, ◌<◌, IfOk};
ghost use Rattle.std.specs.List.{list_all};
ghost use Rattle.alp_tokens.specs.Telling.{Tells};
ghost use Rattle.alp_lines.specs.Hex.{is_hex_digit as is_digit_said, digit_of as digit_said, pairs_of, hex_of as hex_said};

use alp_base::Bytes;
use alp_tokens::LineFault;
use std::alloc::{AllocError, Global};

fn is_digit(b: u8) -> bool
    ensures { result ≡ is_digit_said b }
{
    b'0' <= b && b <= b'9' || b'a' <= b && b <= b'f'
}

fn are_digits(word: &[u8]) -> bool
    ensures { result ≡ list_all is_digit_said word.now }
{
    word.iter().all(|b| is_digit(*b))
}

// What a digit stands for, and 0 for any other byte.
fn digit(b: u8) -> u8
    ensures value { result ≡ digit_said b }
    ensures small { result < 16 }
{
    if b'0' <= b && b <= b'9' {
        b - b'0'
    } else if b'a' <= b && b <= b'f' {
        b - 87
    } else {
        0
    }
}

// The bytes of these pairs of digits.
fn pairs(alloc: Global, word: &[u8]) -> Result<Vec<u8>, AllocError>
    ensures { IfOk result (λ v. v.items ≡ pairs_of word.now) }
{
    let mut bytes = Vec::new(alloc);
    for pair in 0..word.len() / 2 {
        let (high, low) = (digit(word[2 * pair]), digit(word[2 * pair + 1]));
        bytes.push(16 * high + low)?;
    }
    Ok(bytes)
}

/// The bytes that the word spells: at least one, of two digits each, from `0` to `9` and from `a` to `f`.
#[tactic(auto, unfolding(crate::specs::Hex::hex_of))]
pub(crate) fn hex(alloc: Global, word: &[u8]) -> Result<Bytes, LineFault>
    ensures { Tells result (hex_said word.now) }
{
    let len = word.len();
    if 2 <= len && len % 2 == 0 && are_digits(word) {
        let bytes = pairs(alloc, word)?;
        Ok(Bytes::new(bytes))
    } else {
        Err(LineFault::Outside)
    }
}
