//! Lines of text, and their words.
ghost use Rattle.std.specs.Prelude.{◌≡◌, IfOk};
ghost use Rattle.std.specs.List.{list_all};
ghost use Rattle.alp_tokens.specs.Telling.{TellsBy};
ghost use Rattle.alp_tokens.specs.Words.{shown, parts_at, is_ascii, is_line as is_line_said, is_ragged as is_ragged_said, words_of, says as says_so};

use crate::LineFault;
use std::alloc::{AllocError, Global};

/// The most bytes that a line has, its end not counted.
pub const LINE_BYTES: usize = 1024;

fn are_ascii(text: &[u8]) -> bool
    ensures { result ≡ list_all is_ascii text.now }
{
    text.iter().all(|b| *b < 128)
}

/// Whether the bytes are ASCII and not too many.
pub fn is_line(text: &[u8]) -> bool
    ensures { result ≡ is_line_said text.now }
{
    text.len() <= LINE_BYTES && are_ascii(text)
}

/// The parts between separators: one more than there are separators, and maybe empty.
pub fn parts(alloc: Global, bytes: &[u8], separator: u8) -> Result<Vec<&[u8]>, AllocError>
    ensures { IfOk result (λ v. shown v.items ≡ parts_at separator bytes.now) }
{
    bytes.split(|b| *b == separator).collect(alloc)
}

fn is_ragged(text: &[u8]) -> bool
    ensures { result ≡ is_ragged_said text.now }
{
    text.starts_with(b" ") || text.ends_with(b" ")
}

/// The words of a line, which one or more spaces part; none leads or trails.
#[tactic(auto, unfolding(crate::specs::Words::words_of))]
pub fn words_in(alloc: Global, text: &[u8]) -> Result<Vec<&[u8]>, LineFault>
    ensures { TellsBy (λ v. shown v.items) result (words_of text.now) }
{
    if is_ragged(text) {
        return Err(LineFault::Outside);
    }
    let parts = parts(alloc, text, b' ')?;
    let mut words = Vec::new(alloc);
    for part in parts.as_slice() {
        let word: &[u8] = part;
        if !word.is_empty() {
            words.push(word)?;
        }
    }
    Ok(words)
}

/// Whether the word is this text.
pub fn says(word: &[u8], text: &[u8]) -> bool
    ensures { result ≡ says_so word.now text.now }
{
    word == text
}
