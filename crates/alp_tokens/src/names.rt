//! The names, lists of names and texts that words spell.
ghost use Rattle.std.specs.Prelude.{◌≡◌};
ghost use Rattle.std.specs.List.{list_all};
ghost use Rattle.alp_base.specs.Names.{is_between};
ghost use Rattle.alp_tokens.specs.Telling.{Tells};
ghost use Rattle.alp_tokens.specs.Words.{shown};
ghost use Rattle.alp_tokens.specs.Names.{name_of as name_said, names_of, list_of, text_of as text_said};

use crate::LineFault;
use crate::words::{parts, says};
use alp_base::{AccessList, Bytes, NAMES_PER_LIST, Name};
use std::alloc::Global;

/// The most bytes that the text of a write has.
pub const TEXT_BYTES: usize = 64;

/// The name that the word spells.
#[tactic(auto, unfolding(crate::specs::Names::name_of))]
pub fn name(word: &[u8]) -> Result<Name, LineFault>
    ensures { Tells result (name_said word.now) }
{
    match Name::parse(word) {
        Some(name) => Ok(name),
        None => Err(LineFault::Outside),
    }
}

// The access list of these words.
#[tactic(auto, unfolding(crate::specs::Names::names_of))]
fn names(alloc: Global, words: &[&[u8]]) -> Result<AccessList, LineFault>
    ensures { Tells result (names_of (shown words.now)) }
{
    if words.len() > NAMES_PER_LIST {
        return Err(LineFault::Outside);
    }
    let mut names = Vec::new(alloc);
    for word in words {
        let name = name(word)?;
        names.push(name)?;
    }
    Ok(AccessList::new(names))
}

/// The access list of the names between commas, or the one without a name for `-`.
#[tactic(auto, unfolding(crate::specs::Names::list_of))]
pub fn list(alloc: Global, word: &[u8]) -> Result<AccessList, LineFault>
    ensures { Tells result (list_of word.now) }
{
    if says(word, b"-") {
        return Ok(AccessList::new(Vec::new(alloc)));
    }
    let words = parts(alloc, word, b',')?;
    names(alloc, words.as_slice())
}

fn is_text_byte(b: u8) -> bool
    ensures { result ≡ is_between 33 126 b }
{
    33 <= b && b <= 126
}

fn are_text_bytes(word: &[u8]) -> bool
    ensures { result ≡ list_all (is_between 33 126) word.now }
{
    word.iter().all(|b| is_text_byte(*b))
}

/// The text that a page of a write begins with.
#[tactic(auto, unfolding(crate::specs::Names::text_of))]
pub fn text(alloc: Global, word: &[u8]) -> Result<Bytes, LineFault>
    ensures { Tells result (text_said word.now) }
{
    let len = word.len();
    if 1 <= len && len <= TEXT_BYTES && are_text_bytes(word) {
        let bytes = Vec::from_slice(alloc, word)?;
        Ok(Bytes::new(bytes))
    } else {
        Err(LineFault::Outside)
    }
}
