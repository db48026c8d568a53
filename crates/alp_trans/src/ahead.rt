//! What a transaction intends with what goes at a call, before it is taken in.
ghost use Rattle.std.specs.Prelude.{◌≡◌, ℕ, ◌≤◌, true, false, None};
ghost use Rattle.std.specs.FinMap as map;
ghost use Rattle.alp_base.specs.declared.key.Key.TheVariants.{PageOf};
ghost use Rattle.alp_files.specs.Counts.{APageStands};
ghost use Rattle.alp_files.specs.Needs.{is_gone as is_gone_said, first_gone as first_gone_said};
ghost use Rattle.alp_trans.specs.Parts.{ahead_of};

use crate::gone::{Gone, first_taken, least, takes};
use crate::intents::Intents;
use alp_base::{FileId, Key};
use alp_files::CellMap;
use std::marker::Model;

/// Intents with what goes at a call, and with other puts in place of theirs; none of them is changed.
#[derive(Drop)]
pub struct Ahead<'a> {
    intents: &'a Intents,
    gone: Option<Gone>,
    puts: &'a CellMap,
}

impl<'a> Model for Ahead<'a> {
    ghost use Rattle.alp_files.specs.Needs.{Intents as TheIntents};
    ghost use Rattle.alp_files.specs.IntentCode.{intents_code};
    ghost use Rattle.alp_trans.specs.Parts.{ahead_of};

    ghost Value = { TheIntents };

    ghost coded = { intents_code };

    ghost view = { λ a. ahead_of a.intents.now a.gone a.puts.now };
}

impl<'a> Ahead<'a> {
    pub fn new(intents: &'a Intents, gone: Option<Gone>, puts: &'a CellMap) -> Ahead<'a>
        ensures { result ≡ ahead_of intents.now gone puts.now }
    {
        Ahead {
            intents,
            gone,
            puts,
        }
    }

    /// Whether a cell is put at the key.
    pub fn puts_at(&self, key: &Key) -> bool
        ensures { result ≡ map.contains_key self.now.puts key.now }
    {
        !takes(self.gone, key) && self.puts.get(key).is_some()
    }

    /// Whether a page of the file is put at a number from `first` to `last`.
    pub fn puts_page_in(&self, file: FileId, first: u32, last: u32) -> bool
        ensures page { result ≡ true → APageStands self.now.puts file first last }
        ensures none { result ≡ false → (n : ℕ) → first ≤ n → n ≤ last → map.get self.now.puts (PageOf file n) ≡ None }
    {
        match first_taken(self.gone, file) {
            None => self.puts.has_page_in(file, first, last),
            Some(end) => first < end && self.puts.has_page_in(file, first, last.min(end - 1)),
        }
    }

    /// Whether what lies below at the key goes.
    pub fn is_gone(&self, key: &Key) -> bool
        ensures { result ≡ is_gone_said self.now key.now }
    {
        takes(self.gone, key) || self.intents.is_gone(key)
    }

    /// The first page number of the file that goes below, if one does.
    pub fn first_gone(&self, file: &FileId) -> Option<u32>
        ensures { result ≡ first_gone_said self.now file.now }
    {
        least(first_taken(self.gone, *file), self.intents.first_gone(file))
    }
}
