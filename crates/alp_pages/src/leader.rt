//! What a leader page says.
ghost use Rattle.std.specs.Prelude.{◌≡◌, ◌<◌, length, nat_eq, slice_index, slice_set};
ghost use Rattle.std.specs.Cmp.{partial_equiv_from_equiv};
ghost use Rattle.std.specs.Cmp.Lexicographic.{pointwise, nat_list_eq_equiv};

use alp_base::{FileId, Props};
use std::marker::Model;

/// How many index pages a leader names.
pub const INDEX_PLACES: usize = 32;

/// The home pages of a file's index pages, by block, where 0 means none; seen as a list of numbers.
#[derive(Clone, Copy)]
pub struct Places {
    places: [u32; 32],
}

impl Model for Places {
    ghost use Rattle.std.specs.Prelude.{ℕ, List};

    ghost Value = { List ℕ };

    ghost view = { λ p. p.places };

    ghost inverse = { λ xs. record { places = xs } };
}

impl Places {
    /// The places given, in the order of the blocks.
    pub fn new(places: [u32; 32]) -> Places
        ensures { result ≡ places }
    {
        Places { places }
    }

    /// All of the places, in the order of the blocks.
    pub fn as_slice(&self) -> &[u32]
        ensures same { result.now ≡ self.now }
        ensures all { length result.now ≡ INDEX_PLACES }
    {
        &self.places
    }

    /// The place of the index page of a block.
    pub fn at(&self, block: usize) -> u32
        requires { block < INDEX_PLACES }
        ensures { result ≡ slice_index self.now block }
    {
        self.places[block]
    }

    /// Changes the place of the index page of a block.
    pub fn set(&mut self, block: usize, place: u32)
        requires { block < INDEX_PLACES }
        ensures { self.new ≡ slice_set self.old block place }
    {
        self.places[block] = place;
    }
}

impl PartialEq for Places {
    ghost eq = { pointwise nat_eq };

    ghost laws = { partial_equiv_from_equiv nat_list_eq_equiv };

    fn eq(&self, other: &Places) -> bool {
        self.as_slice() == other.as_slice()
    }
}

impl Eq for Places {
    ghost laws = { nat_list_eq_equiv };
}

/// The leader of a file: its id and properties, and the places of its index pages.
#[derive(Clone, Drop, PartialEq, Eq)]
pub struct Leader {
    pub file: FileId,
    pub props: Props,
    pub index: Places,
}
