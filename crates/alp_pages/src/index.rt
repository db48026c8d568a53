//! Index pages.
ghost use Rattle.std.specs.Prelude.{◌≡◌, ◌<◌, ℕ, slice_index, slice_index_or, slice_set, length, true, Some};
ghost use Rattle.alp_fields.specs.Forms.{IsRead, whole, repeated, u32 as word};
ghost use Rattle.alp_pages.specs.Pages.{index_page, has_a_place};

use alp_base::{PAGE_BYTES, Page};
use alp_fields::{FieldReader, set_u32s};
use std::marker::Model;

/// How many places an index page has.
pub const PAGES_PER_BLOCK: usize = 128;

/// The places that an index page names, where 0 means none; seen as a list of numbers.
#[derive(Clone, Copy)]
pub struct IndexPlaces {
    places: [u32; 128],
}

impl Model for IndexPlaces {
    ghost use Rattle.std.specs.Prelude.{ℕ, List};

    ghost Value = { List ℕ };

    ghost view = { λ p. p.places };

    ghost inverse = { λ xs. record { places = xs } };
}

fn names_some(places: &[u32]) -> bool
    ensures { result ≡ has_a_place places.now }
{
    places.iter().any(|p| *p != 0)
}

fn read_row(reader: &mut FieldReader) -> Option<IndexPlaces>
    ensures { IsRead (repeated word 128) reader.old reader.new result }
{
    let mut places = [0u32; 128];
    reader.u32s(&mut places)?;
    Some(IndexPlaces { places })
}

#[tactic(auto, unfolding(crate::specs::Pages::index_page))]
fn read_index(reader: &mut FieldReader) -> Option<IndexPlaces>
    ensures { IsRead index_page reader.old reader.new result }
{
    let found = read_row(reader)?;
    if !names_some(&found.places) {
        return None;
    }
    Some(found)
}

/// The places that the page names, if it is an index page.
pub fn decode_index(page: &[u8]) -> Option<IndexPlaces>
    ensures { result ≡ whole index_page page.now }
{
    let mut reader = FieldReader::new(page);
    let found = read_index(&mut reader)?;
    if !reader.is_empty() {
        return None;
    }
    Some(found)
}

impl IndexPlaces {
    /// The places of a block without pages.
    pub fn none() -> IndexPlaces
        ensures none { (k : ℕ) → slice_index_or result k 0 ≡ 0 }
        ensures all { length result ≡ PAGES_PER_BLOCK }
    {
        IndexPlaces { places: [0; 128] }
    }

    /// The place of a page of the block.
    pub fn at(&self, slot: usize) -> u32
        requires { slot < PAGES_PER_BLOCK }
        ensures { result ≡ slice_index self.now slot }
    {
        self.places[slot]
    }

    /// Whether any page of the block has a place.
    pub fn is_used(&self) -> bool
        ensures { result ≡ has_a_place self.now }
    {
        names_some(&self.places)
    }

    /// All of them, in the order of the pages.
    pub fn as_slice(&self) -> &[u32]
        ensures same { result.now ≡ self.now }
        ensures all { length result.now ≡ PAGES_PER_BLOCK }
    {
        &self.places
    }

    /// Changes the place of a page of the block.
    pub fn set(&mut self, slot: usize, place: u32)
        requires { slot < PAGES_PER_BLOCK }
        ensures { self.new ≡ slice_set self.old slot place }
    {
        self.places[slot] = place;
    }

    /// The page that spells the places.
    pub fn page(&self) -> Page
        requires { has_a_place self.now ≡ true }
        ensures { whole index_page result ≡ Some self.now }
    {
        let mut bytes = [0u8; PAGE_BYTES];
        set_u32s(&mut bytes, 0, &self.places);
        Page::new(bytes)
    }
}
