//! Reading the leaders of a volume with their index pages.
ghost use Rattle.std.specs.Prelude.{◌≡◌, ◌≤◌, ◌<◌, ◌+◌, ◌/◌, ◌⊎◌, ℕ, List, length, true, false, IsTrue, IfOk, Some, slice_index};
ghost use Rattle.std.specs.Option.{option_to_list};
ghost use Rattle.alp_base.specs.declared.ids.FileId.{FileId as File};
ghost use Rattle.alp_pages.specs.Nodes.{IndexOf, DataOf};
ghost use Rattle.alp_pages.specs.Damage.{Name, NodePage, added, has_node, index_part, is_right, names_in};
ghost use Rattle.alp_volume.specs.Reached.{AreFresh, AreMarks, IsJudged, blocks_from};
ghost use Rattle.alp_tables.specs.Bits.{Stays};
ghost use Rattle.alp_pages.specs.Reading.{HasRead};

use crate::marks::mark_row;
use alp_base::VaultFault;
use alp_pages::{PageReader, Places, decode_index};
use alp_tables::Free;

// Whether the page is an index page that names no place from the limit on, and only places that are new.
fn read_index<R: PageReader>(
    reader: &mut R,
    places: &mut Free,
    limit: u32,
    place: u32,
) -> Result<bool, VaultFault>
    requires { place < R.home reader.old }
    ensures judged { (home : ℕ) (names : List Name) (f : File) (b : ℕ) → IsTrue (R.tells reader.old) → AreMarks home names places.old → AreFresh (IndexOf f b) names → IfOk result (λ r. r ≡ is_right home (R.pages reader.old) names (NodePage (IndexOf f b) limit place)) }
    ensures marked { (home : ℕ) (names : List Name) (f : File) (b : ℕ) → IsTrue (R.tells reader.old) → AreMarks home names places.old → AreFresh (IndexOf f b) names → IfOk result (λ r. r ≡ true → AreMarks home (added names (names_in (R.pages reader.old) (NodePage (IndexOf f b) limit place))) places.new) }
    ensures long { length places.new ≡ length places.old }
    ensures stay { Stays places.old places.new }
    ensures read { HasRead R.ReadOn R.faults R.allowance reader.old reader.new result }
{
    let page = reader.page(place)?;
    let Some(row) = decode_index(page.bytes()) else {
        return Ok(false);
    };
    Ok(mark_row(places, limit, row.as_slice()))
}

// Judges the index page of a block, if the block has one.
fn read_block<R: PageReader>(
    reader: &mut R,
    places: &mut Free,
    size: u32,
    block: u32,
    place: u32,
) -> Result<Option<u32>, VaultFault>
    requires place { place < R.home reader.old }
    requires block { block < 32 }
    ensures judged { (home : ℕ) (names : List Name) (f : File) → IsTrue (R.tells reader.old) → AreMarks home names places.old → AreFresh (IndexOf f block) names → IfOk result (IsJudged home (R.pages reader.old) names (option_to_list (index_part f size (block, place))) (λ ns. AreMarks home ns places.new)) }
    ensures long { length places.new ≡ length places.old }
    ensures stay { Stays places.old places.new }
    ensures read { HasRead R.ReadOn R.faults R.allowance reader.old reader.new result }
{
    if place == 0 {
        return Ok(None);
    }
    let limit = size.saturating_sub(128 * block);
    if !read_index(reader, places, limit, place)? {
        return Ok(Some(place));
    }
    Ok(None)
}

/// Judges the index pages that a leader names.
pub fn read_blocks<R: PageReader>(
    reader: &mut R,
    places: &mut Free,
    size: u32,
    index: &Places,
) -> Result<Option<u32>, VaultFault>
    requires row { length index.now ≡ 32 }
    requires within { (b : ℕ) → b < 32 → slice_index index.now b < R.home reader.old }
    ensures judged { (home : ℕ) (names : List Name) (f : File) → IsTrue (R.tells reader.old) → AreMarks home names places.old → ((n : ℕ) → has_node (DataOf f n) names ≡ false) → IfOk result (IsJudged home (R.pages reader.old) names (blocks_from f size index.now 0) (λ ns. AreMarks home ns places.new)) }
    ensures long { length places.new ≡ length places.old }
    ensures stay { Stays places.old places.new }
    ensures read { HasRead R.ReadOn R.faults R.allowance reader.old reader.new result }
{
    for block in 0..32u32 {
        let place = index.at(block as usize);
        if let Some(wrong) = read_block(reader, places, size, block, place)? {
            return Ok(Some(wrong));
        }
    }
    Ok(None)
}
