//! Places that are marked as pages name them.
ghost use Rattle.std.specs.Prelude.{◌≡◌, ◌<◌, ℕ, ◌&&◌, ◌⊎◌, true, false, length, List, Some, slice_index};
ghost use Rattle.std.specs.Option.{option_to_list};
ghost use Rattle.alp_pages.specs.Nodes.{Node};
ghost use Rattle.alp_pages.specs.Volume.{child_of};
ghost use Rattle.alp_pages.specs.Damage.{Name, added, are_new, child_name, has_node, is_below, is_within, names_of};
ghost use Rattle.alp_volume.specs.Reached.{AreFresh, AreMarks};
ghost use Rattle.alp_tables.specs.Bits.{Stays};

use alp_tables::Free;

// Marks the place that a row names at that number, if it names one and may.
fn mark_one(places: &mut Free, limit: u32, number: u32, place: u32) -> bool
    ensures judged { (home : ℕ) (names : List Name) (k : Node) → AreMarks home names places.old → has_node (child_of k number) names ≡ false → result ≡ (is_below limit (number, place) && are_new home names (option_to_list (child_name k (number, place)))) }
    ensures marked { (home : ℕ) (names : List Name) (k : Node) → AreMarks home names places.old → result ≡ true → AreMarks home (added names (option_to_list (child_name k (number, place)))) places.new }
    ensures within { result ≡ true → (place ≡ 0) ⊎ (place < length places.old) }
    ensures long { length places.new ≡ length places.old }
    ensures stay { Stays places.old places.new }
{
    if place == 0 {
        return true;
    }
    if number >= limit {
        return false;
    }
    places.mark(place)
}

/// Marks the places that a row of a page names, none of them at or past the limit.
pub fn mark_row(places: &mut Free, limit: u32, row: &[u32]) -> bool
    requires { length row.now < 4096 }
    ensures judged { (home : ℕ) (names : List Name) (k : Node) → AreMarks home names places.old → AreFresh k names → result ≡ (is_within limit (Some row.now) && are_new home names (names_of k row.now)) }
    ensures marked { (home : ℕ) (names : List Name) (k : Node) → AreMarks home names places.old → AreFresh k names → result ≡ true → AreMarks home (added names (names_of k row.now)) places.new }
    ensures within { result ≡ true → (j : ℕ) → j < length row.now → (slice_index row.now j ≡ 0) ⊎ (slice_index row.now j < length places.old) }
    ensures long { length places.new ≡ length places.old }
    ensures stay { Stays places.old places.new }
{
    for j in 0..row.len() {
        if !mark_one(places, limit, j as u32, row[j]) {
            return false;
        }
    }
    true
}
