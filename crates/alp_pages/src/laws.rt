//! Laws of volumes, as contracts.
ghost use Rattle.std.specs.Prelude.{◌≡◌, ◌≤◌, ℕ, None, List};
ghost use Rattle.std.specs.FinMap as map;
ghost use Rattle.alp_base.specs.Pages.{zero_page};
ghost use Rattle.alp_files.specs.Cells.{Cells};
ghost use Rattle.alp_files.specs.Counts.{used_of};
ghost use Rattle.alp_pages.specs.Pages.{Pages as PagesOf, header_page, written};
ghost use Rattle.alp_pages.specs.Volume.{StandFor};
ghost use Rattle.alp_pages.specs.Damage.{damage_of};
ghost use Rattle.alp_pages.specs.Counted.{taken_places};

/// Pages stand for one map of cells at most.
pub fn pages_stand_for_one_map()
    ensures { (home : ℕ) (pages : PagesOf) (m k : Cells) → StandFor home pages m → StandFor home pages k → m ≡ k }
{}

/// As many places are taken as the cells need.
pub fn taken_places_are_those_used()
    ensures { (home : ℕ) (pages : PagesOf) (m : Cells) (stands : StandFor home pages m) → taken_places home stands.volume ≡ used_of m }
{}

/// A page that nothing names may hold anything.
pub fn unnamed_pages_may_hold_anything()
    ensures { (home : ℕ) (pages : PagesOf) (m : Cells) (stands : StandFor home pages m) (place : ℕ) (bytes : List ℕ) → 257 ≤ place → stands.volume.places.at place ≡ None → StandFor home (written place bytes pages) m }
{}

/// A header and pages of zeros are a volume that holds nothing.
pub fn a_new_volume_holds_nothing()
    ensures { (home : ℕ) → StandFor home (written 0 header_page (λ place. zero_page)) map.empty }
{}

/// A page is damaged just where the pages stand for no cells.
pub fn pages_without_damage_stand()
    ensures stand { (home : ℕ) (pages : PagesOf) → damage_of home pages ≡ None → (m : Cells) × StandFor home pages m }
    ensures undamaged { (home : ℕ) (pages : PagesOf) (m : Cells) → StandFor home pages m → damage_of home pages ≡ None }
{}
