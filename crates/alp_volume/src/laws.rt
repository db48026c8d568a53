//! Laws of changes, as contracts.
ghost use Rattle.std.specs.Prelude.{◌≡◌, ℕ, true, List};
ghost use Rattle.alp_files.specs.Cells.{Cells};
ghost use Rattle.alp_pages.specs.Pages.{Pages as PagesOf, written};
ghost use Rattle.alp_pages.specs.Volume.{StandFor};
ghost use Rattle.alp_volume.specs.declared.catalog.Catalog.{Catalog as ACatalog};
ghost use Rattle.alp_volume.specs.Known.{IsCatalog, Knows};
ghost use Rattle.alp_volume.specs.Parts.{is_free};

/// A page that is written at a free place changes nothing, and the place is free still.
pub fn free_places_may_hold_anything()
    ensures { (home : ℕ) (pages : PagesOf) (m : Cells) (c : ACatalog) (stands : StandFor home pages m) (place : ℕ) (bytes : List ℕ) → Knows home stands.volume c → IsCatalog home c → is_free c place ≡ true → (after : StandFor home (written place bytes pages) m) × Knows home after.volume c }
{}
