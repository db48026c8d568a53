//! The numbers that the language rests on.
ghost use Rattle.std.specs.Prelude.{◌≡◌};
ghost use Rattle.alp_tokens.specs.declared.words.TheConstants.{LINE_BYTES as line_bytes};
ghost use Rattle.alp_tokens.specs.declared.names.TheConstants.{TEXT_BYTES as text_bytes};
ghost use Rattle.alp_lines.specs.declared.limits.TheConstants.{RUN_MOST as run_most, PATIENCE_MOST as patience_most, HOME_LEAST as home_least, HOME_MOST as home_most, AREA_LEAST as area_least, AREA_MOST as area_most};
ghost use Rattle.alp_script.specs.declared.numbered.TheConstants.{SCRIPT_LINES_MOST as script_lines_most};
ghost use Rattle.alp_script.specs.declared.sizes.TheConstants.{NEW_HOME as new_home, NEW_AREA as new_area};

/// A new volume has so many home pages and pages of each log area where no line says its sizes, and a line may say these. A
/// script has at most so many lines, each of so many bytes, with texts of so many, runs of so many pages, and so much patience.
pub fn numbers_are_fixed()
    ensures new { (new_home ≡ 16384) × (new_area ≡ 2048) }
    ensures home { (home_least ≡ 512) × (home_most ≡ 65536) }
    ensures area { (area_least ≡ 64) × (area_most ≡ 4096) }
    ensures lines { (script_lines_most ≡ 200000) × (line_bytes ≡ 1024) }
    ensures words { (text_bytes ≡ 64) × (run_most ≡ 255) }
    ensures patience { patience_most ≡ 1000 }
{}
