//! What holds of the counts of parts.
ghost use Rattle.std.specs.Prelude.{◌≡◌, ◌+◌, List};
ghost use Rattle.std.specs.FinMap as map;
ghost use Rattle.alp_files.specs.Cells.{Cells};
ghost use Rattle.alp_files.specs.Counts.{used_of, file_count_of, owner_count_of};
ghost use Rattle.alp_files.specs.Edits.{Edit, edits_map};
ghost use Rattle.alp_files.specs.Needs.{changed, intents_of, need_of, freed_of, made_of, lost_of, is_leader, is_owner};
ghost use Rattle.alp_trans.specs.Counting.{AreCountsOf};
ghost use Rattle.alp_trans.specs.Frames.{AreApart};
ghost use Rattle.alp_trans.specs.declared.counts.Counts.{Counts as SomeCounts};

/// The counts of a part stay where another one is committed that touches no file and no owner that it touches.
pub fn counts_stay_where_others_commit()
    ensures { (m : Cells) (es others : List Edit) (n : SomeCounts) → AreApart es others → AreCountsOf m es n → AreCountsOf (edits_map others m) es n }
{}

/// Where a part is committed, what it comes to comes to what there is, less what its drops and cuts give back. It loses no owner.
pub fn counts_come_to_what_there_is()
    ensures places { (m : Cells) (es : List Edit) → used_of (edits_map es m) + freed_of m es ≡ used_of m + need_of m es }
    ensures files { (m : Cells) (es : List Edit) → file_count_of (edits_map es m) + lost_of is_leader m es ≡ file_count_of m + made_of is_leader m es }
    ensures cells { (es : List Edit) → changed es ≡ map.len (intents_of es).drops + map.len (intents_of es).cuts + map.len (edits_map es map.empty) }
    ensures owners { (m : Cells) (es : List Edit) → owner_count_of (edits_map es m) ≡ owner_count_of m + made_of is_owner m es }
{}
