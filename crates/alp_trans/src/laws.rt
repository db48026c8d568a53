//! What holds of intents.
ghost use Rattle.std.specs.Prelude.{◌≡◌, ◌++◌, List};
ghost use Rattle.std.specs.FinMap as map;
ghost use Rattle.alp_files.specs.Cells.{Cells, View};
ghost use Rattle.alp_files.specs.Changes.{edits_of};
ghost use Rattle.alp_files.specs.Edits.{Edit, after, edits_map};
ghost use Rattle.alp_files.specs.Needs.{Intents as SomeIntents, intents_from, intents_of, through};
ghost use Rattle.alp_trans.specs.Parts.{change_of};

/// What edits come to as intents is what they do: through it is seen what they make of all that may lie below, and the change that
/// it comes to makes the same cells. More edits go on from there.
pub fn intents_are_what_edits_do()
    ensures seen { (es : List Edit) (m : View) → through (intents_of es) m ≡ after es m }
    ensures puts { (es : List Edit) → (intents_of es).puts ≡ edits_map es map.empty }
    ensures change { (i : SomeIntents) (m : Cells) → map.get (edits_map (edits_of (change_of i)) m) ≡ through i (map.get m) }
    ensures cells { (es : List Edit) (m : Cells) → edits_map (edits_of (change_of (intents_of es))) m ≡ edits_map es m }
    ensures more { (i : SomeIntents) (es fs : List Edit) → intents_from i (es ++ fs) ≡ intents_from (intents_from i es) fs }
{}
