//! A law of what parts intend.
ghost use Rattle.std.specs.Prelude.{◌≡◌};
ghost use Rattle.alp_files.specs.Changes.{edits_of};
ghost use Rattle.alp_files.specs.Needs.{Intents, intents_of};
ghost use Rattle.alp_trans.specs.Parts.{change_of};

/// The change that intents come to comes to those intents.
#[tactic(auto, using(crate::proofs::BackLemmas::change_back))]
pub fn intents_come_back()
    ensures { (i : Intents) → intents_of (edits_of (change_of i)) ≡ i }
{}
