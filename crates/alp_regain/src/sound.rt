//! Whether files stay well formed and charged with what ready parts change.
ghost use Rattle.std.specs.Prelude.{◌≡◌, true, false, Ok, IfOk, IsTrue, All, flat_map, map as list_map};
ghost use Rattle.std.specs.List.{AllByRecursion};
ghost use Rattle.alp_files.specs.Edits.{edits_map};
ghost use Rattle.alp_files.specs.Needs.{intents_of as intents_said};
ghost use Rattle.alp_files.specs.Sound.{AreSound};
ghost use Rattle.alp_trans.specs.Counting.{with_intents};
ghost use Rattle.alp_trans.specs.Parts.{change_of};
ghost use Rattle.alp_calls.specs.Looks.{Looks, fault_in};
ghost use Rattle.alp_calls.specs.Parts.{AllFit};
ghost use Rattle.alp_regain.specs.Balance.{DoIntend};
ghost use Rattle.alp_regain.specs.Notes.{part_note};
ghost use Rattle.alp_regain.specs.Together.{AreSoundTogether};

use crate::RegainedPart;
use crate::balance::are_balanced;
use crate::changes::add_change;
use crate::touched::all_pass;
use alp_base::{Change, JoinNo, OutOfMemory};
use alp_calls::CallFault;
use alp_fields::ReadyPart;
use alp_trans::Intents;
use alp_vault::Vault;
use std::alloc::Global;

// Whether they stay so with what the intents, which come to the change, put and take away.
fn stay_with<V: Vault>(
    alloc: Global,
    vault: &mut V,
    intents: &Intents,
    change: &Change,
) -> Result<bool, CallFault>
    requires serving { IsTrue (V.serves vault.old) }
    requires change { change.now ≡ change_of intents.now }
    requires fit { AllFit intents.now.puts }
    ensures yes { IsTrue (V.tells vault.old) → AreSound (V.held vault.old).cells → result ≡ Ok true → AreSound (with_intents intents.now (V.held vault.old).cells) }
    ensures no { IsTrue (V.tells vault.old) → AreSound (V.held vault.old).cells → result ≡ Ok false → AreSound (with_intents intents.now (V.held vault.old).cells) → ⊥ }
    ensures looked { Looks V.Vault vault.old vault.new (fault_in result) }
{
    if !all_pass(vault, intents, change.puts.as_slice())? {
        return Ok(false);
    }
    are_balanced(alloc, vault, intents, change)
}

// Whether they stay so with what is intended.
fn stay_sound<V: Vault>(alloc: Global, vault: &mut V, intents: &Intents) -> Result<bool, CallFault>
    requires serving { IsTrue (V.serves vault.old) }
    requires fit { AllFit intents.now.puts }
    ensures yes { IsTrue (V.tells vault.old) → result ≡ Ok true → AreSound (with_intents intents.now (V.held vault.old).cells) }
    ensures no { IsTrue (V.tells vault.old) → result ≡ Ok false → AreSound (with_intents intents.now (V.held vault.old).cells) → ⊥ }
    ensures looked { Looks V.Vault vault.old vault.new (fault_in result) }
{
    vault.knows();
    let change = intents.to_change(alloc)?;
    stay_with(alloc, vault, intents, &change)
}

// Whether they stay so with each of the parts.
fn stay_with_each<V: Vault>(
    alloc: Global,
    vault: &mut V,
    parts: &[RegainedPart],
) -> Result<bool, CallFault>
    requires serving { IsTrue (V.serves vault.old) }
    requires fit { All (λ p. AllFit p.part.intents.puts) parts.now }
    ensures yes { IsTrue (V.tells vault.old) → result ≡ Ok true → All (λ p. AreSound (with_intents p.part.intents (V.held vault.old).cells)) parts.now }
    ensures no { IsTrue (V.tells vault.old) → result ≡ Ok false → All (λ p. AreSound (with_intents p.part.intents (V.held vault.old).cells)) parts.now → ⊥ }
    ensures looked { Looks V.Vault vault.old vault.new (fault_in result) }
{
    for part in parts {
        if !stay_sound(alloc, vault, &part.part.intents)? {
            return Ok(false);
        }
    }
    Ok(true)
}

// What all parts intend together.
fn intents_of_all(alloc: Global, notes: &[(JoinNo, ReadyPart)]) -> Result<Intents, OutOfMemory>
    ensures { IfOk result (λ i. i ≡ intents_said (flat_map (λ n. n.edits) (list_map part_note notes.now))) }
{
    let mut intents = Intents::new(alloc);
    for note in notes {
        add_change(&mut intents, alloc, &note.1.change)?;
    }
    Ok(intents)
}

// Whether they stay so with all parts together.
fn stay_with_all<V: Vault>(
    alloc: Global,
    vault: &mut V,
    notes: &[(JoinNo, ReadyPart)],
) -> Result<bool, CallFault>
    requires serving { IsTrue (V.serves vault.old) }
    requires fit { AllByRecursion (λ n. AllFit (intents_said n.edits).puts) (list_map part_note notes.now) }
    ensures yes { IsTrue (V.tells vault.old) → result ≡ Ok true → AreSound (edits_map (flat_map (λ n. n.edits) (list_map part_note notes.now)) (V.held vault.old).cells) }
    ensures no { IsTrue (V.tells vault.old) → result ≡ Ok false → AreSound (edits_map (flat_map (λ n. n.edits) (list_map part_note notes.now)) (V.held vault.old).cells) → ⊥ }
    ensures looked { Looks V.Vault vault.old vault.new (fault_in result) }
{
    let intents = intents_of_all(alloc, notes)?;
    stay_sound(alloc, vault, &intents)
}

/// Whether they stay so with what each part changes, and with what all of them change.
pub(super) fn stay_together<V: Vault>(
    alloc: Global,
    vault: &mut V,
    notes: &[(JoinNo, ReadyPart)],
    parts: &[RegainedPart],
) -> Result<bool, CallFault>
    requires serving { IsTrue (V.serves vault.old) }
    requires intend { DoIntend parts.now (list_map part_note notes.now) }
    ensures yes { IsTrue (V.tells vault.old) → result ≡ Ok true → AreSoundTogether (V.held vault.old).cells (list_map part_note notes.now) }
    ensures no { IsTrue (V.tells vault.old) → result ≡ Ok false → AreSoundTogether (V.held vault.old).cells (list_map part_note notes.now) → ⊥ }
    ensures looked { Looks V.Vault vault.old vault.new (fault_in result) }
{
    if !stay_with_each(alloc, vault, parts)? {
        return Ok(false);
    }
    stay_with_all(alloc, vault, notes)
}
