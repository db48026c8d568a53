//! Locks and changes in the order of their bytes, as notes have them.
ghost use Rattle.std.specs.Prelude.{◌≡◌, true, length, IfOk, OnOk};
ghost use Rattle.std.specs.FinMap as map;
ghost use Rattle.std.specs.FinMap.{find};
ghost use Rattle.std.specs.List.Sorted.{IsPermutation, IsStableByKey};
ghost use Rattle.std.specs.Ordering.{nat_cmp};
ghost use Rattle.alp_base.specs.declared.key.Resource.{Resource as AResource};
ghost use Rattle.alp_base.specs.Orders.{resource_cmp};
ghost use Rattle.alp_files.specs.Changes.{edits_of};
ghost use Rattle.alp_files.specs.Holdings.{held_by};
ghost use Rattle.alp_files.specs.Needs.{intents_of};
ghost use Rattle.alp_fields.specs.ChangeField.{placed, IsNotedChange};
ghost use Rattle.alp_fields.specs.ReadyNote.{lock};
ghost use Rattle.alp_fields.specs.Rising.{rise};
ghost use Rattle.alp_trans.specs.Parts.{change_of};
ghost use Rattle.alp_calls.specs.Parts.{IsPart};
ghost use Rattle.alp_calls.specs.Regained.{IsNoted};
ghost use Rattle.alp_ready.specs.NoteOrder.{name_length as name_length_said, named_length as named_length_said, AreRising, AreRisingKeys, put_number};

use crate::fits::{fit_cuts, fit_files, fit_locks, fit_puts};
use alp_base::{Cell, Change, Key, OutOfMemory, PutList, Resource};
use alp_fields::LockList;
use alp_modes::Mode;
use alp_trans::Part;
use std::alloc::Global;

// The length of the name that a key has, or 0.
fn name_length(at: &Key) -> usize
    ensures { result ≡ name_length_said at.now }
{
    match at {
        Key::Leader(_) => 0,
        Key::PageOf(_, _) => 0,
        Key::OwnerOf(owner) => owner.as_bytes().len(),
    }
}

fn named_length(at: &Resource) -> usize
    ensures { result ≡ named_length_said at.now }
{
    match at {
        Resource::Whole(_) => 0,
        Resource::Leaf(place) => name_length(place),
    }
}

/// The locks in the order of their bytes, as the note of a ready part has them; they come in the order of their resources,
/// each once. What is held by them stays the same.
///
/// A name is spelled behind its length: that is where the two orders differ.
pub fn noted_locks(locks: Vec<(Resource, Mode)>) -> Result<LockList, OutOfMemory>
    requires { AreRising locks.items }
    ensures rises { IfOk result (λ l. rise lock l ≡ true) }
    ensures same { IfOk result (λ l. IsPermutation locks.items l) }
    ensures len { IfOk result (λ l. length l ≡ length locks.items) }
    ensures held { IfOk result (λ l. (r : AResource) → held_by l r ≡ find resource_cmp r locks.items) }
{
    let mut sorted = locks;
    sorted.sort_by_key(|entry| named_length(&entry.0))?;
    fit_locks(sorted.as_slice());
    Ok(LockList::new(sorted))
}

// The same for cells that are put, which come in the order of their keys, each once.
fn noted_puts(puts: Vec<(Key, Cell)>) -> Result<PutList, OutOfMemory>
    requires { AreRisingKeys puts.items }
    ensures rises { IfOk result (λ l. rise placed l ≡ true) }
    ensures same { IfOk result (λ l. IsPermutation puts.items l) }
    ensures stable { IfOk result (λ l. IsStableByKey put_number nat_cmp puts.items l) }
{
    let mut sorted = puts;
    sorted.sort_by_key(|entry| name_length(&entry.0))?;
    fit_puts(sorted.as_slice());
    Ok(PutList::new(sorted))
}

/// What a part intends, as the note of a ready part says it: each list in the order of its bytes. It comes to what the part
/// intends, and a part can be regained from it.
pub fn noted_change(alloc: Global, part: &Part) -> Result<Change, OutOfMemory>
    requires { IsPart part.now }
    ensures noted { IfOk result IsNotedChange }
    ensures again { IfOk result IsNoted }
    ensures back { IfOk result (λ c. intents_of (edits_of c) ≡ part.now.intents) }
    ensures drops { IfOk result (λ c. c.drops ≡ (change_of part.now.intents).drops) }
    ensures cuts { IfOk result (λ c. c.cuts ≡ (change_of part.now.intents).cuts) }
    ensures puts { IfOk result (λ c. IsPermutation (map.entries part.now.intents.puts) c.puts) }
{
    let Change { drops, cuts, .. } = part.change(alloc)?;
    fit_files(drops.as_slice());
    fit_cuts(cuts.as_slice());
    let puts = noted_puts(part.intents.puts().copies(alloc)?)?;
    Ok(Change { drops, cuts, puts })
}
