//! Parts that are ready, with their locks.
ghost use Rattle.std.specs.Prelude.{◌≡◌, ◌++◌, ◌∷◌, [], ◌<◌, ◌≤◌, ◌&&◌, ◌==◌, ℕ, Bool as ABool, false, None, IsTrue, IfOk, IfErr, OnOk, Err, List, length, map as list_map};
ghost use Rattle.std.specs.List.{list_all, list_any, AllByRecursion};
ghost use Rattle.std.specs.FinMap as map;
ghost use Rattle.std.specs.Ordering.{eq_by_cmp};
ghost use Rattle.alp_base.specs.Orders.{trans_cmp};
ghost use Rattle.alp_base.specs.declared.ids.TransId.{TransId as ATransId};
ghost use Rattle.alp_files.specs.Cells.{Cells as SomeCells};
ghost use Rattle.alp_files.specs.Changes.{edits_of};
ghost use Rattle.alp_files.specs.Holdings.{held_by, DoAgree};
ghost use Rattle.alp_queue.specs.Order.{waits};
ghost use Rattle.alp_locks.specs.Asks.{with_regained};
ghost use Rattle.alp_locks.specs.Sound.{IsSound};
ghost use Rattle.alp_locks.specs.Tables.{holding, held_of};
ghost use Rattle.alp_calls.specs.Looks.{Looks};
ghost use Rattle.alp_vault.specs.Volumes.{changed_cells as changed_cells_said};
ghost use Rattle.alp_journal.specs.Counts.{with_resources};
ghost use Rattle.alp_journal.specs.Opening.{ReadyNote};
ghost use Rattle.alp_regain.specs.Notes.{part_note};
ghost use Rattle.alp_regain.specs.Named.{is_beside_intention, is_covered};
ghost use Rattle.alp_regain.specs.Together.{IsPartNote, AreTwo, AreApart, AreGoodLocks};
ghost use Rattle.alp_regain.specs.Faults.{fault_from, IsOfNoDevice};
ghost use Rattle.alp_regain.specs.Lives.{IsSoFar, is_plain};
ghost use Rattle.alp_regain.specs.declared.fault.RegainFault.TheVariants.{BadNote};

use crate::changes::{changed_cells, part_of};
use crate::ids::{are_own_locks, is_drawn_by, is_own_change};
use crate::locks::{are_intended, have_modes, is_change_covered};
use crate::sizes::size_puts;
use crate::{RegainFault, RegainedPart};
use alp_base::{JoinNo, Resource, TransId};
use alp_fields::ReadyPart;
use alp_locks::LockTable;
use alp_modes::Mode;
use alp_queue::Needs;
use alp_vault::Vault;
use std::alloc::Global;

/// Parts that are live again, and the table of their locks.
#[derive(Drop)]
pub(super) struct Lives {
    pub(super) parts: Vec<RegainedPart>,
    pub(super) locks: LockTable,
}

/// The most clients of a run.
const CLIENTS: u8 = 16;

/// The most resources that a part has locked.
const LOCKS_PER_PART: usize = 1024;

// Whether a part of the transaction is one of them.
fn has_part(parts: &[RegainedPart], trans: TransId) -> bool
    ensures { result ≡ list_any (λ p. eq_by_cmp trans_cmp trans p.trans) parts.now }
{
    parts.iter().any(|part| trans.cmp(&part.trans).is_eq())
}

// What a note says of a part by itself, but for what its locks come to and what its change does.
fn is_plain_part(join: JoinNo, kept: &ReadyPart, of: (u8, u32)) -> bool
    ensures { result ≡ is_plain of.0 of.1 (part_note (join, kept.now)) }
{
    have_modes(kept.locks.as_slice())
        && (are_own_locks(of, kept.locks.as_slice())
            && (is_own_change(of, &kept.change)
                && (is_drawn_by(of.1, join.epoch, join.counter)
                    && (1 <= kept.client && kept.client <= CLIENTS))))
}

// The transaction holds all of these locks, where they agree with those of the others.
fn take_locks(
    table: &mut LockTable,
    alloc: Global,
    trans: TransId,
    locks: &[(Resource, Mode)],
) -> Result<(), RegainFault>
    requires idle { waits table.old.waiting trans ≡ false }
    requires unknown { map.get table.old.held trans ≡ None }
    ensures after { OnOk result (table.new ≡ with_regained table.old trans locks.now None) }
    ensures agree { OnOk result ((u : ATransId) → eq_by_cmp trans_cmp trans u ≡ false → DoAgree (held_by locks.now) (holding table.old.held u)) }
    ensures sound { IsSound table.old → OnOk result (IsSound table.new) }
    ensures bad { result ≡ Err BadNote → ((u : ATransId) → eq_by_cmp trans_cmp trans u ≡ false → DoAgree (held_by locks.now) (holding table.old.held u)) → ⊥ }
    ensures quiet { IfErr result IsOfNoDevice }
{
    let list = Vec::from_slice(alloc, locks)?;
    match table.regain(trans, Needs::new(list))? {
        None => Ok(()),
        Some(_) => Err(RegainFault::BadNote),
    }
}

// How many resources the transaction has locked, where they are no more than a part may lock.
fn count_locks(table: &LockTable, trans: TransId) -> Result<u32, RegainFault>
    ensures count { IfOk result (λ n. (n ≡ length (map.entries (held_of table.now.held trans))) × (n ≤ 1024)) }
    ensures bad { result ≡ Err BadNote → 1024 < length (map.entries (held_of table.now.held trans)) }
    ensures quiet { IfErr result IsOfNoDevice }
{
    let count = table.list_of(trans)?.len();
    if count > LOCKS_PER_PART {
        return Err(RegainFault::BadNote);
    }
    Ok(count as u32)
}

// Whether beside each lock on a leaf is the intention on its file, and all that the part changes is locked to be written.
fn are_good_locks(table: &LockTable, kept: &ReadyPart) -> bool
    ensures { result ≡ (list_all (λ l. is_beside_intention (holding table.now.held kept.now.trans) l.0 l.1) kept.now.locks && list_all (is_covered (holding table.now.held kept.now.trans)) (edits_of kept.now.change)) }
{
    are_intended(table, kept.trans, kept.locks.as_slice())
        && is_change_covered(table, kept.trans, &kept.change)
}

// Whether the note names as many locks and cells as are counted, and so none twice.
fn is_once(kept: &ReadyPart, locks: u32, cells: u32) -> bool
    ensures { result ≡ (length kept.now.locks == locks && changed_cells_said kept.now.change == cells) }
{
    let count = kept.locks.as_slice().len();
    count == locks as usize && changed_cells(&kept.change) == u128::from(cells)
}

// The transaction holds the locks of its note, where they are good and agree with those of the others. The count is that of the
// resources.
fn locks_of(table: &mut LockTable, alloc: Global, kept: &ReadyPart) -> Result<u32, RegainFault>
    requires idle { waits table.old.waiting kept.now.trans ≡ false }
    requires unknown { map.get table.old.held kept.now.trans ≡ None }
    ensures after { OnOk result (table.new ≡ with_regained table.old kept.now.trans kept.now.locks None) }
    ensures agree { OnOk result ((u : ATransId) → eq_by_cmp trans_cmp kept.now.trans u ≡ false → DoAgree (held_by kept.now.locks) (holding table.old.held u)) }
    ensures sound { IsSound table.old → OnOk result (IsSound table.new) }
    ensures count { IfOk result (λ n. n ≡ length (with_resources kept.now.locks [])) }
    ensures good { OnOk result (AreGoodLocks kept.now.locks (edits_of kept.now.change)) }
    ensures bad { result ≡ Err BadNote → ((u : ATransId) → eq_by_cmp trans_cmp kept.now.trans u ≡ false → DoAgree (held_by kept.now.locks) (holding table.old.held u)) → AreGoodLocks kept.now.locks (edits_of kept.now.change) → ⊥ }
    ensures quiet { IfErr result IsOfNoDevice }
{
    take_locks(table, alloc, kept.trans, kept.locks.as_slice())?;
    if !are_good_locks(table, kept) {
        return Err(RegainFault::BadNote);
    }
    count_locks(table, kept.trans)
}

impl Lives {
    /// No part at all.
    fn new(alloc: Global) -> Lives
        ensures { (tells : ABool) (m : SomeCells) (server epoch : ℕ) → IsSoFar tells m server epoch result [] }
    {
        Lives {
            parts: Vec::new(alloc),
            locks: LockTable::new(alloc),
        }
    }

    // The part of a note is live, where the note can stand beside those before it.
    fn take_part<V: Vault>(
        &mut self,
        alloc: Global,
        vault: &mut V,
        join: JoinNo,
        kept: &ReadyPart,
        of: (u8, u32),
    ) -> Result<(), RegainFault>
        requires serving { IsTrue (V.serves vault.old) }
        requires live { (done : List ReadyNote) × IsSoFar (V.tells vault.old) (V.held vault.old).cells of.0 of.1 self.old done }
        ensures taken { (done : List ReadyNote) → IsSoFar (V.tells vault.old) (V.held vault.old).cells of.0 of.1 self.old done → OnOk result (IsSoFar (V.tells vault.old) (V.held vault.old).cells of.0 of.1 self.new (done ++ part_note (join, kept.now) ∷ [])) }
        ensures bad { result ≡ Err BadNote → (done : List ReadyNote) → IsSoFar (V.tells vault.old) (V.held vault.old).cells of.0 of.1 self.old done → AllByRecursion (λ o. AreTwo o (part_note (join, kept.now))) done → IsPartNote of.0 of.1 (part_note (join, kept.now)) → ⊥ }
        ensures looked { Looks V.Vault vault.old vault.new (fault_from result) }
    {
        if !is_plain_part(join, kept, of) {
            return Err(RegainFault::BadNote);
        }
        if has_part(self.parts.as_slice(), kept.trans) {
            return Err(RegainFault::BadNote);
        }
        size_puts(kept.change.puts.as_slice());
        let locks = locks_of(&mut self.locks, alloc, kept)?;
        let part = part_of(alloc, vault, &kept.change)?;
        if !is_once(kept, locks, part.counts.cells) {
            return Err(RegainFault::BadNote);
        }
        self.parts.push(RegainedPart {
            join,
            trans: kept.trans,
            ts: kept.ts,
            client: kept.client,
            part,
            locks,
        })?;
        Ok(())
    }
}

/// The parts of all these notes are live, where they can stand beside one another.
pub(super) fn lives_of<V: Vault>(
    alloc: Global,
    vault: &mut V,
    parts: &[(JoinNo, ReadyPart)],
    of: (u8, u32),
) -> Result<Lives, RegainFault>
    requires serving { IsTrue (V.serves vault.old) }
    ensures live { IfOk result (λ l. IsSoFar (V.tells vault.old) (V.held vault.old).cells of.0 of.1 l (list_map part_note parts.now)) }
    ensures bad { result ≡ Err BadNote → AllByRecursion (IsPartNote of.0 of.1) (list_map part_note parts.now) → AreApart (list_map part_note parts.now) → ⊥ }
    ensures looked { Looks V.Vault vault.old vault.new (fault_from result) }
{
    let mut lives = Lives::new(alloc);
    for part in parts {
        lives.take_part(alloc, vault, part.0, &part.1, of)?;
    }
    Ok(lives)
}
