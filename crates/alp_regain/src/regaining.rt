//! What a server regains from the notes of an earlier run.
ghost use Rattle.std.specs.Prelude.{◌≡◌, ◌≤◌, ◌+◌, [], true, false, IsTrue, IfOk, IfErr, Err, length, map as list_map};
ghost use Rattle.std.specs.List.{list_all, AllByRecursion};
ghost use Rattle.alp_fields.specs.ClockNote.{clock_kept};
ghost use Rattle.alp_calls.specs.Looks.{Looks};
ghost use Rattle.alp_journal.specs.Opening.{ready_kept};
ghost use Rattle.alp_regain.specs.Named.{is_decided_by as is_decided_by_said};
ghost use Rattle.alp_regain.specs.Notes.{part_note};
ghost use Rattle.alp_regain.specs.Together.{AreNotesTogether, clock_before, AreTogether, AreSoundTogether, HaveRoomTogether, FitTogether, IsPartNote, AreApart, log_sum, size_of};
ghost use Rattle.alp_regain.specs.Lives.{IsSoFar};
ghost use Rattle.alp_regain.specs.Faults.{fault_from, IsOfNoDevice};
ghost use Rattle.alp_regain.specs.Regained.{IsRegained};
ghost use Rattle.alp_regain.specs.declared.fault.RegainFault.TheVariants.{BadNote};

use crate::ids::is_decided_by;
use crate::notes::{Notes, notes_of};
use crate::parts::{Lives, lives_of};
use crate::rooms::{log_has_room, volume_has_room};
use crate::sound::stay_together;
use crate::{RegainFault, RegainedPart};
use alp_coord::Decision;
use alp_fields::{ClockNote, clock_note_name, read_clock};
use alp_locks::LockTable;
use alp_vault::Vault;
use std::alloc::Global;

/// What a server regains: the parts that are ready and the decisions, each in the order of their notes' names, and the parts' locks.
#[derive(Drop)]
pub struct Regained {
    pub parts: Vec<RegainedPart>,
    pub decisions: Vec<Decision>,
    pub locks: LockTable,
}

/// The most transactions that are live at a server.
const TRANSACTIONS: usize = 64;

// The clock that the notes keep, or none.
fn clock_noted<V: Vault>(alloc: Global, vault: &V) -> Result<ClockNote, RegainFault>
    requires { IsTrue (V.serves vault.now) }
    ensures clock { IfOk result (λ c. c ≡ clock_kept (V.held vault.now).notes) }
    ensures fault { result ≡ Err BadNote → ⊥ }
    ensures quiet { IfErr result IsOfNoDevice }
{
    let name = clock_note_name(alloc)?;
    let Some(value) = vault.note(&name) else {
        return Ok(ClockNote { epoch: 0, clock: 0 });
    };
    match read_clock(value.as_slice()) {
        Some(clock) => Ok(clock),
        None => Ok(ClockNote { epoch: 0, clock: 0 }),
    }
}

// That clock, of an epoch before the one that begins.
fn clock_of<V: Vault>(alloc: Global, vault: &V, epoch: u32) -> Result<ClockNote, RegainFault>
    requires { IsTrue (V.serves vault.now) }
    ensures clock { IfOk result (λ c. c ≡ clock_before epoch (V.held vault.now).notes) }
    ensures fault { result ≡ Err BadNote → ⊥ }
    ensures quiet { IfErr result IsOfNoDevice }
{
    let noted = clock_noted(alloc, vault)?;
    Ok(ClockNote {
        epoch: noted.epoch.min(epoch.saturating_sub(1)),
        clock: noted.clock,
    })
}

// Whether the decisions are of transactions that were drawn in epochs up to that one, and none is later than the clock.
fn are_decided_by(decisions: &[Decision], clock: ClockNote) -> bool
    ensures { result ≡ list_all (λ d. is_decided_by_said clock d.stamp) decisions.now }
{
    decisions
        .iter()
        .all(|decision| is_decided_by(clock, decision.stamp))
}

// Whether the decisions are of that time, and with the parts no more than a server has live transactions.
fn are_few(notes: &Notes, clock: ClockNote) -> bool
    ensures yes { result ≡ true → (list_all (λ d. is_decided_by_said clock d.stamp) notes.now.decisions.items ≡ true) × (length notes.now.parts.items + length notes.now.decisions.items ≤ 64) }
    ensures no { result ≡ false → list_all (λ d. is_decided_by_said clock d.stamp) notes.now.decisions.items ≡ true → length notes.now.parts.items + length notes.now.decisions.items ≤ 64 → ⊥ }
{
    if notes.parts.len() > TRANSACTIONS {
        return false;
    }
    if notes.decisions.len() > TRANSACTIONS {
        return false;
    }
    if notes.parts.len() + notes.decisions.len() > TRANSACTIONS {
        return false;
    }
    are_decided_by(notes.decisions.as_slice(), clock)
}

// The parts, where the log has room for them.
fn lives_within<V: Vault>(
    alloc: Global,
    vault: &mut V,
    notes: &Notes,
    of: (u8, u32),
) -> Result<Lives, RegainFault>
    requires serving { IsTrue (V.serves vault.old) }
    requires few { length notes.now.parts.items ≤ 64 }
    ensures live { IfOk result (λ l. IsSoFar (V.tells vault.old) (V.held vault.old).cells of.0 of.1 l (list_map part_note notes.now.parts.items)) }
    ensures log { IfOk result (λ _. log_sum (list_map size_of (list_map part_note notes.now.parts.items)) ≤ (V.volume vault.old).area) }
    ensures bad { result ≡ Err BadNote → AllByRecursion (IsPartNote of.0 of.1) (list_map part_note notes.now.parts.items) → AreApart (list_map part_note notes.now.parts.items) → log_sum (list_map size_of (list_map part_note notes.now.parts.items)) ≤ (V.volume vault.old).area → ⊥ }
    ensures looked { Looks V.Vault vault.old vault.new (fault_from result) }
{
    let lives = lives_of(alloc, vault, notes.parts.as_slice(), of)?;
    if !log_has_room(alloc, vault.sizes().area, lives.parts.as_slice())? {
        return Err(RegainFault::BadNote);
    }
    Ok(lives)
}

// The parts, where there is room for them and the files stay well formed and charged with what they change. Where there is none,
// nothing is looked at.
fn lives_beside<V: Vault>(
    alloc: Global,
    vault: &mut V,
    notes: &Notes,
    of: (u8, u32),
) -> Result<Lives, RegainFault>
    requires serving { IsTrue (V.serves vault.old) }
    requires few { length notes.now.parts.items ≤ 64 }
    ensures live { IfOk result (λ l. IsSoFar (V.tells vault.old) (V.held vault.old).cells of.0 of.1 l (list_map part_note notes.now.parts.items)) }
    ensures log { IfOk result (λ _. log_sum (list_map size_of (list_map part_note notes.now.parts.items)) ≤ (V.volume vault.old).area) }
    ensures room { IsTrue (V.tells vault.old) → IfOk result (λ _. HaveRoomTogether (V.volume vault.old) (V.held vault.old).cells (list_map part_note notes.now.parts.items)) }
    ensures sound { IsTrue (V.tells vault.old) → IfOk result (λ _. AreSoundTogether (V.held vault.old).cells (list_map part_note notes.now.parts.items)) }
    ensures bad { IsTrue (V.tells vault.old) → result ≡ Err BadNote → FitTogether (V.volume vault.old) (V.held vault.old).cells of.0 of.1 (list_map part_note notes.now.parts.items) → AreSoundTogether (V.held vault.old).cells (list_map part_note notes.now.parts.items) → ⊥ }
    ensures alone { result ≡ Err BadNote → list_map part_note notes.now.parts.items ≡ [] → log_sum (list_map size_of (list_map part_note notes.now.parts.items)) ≤ (V.volume vault.old).area → ⊥ }
    ensures looked { Looks V.Vault vault.old vault.new (fault_from result) }
{
    vault.knows();
    let lives = lives_within(alloc, vault, notes, of)?;
    if notes.parts.len() == 0 {
        return Ok(lives);
    }
    if !volume_has_room(vault, lives.parts.as_slice()) {
        return Err(RegainFault::BadNote);
    }
    if !stay_together(alloc, vault, notes.parts.as_slice(), lives.parts.as_slice())? {
        return Err(RegainFault::BadNote);
    }
    Ok(lives)
}

/// What the notes of an earlier run leave the server, one of so many, where they are in their format and go together with one another
/// and, as far as the vault tells, with the files: there is room for them beside these, which stay well formed and charged with what
/// each part changes and with what all of them change. The vault holds what it held, whatever comes of it.
///
/// It is for a server that begins this epoch, and is to run before the note of the clock is raised. What was drawn was drawn in epochs
/// up to that of the note, and before the one that begins, which the note may have already, of a start that was stopped.
pub fn regain<V: Vault>(
    alloc: Global,
    vault: &mut V,
    server: u8,
    servers: u8,
    epoch: u32,
) -> Result<Regained, RegainFault>
    requires serving { IsTrue (V.serves vault.old) }
    ensures regained { IfOk result (λ r. IsRegained (V.tells vault.old) (V.held vault.old).cells server epoch r (V.held vault.old).notes) }
    ensures notes { IfOk result (λ _. AreNotesTogether server servers epoch (V.volume vault.old).area (V.held vault.old).notes) }
    ensures together { IsTrue (V.tells vault.old) → IfOk result (λ _. AreTogether server servers epoch (V.volume vault.old) (V.held vault.old).cells (V.held vault.old).notes) }
    ensures bad { IsTrue (V.tells vault.old) → result ≡ Err BadNote → AreTogether server servers epoch (V.volume vault.old) (V.held vault.old).cells (V.held vault.old).notes → ⊥ }
    // Of no part nothing is looked at, whatever the vault tells.
    ensures alone { result ≡ Err BadNote → ready_kept (V.held vault.old).notes ≡ [] → AreNotesTogether server servers epoch (V.volume vault.old).area (V.held vault.old).notes → ⊥ }
    ensures looked { Looks V.Vault vault.old vault.new (fault_from result) }
{
    let notes = notes_of(alloc, vault, server, servers)?;
    let clock = clock_of(alloc, vault, epoch)?;
    if !are_few(&notes, clock) {
        return Err(RegainFault::BadNote);
    }
    let lives = lives_beside(alloc, vault, &notes, (server, clock.epoch))?;
    let Notes { decisions, .. } = notes;
    let Lives { parts, locks } = lives;
    Ok(Regained {
        parts,
        decisions,
        locks,
    })
}
