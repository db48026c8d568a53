//! Notes of a server change in a write of their own, and a step goes down in which the vault gave no answer.
ghost use Rattle.std.specs.Prelude.{◌≡◌, ◌≤◌, ◌<◌, ◌^◌, ◌++◌, ◌∷◌, [], IsTrue, IfOk, OnOk, length, vec_capacity};
ghost use Rattle.std.specs.Result.{IsErr};
ghost use Rattle.alp_fields.specs.ReadyNote.{ready_name, ready_ended};
ghost use Rattle.alp_fields.specs.DecisionNote.{decision_name, decision_ended};
ghost use Rattle.alp_journal.specs.declared.act.Act.TheVariants as act;
ghost use Rattle.alp_vault.specs.Volumes.{AreNoteChanges};
ghost use Rattle.alp_calls.specs.Parts.{IsPart};
ghost use Rattle.alp_ready.specs.NoteOrder.{AreRising};
ghost use Rattle.alp_node.specs.Noting.{HasNoted, HasRoomFor, IsVoteNote};
ghost use Rattle.alp_node.specs.Steps.{IsDown, IsOn};
ghost use Rattle.alp_node.specs.Writes.{clock_put};
ghost use Rattle.alp_node.specs.declared.stored.StoreFault.TheVariants as store_fault;

use crate::answer::Answer;
use crate::server_state::ServerState;
use crate::stored::{StoreFault, store};
use alp_base::{JoinNo, NoteChange, OutOfMemory, Resource, TransId};
use alp_fields::{
    ClockNote, ReadyPart, clock_change, decision_note_name, ready_change, ready_note_name,
};
use alp_journal::Act;
use alp_modes::Mode;
use alp_ready::{noted_change, noted_locks};
use alp_trans::Part;
use alp_vault::Vault;
use std::alloc::Global;

/// The change by which the note of a part that voted ends.
pub fn ready_end_notes(alloc: Global, join: JoinNo) -> Result<Vec<NoteChange>, OutOfMemory>
    ensures notes { IfOk result (λ v. v.items ≡ ready_ended join ∷ []) }
    ensures fits { OnOk result (ready_name.Fits join) }
{
    let mut notes = Vec::with_capacity(alloc, 1)?;
    let name = ready_note_name(alloc, join)?;
    notes.push_reserved(NoteChange { name, value: None });
    Ok(notes)
}

/// That of a decision.
pub fn decision_end_notes(alloc: Global, trans: TransId) -> Result<Vec<NoteChange>, OutOfMemory>
    ensures notes { IfOk result (λ v. v.items ≡ decision_ended trans ∷ []) }
    ensures fits { OnOk result (decision_name.Fits trans) }
{
    let mut notes = Vec::with_capacity(alloc, 1)?;
    let name = decision_note_name(alloc, trans)?;
    notes.push_reserved(NoteChange { name, value: None });
    Ok(notes)
}

/// The changes by which a part that voted is applied: the clock stands, and its note ends.
pub fn applied_notes(
    alloc: Global,
    clock: ClockNote,
    join: JoinNo,
) -> Result<Vec<NoteChange>, OutOfMemory>
    requires time { clock.clock ≤ 2 ^ 62 }
    ensures notes { IfOk result (λ v. v.items ≡ clock_put clock ∷ ready_ended join ∷ []) }
    ensures fits { OnOk result (ready_name.Fits join) }
{
    let mut notes = Vec::with_capacity(alloc, 2)?;
    notes.push_reserved(clock_change(alloc, clock)?);
    let name = ready_note_name(alloc, join)?;
    notes.push_reserved(NoteChange { name, value: None });
    Ok(notes)
}

/// The change by which the note of a part is kept that votes: what it intends and has locked, in the order of their bytes.
pub fn ready_notes(
    alloc: Global,
    join: JoinNo,
    trans: TransId,
    client: u8,
    ts: u64,
    part: &Part,
    locks: Vec<(Resource, Mode)>,
) -> Result<Vec<NoteChange>, OutOfMemory>
    requires part { IsPart part.now }
    requires time { ts ≤ 2 ^ 62 }
    requires few { length locks.items < 2 ^ 16 }
    requires rising { AreRising locks.items }
    ensures { IfOk result (λ v. IsVoteNote join trans client ts part.now locks.items v.items) }
{
    let locks = noted_locks(locks)?;
    let change = noted_change(alloc, part)?;
    let kept = ReadyPart {
        trans,
        ts,
        client,
        locks,
        change,
    };
    let mut notes = Vec::with_capacity(alloc, 1)?;
    notes.push_reserved(ready_change(alloc, join, &kept)?);
    Ok(notes)
}

impl<V: Vault> ServerState<V> {
    /// These notes change, in one write. The cells stay.
    pub(super) fn note(&mut self, notes: &[NoteChange]) -> Result<(), StoreFault>
        requires serving { IsTrue (V.serves self.old.vault) }
        requires on { IsOn V.Vault self.old }
        requires changes { AreNoteChanges self.old.server self.old.servers (V.held self.old.vault).notes notes.now }
        requires log { HasRoomFor (V.held self.old.vault).notes self.old.sizes notes.now }
        ensures kept { self.new ≡ record self.old { vault = self.new.vault } }
        ensures writes { HasNoted V.Vault self.old.vault self.new.vault notes.now result }
    {
        let part = Part::new(self.alloc);
        self.vault.knows();
        store(self.alloc, &mut self.vault, &part, notes)
    }

    /// The vault gave no answer in the one write of an event that has no caller: the server is down, or there was no memory. The
    /// acts name what the write was to bring about.
    pub(super) fn fallen(
        &mut self,
        fault: StoreFault,
        acts: Vec<Act>,
    ) -> Result<Answer, OutOfMemory>
        requires room { length acts.items < vec_capacity acts }
        ensures failed { fault ≡ store_fault.Failed → IsDown self.old self.new (acts.items ++ act.Failed ∷ []) result }
        ensures stopped { fault ≡ store_fault.Stopped → IsDown self.old self.new (acts.items ++ act.Stopped ∷ []) result }
        ensures memory { fault ≡ store_fault.OutOfMemory → (self.new ≡ self.old) × IsErr result }
    {
        match fault {
            StoreFault::Failed => Ok(self.halt(Act::Failed, acts)),
            StoreFault::Stopped => Ok(self.halt(Act::Stopped, acts)),
            StoreFault::OutOfMemory => Err(OutOfMemory),
        }
    }
}
