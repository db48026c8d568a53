//! The notes of a server, read one by one.
ghost use Rattle.std.specs.Prelude.{◌≡◌, ◌++◌, IsTrue, true, false, IfOk, IfErr, OnOk, Err, map as list_map};
ghost use Rattle.std.specs.List.{list_all};
ghost use Rattle.std.specs.Option.{option_to_list};
ghost use Rattle.std.specs.FinMap as map;
ghost use Rattle.alp_fields.specs.ClockNote.{is_clock_note as is_clock_note_said};
ghost use Rattle.alp_fields.specs.ReadyNote.{ready_in};
ghost use Rattle.alp_fields.specs.DecisionNote.{decision_in};
ghost use Rattle.alp_vault.specs.Volumes.{AreServerNotes, is_server_note, is_another as is_another_said, is_ready_on as is_ready_on_said, is_decision_of as is_decision_of_said};
ghost use Rattle.alp_journal.specs.Opening.{decision_noted, ready_kept, decisions_kept};
ghost use Rattle.alp_coord.specs.Coordinators.{noted};
ghost use Rattle.alp_regain.specs.Faults.{IsOfNoDevice};
ghost use Rattle.alp_regain.specs.Notes.{part_note, part_under, decision_under, is_good};
ghost use Rattle.alp_regain.specs.declared.fault.RegainFault.TheVariants.{BadNote};

use crate::RegainFault;
use alp_base::{Bytes, JoinNo, Stamp, TransId};
use alp_coord::Decision;
use alp_fields::{
    Decision as Kept, ReadyPart, is_clock_name, read_clock, read_decision, read_decision_name,
    read_ready, read_ready_name,
};
use alp_vault::Vault;
use std::alloc::Global;

/// What the notes of a server keep beside its epoch and its clock.
#[derive(Drop)]
pub(super) struct Notes {
    pub(super) parts: Vec<(JoinNo, ReadyPart)>,
    pub(super) decisions: Vec<Decision>,
}

fn is_clock_note(name: &Bytes, value: &Bytes) -> bool
    ensures { result ≡ is_clock_note_said name.now value.now }
{
    is_clock_name(name.as_slice()) && read_clock(value.as_slice()).is_some()
}

// The part that the note keeps, if it keeps one.
fn part_in(
    alloc: Global,
    name: &Bytes,
    value: &Bytes,
) -> Result<Option<(JoinNo, ReadyPart)>, RegainFault>
    ensures part { IfOk result (λ p. p ≡ ready_in name.now value.now) }
    ensures fault { result ≡ Err BadNote → ⊥ }
    ensures quiet { IfErr result IsOfNoDevice }
{
    let Some(join) = read_ready_name(name.as_slice()) else {
        return Ok(None);
    };
    let Some(part) = read_ready(alloc, value.as_slice())? else {
        return Ok(None);
    };
    Ok(Some((join, part)))
}

// And the decision.
fn decision_of(
    alloc: Global,
    name: &Bytes,
    value: &Bytes,
) -> Result<Option<(TransId, Kept)>, RegainFault>
    ensures decision { IfOk result (λ d. d ≡ decision_in name.now value.now) }
    ensures fault { result ≡ Err BadNote → ⊥ }
    ensures quiet { IfErr result IsOfNoDevice }
{
    let Some(trans) = read_decision_name(name.as_slice()) else {
        return Ok(None);
    };
    let Some(kept) = read_decision(alloc, value.as_slice())? else {
        return Ok(None);
    };
    Ok(Some((trans, kept)))
}

fn is_another(of: (u8, u8), server: u8) -> bool
    ensures { result ≡ is_another_said of.0 of.1 server }
{
    1 <= server && server <= of.1 && server != of.0
}

// Whether the part is on the server, of a transaction of another one.
fn is_ready_on(of: (u8, u8), part: &Option<(JoinNo, ReadyPart)>) -> bool
    ensures { result ≡ is_ready_on_said of.0 of.1 part.now }
{
    match part {
        Some((join, kept)) => join.server == of.0 && is_another(of, kept.trans.server),
        None => false,
    }
}

fn are_others(of: (u8, u8), joins: &[JoinNo]) -> bool
    ensures { result ≡ list_all (λ j. is_another_said of.0 of.1 j.server) joins.now }
{
    joins.iter().all(|join| is_another(of, join.server))
}

// Whether the decision is the server's, with parts on others.
fn is_decision_of(of: (u8, u8), decision: &Option<(TransId, Kept)>) -> bool
    ensures { result ≡ is_decision_of_said of.0 of.1 decision.now }
{
    match decision {
        Some((trans, kept)) => trans.server == of.0 && are_others(of, kept.joins.as_slice()),
        None => false,
    }
}

fn push_part(
    parts: &mut Vec<(JoinNo, ReadyPart)>,
    part: Option<(JoinNo, ReadyPart)>,
) -> Result<(), RegainFault>
    ensures pushed { OnOk result (parts.new.items ≡ parts.old.items ++ option_to_list part) }
    ensures fault { result ≡ Err BadNote → ⊥ }
    ensures quiet { IfErr result IsOfNoDevice }
{
    match part {
        Some(part) => Ok(parts.push(part)?),
        None => Ok(()),
    }
}

fn push_decision(
    alloc: Global,
    decisions: &mut Vec<Decision>,
    decision: Option<(TransId, Kept)>,
) -> Result<(), RegainFault>
    ensures pushed { OnOk result (list_map noted decisions.new.items ≡ list_map noted decisions.old.items ++ option_to_list (decision_noted decision)) }
    ensures fault { result ≡ Err BadNote → ⊥ }
    ensures quiet { IfErr result IsOfNoDevice }
{
    let Some((trans, kept)) = decision else {
        return Ok(());
    };
    let joins = Vec::from_slice(alloc, kept.joins.as_slice())?;
    let stamp = Stamp { ts: kept.ts, trans };
    decisions.push(Decision { stamp, joins })?;
    Ok(())
}

impl Notes {
    // Takes in a note.
    fn add(
        &mut self,
        alloc: Global,
        name: &Bytes,
        value: &Bytes,
        of: (u8, u8),
    ) -> Result<(), RegainFault>
        ensures parts { OnOk result (self.new.parts.items ≡ self.old.parts.items ++ option_to_list (ready_in name.now value.now)) }
        ensures decisions { OnOk result (list_map noted self.new.decisions.items ≡ list_map noted self.old.decisions.items ++ option_to_list (decision_noted (decision_in name.now value.now))) }
        ensures format { OnOk result (is_server_note of.0 of.1 name.now value.now ≡ true) }
        ensures bad { result ≡ Err BadNote → is_server_note of.0 of.1 name.now value.now ≡ false }
        ensures quiet { IfErr result IsOfNoDevice }
    {
        let part = part_in(alloc, name, value)?;
        let decision = decision_of(alloc, name, value)?;
        let is_note = is_clock_note(name, value)
            || (is_ready_on(of, &part) || is_decision_of(of, &decision));
        if !is_note {
            return Err(RegainFault::BadNote);
        }
        push_part(&mut self.parts, part)?;
        push_decision(alloc, &mut self.decisions, decision)
    }

    // Takes in the note of that name, if it stands.
    fn add_named<V: Vault>(
        &mut self,
        alloc: Global,
        vault: &V,
        name: &Bytes,
        of: (u8, u8),
    ) -> Result<(), RegainFault>
        requires { IsTrue (V.serves vault.now) }
        ensures parts { OnOk result (self.new.parts.items ≡ self.old.parts.items ++ option_to_list (part_under (V.held vault.now).notes name.now)) }
        ensures decisions { OnOk result (list_map noted self.new.decisions.items ≡ list_map noted self.old.decisions.items ++ option_to_list (decision_under (V.held vault.now).notes name.now)) }
        ensures format { OnOk result (is_good of.0 of.1 name.now (map.get (V.held vault.now).notes name.now) ≡ true) }
        ensures bad { result ≡ Err BadNote → is_good of.0 of.1 name.now (map.get (V.held vault.now).notes name.now) ≡ false }
        ensures quiet { IfErr result IsOfNoDevice }
    {
        match vault.note(name) {
            Some(value) => self.add(alloc, name, value, of),
            None => Ok(()),
        }
    }
}

/// All notes of the vault, those of a server, which is one of so many.
pub(super) fn notes_of<V: Vault>(
    alloc: Global,
    vault: &V,
    server: u8,
    servers: u8,
) -> Result<Notes, RegainFault>
    requires { IsTrue (V.serves vault.now) }
    ensures parts { IfOk result (λ n. list_map part_note n.parts.items ≡ ready_kept (V.held vault.now).notes) }
    ensures decisions { IfOk result (λ n. list_map noted n.decisions.items ≡ decisions_kept (V.held vault.now).notes) }
    ensures format { IfOk result (λ _. AreServerNotes server servers (V.held vault.now).notes) }
    ensures bad { result ≡ Err BadNote → AreServerNotes server servers (V.held vault.now).notes → ⊥ }
    ensures quiet { IfErr result IsOfNoDevice }
{
    let mut notes = Notes {
        parts: Vec::new(alloc),
        decisions: Vec::new(alloc),
    };
    let names = vault.note_names();
    for name in names {
        notes.add_named(alloc, vault, name, (server, servers))?;
    }
    Ok(notes)
}
