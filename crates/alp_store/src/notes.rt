//! Whether the notes of a log are those of a server, one by one.
ghost use Rattle.std.specs.Prelude.{◌≡◌, true, false, IfOk};
ghost use Rattle.std.specs.List.{list_all};
ghost use Rattle.std.specs.FinMap as map;
ghost use Rattle.alp_fields.specs.ClockNote.{is_clock_note as is_clock_note_said, clock_kept};
ghost use Rattle.alp_fields.specs.ReadyNote.{ready_in};
ghost use Rattle.alp_fields.specs.DecisionNote.{decision_in};
ghost use Rattle.alp_pool.specs.Pools.{log_of};
ghost use Rattle.alp_vault.specs.Volumes.{AreServerNotes, is_server_note as is_server_note_said, is_another as is_another_said, is_ready_on as is_ready_on_said, is_decision_of as is_decision_of_said};
ghost use Rattle.alp_wal.specs.Wal.{notes_of};
ghost use Rattle.alp_store.specs.Notes.{is_good as is_good_said};

use crate::home_pages::HomePages;
use alp_base::{Bytes, JoinNo, OutOfMemory, TransId};
use alp_disk::Disk;
use alp_fields::{
    Decision, ReadyPart, clock_note_name, is_clock_name, read_clock, read_decision,
    read_decision_name, read_ready, read_ready_name,
};
use std::alloc::Global;

fn is_clock_note(name: &Bytes, value: &Bytes) -> bool
    ensures { result ≡ is_clock_note_said name.now value.now }
{
    is_clock_name(name.as_slice()) && read_clock(value.as_slice()).is_some()
}

// The part that the note keeps, if it keeps one.
fn part_in(
    alloc: Global,
    name: &Bytes,
    value: &Bytes,
) -> Result<Option<(JoinNo, ReadyPart)>, OutOfMemory>
    ensures { IfOk result (λ p. p ≡ ready_in name.now value.now) }
{
    let Some(join) = read_ready_name(name.as_slice()) else {
        return Ok(None);
    };
    let Some(part) = read_ready(alloc, value.as_slice())? else {
        return Ok(None);
    };
    Ok(Some((join, part)))
}

// And the decision.
fn decision_of(
    alloc: Global,
    name: &Bytes,
    value: &Bytes,
) -> Result<Option<(TransId, Decision)>, OutOfMemory>
    ensures { IfOk result (λ d. d ≡ decision_in name.now value.now) }
{
    let Some(trans) = read_decision_name(name.as_slice()) else {
        return Ok(None);
    };
    let Some(decision) = read_decision(alloc, value.as_slice())? else {
        return Ok(None);
    };
    Ok(Some((trans, decision)))
}

// Whether the run has that server, and it is not this one.
fn is_another(server: u8, servers: u8, other: u8) -> bool
    ensures { result ≡ is_another_said server servers other }
{
    1 <= other && other <= servers && other != server
}

// Whether the part is on the server, of a transaction of another one.
fn is_ready_on(server: u8, servers: u8, part: &Option<(JoinNo, ReadyPart)>) -> bool
    ensures { result ≡ is_ready_on_said server servers part.now }
{
    match part {
        Some((join, kept)) => {
            join.server == server && is_another(server, servers, kept.trans.server)
        }
        None => false,
    }
}

fn are_others(server: u8, servers: u8, joins: &[JoinNo]) -> bool
    ensures { result ≡ list_all (λ j. is_another_said server servers j.server) joins.now }
{
    joins
        .iter()
        .all(|join| is_another(server, servers, join.server))
}

// Whether the decision is the server's, with parts on others.
fn is_decision_of(server: u8, servers: u8, decision: &Option<(TransId, Decision)>) -> bool
    ensures { result ≡ is_decision_of_said server servers decision.now }
{
    match decision {
        Some((trans, kept)) => {
            trans.server == server && are_others(server, servers, kept.joins.as_slice())
        }
        None => false,
    }
}

fn is_server_note(
    alloc: Global,
    server: u8,
    servers: u8,
    name: &Bytes,
    value: &Bytes,
) -> Result<bool, OutOfMemory>
    ensures { IfOk result (λ good. good ≡ is_server_note_said server servers name.now value.now) }
{
    let part = part_in(alloc, name, value)?;
    let decision = decision_of(alloc, name, value)?;
    let good = is_clock_note(name, value)
        || (is_ready_on(server, servers, &part) || is_decision_of(server, servers, &decision));
    Ok(good)
}

// Whether the note of that name is, if it stands.
fn is_good<D: Disk>(
    alloc: Global,
    pages: &HomePages<D>,
    server: u8,
    servers: u8,
    name: &Bytes,
) -> Result<bool, OutOfMemory>
    ensures { IfOk result (λ good. good ≡ is_good_said server servers name.now (map.get (notes_of (log_of pages.now)) name.now)) }
{
    match pages.note(name) {
        Some(value) => is_server_note(alloc, server, servers, name, value),
        None => Ok(true),
    }
}

/// Whether all notes are in the format of a server, which is one of so many.
pub(super) fn are_server_notes<D: Disk>(
    alloc: Global,
    pages: &HomePages<D>,
    server: u8,
    servers: u8,
) -> Result<bool, OutOfMemory>
    ensures good { IfOk result (λ all. all ≡ true → AreServerNotes server servers (notes_of (log_of pages.now))) }
    ensures bad { IfOk result (λ all. all ≡ false → AreServerNotes server servers (notes_of (log_of pages.now)) → ⊥) }
{
    let names = pages.note_names();
    for name in names {
        let good = is_good(alloc, pages, server, servers, name)?;
        if !good {
            return Ok(false);
        }
    }
    Ok(true)
}

/// The epoch that the note of the clock keeps, or 0.
pub(super) fn epoch_kept<D: Disk>(alloc: Global, pages: &HomePages<D>) -> Result<u32, OutOfMemory>
    ensures { IfOk result (λ epoch. epoch ≡ (clock_kept (notes_of (log_of pages.now))).epoch) }
{
    let name = clock_note_name(alloc)?;
    let Some(value) = pages.note(&name) else {
        return Ok(0);
    };
    match read_clock(value.as_slice()) {
        Some(clock) => Ok(clock.epoch),
        None => Ok(0),
    }
}
