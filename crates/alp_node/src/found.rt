//! What a server finds in its notes as it begins an epoch: parts that are ready, with their locks and intents, and decisions.
ghost use Rattle.std.specs.Prelude.{◌≡◌, ◌≤◌, IsTrue, IfOk, IfErr, length, map as list_map};
ghost use Rattle.alp_calls.specs.Looks.{Looks};
ghost use Rattle.alp_regain.specs.Together.{AreNotesTogether, AreTogether};
ghost use Rattle.alp_node.specs.Found.{AreLive, FindsAll, IsMadeOf, IsToldAs, WasNotFound, join_of, lives_of as lives_said, look_in, ready_of, stamp_of};

use crate::lives::{Live, Lives};
use crate::start::StartFault;
use alp_base::{JoinNo, OutOfMemory, Stamp, VaultFault};
use alp_calls::CallFault;
use alp_coord::{Coordinator, Decision};
use alp_journal::{Parts, Stamps};
use alp_locks::LockTable;
use alp_regain::{RegainFault, Regained, RegainedPart, regain};
use alp_vault::Vault;
use alp_worker::{Joins, ReadyPart};
use std::alloc::Global;

/// What a server finds as it begins an epoch.
#[derive(Drop)]
pub struct Found {
    pub locks: LockTable,
    pub lives: Lives,
    pub joins: Joins,
    pub coordinator: Coordinator,
    /// The joins that are ready, and the stamps of the decisions, by the names of their notes.
    pub ready: Parts,
    pub decided: Stamps,
}

// The parts are live.
fn lives_of(alloc: Global, mut parts: Vec<RegainedPart>) -> Result<Lives, OutOfMemory>
    requires live { AreLive parts.items }
    requires few { length parts.items ≤ 64 }
    ensures { IfOk result (λ l. l ≡ lives_said parts.items) }
{
    let mut lives = Lives::new(alloc);
    while let Some(one) = parts.pop() {
        let RegainedPart {
            join,
            trans,
            client,
            part,
            locks,
            ..
        } = one;
        let live = Live {
            client,
            who: None,
            part,
            locks,
            join: Some(join),
        };
        lives.restore(trans, live)?;
    }
    Ok(lives)
}

// What the joins keep of them.
fn ready_joins(alloc: Global, parts: &[RegainedPart]) -> Result<Vec<ReadyPart>, OutOfMemory>
    ensures { IfOk result (λ v. v.items ≡ list_map ready_of parts.now) }
{
    let mut joins = Vec::new(alloc);
    for part in parts {
        joins.push(ReadyPart {
            join: part.join,
            trans: part.trans,
            client: part.client,
            ts: part.ts,
        })?;
    }
    Ok(joins)
}

fn numbers_of(alloc: Global, parts: &[RegainedPart]) -> Result<Vec<JoinNo>, OutOfMemory>
    ensures { IfOk result (λ v. v.items ≡ list_map join_of parts.now) }
{
    let mut numbers = Vec::new(alloc);
    for part in parts {
        numbers.push(part.join)?;
    }
    Ok(numbers)
}

fn stamps_of(alloc: Global, decisions: &[Decision]) -> Result<Vec<Stamp>, OutOfMemory>
    ensures { IfOk result (λ v. v.items ≡ list_map stamp_of decisions.now) }
{
    let mut stamps = Vec::new(alloc);
    for decision in decisions {
        stamps.push(decision.stamp)?;
    }
    Ok(stamps)
}

// What is made of what was regained.
fn made_of(alloc: Global, regained: Regained, of: (u8, u32)) -> Result<Found, OutOfMemory>
    requires live { AreLive regained.parts.items }
    requires few { length regained.parts.items ≤ 64 }
    ensures { IfOk result (IsMadeOf of.0 of.1 regained) }
{
    let Regained {
        parts,
        decisions,
        locks,
    } = regained;
    let noted = ready_joins(alloc, parts.as_slice())?;
    let ready = numbers_of(alloc, parts.as_slice())?;
    let decided = stamps_of(alloc, decisions.as_slice())?;
    let joins = Joins::regained(alloc, of.0, of.1, noted.as_slice())?;
    let coordinator = Coordinator::regained(alloc, of.0, of.1, decisions.as_slice())?;
    let lives = lives_of(alloc, parts)?;
    Ok(Found {
        locks,
        lives,
        joins,
        coordinator,
        ready: Parts::new(ready),
        decided: Stamps::new(decided),
    })
}

// Why a server finds nothing, as it is told of a start.
fn start_fault(fault: RegainFault) -> StartFault
    ensures { IsToldAs fault result }
{
    match fault {
        RegainFault::BadNote => StartFault::BadNote,
        RegainFault::Vault(CallFault::Failed) => StartFault::Vault(VaultFault::Failed),
        RegainFault::Vault(CallFault::Stopped) => StartFault::Vault(VaultFault::Stopped),
        RegainFault::Vault(CallFault::OutOfMemory) => StartFault::Vault(VaultFault::OutOfMemory),
    }
}

/// What a server finds in its vault that begins this epoch.
pub(super) fn find_all<V: Vault>(
    alloc: Global,
    vault: &mut V,
    of: (u8, u8),
    epoch: u32,
) -> Result<Found, StartFault>
    requires serving { IsTrue (V.serves vault.old) }
    ensures found { IfOk result (FindsAll (V.tells vault.old) (V.held vault.old).cells of.0 epoch (V.held vault.old).notes) }
    ensures notes { IfOk result (λ _. AreNotesTogether of.0 of.1 epoch (V.volume vault.old).area (V.held vault.old).notes) }
    ensures together { IsTrue (V.tells vault.old) → IfOk result (λ _. AreTogether of.0 of.1 epoch (V.volume vault.old) (V.held vault.old).cells (V.held vault.old).notes) }
    ensures cause { IfErr result (WasNotFound (V.tells vault.old) of.0 of.1 epoch (V.volume vault.old) (V.held vault.old)) }
    ensures looked { Looks V.Vault vault.old vault.new (look_in result) }
{
    let regained = match regain(alloc, vault, of.0, of.1, epoch) {
        Ok(regained) => regained,
        Err(fault) => return Err(start_fault(fault)),
    };
    let Ok(found) = made_of(alloc, regained, (of.0, epoch)) else {
        return Err(StartFault::Vault(VaultFault::OutOfMemory));
    };
    Ok(found)
}
