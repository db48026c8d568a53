//! What notes tell of ready parts at a start or a restart.
ghost use Rattle.std.specs.Prelude.{◌≡◌, ◌<◌, ℕ, [], IfOk, map as list_map};
ghost use Rattle.alp_journal.specs.Deeds as deed;
ghost use Rattle.alp_journal.specs.Opening.{Start};
ghost use Rattle.alp_journal.specs.State.{State, state_deed, opened};
ghost use Rattle.alp_worker.specs.Joins.{AreJoinsOf};
ghost use Rattle.alp_worker.specs.Regained.{part_noted, with_parts, joins_regained, AreNoted, DoNotesStand};
ghost use Rattle.alp_worker.specs.declared.joins.Joins.{Joins as AJoins};

use crate::joins::Joins;
use crate::live::Stage;
use crate::live_list::LiveList;
use alp_base::{JoinNo, OutOfMemory, TransId};
use std::alloc::Global;

/// A part that voted for its commit, as its note has it: with the time of its vote.
#[derive(Clone, Copy, Drop)]
pub struct ReadyPart {
    pub join: JoinNo,
    pub trans: TransId,
    pub client: u8,
    pub ts: u64,
}

impl Joins {
    /// Of a server that begins this epoch, with the parts that its notes keep; of two of one number the first counts. No other
    /// join outlives a restart. After want of memory nothing is made.
    pub fn regained(
        alloc: Global,
        server: u8,
        epoch: u32,
        parts: &[ReadyPart],
    ) -> Result<Joins, OutOfMemory>
        ensures same { IfOk result (λ k. k ≡ joins_regained server epoch parts.now) }
        ensures opened { (o : Start) → o.server ≡ server → o.epoch ≡ epoch → list_map part_noted o.ready ≡ parts.now → AreNoted server epoch parts.now → IfOk result (λ k. AreJoinsOf (opened o) k) }
        ensures restarted { (s : State) (before : AJoins) (clock : ℕ) → AreJoinsOf s before → s.holder.server ≡ server → s.ids.epoch < epoch → DoNotesStand parts.now s.phases → IfOk result (λ k. AreJoinsOf (state_deed s (deed.Restarts epoch clock)) k) }
    {
        let lives = lives_of(alloc, parts)?;
        Ok(Joins {
            server,
            epoch,
            drawn: 0,
            lives,
        })
    }
}

fn lives_of(alloc: Global, parts: &[ReadyPart]) -> Result<LiveList, OutOfMemory>
    ensures { IfOk result (λ l. l ≡ with_parts [] parts.now) }
{
    let mut lives = LiveList::new(alloc);
    for part in parts {
        if lives.get(&part.join).is_none() {
            lives.push(part.join, part.trans, part.client, Stage::Ready(part.ts))?;
        }
    }
    Ok(lives)
}
