//! The live joins of a server, in the order in which they were drawn.
ghost use Rattle.std.specs.Prelude.{◌≡◌, ◌++◌, ◌∷◌, [], List, length, OnOk, OnErr};
ghost use Rattle.std.specs.Option.{option_copied as copied};
ghost use Rattle.alp_worker.specs.Lives.{join_at, part_of as part_said, staged, stage_after, quitted, aborted_of, applied_of};
ghost use Rattle.alp_worker.specs.declared.live.LiveJoin.{LiveJoin as ALive};

use crate::live::{LiveJoin, Stage, Step, is_same_join, is_same_trans};
use alp_base::{JoinNo, OutOfMemory, TransId};
use std::alloc::Global;
use std::marker::Model;

/// Live joins, seen as a list of them.
#[derive(Drop)]
pub struct LiveList {
    lives: Vec<LiveJoin>,
}

impl Model for LiveList {
    ghost use Rattle.std.specs.Prelude.{List};
    ghost use Rattle.alp_worker.specs.declared.live.LiveJoin.{LiveJoin};

    ghost Value = { List LiveJoin };

    ghost view = { λ l. l.lives.items };
}

impl LiveList {
    pub fn new(alloc: Global) -> LiveList
        ensures { result ≡ [] }
    {
        LiveList {
            lives: Vec::new(alloc),
        }
    }

    pub fn as_slice(&self) -> &[LiveJoin]
        ensures { result.now ≡ self.now }
    {
        self.lives.as_slice()
    }

    pub fn len(&self) -> usize
        ensures { result ≡ length self.now }
    {
        self.lives.len()
    }

    /// The join with that number.
    pub fn get(&self, join: &JoinNo) -> Option<&LiveJoin>
        ensures { copied result ≡ join_at self.now join.now }
    {
        self.lives
            .iter()
            .find(|live| is_same_join(join, &live.join))
    }

    /// The client's part of the transaction.
    pub fn part_of(&self, client: u8, trans: &TransId) -> Option<&LiveJoin>
        ensures { copied result ≡ part_said client trans.now self.now }
    {
        self.lives.iter().find(|live| live.is_part(client, trans))
    }

    /// A join is live from now on.
    pub fn push(
        &mut self,
        join: JoinNo,
        trans: TransId,
        client: u8,
        stage: Stage,
    ) -> Result<(), OutOfMemory>
        ensures ok { OnOk result (self.new ≡ self.old ++ (record { join = join; trans = trans; client = client; stage = stage }) ∷ []) }
        ensures err { OnErr result (self.new ≡ self.old) }
    {
        self.lives.push(LiveJoin {
            join,
            trans,
            client,
            stage,
        })?;
        Ok(())
    }

    /// Takes the last push back.
    pub fn take_back(&mut self)
        ensures { (before : List ALive) (last : ALive) → self.old ≡ before ++ last ∷ [] → self.new ≡ before }
    {
        let _ = self.lives.pop();
    }

    /// The join goes a step further, where it is for it.
    pub fn go_on(&mut self, join: &JoinNo, step: Step)
        ensures { self.new ≡ staged join.now (stage_after step) self.old }
    {
        for live in self.lives.iter_mut() {
            *live = live.gone_on(join, step);
        }
    }

    /// The join ends, if it has not voted.
    pub fn quit(&mut self, join: &JoinNo)
        ensures { self.new ≡ quitted join.now self.old }
    {
        self.lives.retain(|live| !(is_same_join(join, &live.join) && live.stage.is_open()));
    }

    /// The join ends, if it is of the transaction.
    pub fn abort(&mut self, join: &JoinNo, trans: &TransId)
        ensures { self.new ≡ aborted_of join.now trans.now self.old }
    {
        self.lives.retain(|live| !(is_same_join(join, &live.join)
            && is_same_trans(trans, &live.trans)));
    }

    /// The join ends, if it voted and is of the transaction.
    pub fn apply(&mut self, join: &JoinNo, trans: &TransId)
        ensures { self.new ≡ applied_of join.now trans.now self.old }
    {
        self.lives.retain(|live| !(is_same_join(join, &live.join) && live.is_ready_in(trans)));
    }
}
