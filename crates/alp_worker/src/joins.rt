//! The joins that a server drew in its epoch, and those of them, and of older epochs, that are live.
ghost use Rattle.std.specs.Prelude.{◌≡◌, ◌<◌, ◌^◌, ◌-◌, ℕ, List, [], None, length, filter, is_some, IfOk, OnOk, OnErr};
ghost use Rattle.std.specs.Option.{option_copied as copied, option_and_then};
ghost use Rattle.alp_base.specs.declared.ids.TransId.{TransId as ATrans};
ghost use Rattle.alp_journal.specs.Deeds as deed;
ghost use Rattle.alp_journal.specs.Moves.{next_join};
ghost use Rattle.alp_journal.specs.Opening.{Start};
ghost use Rattle.alp_journal.specs.Participant.{live_in};
ghost use Rattle.alp_journal.specs.State.{State, state_deed, opened, join_for, is_join_drawn};
ghost use Rattle.alp_worker.specs.Joins.{AreJoinsOf, no_joins, next_of, with_drawn, is_drawn_in};
ghost use Rattle.alp_worker.specs.Lives.{join_at, live_at, part_of as part_said, number_in};
ghost use Rattle.alp_worker.specs.declared.joins.Joins.{Joins as AJoins};

use crate::live::{LiveJoin, Stage};
use crate::live_list::LiveList;
use alp_base::{JoinNo, Name, OutOfMemory, TransId};
use std::alloc::Global;

/// A server's own number, its epoch, how many joins it drew in that, and the joins that are live. Nothing is kept of one that is
/// over.
#[derive(Drop)]
pub struct Joins {
    pub(super) server: u8,
    pub(super) epoch: u32,
    pub(super) drawn: u32,
    pub(super) lives: LiveList,
}

impl Joins {
    /// Of a server that begins this epoch and has no ready part.
    pub fn new(alloc: Global, server: u8, epoch: u32) -> Joins
        ensures none { result ≡ no_joins server epoch }
        ensures opened { (o : Start) → o.server ≡ server → o.epoch ≡ epoch → o.ready ≡ [] → 0 < epoch → AreJoinsOf (opened o) result }
    {
        Joins {
            server,
            epoch,
            drawn: 0,
            lives: LiveList::new(alloc),
        }
    }

    /// A join of another server's transaction, which asks to be let in for the client; the client has no live part of it here.
    /// After want of memory all is as before.
    pub fn draw(&mut self, trans: TransId, client: u8, who: Name) -> Result<JoinNo, OutOfMemory>
        requires room { self.old.drawn < 2 ^ 32 - 1 }
        ensures number { IfOk result (λ j. j ≡ next_of self.old) }
        ensures ok { OnOk result (self.new ≡ with_drawn self.old trans client who) }
        ensures err { OnErr result (self.new ≡ self.old) }
        ensures next { (s : State) → AreJoinsOf s self.old → next_of self.old ≡ next_join s }
        ensures deed { (s : State) → AreJoinsOf s self.old → part_said client trans self.old.lives ≡ None → OnOk result (AreJoinsOf (state_deed s (deed.Joins (next_join s) trans client who)) self.new) }
    {
        let join = JoinNo {
            server: self.server,
            epoch: self.epoch,
            counter: self.drawn + 1,
        };
        self.lives.push(join, trans, client, Stage::Joining(who))?;
        self.drawn += 1;
        Ok(join)
    }

    /// Takes the last draw back.
    pub fn take_back(&mut self)
        ensures { (before : AJoins) (t : ATrans) (client : ℕ) (who : List ℕ) → self.old ≡ with_drawn before t client who → self.new ≡ before }
    {
        self.drawn = self.drawn.saturating_sub(1);
        self.lives.take_back();
    }

    /// The live join with that number.
    pub fn get(&self, join: &JoinNo) -> Option<&LiveJoin>
        ensures same { copied result ≡ join_at self.now.lives join.now }
        ensures journal { (s : State) → AreJoinsOf s self.now → copied result ≡ live_at join.now (s.phases join.now) }
    {
        self.lives.get(join)
    }

    /// The live part of the transaction that the client has here.
    pub fn part_of(&self, client: u8, trans: &TransId) -> Option<&LiveJoin>
        ensures same { copied result ≡ part_said client trans.now self.now.lives }
        ensures number { (s : State) → AreJoinsOf s self.now → number_in (copied result) ≡ join_for s client trans.now }
        ensures phase { (s : State) → AreJoinsOf s self.now → copied result ≡ option_and_then (λ j. live_at j (s.phases j)) (join_for s client trans.now) }
    {
        self.lives.part_of(client, trans)
    }

    /// Whether this server drew the join, in this epoch or an older one.
    pub fn is_drawn(&self, join: &JoinNo) -> bool
        ensures same { result ≡ is_drawn_in self.now join.now }
        ensures journal { (s : State) → AreJoinsOf s self.now → result ≡ is_join_drawn s join.now }
    {
        join.server == self.server
            && join.epoch > 0
            && join.counter > 0
            && (join.epoch < self.epoch || join.epoch == self.epoch && join.counter <= self.drawn)
    }

    /// How many joins are live.
    pub fn len(&self) -> usize
        ensures same { result ≡ length self.now.lives }
        ensures journal { (s : State) → AreJoinsOf s self.now → result ≡ length (filter (λ j. is_some (live_in (s.phases j))) s.joined) }
    {
        self.lives.len()
    }
}
