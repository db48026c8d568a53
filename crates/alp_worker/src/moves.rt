//! What becomes of a join. Each call changes only a join that it is for; none takes memory.
ghost use Rattle.std.specs.Prelude.{◌≡◌, ℕ, List, Option};
ghost use Rattle.alp_base.specs.declared.ids.TransId.{TransId as ATrans};
ghost use Rattle.alp_files.specs.declared.refusal.Cause.{Cause};
ghost use Rattle.alp_journal.specs.Deeds as deed;
ghost use Rattle.alp_journal.specs.State.{State, state_deed};
ghost use Rattle.alp_worker.specs.Joins.{AreJoinsOf, with_entered, with_readied, with_quit, with_aborted, with_applied};

use crate::joins::Joins;
use crate::live::Step;
use alp_base::{JoinNo, Stamp, TransId};

impl Joins {
    /// A join that asks to be let in is let in.
    pub fn enter(&mut self, join: &JoinNo)
        ensures same { self.new ≡ with_entered self.old join.now }
        ensures deed { (s : State) (t : ATrans) (client : ℕ) (who : List ℕ) → AreJoinsOf s self.old → AreJoinsOf (state_deed s (deed.Enters join.now t client who)) self.new }
    {
        self.lives.go_on(join, Step::Enter);
    }

    /// A join that was let in votes for the commit, with this time.
    pub fn ready(&mut self, join: &JoinNo, ts: u64)
        ensures same { self.new ≡ with_readied self.old join.now ts }
        ensures deed { (s : State) (t : ATrans) → AreJoinsOf s self.old → AreJoinsOf (state_deed s (deed.Readies join.now t ts)) self.new }
    {
        self.lives.go_on(join, Step::Vote(ts));
    }

    /// A join that has not voted ends: it was not let in, timed out, or votes against the commit.
    pub fn quit(&mut self, join: &JoinNo)
        ensures same { self.new ≡ with_quit self.old join.now }
        ensures deed { (s : State) (t : ATrans) (client : ℕ) (c : Option Cause) → AreJoinsOf s self.old → AreJoinsOf (state_deed s (deed.Quits join.now t client c)) self.new }
    {
        self.lives.quit(join);
    }

    /// A join of the transaction ends by its coordinator's word.
    pub fn abort(&mut self, join: &JoinNo, trans: &TransId)
        ensures same { self.new ≡ with_aborted self.old join.now trans.now }
        ensures deed { (s : State) (client : ℕ) (c : Cause) → AreJoinsOf s self.old → AreJoinsOf (state_deed s (deed.Aborts join.now trans.now client c)) self.new }
    {
        self.lives.abort(join, trans);
    }

    /// A ready join of the stamp's transaction is applied.
    pub fn apply(&mut self, join: &JoinNo, stamp: &Stamp)
        ensures same { self.new ≡ with_applied self.old join.now stamp.now.trans }
        ensures deed { (s : State) → AreJoinsOf s self.old → AreJoinsOf (state_deed s (deed.Applies join.now stamp.now)) self.new }
    {
        self.lives.apply(join, &stamp.trans);
    }
}
