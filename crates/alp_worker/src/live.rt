//! Joins that are live.
ghost use Rattle.std.specs.Prelude.{◌≡◌};
ghost use Rattle.alp_journal.specs.Ids.{same_join, same_trans};
ghost use Rattle.alp_worker.specs.declared.live.Step.TheVariants as step;
ghost use Rattle.alp_worker.specs.Lives.{is_open as is_open_said, stage_after, staged_one, is_part as is_part_said, is_ready_in as is_ready_said};

use alp_base::{JoinNo, Name, TransId};

/// How far a live join is.
#[derive(Clone, Copy, Drop)]
pub enum Stage {
    /// It asks to be let in, for this principal.
    Joining(Name),
    /// It was let in, and acts for this principal.
    Active(Name),
    /// It voted for the commit, with this time. Whose principal it acted for is not kept.
    Ready(u64),
}

/// A live join of another server's transaction, of this client.
#[derive(Clone, Copy, Drop)]
pub struct LiveJoin {
    pub join: JoinNo,
    pub trans: TransId,
    pub client: u8,
    pub stage: Stage,
}

/// What brings a live join further.
#[derive(Clone, Copy)]
pub enum Step {
    /// It is let in.
    Enter,
    /// It votes for the commit, with this time.
    Vote(u64),
}

impl Stage {
    /// Whether it has not voted.
    pub fn is_open(&self) -> bool
        ensures { result ≡ is_open_said self.now }
    {
        match self {
            Stage::Joining(_) => true,
            Stage::Active(_) => true,
            Stage::Ready(_) => false,
        }
    }

    /// The stage behind a step; one that the step is not for stays as it is.
    pub(super) fn after(&self, next: Step) -> Stage
        ensures { result ≡ stage_after next self.now }
    {
        match next {
            Step::Enter => self.entered(),
            Step::Vote(ts) => self.voted(ts),
        }
    }

    fn entered(&self) -> Stage
        ensures { result ≡ stage_after step.Enter self.now }
    {
        match self {
            Stage::Joining(who) => Stage::Active(*who),
            Stage::Active(who) => Stage::Active(*who),
            Stage::Ready(ts) => Stage::Ready(*ts),
        }
    }

    fn voted(&self, time: u64) -> Stage
        ensures { result ≡ stage_after (step.Vote time) self.now }
    {
        match self {
            Stage::Joining(who) => Stage::Joining(*who),
            Stage::Active(_) => Stage::Ready(time),
            Stage::Ready(before) => Stage::Ready(*before),
        }
    }
}

impl LiveJoin {
    /// Whether it is the client's part of the transaction.
    pub(super) fn is_part(&self, client: u8, trans: &TransId) -> bool
        ensures { result ≡ is_part_said client trans.now self.now }
    {
        is_same_trans(&self.trans, trans) && self.client == client
    }

    /// It, a step further if this is its number.
    pub(super) fn gone_on(&self, join: &JoinNo, next: Step) -> LiveJoin
        ensures { result ≡ staged_one join.now (stage_after next) self.now }
    {
        if !is_same_join(join, &self.join) {
            return *self;
        }
        LiveJoin {
            join: self.join,
            trans: self.trans,
            client: self.client,
            stage: self.stage.after(next),
        }
    }

    /// Whether it voted, and its transaction is this one.
    pub(super) fn is_ready_in(&self, trans: &TransId) -> bool
        ensures { result ≡ is_ready_said trans.now self.now }
    {
        is_same_trans(trans, &self.trans) && !self.stage.is_open()
    }
}

/// Whether two numbers are those of one join.
pub(super) fn is_same_join(one: &JoinNo, other: &JoinNo) -> bool
    ensures { result ≡ same_join one.now other.now }
{
    one.server == other.server && one.epoch == other.epoch && one.counter == other.counter
}

/// Whether two ids are those of one transaction.
pub(super) fn is_same_trans(one: &TransId, other: &TransId) -> bool
    ensures { result ≡ same_trans one.now other.now }
{
    one.server == other.server && one.epoch == other.epoch && one.counter == other.counter
}
