//! What becomes of transactions.
ghost use Rattle.std.specs.Prelude.{◌≡◌, ◌==◌, ◌≤◌, ◌&&◌, IfOk, OnErr, if◌then◌else◌, ℕ, true, false};
ghost use Rattle.alp_base.specs.declared.ids.TransId.{TransId as ATransId};
ghost use Rattle.alp_journal.specs.Ids.{same_trans, has_join, has_server};
ghost use Rattle.alp_journal.specs.Coordinator.{joins_of, votes_in, has_votes, with_vote};
ghost use Rattle.alp_journal.specs.Laws.{latest_vote};
ghost use Rattle.alp_journal.specs.Deeds.{Registers, Finishes, Hears, Decides, Ends, Acknowledges};
ghost use Rattle.alp_coord.specs.Members.{joins, votes};
ghost use Rattle.alp_coord.specs.Courses.{fate_of, is_running_stage, is_finishing_stage, is_early_stage, is_decided_stage};
ghost use Rattle.alp_coord.specs.Coordinators.{AfterRegistration, IsAlong, Comes, ComesLike, Keeps, epoch_of, course_in, at_stage, fate_in, is_other, registration_in, registration_of, admitted, ballot_of, receipt_of, applied_time, forgotten_fate};

use crate::begun::Settled;
use crate::course::{Course, Stage};
use crate::members::{
    are_none, has_said, has_server, have_all_said, have_all_said_with, latest, takes_part,
};
use crate::{Ballot, Coordinator, Member, Receipt, Registration};
use alp_base::{JoinNo, OutOfMemory, TransId};
use alp_files::Cause;

impl Coordinator {
    /// What becomes of a part of this client on another server that asks to take part, in a run of so many servers: the
    /// first of its server takes part, while the transaction is running and if it is that client's.
    pub fn registration(
        &self,
        trans: &TransId,
        join: &JoinNo,
        client: u8,
        servers: u8,
    ) -> Registration
        ensures { result ≡ registration_in self.now trans.now join.now client servers }
    {
        if !self.is_known(trans) {
            return Registration::Silence;
        }
        match self.course(trans) {
            Some(course) => {
                let other = is_other(self.server, servers, join.server);
                registration_of(course, join, client, other)
            }
            None => Registration::Refused,
        }
    }

    /// A part asks to take part, and does from now on where it may. After want of memory all is as before.
    pub fn register(
        &mut self,
        trans: &TransId,
        join: JoinNo,
        client: u8,
        servers: u8,
    ) -> Result<Registration, OutOfMemory>
        ensures answer { IfOk result (λ r. r ≡ registration_in self.old trans.now join client servers) }
        ensures after { IfOk result (λ r. AfterRegistration (Registers trans.now join) r self.old self.new) }
        ensures err { OnErr result (self.new ≡ self.old) }
    {
        let answer = self.registration(trans, &join, client, servers);
        match answer {
            Registration::Registered => {}
            Registration::Silence => return Ok(Registration::Silence),
            Registration::Known => return Ok(Registration::Known),
            Registration::Refused => return Ok(Registration::Refused),
        }
        self.courses.enter(trans, join)?;
        Ok(Registration::Registered)
    }

    /// Its client asks for the commit of a running transaction. Takes no memory.
    pub fn finish(&mut self, trans: &TransId)
        ensures along { IsAlong self.old self.new }
        ensures finished { Comes (Finishes trans.now) self.old self.new }
    {
        if !self.runs(trans) {
            return;
        }
        self.courses.turn(trans, Stage::Finishing);
    }

    /// What a vote with that time comes to, which gives the latest time of all votes with the last: at least `least`.
    pub fn ballot(&self, trans: &TransId, join: &JoinNo, time: u64, least: u64) -> Ballot
        ensures { result ≡ ballot_of join.now time least (fate_in self.now trans.now) }
    {
        match self.course(trans) {
            Some(course) => ballot_of(course, join, time, least),
            None => Ballot::Dropped,
        }
    }

    /// The vote of one of its parts is kept for a finishing transaction, unless it voted before; that of another is not.
    /// Takes no memory.
    pub fn hear(&mut self, trans: &TransId, join: &JoinNo, time: u64)
        ensures along { IsAlong self.old self.new }
        ensures heard { has_join join.now (joins_of (fate_in self.old trans.now)) ≡ true → ComesLike (Hears trans.now join.now time) self.old self.new }
        ensures dropped { has_join join.now (joins_of (fate_in self.old trans.now)) ≡ false → Keeps self.old self.new }
    {
        if !self.finishes(trans) {
            return;
        }
        self.courses.hear(trans, join, time);
    }

    /// A finishing transaction is committed at that time, with all its parts: each of them has voted, and no vote is later.
    /// Takes no memory.
    pub fn decide(&mut self, trans: &TransId, ts: u64)
        requires voted { has_votes (fate_in self.old trans.now) ≡ true }
        requires late { latest_vote 0 (votes_in (fate_in self.old trans.now)) ≤ ts }
        ensures along { IsAlong self.old self.new }
        ensures decided { Comes (Decides (record { ts = ts; trans = trans.now }) (joins_of (fate_in self.old trans.now))) self.old self.new }
    {
        if are_none(self.members(trans)) {
            self.settle(trans, Settled::Committed { ts });
            return;
        }
        self.courses.turn(trans, Stage::Decided { ts });
    }

    /// A transaction that is running or finishing ends in abort. Takes no memory.
    pub fn end(&mut self, trans: &TransId, cause: Cause)
        ensures along { IsAlong self.old self.new }
        ensures ended { (client : ℕ) → Comes (Ends trans.now client cause) self.old self.new }
    {
        if !self.is_early(trans) {
            return;
        }
        self.settle(trans, Settled::Ended { cause });
    }

    /// What it comes to that a part has applied the commit.
    pub fn receipt(&self, trans: &TransId, join: &JoinNo) -> Receipt
        ensures { result ≡ receipt_of join.now (fate_in self.now trans.now) }
    {
        match self.course(trans) {
            Some(course) => receipt_of(course, join),
            None => Receipt::Dropped,
        }
    }

    /// One of its parts has applied the commit; of another it is not kept. Takes no memory.
    pub fn acknowledge(&mut self, trans: &TransId, join: &JoinNo)
        ensures along { IsAlong self.old self.new }
        ensures kept { has_join join.now (joins_of (fate_in self.old trans.now)) ≡ true → ComesLike (Acknowledges trans.now join.now) self.old self.new }
        ensures dropped { has_join join.now (joins_of (fate_in self.old trans.now)) ≡ false → Keeps self.old self.new }
    {
        if !self.is_decided(trans) {
            return;
        }
        self.courses.hear(trans, join, 0);
    }

    /// A decision that all its parts have applied is forgotten; one of an older epoch leaves nothing. Takes no memory.
    pub fn forget(&mut self, trans: &TransId)
        ensures along { IsAlong self.old self.new }
        ensures forgotten { (t : ATransId) → fate_in self.new t ≡ (if same_trans trans.now t then forgotten_fate (t.epoch == epoch_of self.old) (fate_in self.old t) else fate_in self.old t) }
    {
        let Some(ts) = self.applied(trans) else {
            return;
        };
        if !self.is_now(trans) {
            let _ = self.courses.remove(trans);
            return;
        }
        let Some(course) = self.courses.remove(trans) else {
            return;
        };
        let members = course.members;
        self.begun
            .settle(trans.counter, Settled::Forgotten { ts, members });
    }

    // When it was decided, if it is a decision with joins that all have applied.
    fn applied(&self, trans: &TransId) -> Option<u64>
        ensures { result ≡ applied_time (fate_in self.now trans.now) }
    {
        match self.course(trans) {
            Some(course) => applied(course),
            None => None,
        }
    }

    fn runs(&self, trans: &TransId) -> bool
        ensures { result ≡ at_stage is_running_stage (course_in self.now trans.now) }
    {
        match self.course(trans) {
            Some(course) => course.is_running(),
            None => false,
        }
    }

    fn finishes(&self, trans: &TransId) -> bool
        ensures { result ≡ at_stage is_finishing_stage (course_in self.now trans.now) }
    {
        match self.course(trans) {
            Some(course) => course.is_finishing(),
            None => false,
        }
    }

    fn is_early(&self, trans: &TransId) -> bool
        ensures { result ≡ at_stage is_early_stage (course_in self.now trans.now) }
    {
        match self.course(trans) {
            Some(course) => course.is_early(),
            None => false,
        }
    }

    fn is_decided(&self, trans: &TransId) -> bool
        ensures { result ≡ at_stage is_decided_stage (course_in self.now trans.now) }
    {
        match self.course(trans) {
            Some(course) => course.is_decided(),
            None => false,
        }
    }
}

/// Whether it is another server of the run.
pub fn is_other(server: u8, servers: u8, other: u8) -> bool
    ensures { result ≡ is_other server servers other }
{
    0 < other && other <= servers && other != server
}

fn registration_of(course: &Course, join: &JoinNo, client: u8, other: bool) -> Registration
    ensures { (t : ATransId) → result ≡ registration_of other join.now client (fate_of t course.now) }
{
    if !course.is_running() {
        return Registration::Refused;
    }
    if !is_owner(course, client, other) {
        return Registration::Refused;
    }
    admitted(course.members.as_slice(), join)
}

// Whether it is the client's, and a part of another server of the run asks.
fn is_owner(course: &Course, client: u8, other: bool) -> bool
    ensures { result ≡ (course.now.client == client && other) }
{
    course.client == client && other
}

fn admitted(members: &[Member], join: &JoinNo) -> Registration
    ensures { result ≡ admitted (has_join join.now (joins members.now)) (has_server join.now.server (joins members.now)) }
{
    if takes_part(members, join) {
        return Registration::Known;
    }
    if has_server(members, join.server) {
        return Registration::Refused;
    }
    Registration::Registered
}

fn ballot_of(course: &Course, join: &JoinNo, time: u64, least: u64) -> Ballot
    ensures { (t : ATransId) → result ≡ ballot_of join.now time least (fate_of t course.now) }
{
    if !course.is_finishing() {
        return Ballot::Dropped;
    }
    let members = course.members.as_slice();
    if !takes_part(members, join) {
        return Ballot::Dropped;
    }
    if !have_all_said_with(members, join) {
        return Ballot::Kept;
    }
    Ballot::Last {
        latest: latest_with(members, join, time, least),
    }
}

// The latest time of all votes and of one more, if that join has not voted.
fn latest_with(members: &[Member], join: &JoinNo, time: u64, least: u64) -> u64
    ensures { result ≡ latest_vote least (with_vote join.now time (votes members.now)) }
{
    let latest = latest(members, least);
    if has_said(members, join) {
        return latest;
    }
    latest.max(time)
}

fn receipt_of(course: &Course, join: &JoinNo) -> Receipt
    ensures { (t : ATransId) → result ≡ receipt_of join.now (fate_of t course.now) }
{
    if !course.is_decided() {
        return Receipt::Dropped;
    }
    let members = course.members.as_slice();
    if !takes_part(members, join) {
        return Receipt::Dropped;
    }
    if have_all_said(members) {
        return Receipt::Kept;
    }
    if !have_all_said_with(members, join) {
        return Receipt::Kept;
    }
    Receipt::Last
}

fn applied(course: &Course) -> Option<u64>
    ensures { (t : ATransId) → result ≡ applied_time (fate_of t course.now) }
{
    let Some(ts) = course.time() else {
        return None;
    };
    let members = course.members.as_slice();
    if are_none(members) {
        return None;
    }
    if !have_all_said(members) {
        return None;
    }
    Some(ts)
}
