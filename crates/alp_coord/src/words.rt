//! What is said of transactions, and said again.
ghost use Rattle.std.specs.Prelude.{◌≡◌, ◌++◌, ◌&&◌, not, Some, None, OnOk, IfOk, if◌then◌else◌, length, find, filter, flat_map, map as list_map};
ghost use Rattle.std.specs.BTreeMap.{keys};
ghost use Rattle.std.specs.List.Sorted.{IsStrictlySortedBy};
ghost use Rattle.alp_base.specs.Orders.{trans_cmp};
ghost use Rattle.alp_files.specs.declared.refusal.Cause.TheVariants as cause;
ghost use Rattle.alp_files.specs.declared.reply.Ended.TheVariants as ending;
ghost use Rattle.alp_journal.specs.declared.message.Message.TheVariants as msg;
ghost use Rattle.alp_journal.specs.Answers.{is_counted};
ghost use Rattle.alp_journal.specs.Messages.{ask_again, commit_again};
ghost use Rattle.alp_coord.specs.Members.{joins, has_said};
ghost use Rattle.alp_coord.specs.Begun.{fate_settled};
ghost use Rattle.alp_coord.specs.Coordinators.{is_known, epoch_of, server_of, fate_in, settled_in, inquiry_of, ending_at, enveloped, to_run, asks_of, commits_of, counted_of, open_ids, commit_for, inquiry_at, inquiry_placed, ending_placed, again_to, is_other, is_running_fate, IsLeastRunning};

use crate::begun::Settled;
use crate::course::{Course, Stage};
use crate::members::{has_said, takes_part};
use crate::moves::is_other;
use crate::{Coordinator, Member};
use alp_base::{JoinNo, OutOfMemory, Stamp, TransId};
use alp_files::{Cause, Ended};
use alp_journal::{Envelope, Message};
use std::collections::BTreeMap;

impl Coordinator {
    /// What a part is told that asks how the transaction ended: nothing while it is not decided, or was not drawn here.
    pub fn inquire(&self, trans: &TransId, join: &JoinNo) -> Option<Message>
        ensures { result ≡ (if is_known self.now trans.now then inquiry_of (epoch_of self.now) trans.now join.now (fate_in self.now trans.now) else None) }
    {
        if !self.is_known(trans) {
            return None;
        }
        match self.course(trans) {
            Some(course) => inquiry(course, trans, join),
            None => self.inquire_settled(trans, join),
        }
    }

    fn inquire_settled(&self, trans: &TransId, join: &JoinNo) -> Option<Message>
        ensures { result ≡ inquiry_of (epoch_of self.now) trans.now join.now (fate_settled trans.now (settled_in self.now trans.now)) }
    {
        match self.settled(trans) {
            Some(settled) => inquiry_settled(settled, trans, join, self.epoch),
            None => Some(lost(trans, join, self.epoch)),
        }
    }

    /// How a transaction stands: decided, in this epoch or by a note; running; ended, if it is of this epoch; else nothing
    /// is known of it. None where it was not drawn here.
    pub fn outcome(&self, trans: &TransId) -> Option<Ended>
        ensures { result ≡ (if is_known self.now trans.now then Some (ending_at (epoch_of self.now) trans.now (fate_in self.now trans.now)) else None) }
    {
        if !self.is_known(trans) {
            return None;
        }
        let Some(course) = self.course(trans) else {
            return Some(self.outcome_settled(trans));
        };
        let Some(ts) = course.time() else {
            return Some(Ended::Running);
        };
        Some(committed(trans, ts))
    }

    fn outcome_settled(&self, trans: &TransId) -> Ended
        ensures { result ≡ ending_at (epoch_of self.now) trans.now (fate_settled trans.now (settled_in self.now trans.now)) }
    {
        match self.settled(trans) {
            Some(settled) => ending_settled(settled, trans),
            None => Ended::Unknown,
        }
    }

    /// Asks for the votes that did not come, by transactions, in a run of so many servers.
    pub fn asks_again(&self, servers: u8, out: &mut Vec<Envelope>) -> Result<(), OutOfMemory>
        ensures said { OnOk result (out.new.items ≡ out.old.items ++ list_map enveloped (to_run (server_of self.now) servers (asks_of self.now))) }
        ensures rising { OnOk result (IsStrictlySortedBy trans_cmp (open_ids self.now)) }
    {
        let ids = self.courses.ids(self.alloc)?;
        self.ask_all(ids.as_slice(), servers, out)?;
        Ok(())
    }

    fn ask_all(
        &self,
        ids: &[TransId],
        servers: u8,
        out: &mut Vec<Envelope>,
    ) -> Result<(), OutOfMemory>
        ensures { OnOk result (out.new.items ≡ out.old.items ++ flat_map (λ t. list_map enveloped (to_run (server_of self.now) servers (ask_again t (fate_in self.now t)))) ids.now) }
    {
        for trans in ids {
            self.ask_again(trans, servers, out)?;
        }
        Ok(())
    }

    fn ask_again(
        &self,
        trans: &TransId,
        servers: u8,
        out: &mut Vec<Envelope>,
    ) -> Result<(), OutOfMemory>
        ensures { OnOk result (out.new.items ≡ out.old.items ++ list_map enveloped (to_run (server_of self.now) servers (ask_again trans.now (fate_in self.now trans.now)))) }
    {
        let Some(course) = self.course(trans) else {
            return Ok(());
        };
        if !course.is_finishing() {
            return Ok(());
        }
        let members = course.members.as_slice();
        ask_members(trans, members, self.server, servers, out)
    }

    /// Tells parts of decisions that have not applied them, by transactions, in a run of so many servers.
    pub fn commits_again(&self, servers: u8, out: &mut Vec<Envelope>) -> Result<(), OutOfMemory>
        ensures said { OnOk result (out.new.items ≡ out.old.items ++ list_map enveloped (to_run (server_of self.now) servers (commits_of self.now))) }
        ensures rising { OnOk result (IsStrictlySortedBy trans_cmp (open_ids self.now)) }
    {
        let ids = self.courses.ids(self.alloc)?;
        self.commit_all(ids.as_slice(), servers, out)?;
        Ok(())
    }

    fn commit_all(
        &self,
        ids: &[TransId],
        servers: u8,
        out: &mut Vec<Envelope>,
    ) -> Result<(), OutOfMemory>
        ensures { OnOk result (out.new.items ≡ out.old.items ++ flat_map (λ t. list_map enveloped (to_run (server_of self.now) servers (commit_again t (fate_in self.now t)))) ids.now) }
    {
        for trans in ids {
            self.commit_again(trans, servers, out)?;
        }
        Ok(())
    }

    fn commit_again(
        &self,
        trans: &TransId,
        servers: u8,
        out: &mut Vec<Envelope>,
    ) -> Result<(), OutOfMemory>
        ensures { OnOk result (out.new.items ≡ out.old.items ++ list_map enveloped (to_run (server_of self.now) servers (commit_again trans.now (fate_in self.now trans.now)))) }
    {
        let Some(course) = self.course(trans) else {
            return Ok(());
        };
        let Some(ts) = course.time() else {
            return Ok(());
        };
        let members = course.members.as_slice();
        let stamp = Stamp { ts, trans: *trans };
        tell_members(stamp, members, self.server, servers, out)
    }

    /// How many count towards the transactions of a server: those that are running or finishing, and decisions with joins
    /// that are not forgotten. Takes no memory.
    pub fn counted(&self) -> usize
        ensures { result ≡ counted_of self.now }
    {
        self.count_all(self.courses.tree())
    }

    /// The least transaction that is running, if one is. Takes no memory.
    pub fn least_running(&self) -> Option<TransId>
        ensures { IsLeastRunning self.now result }
    {
        self.first_running(self.courses.tree())
    }

    fn first_running(&self, courses: &BTreeMap<TransId, Course>) -> Option<TransId>
        ensures { result ≡ find (λ t. is_running_fate (fate_in self.now t)) (keys courses.now) }
    {
        for trans in courses.keys() {
            if self.is_running(trans) {
                return Some(*trans);
            }
        }
        None
    }

    fn is_running(&self, trans: &TransId) -> bool
        ensures { result ≡ is_running_fate (fate_in self.now trans.now) }
    {
        match self.course(trans) {
            Some(course) => course.is_running(),
            None => false,
        }
    }

    fn count_all(&self, courses: &BTreeMap<TransId, Course>) -> usize
        ensures { result ≡ length (filter (λ t. is_counted (fate_in self.now t)) (keys courses.now)) }
    {
        let mut count = 0usize;
        for trans in courses.keys() {
            if self.counts(trans) {
                count += 1;
            }
        }
        count
    }

    fn counts(&self, trans: &TransId) -> bool
        ensures { result ≡ is_counted (fate_in self.now trans.now) }
    {
        match self.course(trans) {
            Some(course) => course.counts(),
            None => false,
        }
    }
}

fn committed(trans: &TransId, ts: u64) -> Ended
    ensures { result ≡ ending.Committed (record { ts = ts; trans = trans.now }) }
{
    Ended::Committed {
        stamp: Stamp { ts, trans: *trans },
    }
}

fn abort(trans: &TransId, join: &JoinNo, cause: Cause) -> Message
    ensures { result ≡ msg.Abort trans.now join.now cause }
{
    Message::Abort {
        trans: *trans,
        join: *join,
        cause,
    }
}

// Only a part of it is told that it is committed.
fn commit(trans: &TransId, join: &JoinNo, ts: u64, members: &[Member]) -> Option<Message>
    ensures { result ≡ commit_for trans.now join.now (record { ts = ts; trans = trans.now }) (joins members.now) }
{
    if !takes_part(members, join) {
        return None;
    }
    Some(Message::Commit {
        trans: *trans,
        join: *join,
        stamp: Stamp { ts, trans: *trans },
    })
}

fn lost(trans: &TransId, join: &JoinNo, epoch: u32) -> Message
    ensures { result ≡ msg.Abort trans.now join.now (cause.Lost epoch) }
{
    abort(trans, join, Cause::Lost { epoch })
}

// Of one that began in this epoch.
fn inquiry_settled(settled: &Settled, trans: &TransId, join: &JoinNo, epoch: u32) -> Option<Message>
    ensures { result ≡ inquiry_placed epoch trans.now join.now settled.now }
{
    match settled {
        Settled::Open => Some(lost(trans, join, epoch)),
        Settled::Committed { .. } => None,
        Settled::Forgotten { ts, members } => commit(trans, join, *ts, members.as_slice()),
        Settled::Ended { cause } => Some(abort(trans, join, *cause)),
    }
}

fn ending_settled(settled: &Settled, trans: &TransId) -> Ended
    ensures { result ≡ ending_placed trans.now settled.now }
{
    match settled {
        Settled::Open => Ended::Unknown,
        Settled::Committed { ts } => committed(trans, *ts),
        Settled::Forgotten { ts, .. } => committed(trans, *ts),
        Settled::Ended { .. } => Ended::Aborted,
    }
}

fn inquiry(course: &Course, trans: &TransId, join: &JoinNo) -> Option<Message>
    ensures { result ≡ inquiry_at trans.now join.now course.now.stage course.now.members }
{
    match course.stage {
        Stage::Running => None,
        Stage::Finishing => None,
        Stage::Decided { ts } => commit(trans, join, ts, course.members.as_slice()),
    }
}

// Whether it is on another server of the run, and has said nothing.
fn is_due(member: &Member, members: &[Member], server: u8, servers: u8) -> bool
    ensures { result ≡ (not (has_said member.now.join members.now) && is_other server servers member.now.join.server) }
{
    !has_said(members, &member.join) && is_other(server, servers, member.join.server)
}

// Asks those that have not voted.
fn ask_members(
    trans: &TransId,
    members: &[Member],
    server: u8,
    servers: u8,
    out: &mut Vec<Envelope>,
) -> Result<(), OutOfMemory>
    ensures { OnOk result (out.new.items ≡ out.old.items ++ again_to server servers (msg.Ask trans.now) members.now members.now) }
{
    for member in members {
        if is_due(member, members, server, servers) {
            out.push(Envelope {
                to: member.join.server,
                message: Message::Ask {
                    trans: *trans,
                    join: member.join,
                },
            })?;
        }
    }
    Ok(())
}

// Tells those that have not applied it.
fn tell_members(
    stamp: Stamp,
    members: &[Member],
    server: u8,
    servers: u8,
    out: &mut Vec<Envelope>,
) -> Result<(), OutOfMemory>
    ensures { OnOk result (out.new.items ≡ out.old.items ++ again_to server servers (λ j. msg.Commit stamp.trans j stamp) members.now members.now) }
{
    for member in members {
        if is_due(member, members, server, servers) {
            out.push(Envelope {
                to: member.join.server,
                message: Message::Commit {
                    trans: stamp.trans,
                    join: member.join,
                    stamp,
                },
            })?;
        }
    }
    Ok(())
}
