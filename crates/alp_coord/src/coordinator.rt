//! The transactions of a server.
ghost use Rattle.std.specs.Prelude.{◌≡◌, ◌==◌, ◌&&◌, ◌∷◌, ◌++◌, [], ◌+◌, ◌-◌, ◌^◌, ◌<◌, Some, IfOk, OnOk, OnErr, if◌then◌else◌, ℕ, List, map as list_map};
ghost use Rattle.std.specs.Option.{option_copied as copied};
ghost use Rattle.std.specs.FinMap as map;
ghost use Rattle.alp_base.specs.declared.ids.TransId.{TransId as ATransId};
ghost use Rattle.alp_journal.specs.Ids.{same_trans, is_drawn};
ghost use Rattle.alp_journal.specs.Coordinator.{Undrawn, fate_noted, client_of, joins_of};
ghost use Rattle.alp_journal.specs.Deeds.{Begins};
ghost use Rattle.alp_coord.specs.declared.begun.Settled.TheVariants as settled;
ghost use Rattle.alp_coord.specs.Members.{joins};
ghost use Rattle.alp_coord.specs.Begun.{fate_settled};
ghost use Rattle.alp_coord.specs.Coordinators.{IsOf, Comes, Finds, count_of, epoch_of, server_of, next_id, last_id, is_known, is_open, if_standing, if_open, settled_in, course_in, fate_in, noted, noted_course, with_noted, noted_courses, settle_in, is_finishing_fate};

use crate::begun::{Begun, Settled};
use crate::course::{Course, Stage};
use crate::courses::Courses;
use crate::members::Members;
use crate::{Decision, Member};
use alp_base::{OutOfMemory, TransId};
use std::alloc::Global;

/// The transactions of a server: what became of those that began in this epoch, and the decisions of older epochs that
/// parts on other servers are still to apply.
#[derive(Drop)]
pub struct Coordinator {
    pub(crate) alloc: Global,
    pub(crate) server: u8,
    pub(crate) epoch: u32,
    pub(crate) begun: Begun,
    pub(crate) courses: Courses,
}

impl Coordinator {
    /// None at all.
    pub fn new(alloc: Global, server: u8, epoch: u32) -> Coordinator
        ensures run { IsOf server epoch 0 result }
        ensures none { (t : ATransId) → fate_in result t ≡ Undrawn }
    {
        let begun = Begun::new(alloc);
        let courses = Courses::new(alloc);
        Coordinator {
            alloc,
            server,
            epoch,
            begun,
            courses,
        }
    }

    /// What a start or a restart finds: decisions with joins that were not forgotten. Each join is to say anew that it has
    /// applied the commit.
    pub fn regained(
        alloc: Global,
        server: u8,
        epoch: u32,
        decisions: &[Decision],
    ) -> Result<Coordinator, OutOfMemory>
        ensures run { IfOk result (IsOf server epoch 0) }
        ensures found { IfOk result (Finds (list_map noted decisions.now)) }
    {
        let courses = courses_of(alloc, decisions)?;
        let begun = Begun::new(alloc);
        Ok(Coordinator {
            alloc,
            server,
            epoch,
            begun,
            courses,
        })
    }

    /// How many began in this epoch.
    pub fn count(&self) -> usize
        ensures { result ≡ count_of self.now }
    {
        self.begun.len()
    }

    /// A transaction begins for a client. There is room for its counter, which is one more than the last. After want of memory
    /// all is as before.
    pub fn begin(&mut self, client: u8) -> Result<TransId, OutOfMemory>
        requires room { count_of self.old + 1 < 2 ^ 32 }
        ensures id { IfOk result (λ t. t ≡ next_id self.old) }
        ensures one { OnOk result (IsOf (server_of self.old) (epoch_of self.old) (count_of self.old + 1) self.new) }
        ensures begun { OnOk result ((who : List ℕ) (seen : ℕ) → Comes (Begins (next_id self.old) client who seen) self.old self.new) }
        ensures err { OnErr result (self.new ≡ self.old) }
    {
        let count = self.begun.len();
        let trans = TransId {
            server: self.server,
            epoch: self.epoch,
            counter: count as u32 + 1,
        };
        let course = Course {
            client,
            stage: Stage::Running,
            members: Members::new(self.alloc),
        };
        self.enter(trans, course)?;
        Ok(trans)
    }

    // One more that is not settled, with its course.
    fn enter(&mut self, trans: TransId, course: Course) -> Result<(), OutOfMemory>
        ensures ok { OnOk result (self.new ≡ record self.old { begun = self.old.begun ++ settled.Open ∷ []; courses = map.insert self.old.courses trans course }) }
        ensures err { OnErr result (self.new ≡ self.old) }
    {
        self.begun.push(Settled::Open)?;
        if self.courses.add(trans, course).is_err() {
            self.begun.pop();
            return Err(OutOfMemory);
        }
        Ok(())
    }

    /// Takes the last begin back.
    pub fn take_back(&mut self)
        requires some { 0 < count_of self.old }
        requires few { count_of self.old < 2 ^ 32 }
        ensures run { IsOf (server_of self.old) (epoch_of self.old) (count_of self.old - 1) self.new }
        ensures taken { (t : ATransId) → fate_in self.new t ≡ (if same_trans (last_id self.old) t then Undrawn else fate_in self.old t) }
    {
        let count = self.begun.len();
        let trans = TransId {
            server: self.server,
            epoch: self.epoch,
            counter: count as u32,
        };
        self.begun.pop();
        let _ = self.courses.remove(&trans);
    }

    /// Whether the id was drawn here, in this epoch or an older one.
    pub fn is_known(&self, trans: &TransId) -> bool
        ensures { result ≡ is_known self.now trans.now }
    {
        is_drawn(self.server, self.epoch, self.begun.len(), trans)
    }

    /// The client of a transaction that is running or finishing.
    pub fn client(&self, trans: &TransId) -> Option<u8>
        ensures { result ≡ client_of (fate_in self.now trans.now) }
    {
        match self.course(trans) {
            Some(course) => course.owner(),
            None => None,
        }
    }

    /// Whether the transaction is finishing: its client asked for the commit, and votes are to come.
    pub fn is_finishing(&self, trans: &TransId) -> bool
        ensures { result ≡ is_finishing_fate (fate_in self.now trans.now) }
    {
        match self.course(trans) {
            Some(course) => course.is_finishing(),
            None => false,
        }
    }

    /// The parts of a transaction on other servers, in the order in which they joined it; none where it ended, or where
    /// none is known of it.
    pub fn members(&self, trans: &TransId) -> &[Member]
        ensures { joins result.now ≡ joins_of (fate_in self.now trans.now) }
    {
        match self.course(trans) {
            Some(course) => course.members.as_slice(),
            None => self.settled_members(trans),
        }
    }

    fn settled_members(&self, trans: &TransId) -> &[Member]
        ensures { joins result.now ≡ joins_of (fate_settled trans.now (settled_in self.now trans.now)) }
    {
        match self.settled(trans) {
            Some(settled) => members_of(settled),
            None => &[],
        }
    }

    fn is_here(&self, trans: &TransId) -> bool
        ensures { result ≡ (trans.now.server == self.now.server && trans.now.epoch == self.now.epoch) }
    {
        trans.server == self.server && trans.epoch == self.epoch
    }

    /// Whether it is an id of this epoch.
    pub(crate) fn is_now(&self, trans: &TransId) -> bool
        ensures { result ≡ (trans.now.epoch == self.now.epoch) }
    {
        trans.epoch == self.epoch
    }

    // What became of it, if it began in this epoch.
    pub(crate) fn settled(&self, trans: &TransId) -> Option<&Settled>
        ensures { copied result ≡ settled_in self.now trans.now }
    {
        if !self.is_here(trans) {
            return None;
        }
        self.begun.get(trans.counter)
    }

    // Its course, if it is not settled.
    pub(crate) fn course(&self, trans: &TransId) -> Option<&Course>
        ensures { copied result ≡ course_in self.now trans.now }
    {
        if !self.is_now(trans) {
            return self.course_before(trans);
        }
        self.course_now(trans)
    }

    fn course_now(&self, trans: &TransId) -> Option<&Course>
        ensures { copied result ≡ if_open (settled_in self.now trans.now) (map.get self.now.courses trans.now) }
    {
        let Some(settled) = self.settled(trans) else {
            return None;
        };
        if !is_open(settled) {
            return None;
        }
        self.courses.get(trans)
    }

    fn course_before(&self, trans: &TransId) -> Option<&Course>
        ensures { copied result ≡ if_standing (map.get self.now.courses trans.now) }
    {
        let Some(course) = self.courses.get(trans) else {
            return None;
        };
        if !course.is_standing() {
            return None;
        }
        Some(course)
    }

    // It is settled from now on. Takes no memory.
    pub(crate) fn settle(&mut self, trans: &TransId, end: Settled)
        requires { settled_in self.old trans.now ≡ Some settled.Open }
        ensures { self.new ≡ settle_in self.old trans.now end }
    {
        let _ = self.courses.remove(trans);
        self.begun.settle(trans.counter, end);
    }
}

fn is_open(settled: &Settled) -> bool
    ensures { result ≡ is_open settled.now }
{
    match settled {
        Settled::Open => true,
        Settled::Committed { .. } => false,
        Settled::Forgotten { .. } => false,
        Settled::Ended { .. } => false,
    }
}

fn members_of(settled: &Settled) -> &[Member]
    ensures { (t : ATransId) → joins result.now ≡ joins_of (fate_settled t (Some settled.now)) }
{
    match settled {
        Settled::Open => &[],
        Settled::Committed { .. } => &[],
        Settled::Forgotten { members, .. } => members.as_slice(),
        Settled::Ended { .. } => &[],
    }
}

// Whether a server drew the id that drew so many in its epoch.
fn is_drawn(here: u8, now: u32, last: usize, trans: &TransId) -> bool
    ensures { result ≡ is_drawn here now last trans.now.server trans.now.epoch trans.now.counter }
{
    trans.server == here
        && 0 < trans.epoch
        && 0 < trans.counter
        && (trans.epoch < now || (trans.epoch == now && trans.counter as usize <= last))
}

// The courses of decisions, the first of each transaction.
fn courses_of(alloc: Global, decisions: &[Decision]) -> Result<Courses, OutOfMemory>
    ensures { IfOk result (λ m. m ≡ noted_courses map.empty decisions.now) }
{
    let mut courses = Courses::new(alloc);
    for decision in decisions {
        note(alloc, &mut courses, decision)?;
    }
    Ok(courses)
}

fn note(alloc: Global, courses: &mut Courses, decision: &Decision) -> Result<(), OutOfMemory>
    ensures { OnOk result (courses.new ≡ with_noted decision.now courses.old (map.get courses.old decision.now.stamp.trans)) }
{
    let trans = decision.stamp.trans;
    if courses.has(&trans) {
        return Ok(());
    }
    let course = course_of(alloc, decision)?;
    courses.add(trans, course)?;
    Ok(())
}

fn course_of(alloc: Global, decision: &Decision) -> Result<Course, OutOfMemory>
    ensures { IfOk result (λ c. c ≡ noted_course decision.now) }
{
    let members = Members::of(alloc, decision.joins.as_slice())?;
    Ok(Course {
        client: 0,
        stage: Stage::Decided {
            ts: decision.stamp.ts,
        },
        members,
    })
}
