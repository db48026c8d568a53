//! Transactions that are not settled.
ghost use Rattle.std.specs.Prelude.{◌≡◌, is_some, IfOk, OnOk, OnErr};
ghost use Rattle.std.specs.FinMap as map;
ghost use Rattle.std.specs.Option.{option_copied as copied};
ghost use Rattle.std.specs.BTreeMap.{keys, IsOrdered};
ghost use Rattle.std.specs.List.Sorted.{IsStrictlySortedBy};
ghost use Rattle.alp_base.specs.Orders.{trans_cmp};
ghost use Rattle.alp_coord.specs.Courses.{changed_at, entered, turned, told};

use crate::course::{Course, Stage};
use alp_base::{JoinNo, OutOfMemory, TransId};
use std::alloc::Global;
use std::collections::BTreeMap;
use std::marker::Model;

/// Transactions that are not settled, by their ids.
#[derive(Drop)]
pub struct Courses {
    courses: BTreeMap<TransId, Course>,
}

impl Model for Courses {
    ghost use Rattle.std.specs.FinMap as map;
    ghost use Rattle.alp_base.specs.Orders.{trans_cmp};
    ghost use Rattle.alp_coord.specs.declared.course.Course.{Course};
    ghost use Rattle.alp_base.specs.contracts.ids.TransId as id_type;
    ghost use Rattle.alp_coord.specs.contracts.course.Course as course_type;

    ghost Value = { map.FinMap trans_cmp Course };

    ghost coded = { map.code id_type.the_row.coded course_type.the_row.coded };

    ghost view = { λ l. map.from_entries l.courses.entries };
}

impl Courses {
    pub fn new(alloc: Global) -> Courses
        ensures { result ≡ map.empty }
    {
        Courses {
            courses: BTreeMap::new(alloc),
        }
    }

    pub fn get(&self, trans: &TransId) -> Option<&Course>
        ensures { copied result ≡ map.get self.now trans.now }
    {
        self.courses.get(trans)
    }

    /// Whether the transaction is here.
    pub fn has(&self, trans: &TransId) -> bool
        ensures { result ≡ is_some (map.get self.now trans.now) }
    {
        self.courses.contains_key(trans)
    }

    /// This is the transaction's course from now on.
    pub fn add(&mut self, trans: TransId, course: Course) -> Result<(), OutOfMemory>
        ensures ok { OnOk result (self.new ≡ map.insert self.old trans course) }
        ensures err { OnErr result (self.new ≡ self.old) }
    {
        self.courses.insert(trans, course)?;
        Ok(())
    }

    /// A part joins the transaction, if it is here.
    pub fn enter(&mut self, trans: &TransId, join: JoinNo) -> Result<(), OutOfMemory>
        ensures ok { OnOk result (self.new ≡ changed_at (entered join) self.old trans.now) }
        ensures err { OnErr result (self.new ≡ self.old) }
    {
        let Some(course) = self.courses.get_mut(trans) else {
            return Ok(());
        };
        course.members.add(join)?;
        Ok(())
    }

    /// The transaction comes to that stage, if it is here, at which its parts have said nothing so far. Takes no memory.
    pub fn turn(&mut self, trans: &TransId, stage: Stage)
        ensures { self.new ≡ changed_at (turned stage) self.old trans.now }
    {
        let Some(course) = self.courses.get_mut(trans) else {
            return;
        };
        course.stage = stage;
        course.members.hush();
    }

    /// A part says this of the transaction, if it is here. Takes no memory.
    pub fn hear(&mut self, trans: &TransId, join: &JoinNo, time: u64)
        ensures { self.new ≡ changed_at (told join.now time) self.old trans.now }
    {
        let Some(course) = self.courses.get_mut(trans) else {
            return;
        };
        course.members.hear(join, time);
    }

    /// What stood for the transaction goes.
    pub fn remove(&mut self, trans: &TransId) -> Option<Course>
        ensures after { self.new ≡ map.remove self.old trans.now }
        ensures before { result ≡ map.get self.old trans.now }
    {
        self.courses.remove(trans)
    }

    /// All of them, by their ids.
    pub fn tree(&self) -> &BTreeMap<TransId, Course>
        ensures ids { keys result.now ≡ map.keys self.now }
        ensures rising { IsOrdered trans_cmp result.now }
    {
        let _ = self.courses.len();
        &self.courses
    }

    /// The ids, in rising order.
    pub fn ids(&self, alloc: Global) -> Result<Vec<TransId>, OutOfMemory>
        ensures ids { IfOk result (λ v. v.items ≡ map.keys self.now) }
        ensures rising { IfOk result (λ v. IsStrictlySortedBy trans_cmp v.items) }
    {
        let ids = ids_in(alloc, &self.courses)?;
        Ok(ids)
    }
}

fn ids_in(alloc: Global, courses: &BTreeMap<TransId, Course>) -> Result<Vec<TransId>, OutOfMemory>
    ensures ids { IfOk result (λ v. v.items ≡ keys courses.now) }
    ensures rising { IsOrdered trans_cmp courses.now }
{
    let mut ids = Vec::new(alloc);
    for trans in courses.keys() {
        ids.push(*trans)?;
    }
    Ok(ids)
}
