//! Who takes part in a transaction on other servers.
ghost use Rattle.std.specs.Prelude.{◌≡◌, ◌==◌, ◌∷◌, ◌++◌, ◌||◌, [], IfOk, OnOk, OnErr, position, map as list_map};
ghost use Rattle.std.specs.List.{list_any};
ghost use Rattle.alp_journal.specs.Ids.{same_join};
ghost use Rattle.alp_coord.specs.Members.{are_none, latest_of, later, takes_part, has_said, have_all_said_with, have_all_said, silent, saying, having_said, hushed};

use alp_base::{JoinNo, OutOfMemory};
use std::alloc::Global;
use std::marker::Model;

/// A part of a transaction on another server, and what it has said at this stage: the time of its vote while the
/// transaction is finishing, and some time once the commit is decided and it has applied it.
#[derive(Clone, Copy, Drop)]
pub struct Member {
    pub join: JoinNo,
    pub said: Option<u64>,
}

/// All parts of a transaction on other servers, in the order in which they joined it; seen as the list of them.
#[derive(Drop)]
pub struct Members {
    members: Vec<Member>,
}

impl Model for Members {
    ghost use Rattle.std.specs.Prelude.{List};
    ghost use Rattle.alp_coord.specs.declared.members.Member.{Member};

    ghost Value = { List Member };

    ghost view = { λ m. m.members.items };
}

impl Members {
    pub fn new(alloc: Global) -> Members
        ensures { result ≡ [] }
    {
        Members {
            members: Vec::new(alloc),
        }
    }

    /// These joins, which have said nothing so far.
    pub fn of(alloc: Global, joins: &[JoinNo]) -> Result<Members, OutOfMemory>
        ensures { IfOk result (λ m. m ≡ list_map silent joins.now) }
    {
        let members = silent_members(alloc, joins)?;
        Ok(Members { members })
    }

    pub fn as_slice(&self) -> &[Member]
        ensures { result.now ≡ self.now }
    {
        self.members.as_slice()
    }

    /// One more, which has said nothing so far.
    pub fn add(&mut self, join: JoinNo) -> Result<(), OutOfMemory>
        ensures ok { OnOk result (self.new ≡ self.old ++ silent join ∷ []) }
        ensures err { OnErr result (self.new ≡ self.old) }
    {
        self.members.push(Member { join, said: None })?;
        Ok(())
    }

    /// What a join says for the first time counts from now on. Takes no memory.
    pub fn hear(&mut self, join: &JoinNo, time: u64)
        ensures { self.new ≡ having_said join.now time self.old }
    {
        hear(self.members.as_mut_slice(), join, time);
    }

    /// From now on none has said anything.
    pub fn hush(&mut self)
        ensures { self.new ≡ hushed self.old }
    {
        hush(self.members.as_mut_slice());
    }
}

fn silent_members(alloc: Global, joins: &[JoinNo]) -> Result<Vec<Member>, OutOfMemory>
    ensures { IfOk result (λ m. m.items ≡ list_map silent joins.now) }
{
    let mut members = Vec::with_capacity(alloc, joins.len())?;
    for join in joins {
        members.push(Member {
            join: *join,
            said: None,
        })?;
    }
    Ok(members)
}

fn hear(members: &mut [Member], join: &JoinNo, time: u64)
    ensures { members.new ≡ having_said join.now time members.old }
{
    if has_said(members, join) {
        return;
    }
    say(members, join, time);
}

fn say(members: &mut [Member], join: &JoinNo, time: u64)
    ensures { members.new ≡ saying join.now time members.old }
{
    let Some(place) = place_of(members, join) else {
        return;
    };
    members[place] = Member {
        join: *join,
        said: Some(time),
    };
}

// Where the first of that join stands.
fn place_of(members: &[Member], join: &JoinNo) -> Option<usize>
    ensures { result ≡ position (λ m. same_join m.join join.now) members.now }
{
    members
        .iter()
        .position(|member| is_join(&member.join, join))
}

fn hush(members: &mut [Member])
    ensures { members.new ≡ hushed members.old }
{
    for member in members.iter_mut() {
        member.said = None;
    }
}

/// Whether two numbers are those of one join.
pub fn is_join(one: &JoinNo, other: &JoinNo) -> bool
    ensures { result ≡ same_join one.now other.now }
{
    one.server == other.server && one.epoch == other.epoch && one.counter == other.counter
}

/// Whether there are none.
pub fn are_none(members: &[Member]) -> bool
    ensures { result ≡ are_none members.now }
{
    members.is_empty()
}

/// Whether the join is one of them.
pub fn takes_part(members: &[Member], join: &JoinNo) -> bool
    ensures { result ≡ takes_part join.now members.now }
{
    members.iter().any(|member| is_join(&member.join, join))
}

/// Whether a part on that server is one of them.
pub fn has_server(members: &[Member], server: u8) -> bool
    ensures { result ≡ list_any (λ m. m.join.server == server) members.now }
{
    members.iter().any(|member| member.join.server == server)
}

/// Whether the join has said something.
pub fn has_said(members: &[Member], join: &JoinNo) -> bool
    ensures { result ≡ has_said join.now members.now }
{
    members.iter().any(|member| member.said.is_some() && is_join(&member.join, join))
}

/// Whether each has said something.
pub fn have_all_said(members: &[Member]) -> bool
    ensures { result ≡ have_all_said members.now }
{
    members.iter().all(|member| has_said(members, &member.join))
}

/// Whether each but that join has said something.
pub fn have_all_said_with(members: &[Member], join: &JoinNo) -> bool
    ensures { result ≡ have_all_said_with join.now members.now }
{
    members.iter().all(|member| is_join(join, &member.join) || has_said(members, &member.join))
}

/// The greatest of their votes and of that time.
pub fn latest(members: &[Member], least: u64) -> u64
    ensures { result ≡ latest_of least members.now }
{
    let mut latest = least;
    for member in members {
        latest = later(latest, member.said);
    }
    latest
}

fn later(latest: u64, said: Option<u64>) -> u64
    ensures { result ≡ later latest said }
{
    match said {
        Some(time) => latest.max(time),
        None => latest,
    }
}
