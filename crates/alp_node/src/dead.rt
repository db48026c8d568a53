//! Parts that ended while their clients do not know.
ghost use Rattle.std.specs.Prelude.{◌≡◌, ◌+◌, ◌≤◌, ◌∷◌, ◌++◌, [], OnOk, OnErr, List, length, vec_capacity};
ghost use Rattle.alp_journal.specs.Ids.{same_trans};
ghost use Rattle.alp_node.specs.Dead.{is_part as is_part_said, without_part, without_client, cause_in};
ghost use Rattle.alp_node.specs.Timeouts.{deads_of};
ghost use Rattle.alp_node.specs.declared.dead.DeadPart.{DeadPart as APart};

use alp_base::{OutOfMemory, TransId};
use alp_files::Cause;
use alp_worker::LiveJoin;
use std::alloc::Global;
use std::marker::Model;

/// A part that ended: whose it was, of which transaction, and why it ended.
#[derive(Clone, Copy, Drop)]
pub struct DeadPart {
    pub client: u8,
    pub trans: TransId,
    pub cause: Cause,
}

/// All that ended and are not known of yet, in the order in which they did.
#[derive(Drop)]
pub struct Dead {
    parts: Vec<DeadPart>,
}

impl Model for Dead {
    ghost use Rattle.std.specs.Prelude.{List};
    ghost use Rattle.alp_node.specs.declared.dead.DeadPart.{DeadPart};

    ghost Value = { List DeadPart };

    ghost view = { λ d. d.parts.items };
}

impl Dead {
    pub fn new(alloc: Global) -> Dead
        ensures { result ≡ [] }
    {
        Dead {
            parts: Vec::new(alloc),
        }
    }

    /// Why the client's part of the transaction ended, if it is one of them.
    pub fn cause(&self, client: u8, trans: &TransId) -> Option<Cause>
        ensures { result ≡ cause_in self.now client trans.now }
    {
        last_cause(self.parts.as_slice(), client, trans)
    }

    /// One more.
    pub fn add(&mut self, client: u8, trans: TransId, cause: Cause) -> Result<(), OutOfMemory>
        ensures ok { OnOk result (self.new ≡ self.old ++ (record { client = client; trans = trans; cause = cause }) ∷ []) }
        ensures err { OnErr result (self.new ≡ self.old) }
    {
        self.parts.push(DeadPart {
            client,
            trans,
            cause,
        })?;
        Ok(())
    }

    /// Those of these joins of the transaction, or none.
    pub fn add_all(
        &mut self,
        trans: TransId,
        joins: &[LiveJoin],
        cause: Cause,
    ) -> Result<(), OutOfMemory>
        ensures ok { OnOk result (self.new ≡ self.old ++ deads_of trans cause joins.now) }
        ensures err { OnErr result (self.new ≡ self.old) }
    {
        self.parts.reserve(joins.len())?;
        add_each(&mut self.parts, trans, joins, cause);
        Ok(())
    }

    /// Takes the last one back.
    pub fn take_back(&mut self)
        ensures { (before : List APart) (last : APart) → self.old ≡ before ++ last ∷ [] → self.new ≡ before }
    {
        let _ = self.parts.pop();
    }

    /// The client knows of this one.
    pub fn remove(&mut self, client: u8, trans: TransId)
        ensures { self.new ≡ without_part client trans self.old }
    {
        self.parts.retain(|part| !is_part(part, client, &trans));
    }

    /// The client asks for none of its parts any more.
    pub fn bury(&mut self, client: u8)
        ensures { self.new ≡ without_client client self.old }
    {
        self.parts.retain(|part| part.client != client);
    }
}

fn add_each(parts: &mut Vec<DeadPart>, trans: TransId, joins: &[LiveJoin], cause: Cause)
    requires room { length parts.old.items + length joins.now ≤ vec_capacity parts.old }
    ensures said { parts.new.items ≡ parts.old.items ++ deads_of trans cause joins.now }
{
    for live in joins {
        parts.push_reserved(DeadPart {
            client: live.client,
            trans,
            cause,
        });
    }
}

// The cause that the last of them names which is the client's part of the transaction.
fn last_cause(parts: &[DeadPart], client: u8, trans: &TransId) -> Option<Cause>
    ensures { result ≡ cause_in parts.now client trans.now }
{
    let mut cause = None;
    for part in parts {
        if is_part(part, client, trans) {
            cause = Some(part.cause);
        }
    }
    cause
}

// Whether it is the client's part of the transaction.
fn is_part(part: &DeadPart, client: u8, trans: &TransId) -> bool
    ensures { result ≡ is_part_said client trans.now part.now }
{
    part.client == client && is_same(&part.trans, trans)
}

/// Whether two ids are those of one transaction.
pub fn is_same(one: &TransId, other: &TransId) -> bool
    ensures { result ≡ same_trans one.now other.now }
{
    one.server == other.server && one.epoch == other.epoch && one.counter == other.counter
}
