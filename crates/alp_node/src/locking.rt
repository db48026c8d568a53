//! File calls that ask for locks.
ghost use Rattle.std.specs.Prelude.{◌≡◌, ◌+◌, ◌<◌, ◌^◌, [], IsTrue, IfOk, Some, None, is_some, true, false, length, vec_capacity};
ghost use Rattle.std.specs.FinMap as map;
ghost use Rattle.alp_files.specs.Locks.{IsFormed};
ghost use Rattle.alp_locks.specs.Sound.{IsPrepared};
ghost use Rattle.alp_locks.specs.Asks.{blocker as blocking};
ghost use Rattle.alp_locks.specs.Tables.{holding};
ghost use Rattle.alp_journal.specs.declared.event.Event.TheVariants as event;
ghost use Rattle.alp_journal.specs.Desk.{file_trans};
ghost use Rattle.alp_node.specs.Asks.{IsAsked, asks_made as asks_made_of, makes_file, plan_of, plan_if, plan_for, count_made, with_plan, acts_of};
ghost use Rattle.alp_node.specs.ServerState.{IsReadyForMore, IsOfJournal};
ghost use Rattle.alp_node.specs.Served.{AreLivesSound};
ghost use Rattle.alp_node.specs.Standings.{standing_of};
ghost use Rattle.alp_node.specs.declared.served.Standing.TheVariants as standing;
ghost use Rattle.alp_node.specs.Steps.{IsStep, IsTurn};
ghost use Rattle.alp_node.specs.declared.lives.Live.{Live as ALive};
ghost use Rattle.alp_node.specs.Calls.{IsServedCall, next_file};
ghost use Rattle.alp_node.specs.Shapes.{shape_of, counts_then, too_locked as too_locked_said, may_wait as may_wait_of, ReadsSome};
ghost use Rattle.alp_node.specs.Waits.{has_waiting};

use crate::answer::Answer;
use crate::asks::asks_made;
use crate::lock_counts::{LockCounts, too_locked};
use crate::server_state::ServerState;
use crate::sessions::Turn;
use crate::waits::{WaitingCall, copy_of};
use alp_base::{Choice, OutOfMemory, TransId};
use alp_files::{Call, Refusal};
use alp_journal::{Act, Acts};
use alp_locks::Plan;
use alp_queue::Needs;
use alp_vault::Vault;
use std::alloc::Global;

impl<V: Vault> ServerState<V> {
    /// A call that asks these locks: refused where they are too many or another is in their way, and performed under them
    /// otherwise. `halted` has room for the act of a server that goes down.
    pub fn lock_call(
        &mut self,
        turn: &Turn,
        trans: TransId,
        call: &Call,
        needs: Needs,
        halted: Vec<Act>,
    ) -> Result<Answer, OutOfMemory>
        requires turn { IsTurn self.old.sessions turn.now }
        requires works { standing_of self.old turn.now.client trans ≡ standing.Work }
        requires idle { has_waiting turn.now.client trans self.old.waits ≡ false }
        requires up { self.old.is_down ≡ false }
        requires ready { IsReadyForMore (V.serves self.old.vault) self.old }
        requires served { IsServedCall call.now }
        requires named { file_trans call.now ≡ Some trans }
        requires formed { IsFormed call.now }
        requires some { ReadsSome call.now }
        requires known { IsTrue (V.tells self.old.vault) → IsOfJournal (V.held self.old.vault) self.old }
        requires sound { IsTrue (V.tells self.old.vault) → AreLivesSound (V.held self.old.vault) self.old }
        requires shape { (l : ALive) → map.get self.old.lives trans ≡ Some l → shape_of self.old.server self.old.epoch self.old.given (length l.part.opens.items) call.now ≡ None }
        requires asked { (l : ALive) → map.get self.old.lives trans ≡ Some l → IsAsked (V.tells self.old.vault) (V.held self.old.vault).cells (holding self.old.locks.held trans) l.part call.now needs }
        requires none { (halted.items ≡ []) × (0 < vec_capacity halted) }
        ensures { IsStep V.Vault self.old self.new (event.Call turn.now.client self.old.epoch turn.now.number call.now) result }
    {
        let made = self.plan_made(trans, call, &needs)?;
        let Some(live) = self.lives.get(&trans) else {
            unreachable!()
        };
        let counts = self.lock_counts(trans, live.locks, &needs, call);
        if let Some(refusal) = too_locked(self.sizes.area, live.part.counts.cells, counts.made) {
            return Ok(self.refuse(turn, refusal));
        }
        let asked = self.locks.plan(trans, needs)?;
        if let Some(holder) = self.locks.in_way_of(&asked) {
            return self.block(turn, trans, call, (counts, asked), holder);
        }
        let acts = granted(self.alloc, trans, &asked)?;
        match self.perform(trans, call, counts, acts) {
            Ok(given) => {
                self.keep_locks(given.is_made(), asked, made);
                self.sessions.count(turn, given.reply);
                Ok(given.answer)
            }
            Err(fault) => self.without_answer(turn, fault, halted),
        }
    }

    // Another stands in the way of the call, which waits or is refused, as it chose.
    fn block(
        &mut self,
        turn: &Turn,
        trans: TransId,
        call: &Call,
        asked: (LockCounts, Plan),
        holder: TransId,
    ) -> Result<Answer, OutOfMemory>
        requires turn { IsTurn self.old.sessions turn.now }
        requires works { standing_of self.old turn.now.client trans ≡ standing.Work }
        requires idle { has_waiting turn.now.client trans self.old.waits ≡ false }
        requires up { self.old.is_down ≡ false }
        requires ready { IsReadyForMore (V.serves self.old.vault) self.old }
        requires named { file_trans call.now ≡ Some trans }
        requires formed { IsFormed call.now }
        requires some { ReadsSome call.now }
        requires shape { (l : ALive) → map.get self.old.lives trans ≡ Some l → shape_of self.old.server self.old.epoch self.old.given (length l.part.opens.items) call.now ≡ None }
        requires asked { (l : ALive) → map.get self.old.lives trans ≡ Some l → IsAsked (V.tells self.old.vault) (V.held self.old.vault).cells (holding self.old.locks.held trans) l.part call.now asked.1.needs }
        requires counts { (l : ALive) → map.get self.old.lives trans ≡ Some l → asked.0 ≡ counts_then l.locks (holding self.old.locks.held trans) asked.1.needs call.now }
        requires few { (l : ALive) → map.get self.old.lives trans ≡ Some l → too_locked_said self.old.sizes.area l.part.counts.cells asked.0.made ≡ None }
        requires plan { asked.1 ≡ plan_of self.old.locks trans asked.1.needs }
        requires blocked { blocking self.old.locks.held trans asked.1.rises ≡ Some holder }
        ensures { IsStep V.Vault self.old self.new (event.Call turn.now.client self.old.epoch turn.now.number call.now) result }
    {
        if !may_wait(call) {
            return Ok(self.refuse(turn, Refusal::LockConflict { holder }));
        }
        let waiting = WaitingCall {
            client: turn.client,
            number: turn.number,
            trans,
            call: copy_of(call)?,
            counts: Some(asked.0),
            is_granted: false,
        };
        self.waits.push(waiting)?;
        if self.locks.wait(asked.1).is_err() {
            self.waits.take_back();
            return Err(OutOfMemory);
        }
        Ok(self.refuse(turn, Refusal::NotYet))
    }

    // The plan of what is asked with the lock on the file that the call makes, if it makes one.
    pub(super) fn plan_made(
        &self,
        trans: TransId,
        call: &Call,
        needs: &Needs,
    ) -> Result<Option<Plan>, OutOfMemory>
        requires { self.now.given + 1 < 2 ^ 32 }
        ensures { IfOk result (λ made. made ≡ plan_if (makes_file call.now) (plan_of self.now.locks trans (asks_made_of (next_file self.now) needs.now))) }
    {
        let Call::CreateFile { .. } = call else {
            return Ok(None);
        };
        let with_file = asks_made(self.alloc, self.next_file(), needs)?;
        let made = self.locks.plan(trans, with_file)?;
        Ok(Some(made))
    }

    // The part keeps the locks that its call asked for, and that of a file that it made.
    fn keep_locks(&mut self, has_made: bool, asked: Plan, made: Option<Plan>)
        requires room { self.old.given + 1 < 2 ^ 32 }
        requires entered { is_some (map.get self.old.locks.held (plan_for has_made asked made).trans) ≡ true }
        requires prepared { IsPrepared self.old.locks.held (plan_for has_made asked made) }
        ensures kept { self.new ≡ record self.old { given = count_made self.old.given has_made; locks = with_plan self.old.locks (plan_for has_made asked made) } }
    {
        if !has_made {
            self.locks.take(asked);
            return;
        }
        self.given += 1;
        match made {
            Some(made) => self.locks.take(made),
            None => self.locks.take(asked),
        }
    }
}

// Whether the call waits where another is in its way.
fn may_wait(call: &Call) -> bool
    ensures { result ≡ may_wait_of call.now }
{
    match call {
        Call::CreateFile { choice, .. }
        | Call::OpenFile { choice, .. }
        | Call::DeleteFile { choice, .. }
        | Call::ReadPages { choice, .. }
        | Call::WritePages { choice, .. }
        | Call::LockPages { choice, .. }
        | Call::SetSize { choice, .. }
        | Call::WriteProps { choice, .. }
        | Call::ReadOwner { choice, .. }
        | Call::MakeOwner { choice, .. }
        | Call::SetQuota { choice, .. } => *choice == Choice::Wait,
        _ => false,
    }
}

// A grant stands where a mode rises.
fn granted(alloc: Global, trans: TransId, asked: &Plan) -> Result<Acts, OutOfMemory>
    ensures { IfOk result (λ acts. acts ≡ acts_of trans asked.now.rises) }
{
    if asked.is_held() {
        return Ok(Acts::new(Vec::new(alloc)));
    }
    let acts = vec![in alloc; Act::Granted { trans }]?;
    Ok(Acts::new(acts))
}
