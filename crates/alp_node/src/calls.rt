//! File calls: what they ask by what their part sees, and what their part gives.
ghost use Rattle.std.specs.Prelude.{◌≡◌, ◌≢◌, ◌+◌, ◌<◌, ◌^◌, IsTrue, IfOk, IfSome, Some, None, is_some, true};
ghost use Rattle.std.specs.FinMap as map;
ghost use Rattle.alp_base.specs.declared.key.Key.TheVariants.{Leader};
ghost use Rattle.alp_files.specs.Files.{AreFiles};
ghost use Rattle.alp_calls.specs.Looks.{Looks, fault_in};
ghost use Rattle.alp_calls.specs.Parts.{AllFit, CanPerform, IsPart, seen};
ghost use Rattle.alp_node.specs.declared.lives.Live.{Live as ALive};
ghost use Rattle.alp_locks.specs.Tables.{holding};
ghost use Rattle.alp_node.specs.Asks.{IsAsked, IsOneOf, found_in, looks_at as looked_at};
ghost use Rattle.alp_node.specs.Calls.{next_file as next_file_of, IsAnswerTo, Performed};
ghost use Rattle.alp_node.specs.Totals.{totals_of, AreFewTotals};

use crate::answer::Given;
use crate::lock_counts::LockCounts;
use crate::needs::{looks_at, needs};
use crate::room::locks_given;
use crate::server_state::ServerState;
use alp_base::{FileId, TransId};
use alp_calls::{CallFault, OpenedFile, opened_file, perform};
use alp_files::{Call, Reply};
use alp_journal::Acts;
use alp_queue::Needs;
use alp_trans::Part;
use alp_vault::Vault;

impl<V: Vault> ServerState<V> {
    // The id that the next file gets.
    pub(super) fn next_file(&self) -> FileId
        requires { self.now.given + 1 < 2 ^ 32 }
        ensures { result ≡ next_file_of self.now }
    {
        FileId {
            server: self.server,
            epoch: self.epoch,
            counter: self.given + 1,
        }
    }

    // What the call asks, by what the part of the live transaction sees.
    pub(super) fn asks(&mut self, trans: TransId, call: &Call) -> Result<Needs, CallFault>
        requires live { map.get self.old.lives trans ≢ None }
        requires serving { IsTrue (V.serves self.old.vault) }
        requires part { (l : ALive) → map.get self.old.lives trans ≡ Some l → IsPart l.part }
        ensures asked { (l : ALive) → map.get self.old.lives trans ≡ Some l → IfOk result (IsAsked (V.tells self.old.vault) (V.held self.old.vault).cells (holding self.old.locks.held trans) l.part call.now) }
        ensures kept { self.new ≡ record self.old { vault = self.new.vault } }
        ensures looked { Looks V.Vault self.old.vault self.new.vault (fault_in result) }
    {
        let Some(live) = self.lives.get(&trans) else {
            unreachable!()
        };
        let found = found_open(&mut self.vault, &live.part, call)?;
        let needs = needs(self.alloc, &found, call)?;
        let asked = self.request(trans, needs.as_slice())?;
        Ok(asked)
    }

    // The live transaction performs the call on what it sees. Where it is answered, that came about, and it has as many resources
    // locked as it asked for.
    pub(super) fn perform(
        &mut self,
        trans: TransId,
        call: &Call,
        locks: LockCounts,
        acts: Acts,
    ) -> Result<Given, CallFault>
        requires live { map.get self.old.lives trans ≢ None }
        requires serving { IsTrue (V.serves self.old.vault) }
        requires room { self.old.given + 1 < 2 ^ 32 }
        requires ready { (l : ALive) → map.get self.old.lives trans ≡ Some l → CanPerform l.part call.now }
        requires caller { (l : ALive) → map.get self.old.lives trans ≡ Some l → is_some l.who ≡ true }
        requires few { AreFewTotals (totals_of self.old.lives) }
        requires new { IsTrue (V.tells self.old.vault) → (l : ALive) → map.get self.old.lives trans ≡ Some l → seen (V.held self.old.vault).cells l.part (Leader (next_file_of self.old)) ≡ None }
        requires files { IsTrue (V.tells self.old.vault) → (l : ALive) → map.get self.old.lives trans ≡ Some l → AreFiles (seen (V.held self.old.vault).cells l.part) }
        ensures performed { (l : ALive) → map.get self.old.lives trans ≡ Some l → Performed (V.tells self.old.vault) (V.held self.old.vault).cells self.old self.new trans l call.now locks acts result }
        ensures looked { Looks V.Vault self.old.vault self.new.vault (fault_in result) }
    {
        let id = self.next_file();
        let room = self.room(locks.made);
        let Some(found) = self.lives.get(&trans) else {
            unreachable!()
        };
        let Some(who) = found.who else { unreachable!() };
        let blank = found.blank(self.alloc);
        let mut live = self.lives.swap(trans, blank);
        let given = perform(
            &mut live.part,
            self.alloc,
            &mut self.vault,
            who,
            id,
            call,
            room,
        );
        let result = with_answer(given, acts);
        live.locks = locks_given(live.locks, locks, &result);
        let _ = self.lives.swap(trans, live);
        result
    }
}

// The open on which the locks of the call depend, if they do, with its file; nothing where it has not the access that the call has
// to have, or its file is not there.
fn found_open<V: Vault>(
    vault: &mut V,
    part: &Part,
    call: &Call,
) -> Result<Option<OpenedFile>, CallFault>
    requires serving { IsTrue (V.serves vault.old) }
    requires fit { AllFit part.now.intents.puts }
    ensures stands { IfOk result (λ x. IfSome x (IsOneOf part.now.opens.items)) }
    ensures found { IsTrue (V.tells vault.old) → IfOk result (λ x. x ≡ found_in (seen (V.held vault.old).cells part.now) part.now.opens.items (looked_at call.now)) }
    ensures looked { Looks V.Vault vault.old vault.new (fault_in result) }
{
    let Some((open_no, wanted)) = looks_at(call) else {
        return Ok(None);
    };
    match opened_file(vault, part, open_no, wanted)? {
        Ok(found) => Ok(Some(found)),
        Err(_) => Ok(None),
    }
}

// What was given, with its answer, unless memory is wanting to hand it out.
fn with_answer(given: Result<Reply, CallFault>, acts: Acts) -> Result<Given, CallFault>
    ensures { IsAnswerTo given acts result }
{
    let reply = given?;
    let told = Given::new(reply, acts)?;
    Ok(told)
}
