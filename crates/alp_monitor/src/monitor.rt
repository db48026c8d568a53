//! The monitor, its passes and its turns.
ghost use Rattle.std.specs.Prelude.{◌≡◌, ◌<◌};

use crate::board::{Board, PLACE, Place, WAITING, WORD};
use crate::plays::{BeginWait, Claim, EndWait, MarkAwake, OnePass, Settle};
use crate::story::Story;
use alp_base::OutOfMemory;
use atomic_table::{Refused, Table};
use std::alloc::{AllocFailed, Global};
use std::hint::spin_loop;
use std::snapshot::Snapshot;
use std::sync::Wait;

// How often a pass looks at the word again before it sleeps.
const LOOKS: u32 = 8;

/// A state that threads take in turns, each by a pass of its own.
#[derive(Drop)]
pub struct Monitor<S: Story> {
    pub(crate) table: Board<S>,
    ghost sized: { (table.shared.table_id.words ≡ 2) × (table.shared.table_id.slots ≡ 1) },
    ghost some: { 0 < table.shared.key.1 },
}

/// The right to take turns at one monitor. It has no bytes.
#[derive(Drop)]
pub struct Pass<S: Story> {
    seat: Place<S>,
}

/// A pass that is inside, with the state, which is moved out of the monitor until it leaves. A turn
/// that is taken apart, and not handed to `leave`, keeps the state out for good: every other pass
/// that enters then waits for ever.
pub struct Turn<S: Story> {
    pub state: S,
    pub pass: Pass<S>,
}

/// The first and the last call.
impl<S: Story> Monitor<S> {
    ghost use Rattle.std.specs.Prelude.{◌≤◌, [], length, IfOk, IfErr};
    ghost use Rattle.std.specs.Vec.{vec_len, vec_capacity};
    ghost use Rattle.alp_monitor.specs.Passes.{pass_count, first_base, AreFresh, IsCounting, AreOutside, AreAll, IsMadeBy};

    /// A monitor of a state that has no entries yet, and its passes. Where memory is refused the
    /// state comes back.
    pub fn new(
        alloc: Global,
        state: S,
        passes: u32,
    ) -> Result<(Monitor<S>, Vec<Pass<S>>), (S, OutOfMemory)>
        requires some { 0 < passes }
        requires none_yet { S.entries state ≡ [] }
        ensures count { IfOk result (λ r. (pass_count r.0 ≡ passes) × (length r.1.items ≡ passes)) }
        ensures base { IfOk result (λ r. first_base S.base r.0 ≡ S.base state) }
        ensures passes { IfOk result (λ r. AreFresh S.base r.0 r.1.items) }
        ensures err { IfErr result (λ e. e.0 ≡ state) }
    {
        let about = (Snapshot::of(&state), passes);
        let Ok(mut made) = Vec::with_capacity(alloc, passes as usize) else {
            return Err((state, OutOfMemory));
        };
        let mut slots = Vec::new(alloc);
        if let Err(AllocFailed { value }) = slots.push(Some(state)) {
            slots.destroy_empty();
            return Err((value.unwrap(), OutOfMemory));
        }
        match Table::new(alloc, &[0, 0], slots, &about) {
            Ok((table, mut founder)) => {
                let monitor = Monitor { table };
                monitor.deal(&mut founder, passes, &mut made);
                Ok((monitor, made))
            }
            Err(Refused { mut slots }) => {
                let state = slots.take_last();
                slots.destroy_empty();
                Err((state.unwrap(), OutOfMemory))
            }
        }
    }

    // Makes the passes.
    fn deal(&self, founder: &mut Place<S>, passes: u32, made: &mut Vec<Pass<S>>)
        requires count { passes ≡ pass_count self.now }
        requires founder { IsCounting S.base self.now 0 founder.old }
        requires room { (made.old.items ≡ []) × (vec_len made.old ≡ 0) × (passes ≤ vec_capacity made.old) }
        ensures count { length made.new.items ≡ passes }
        ensures passes { AreFresh S.base self.now made.new.items }
    {
        for _ in 0..passes {
            let seat = self.table.shared.split_seat::<OnePass>(founder);
            made.push_reserved(Pass { seat });
        }
    }

    /// Takes all passes back, and gives the state.
    pub fn close(self, mut passes: Vec<Pass<S>>) -> S
        requires own { AreOutside self passes.items }
        requires all { AreAll self passes.items }
        ensures base { S.base result ≡ first_base S.base self }
        ensures history { IsMadeBy passes.items (S.entries result) }
    {
        let Monitor { table } = self;
        let Pass { seat: mut keeper } = passes.take_last();
        while let Some(pass) = passes.pop() {
            let Pass { seat } = pass;
            table.shared.join_seat::<OnePass>(&mut keeper, seat);
        }
        passes.destroy_empty();
        let mut closed = table.close_with(keeper);
        let home = closed.take(PLACE);
        closed.free();
        let Some(state) = home else { unreachable!() };
        state
    }
}

/// The turns.
impl<S: Story> Monitor<S> {
    ghost use Rattle.std.specs.Prelude.{◌%◌, [], ◌∷◌, ◌++◌, length, IfSome, IfNone, Some};
    ghost use mathlib.Core.List.{IsPrefix};
    ghost use Rattle.alp_monitor.specs.History.{entries_in, AddsAtMostOne};
    ghost use Rattle.alp_monitor.specs.Passes.{IsPassOf, IsOutside, IsInside, IsSamePass, IsUntouched, Enters, base_of_pass, number, front, turns};

    /// Waits until the state is home, and hands it out.
    pub fn enter<R: Wait>(&self, rt: &R, mut pass: Pass<S>) -> Turn<S>
        requires own { IsPassOf self.now pass }
        requires outside { IsOutside pass }
        ensures pass { IsSamePass pass result.pass × IsInside result.pass }
        ensures base { base_of_pass pass ≡ Some (S.base result.state) }
        ensures history { S.entries result.state ≡ entries_in (front result.pass) }
        ensures front { IsPrefix (front pass) (front result.pass) }
        ensures turns { turns result.pass ≡ turns pass }
    {
        for _ in rt.forever() {
            let word = self.table.shared.peek(WORD);
            if word % 2 != 0 {
                self.wait(rt, &mut pass, word);
            } else if let Some(state) = self.claim(&mut pass, word) {
                return Turn { state, pass };
            }
        }
        unreachable!()
    }

    /// Brings the state home, with one entry more at most.
    pub fn leave(&self, turn: Turn<S>) -> Pass<S>
        requires own { IsPassOf self.now turn.pass }
        requires inside { IsInside turn.pass }
        requires base { base_of_pass turn.pass ≡ Some (S.base turn.state) }
        requires history { AddsAtMostOne (entries_in (front turn.pass)) (S.entries turn.state) }
        ensures pass { IsSamePass turn.pass result × IsOutside result }
        ensures history { entries_in (front result) ≡ S.entries turn.state }
        ensures front { IsPrefix (front turn.pass) (front result) }

        // Without an entry the pass knows what it knew. An entry is one turn more of this pass.
        ensures none { S.entries turn.state ≡ entries_in (front turn.pass) → front result ≡ front turn.pass }
        ensures entry { (e : S.Entry) → S.entries turn.state ≡ entries_in (front turn.pass) ++ e ∷ []
            → front result ≡ front turn.pass ++ (number turn.pass, e) ∷ [] }
        ensures turn { (e : S.Entry) → S.entries turn.state ≡ entries_in (front turn.pass) ++ e ∷ []
            → turns result ≡ turns turn.pass ++ (length (front turn.pass), e) ∷ [] }
    {
        let shared = &self.table.shared;
        let Turn { state, mut pass } = turn;
        let word = 2 * state.count();
        let place = shared.exchange(&mut pass.seat, PLACE, Some(state));
        let None = place else { unreachable!() };
        shared.store::<Settle>(&mut pass.seat, WORD, word);
        self.wake(&mut pass);
        pass
    }

    // Goes inside, where the word is still this one.
    fn claim(&self, pass: &mut Pass<S>, word: u64) -> Option<S>
        requires own { IsPassOf self.now pass.old }
        requires outside { IsOutside pass.old }
        requires even { word % 2 ≡ 0 }
        ensures none { IfNone result (IsUntouched pass.old pass.new) }
        ensures some { IfSome result (λ state. Enters S.base S.entries pass.old pass.new state) }
    {
        let shared = &self.table.shared;
        if shared.compare_exchange::<Claim>(&mut pass.seat, WORD, word, word + 1) != word {
            return None;
        }
        let place = shared.exchange(&mut pass.seat, PLACE, None);
        let Some(state) = place else { unreachable!() };
        Some(state)
    }

    // Sleeps until a pass that leaves wakes it, unless the word changes soon. It is counted before it
    // looks at the word once more, and who leaves writes the word before it looks at the count, so one
    // of the two sees the other. It sleeps on the count, and only where none is being woken: a wake
    // changes the count, so none comes before it sleeps. Once back it is awake and looks at the word.
    fn wait<R: Wait>(&self, rt: &R, pass: &mut Pass<S>, word: u64)
        requires own { IsPassOf self.now pass.old }
        requires outside { IsOutside pass.old }
        ensures { IsUntouched pass.old pass.new }
    {
        if self.changes_soon(word) {
            return;
        }
        let shared = &self.table.shared;
        shared.fetch_add::<BeginWait>(&mut pass.seat, WAITING, 2);
        let seen = shared.fetch_and::<MarkAwake>(&mut pass.seat, WAITING, !1);
        if shared.peek(WORD) % 2 != 0 {
            shared.park(rt, WAITING, (seen / 2 * 2 % (1 << 32)) as u32);
        }
        shared.fetch_sub::<EndWait>(&mut pass.seat, WAITING, 2);
        shared.fetch_and::<MarkAwake>(&mut pass.seat, WAITING, !1);
    }

    // Looks at the word a few times, less and less often.
    fn changes_soon(&self, word: u64) -> bool {
        for look in 0..LOOKS {
            for _ in 0..1u32 << look {
                spin_loop();
            }
            if self.table.shared.peek(WORD) != word {
                return true;
            }
        }
        false
    }

    // Wakes one of those that sleep. Where none does, or one that was woken is still on its way, it
    // asks nothing of the system.
    fn wake(&self, pass: &mut Pass<S>)
        requires own { IsPassOf self.now pass.old }
        ensures { IsUntouched pass.old pass.new }
    {
        let shared = &self.table.shared;
        let waiting = shared.peek(WAITING);
        if waiting < 2 || waiting % 2 != 0 {
            return;
        }
        let found = shared.compare_exchange::<MarkAwake>(
            &mut pass.seat,
            WAITING,
            waiting,
            waiting + 1,
        );
        if found == waiting {
            shared.wake_one(WAITING);
        }
    }
}
