//! How messages come from one server of a run to another.
ghost use Rattle.std.specs.Prelude.{◌≡◌, ◌||◌, ◌∷◌, [], Ok, OnOk, IfOk, IfSome, length};
ghost use Rattle.alp_journal.specs.Timely.{IsTimelyMessage};
ghost use Rattle.alp_journal.specs.declared.event.Event.TheVariants as event;
ghost use Rattle.alp_course.specs.Courses.{looks, brings, loses, repeats, next_message as next_of};
ghost use Rattle.alp_course.specs.Languages.{Just};
ghost use Rattle.alp_course.specs.Plays.{OfTwo};
ghost use Rattle.alp_course.specs.Carries.{ArePairCarried, CarriesTo, CarriesFrom, IsSweep, IsCarried, CarriesIf};
ghost use Rattle.alp_cluster.specs.Fills.{OnEnd};
ghost use Rattle.alp_cluster.specs.Stations.{AreOn, IsOneOf, Did, DidSome, HaveGone, course_of};
ghost use Rattle.alp_cluster.specs.Messages.{AreApart, HasArrived, EndsEventAt, DidSay, IfOr, taking_at};

use crate::fault::RunFault;
use crate::stations::Stations;
use alp_journal::{Event, Message};
use alp_vault::Vault;

// Whether one of the two holds.
fn is_either(one: bool, other: bool) -> bool
    ensures { result ≡ one || other }
{
    one || other
}

impl<V: Vault> Stations<V> {
    // The next message of one server to another that was not taken.
    fn next_message(&mut self, from: u8, to: u8) -> Option<Message>
        requires on { AreOn V.Vault self.old }
        requires apart { AreApart self.old from to }
        ensures message { result ≡ next_of (course_of V.Vault self.old) from to }
        ensures on { AreOn V.Vault self.new }
        ensures all { self.new.all ≡ self.old.all }
        ensures course { course_of V.Vault self.new ≡ course_of V.Vault self.old }
        ensures timely { IfSome result IsTimelyMessage }
    {
        self.posts
            .next(self.all[from as usize - 1].node().journal(), from, to)
    }

    // It is taken, while its sender has this last rank.
    fn take(&mut self, from: u8, to: u8, rank: u64)
        requires on { AreOn V.Vault self.old }
        requires apart { AreApart self.old from to }
        ensures on { AreOn V.Vault self.new }
        ensures all { self.new.all ≡ self.old.all }
        ensures taken { IfOr (next_of (course_of V.Vault self.old) from to) (course_of V.Vault self.new ≡ course_of V.Vault self.old) (λ m. course_of V.Vault self.new ≡ taking_at (course_of V.Vault self.old) from to m rank) }
    {
        self.posts.take(self.all[from as usize - 1].node().journal(), from, to, rank);
    }

    // Whether a message of one server waits for another one that is up.
    fn is_waiting(&mut self, from: u8, to: u8) -> bool
        requires on { AreOn V.Vault self.old }
        requires apart { AreApart self.old from to }
        ensures gone { HaveGone {T = Unit {0}} V.Vault (Unit {0}) self.old self.new (Ok tt) }
        ensures did { Did V.Vault (Just (looks from to result ∷ [])) self.old self.new }
    {
        let Some(_) = self.next_message(from, to) else {
            return false;
        };
        !self.at(to).node().is_down()
    }

    // A message comes to a server, where that is up. The last rank of its sender was this.
    fn arrive(&mut self, from: u8, to: u8, message: Message, seen: u64) -> Result<(), RunFault>
        requires on { AreOn V.Vault self.old }
        requires to { IsOneOf self.old to }
        requires timely { IsTimelyMessage message }
        ensures gone { HaveGone V.Vault (Unit {0}) self.old self.new result }
        ensures came { OnOk result (HasArrived V.Vault from to message seen self.old self.new) }
        ensures ended { OnEnd result (λ f. EndsEventAt V.Vault f to seen (event.Arrive from message) self.old self.new) }
    {
        self.all[to as usize - 1].happen(Event::Arrive { from, message }, seen)
    }

    // The next message of one server to another is brought, if there is one; it is lost where that server is down.
    fn carry(&mut self, from: u8, to: u8) -> Result<(), RunFault>
        requires on { AreOn V.Vault self.old }
        requires apart { AreApart self.old from to }
        ensures gone { HaveGone V.Vault (Unit {0}) self.old self.new result }
        ensures did { OnOk result (Did V.Vault (Just (brings from to ∷ [])) self.old self.new) }
        ensures ended { OnEnd result (λ f. DidSome V.Vault (Just (brings from to ∷ [])) f self.old self.new) }
    {
        let seen = self.at(from).last_rank();
        let Some(message) = self.next_message(from, to) else {
            return Ok(());
        };
        self.arrive(from, to, message, seen)?;
        self.take(from, to, seen);
        Ok(())
    }

    // The next message of one server to another is lost, if there is one.
    fn lose(&mut self, from: u8, to: u8)
        requires on { AreOn V.Vault self.old }
        requires apart { AreApart self.old from to }
        ensures gone { HaveGone {T = Unit {0}} V.Vault (Unit {0}) self.old self.new (Ok tt) }
        ensures did { Did V.Vault (Just (loses from to ∷ [])) self.old self.new }
    {
        let seen = self.at(from).last_rank();
        self.take(from, to, seen);
    }

    // What was taken last of the messages of one server to another is brought once more.
    fn again(&mut self, from: u8, to: u8) -> Result<(), RunFault>
        requires on { AreOn V.Vault self.old }
        requires apart { AreApart self.old from to }
        ensures gone { HaveGone V.Vault (Unit {0}) self.old self.new result }
        ensures did { OnOk result (Did V.Vault (Just (repeats from to ∷ [])) self.old self.new) }
        ensures ended { OnEnd result (λ f. DidSome V.Vault (Just (repeats from to ∷ [])) f self.old self.new) }
    {
        let Some((message, seen)) = self.posts.last(from, to) else {
            return Ok(());
        };
        self.arrive(from, to, message, seen)
    }

    /// The next message of one server to another is brought, as a line says; but no server sends to itself.
    pub(crate) fn carry_other(&mut self, from: u8, to: u8) -> Result<(), RunFault>
        requires on { AreOn V.Vault self.old }
        requires from { IsOneOf self.old from }
        requires to { IsOneOf self.old to }
        ensures gone { HaveGone V.Vault (Unit {0}) self.old self.new result }
        ensures did { OnOk result (Did V.Vault (OfTwo from to (brings from to)) self.old self.new) }
        ensures ended { OnEnd result (λ f. DidSome V.Vault (OfTwo from to (brings from to)) f self.old self.new) }
    {
        if from == to {
            return Ok(());
        }
        self.carry(from, to)
    }

    /// The next message of one server to another is lost, as a line says; but no server sends to itself.
    pub(crate) fn lose_other(&mut self, from: u8, to: u8)
        requires on { AreOn V.Vault self.old }
        requires from { IsOneOf self.old from }
        requires to { IsOneOf self.old to }
        ensures gone { HaveGone {T = Unit {0}} V.Vault (Unit {0}) self.old self.new (Ok tt) }
        ensures did { Did V.Vault (OfTwo from to (loses from to)) self.old self.new }
    {
        if from == to {
            return;
        }
        self.lose(from, to);
    }

    /// What was taken last is brought once more, as a line says; but no server sends to itself.
    pub(crate) fn again_other(&mut self, from: u8, to: u8) -> Result<(), RunFault>
        requires on { AreOn V.Vault self.old }
        requires from { IsOneOf self.old from }
        requires to { IsOneOf self.old to }
        ensures gone { HaveGone V.Vault (Unit {0}) self.old self.new result }
        ensures did { OnOk result (Did V.Vault (OfTwo from to (repeats from to)) self.old self.new) }
        ensures ended { OnEnd result (λ f. DidSome V.Vault (OfTwo from to (repeats from to)) f self.old self.new) }
    {
        if from == to {
            return Ok(());
        }
        self.again(from, to)
    }

    // All messages of one server to another are brought, unless that is down. Tells whether there were some.
    fn carry_pair(&mut self, from: u8, to: u8) -> Result<bool, RunFault>
        requires on { AreOn V.Vault self.old }
        requires apart { AreApart self.old from to }
        ensures gone { HaveGone V.Vault (Unit {0}) self.old self.new result }
        ensures did { IfOk result (λ some. DidSay V.Vault (ArePairCarried from to) some self.old self.new) }
        ensures ended { OnEnd result (λ f. DidSome V.Vault (ArePairCarried from to) f self.old self.new) }
    {
        let mut some = false;
        while self.is_waiting(from, to) {
            self.carry(from, to)?;
            some = true;
        }
        Ok(some)
    }

    // The same, but no server sends to itself.
    fn carry_to(&mut self, from: u8, to: u8) -> Result<bool, RunFault>
        requires on { AreOn V.Vault self.old }
        requires from { IsOneOf self.old from }
        requires to { IsOneOf self.old to }
        ensures gone { HaveGone V.Vault (Unit {0}) self.old self.new result }
        ensures did { IfOk result (λ some. DidSay V.Vault (CarriesTo from to) some self.old self.new) }
        ensures ended { OnEnd result (λ f. DidSome V.Vault (CarriesTo from to) f self.old self.new) }
    {
        if from == to {
            return Ok(false);
        }
        self.carry_pair(from, to)
    }

    // All messages of one server are brought to the others.
    fn carry_from(&mut self, from: u8) -> Result<bool, RunFault>
        requires on { AreOn V.Vault self.old }
        requires from { IsOneOf self.old from }
        ensures gone { HaveGone V.Vault (Unit {0}) self.old self.new result }
        ensures did { IfOk result (λ some. DidSay V.Vault (CarriesFrom (length self.old.all.items) from) some self.old self.new) }
        ensures ended { OnEnd result (λ f. DidSome V.Vault (CarriesFrom (length self.old.all.items) from) f self.old self.new) }
    {
        let mut some = false;
        for place in 0..self.count() {
            let more = self.carry_to(from, place + 1)?;
            some = is_either(more, some);
        }
        Ok(some)
    }

    // One sweep over all pairs. Tells whether something was brought.
    fn sweep(&mut self) -> Result<bool, RunFault>
        requires on { AreOn V.Vault self.old }
        ensures gone { HaveGone V.Vault (Unit {0}) self.old self.new result }
        ensures did { IfOk result (λ some. DidSay V.Vault (IsSweep (length self.old.all.items)) some self.old self.new) }
        ensures ended { OnEnd result (λ f. DidSome V.Vault (IsSweep (length self.old.all.items)) f self.old self.new) }
    {
        let mut some = false;
        for place in 0..self.count() {
            let more = self.carry_from(place + 1)?;
            some = is_either(more, some);
        }
        Ok(some)
    }

    /// All messages are brought, and those that come of them, until none waits.
    pub(crate) fn carry_all(&mut self) -> Result<(), RunFault>
        requires on { AreOn V.Vault self.old }
        ensures gone { HaveGone V.Vault (Unit {0}) self.old self.new result }
        ensures did { OnOk result (Did V.Vault (IsCarried (length self.old.all.items)) self.old self.new) }
        ensures ended { OnEnd result (λ f. DidSome V.Vault (IsCarried (length self.old.all.items)) f self.old self.new) }
    {
        if self.sweep()? {
            return self.carry_all();
        }
        Ok(())
    }

    /// The same, where messages are carried by themselves.
    pub(crate) fn carry_if(&mut self, carries: bool) -> Result<(), RunFault>
        requires on { AreOn V.Vault self.old }
        ensures gone { HaveGone V.Vault (Unit {0}) self.old self.new result }
        ensures did { OnOk result (Did V.Vault (CarriesIf (length self.old.all.items) carries) self.old self.new) }
        ensures ended { OnEnd result (λ f. DidSome V.Vault (CarriesIf (length self.old.all.items) carries) f self.old self.new) }
    {
        if carries {
            return self.carry_all();
        }
        Ok(())
    }
}
