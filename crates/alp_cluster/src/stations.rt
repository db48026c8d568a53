//! The servers of a run, and what happens at one of them.
ghost use Rattle.std.specs.Prelude.{◌≡◌, ◌≤◌, ◌-◌, true, false, [], ◌∷◌, Some, Ok, IfOk, OnOk, length, slice_get};
ghost use Rattle.alp_fields.specs.Forms.{whole};
ghost use Rattle.alp_node.specs.Served.{IsServed};
ghost use Rattle.alp_rpc.specs.Frames.{request};
ghost use Rattle.alp_course.specs.Courses.{at};
ghost use Rattle.alp_course.specs.Happens.{Happening, stop_set, restarted, lifts};
ghost use Rattle.alp_course.specs.Languages.{Just};
ghost use Rattle.alp_course.specs.Plays.{timeouts_at};
ghost use Rattle.alp_cluster.specs.Fills.{OnEnd, IsOfEvent};
ghost use Rattle.alp_cluster.specs.Messages.{EndsFrameAt};
ghost use Rattle.alp_cluster.specs.Handings.{AreHanded};
ghost use Rattle.alp_cluster.specs.Stations.{AreOn, IsOneOf, Did, DidSome, HaveGone};

use crate::exchange::Handed;
use crate::fault::RunFault;
use crate::station::Station;
use alp_base::TransId;
use alp_journal::Event;
use alp_posts::Posts;
use alp_vault::Vault;
use std::alloc::Global;

/// The servers of a run, the first one first, and what was taken of the messages between them.
#[derive(Drop)]
pub struct Stations<V: Vault> {
    pub(crate) all: Vec<Station<V>>,
    pub(crate) posts: Posts,
}

impl<V: Vault> Stations<V> {
    /// How many servers there are.
    pub(crate) fn count(&self) -> u8
        requires on { AreOn V.Vault self.now }
        ensures { result ≡ length self.now.all.items }
    {
        self.all.len() as u8
    }

    /// Whether there is a server of this number.
    pub(crate) fn has(&self, server: u8) -> bool
        requires on { AreOn V.Vault self.now }
        ensures yes { result ≡ true → IsOneOf self.now server }
        ensures no { result ≡ false → IsOneOf self.now server → ⊥ }
    {
        if server == 0 {
            return false;
        }
        server <= self.count()
    }

    /// The server of this number.
    pub(crate) fn at(&self, server: u8) -> &Station<V>
        requires server { IsOneOf self.now server }
        ensures { slice_get self.now.all.items (server - 1) ≡ Some result.now }
    {
        &self.all[server as usize - 1]
    }

    /// A server comes to an event that is no call and no message.
    pub(crate) fn happen(&mut self, server: u8, event: Event) -> Result<(), RunFault>
        requires on { AreOn V.Vault self.old }
        requires server { IsOneOf self.old server }
        requires served { IsServed event }
        requires event { (h : Happening) × IsOfEvent h event }
        ensures gone { HaveGone V.Vault (Unit {0}) self.old self.new result }
        ensures did { OnOk result ((h : Happening) → IsOfEvent h event → Did V.Vault (Just (at server h ∷ [])) self.old self.new) }
        ensures ended { OnEnd result (λ f. (h : Happening) → IsOfEvent h event → DidSome V.Vault (Just (at server h ∷ [])) f self.old self.new) }
    {
        self.all[server as usize - 1].happen(event, 0)
    }

    /// A transaction times out at a server, if it is one.
    pub(crate) fn time_out(&mut self, server: u8, trans: Option<TransId>) -> Result<(), RunFault>
        requires on { AreOn V.Vault self.old }
        requires server { IsOneOf self.old server }
        ensures gone { HaveGone V.Vault (Unit {0}) self.old self.new result }
        ensures did { OnOk result (Did V.Vault (Just (timeouts_at server trans)) self.old self.new) }
        ensures ended { OnEnd result (λ f. DidSome V.Vault (Just (timeouts_at server trans)) f self.old self.new) }
    {
        let Some(trans) = trans else {
            return Ok(());
        };
        self.happen(server, Event::Timeout { trans })
    }

    /// The disk of a server passes so many further changing calls, and then stops.
    pub(crate) fn stop(&mut self, server: u8, calls: u32)
        requires on { AreOn V.Vault self.old }
        requires server { IsOneOf self.old server }
        ensures gone { HaveGone {T = Unit {0}} V.Vault ⊥ self.old self.new (Ok tt) }
        ensures did { Did V.Vault (Just (at server (stop_set calls) ∷ [])) self.old self.new }
    {
        self.all[server as usize - 1].stop(calls);
    }

    /// Nobody stops the disk of a server any more. Tells whether the server is down.
    pub(crate) fn lift(&mut self, server: u8) -> bool
        requires on { AreOn V.Vault self.old }
        requires server { IsOneOf self.old server }
        ensures gone { HaveGone {T = Unit {0}} V.Vault (Unit {0}) self.old self.new (Ok tt) }
        ensures did { Did V.Vault (Just (at server (lifts result) ∷ [])) self.old self.new }
    {
        self.all[server as usize - 1].lift()
    }

    /// A server falls, its disk crashes with that pick, and it starts again.
    pub(crate) fn restart(&mut self, server: u8, pick: u64) -> Result<(), RunFault>
        requires on { AreOn V.Vault self.old }
        requires server { IsOneOf self.old server }
        ensures gone { HaveGone V.Vault (Unit {0}) self.old self.new result }
        ensures did { OnOk result (Did V.Vault (Just (at server (restarted pick) ∷ [])) self.old self.new) }
        ensures ended { OnEnd result (λ f. DidSome V.Vault (Just (at server (restarted pick) ∷ [])) f self.old self.new) }
    {
        self.all[server as usize - 1].restart(pick)
    }

    /// A server is handed the frame of a client, and hands back its reply.
    pub(crate) fn hand(
        &mut self,
        alloc: Global,
        server: u8,
        client: u8,
        frame: &[u8],
    ) -> Result<Handed, RunFault>
        requires on { AreOn V.Vault self.old }
        requires server { IsOneOf self.old server }
        requires client { (1 ≤ client) × (client ≤ 16) }
        ensures gone { HaveGone V.Vault (Unit {0}) self.old self.new result }
        ensures handed { IfOk result (λ h. AreHanded V.Vault server client frame.now h self.old self.new) }
        ensures ended { OnEnd result (λ f. EndsFrameAt V.Vault f server (whole request frame.now) self.old self.new) }
    {
        self.all[server as usize - 1].hand(alloc, client, frame)
    }
}
