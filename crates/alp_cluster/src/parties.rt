//! The parties of a run: its servers, and the clients of the script. They exchange frames.
ghost use Rattle.std.specs.Prelude.{◌≡◌, ◌≤◌, [], ◌∷◌, ◌++◌, List, ℕ, OnOk, IfOk, IfSome, Option, Some, None, length, true, false};
ghost use Rattle.alp_base.specs.declared.ids.TransId.{TransId as ATrans};
ghost use Rattle.alp_journal.specs.declared.log.Item.{Item as AnItem};
ghost use Rattle.alp_lines.specs.Forms.{IsForm};
ghost use Rattle.alp_lines.specs.Named.{client_named};
ghost use Rattle.alp_rpc.specs.Frames.{request};
ghost use Rattle.alp_script.specs.Order.{names_ours};
ghost use Rattle.alp_session.specs.Ahead.{ahead, IsOnItsWay};
ghost use Rattle.alp_session.specs.Crowd.{Crowd};
ghost use Rattle.alp_session.specs.Crowds.{client_at, request_next, times_out, asks};
ghost use Rattle.alp_session.specs.Frames.{mark_of as mark_said};
ghost use Rattle.alp_session.specs.declared.waiting.Next.TheVariants as next;
ghost use Rattle.alp_course.specs.Languages.{Just};
ghost use Rattle.alp_course.specs.Plays.{CarriesAt, GivesLine, timeouts_due};
ghost use Rattle.alp_course.specs.Carries.{CarriesIf};
ghost use Rattle.alp_course.specs.Turns.{turns_text};
ghost use Rattle.alp_cluster.specs.Clients.{InStep};
ghost use Rattle.alp_cluster.specs.Fills.{OnEnd};
ghost use Rattle.alp_cluster.specs.Runs.{is_stop_line, happens_at_once};
ghost use Rattle.alp_cluster.specs.Stations.{AreOn, Did, DidSome, HaveGone};
ghost use Rattle.alp_cluster.specs.Steps.{IsOwnNext, Exchanged, SendsNot, DidLine, DidOfLine, AddsEvents, AddsSomeEvents};

use crate::fault::RunFault;
use crate::stations::Stations;
use alp_base::TransId;
use alp_journal::{Event, Item, Mark};
use alp_lines::Line;
use alp_report::put_line;
use alp_script::NumberedLine;
use alp_session::{Addressed, Clients, Next};
use alp_vault::Vault;
use std::alloc::Global;

/// The servers of a run, and its clients.
#[derive(Drop)]
pub(crate) struct Parties<V: Vault> {
    pub(crate) alloc: Global,
    pub(crate) stations: Stations<V>,
    pub(crate) clients: Clients,
}

// Whether a line sends a frame of its own, one again, or bytes as they are.
fn mark_of(line: &Line) -> Mark
    ensures { result ≡ mark_said line.now }
{
    match line {
        Line::Repeat { .. } | Line::Old { .. } => Mark::Repeated,
        Line::Raw { .. } => Mark::Raw,
        _ => Mark::Own,
    }
}

impl<V: Vault> Parties<V> {
    // Before a collect of a line messages are carried, where they are carried by themselves.
    fn carry_before(&mut self, next: Next) -> Result<(), RunFault>
        requires on { AreOn V.Vault self.old.stations }
        ensures gone { HaveGone V.Vault (Unit {0}) self.old.stations self.new.stations result }
        ensures did { OnOk result (Did V.Vault (CarriesAt (length self.old.stations.all.items) self.old.clients next) self.old.stations self.new.stations) }
        ensures ended { OnEnd result (λ f. DidSome V.Vault (CarriesAt (length self.old.stations.all.items) self.old.clients next) f self.old.stations self.new.stations) }
        ensures clients { self.new.clients ≡ self.old.clients }
    {
        match next {
            Next::Collect => self.stations.carry_if(self.clients.carries()),
            _ => Ok(()),
        }
    }

    // A client sends a frame for its line, and hears the reply: one item more. Gives what it does next for the line. There is room for the
    // item before the server takes its step, so no entry stands of which no item tells.
    fn send(
        &mut self,
        items: &mut Vec<Item>,
        client: u8,
        line: &NumberedLine,
        next: Next,
        frame: Addressed,
    ) -> Result<Next, RunFault>
        requires client { (1 ≤ client) × (client ≤ 16) }
        requires step { InStep V.Vault self.old.clients self.old.stations }
        requires form { IsForm line.now.line }
        requires asked { asks self.old.clients client line.now.line next ≡ Some frame }
        requires fits { IfSome (request_next self.old.clients client line.now.line next) request.Fits }
        requires own { IsOwnNext line.now.line next }
        ensures gone { HaveGone V.Vault (Unit {0}) self.old.stations self.new.stations result }
        ensures ended { OnEnd result (λ f. SendsNot V.Vault f self.old.clients self.old.stations self.new.stations client line.now next frame items.old.items items.new.items) }
        ensures sent { IfOk result (λ behind. (x : AnItem) × (items.new.items ≡ items.old.items ++ x ∷ []) × Exchanged V.Vault self.old.clients self.new.clients self.old.stations self.new.stations client line.now next frame behind x) }
    {
        let server = frame.server;
        // A client knows no server but those of the run; but of a vault that does not tell what it holds no contract says so.
        if !self.stations.has(server) {
            return Err(RunFault::OutOfMemory);
        }
        items.reserve(1)?;
        let handed = self
            .stations
            .hand(self.alloc, server, client, frame.bytes.as_slice())?;
        let (item, bytes) = handed.into_item(line.number, server, mark_of(&line.line));
        items.push_reserved(item);
        let Ok(bytes) = bytes else {
            return Err(RunFault::OutOfMemory);
        };
        let behind = self
            .clients
            .hears(self.alloc, client, &line.line, next, frame, &bytes)?;
        Ok(behind)
    }

    // The transaction that is due at a server times out, if one is.
    fn time_out(&mut self, due: Option<(u8, TransId)>) -> Result<(), RunFault>
        requires on { AreOn V.Vault self.old.stations }
        ensures gone { HaveGone V.Vault (Unit {0}) self.old.stations self.new.stations result }
        ensures did { OnOk result (Did V.Vault (Just (timeouts_due due)) self.old.stations self.new.stations) }
        ensures ended { OnEnd result (λ f. DidSome V.Vault (Just (timeouts_due due)) f self.old.stations self.new.stations) }
        ensures clients { self.new.clients ≡ self.old.clients }
    {
        let Some((server, trans)) = due else {
            return Ok(());
        };
        // As a frame goes to a server of the run, so its call waits at one.
        if !self.stations.has(server) {
            return Err(RunFault::OutOfMemory);
        }
        self.stations.happen(server, Event::Timeout { trans })
    }

    // What a client still sends for a line, and is handed: a greeting maybe, a `Join` maybe, its call, and the collects of those that
    // are to wait, before which messages are carried; and where its patience is at an end its transaction times out.
    fn send_line(
        &mut self,
        items: &mut Vec<Item>,
        client: u8,
        line: &NumberedLine,
        next: Next,
    ) -> Result<(), RunFault>
        requires client { (1 ≤ client) × (client ≤ 16) }
        requires step { InStep V.Vault self.old.clients self.old.stations }
        requires form { IsForm line.now.line }
        requires own { IsOwnNext line.now.line next }
        requires way { IsOnItsWay self.old.clients.words (client_at self.old.clients client) line.now.line next }
        ensures gone { HaveGone V.Vault (Unit {0}) self.old.stations self.new.stations result }
        ensures ended { OnEnd result (λ f. (xs : List AnItem) × (known : Crowd) × (length xs ≤ ahead self.old.clients.words (client_at self.old.clients client) line.now.line next) × (items.new.items ≡ items.old.items ++ xs) × DidOfLine V.Vault f (length self.old.stations.all.items) self.old.clients known self.old.stations self.new.stations client line.now next xs) }
        ensures did { OnOk result ((xs : List AnItem) × (t : Option (ℕ × ATrans)) × (length xs ≤ ahead self.old.clients.words (client_at self.old.clients client) line.now.line next) × (items.new.items ≡ items.old.items ++ xs) × DidLine V.Vault (length self.old.stations.all.items) self.old.clients self.new.clients self.old.stations self.new.stations client line.now next xs t) }
    {
        self.carry_before(next)?;
        let Some(frame) = self.clients.asks(self.alloc, client, &line.line, next)? else {
            let due = self.clients.due(client, next);
            return self.time_out(due);
        };
        let behind = self.send(items, client, line, next, frame)?;
        self.send_line(items, client, line, behind)
    }

    /// The line of a client, with its line of the report, which is whole before it is put there.
    pub(crate) fn play_own(
        &mut self,
        items: &mut Vec<Item>,
        text: &mut Vec<u8>,
        client: u8,
        line: &NumberedLine,
    ) -> Result<(), RunFault>
        requires client { (1 ≤ client) × (client ≤ 16) }
        requires step { InStep V.Vault self.old.clients self.old.stations }
        requires form { IsForm line.now.line }
        ensures gone { HaveGone V.Vault (Unit {0}) self.old.stations self.new.stations result }
        ensures ended { OnEnd result (λ f. (xs : List AnItem) × (known : Crowd) × (length xs ≤ 5) × (items.new.items ≡ items.old.items ++ xs) × (text.new.items ≡ text.old.items) × DidOfLine V.Vault f (length self.old.stations.all.items) self.old.clients known self.old.stations self.new.stations client line.now next.Call xs) }
        ensures did { OnOk result ((xs : List AnItem) × (t : Option (ℕ × ATrans)) × (length xs ≤ 5) × (items.new.items ≡ items.old.items ++ xs) × (text.new.items ≡ text.old.items ++ turns_text (record { line = line.now.number; client = client; items = xs } ∷ [])) × DidLine V.Vault (length self.old.stations.all.items) self.old.clients self.new.clients self.old.stations self.new.stations client line.now next.Call xs t) }
    {
        let before = items.len();
        self.send_line(items, client, line, Next::Call)?;
        let mut own = Vec::new(self.alloc);
        put_line(&mut own, line.number, &items[before..])?;
        text.extend_from_slice(own.as_slice())?;
        Ok(())
    }

    // A line by which messages are brought, lost or brought once more; no server sends to itself.
    fn play_message(&mut self, line: &Line) -> Result<(), RunFault>
        requires step { InStep V.Vault self.old.clients self.old.stations }
        requires ours { names_ours (length self.old.stations.all.items) line.now ≡ true }
        requires event { client_named line.now ≡ None }
        requires other { happens_at_once line.now ≡ false }
        ensures gone { HaveGone V.Vault (Unit {0}) self.old.stations self.new.stations result }
        ensures did { OnOk result (Did V.Vault (GivesLine (length self.old.stations.all.items) self.old.clients line.now) self.old.stations self.new.stations) }
        ensures ended { OnEnd result (λ f. DidSome V.Vault (GivesLine (length self.old.stations.all.items) self.old.clients line.now) f self.old.stations self.new.stations) }
        ensures clients { self.new.clients ≡ self.old.clients }
    {
        match line {
            Line::Carry { from, to } => self.stations.carry_other(*from, *to),
            Line::Lose { from, to } => {
                self.stations.lose_other(*from, *to);
                Ok(())
            }
            Line::Again { from, to } => self.stations.again_other(*from, *to),
            _ => Ok(()),
        }
    }

    // A line of an event at a server, or of a settling, and any other that declares or sets something.
    fn play_other(&mut self, line: &Line) -> Result<(), RunFault>
        requires step { InStep V.Vault self.old.clients self.old.stations }
        requires ours { names_ours (length self.old.stations.all.items) line.now ≡ true }
        requires form { IsForm line.now }
        requires event { client_named line.now ≡ None }
        ensures gone { HaveGone V.Vault (is_stop_line line.now ≡ false) self.old.stations self.new.stations result }
        ensures did { OnOk result (Did V.Vault (GivesLine (length self.old.stations.all.items) self.old.clients line.now) self.old.stations self.new.stations) }
        ensures ended { OnEnd result (λ f. DidSome V.Vault (GivesLine (length self.old.stations.all.items) self.old.clients line.now) f self.old.stations self.new.stations) }
        ensures clients { self.new.clients ≡ self.old.clients }
    {
        match line {
            Line::Timeout { server, client } => {
                let trans = self.clients.trans_of(*client);
                self.stations.time_out(*server, trans)
            }
            Line::Tick { server } => self.stations.happen(*server, Event::Tick),
            Line::Force { server } => self.stations.happen(*server, Event::Force),
            Line::Stop { server, calls } => {
                self.stations.stop(*server, *calls);
                Ok(())
            }
            Line::Restart { server, pick } => self.stations.restart(*server, *pick),
            Line::Settle => self.stations.settle(),
            _ => self.play_message(line),
        }
    }

    /// A line that is no client's: what it declares or sets, and what occurs by it.
    pub(crate) fn play_event(&mut self, line: &Line) -> Result<(), RunFault>
        requires step { InStep V.Vault self.old.clients self.old.stations }
        requires ours { names_ours (length self.old.stations.all.items) line.now ≡ true }
        requires form { IsForm line.now }
        requires event { client_named line.now ≡ None }
        ensures gone { HaveGone V.Vault (is_stop_line line.now ≡ false) self.old.stations self.new.stations result }
        ensures ended { OnEnd result (λ f. AddsSomeEvents V.Vault f (length self.old.stations.all.items) self.old.clients self.new.clients self.old.stations self.new.stations line.now) }
        ensures adds { OnOk result (AddsEvents V.Vault (length self.old.stations.all.items) self.old.clients self.new.clients self.old.stations self.new.stations line.now) }
    {
        let played = self.play_other(line);
        self.clients.declares(line);
        played
    }

    /// Behind a line messages are carried, where they are carried by themselves.
    pub(crate) fn carry_behind(&mut self) -> Result<(), RunFault>
        requires on { AreOn V.Vault self.old.stations }
        ensures gone { HaveGone V.Vault (Unit {0}) self.old.stations self.new.stations result }
        ensures did { OnOk result (Did V.Vault (CarriesIf (length self.old.stations.all.items) self.old.clients.settings.collects) self.old.stations self.new.stations) }
        ensures ended { OnEnd result (λ f. DidSome V.Vault (CarriesIf (length self.old.stations.all.items) self.old.clients.settings.collects) f self.old.stations self.new.stations) }
        ensures clients { self.new.clients ≡ self.old.clients }
    {
        self.stations.carry_if(self.clients.carries())
    }
}
