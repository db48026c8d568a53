//! A worker: a client thread on its way through its job.
ghost use Rattle.std.specs.Prelude.{◌≡◌, [], true, false, IfOk, IfErr, IfSome, OnOk, OnErr, Some};
ghost use Rattle.alp_fields.specs.Forms.{whole};
ghost use Rattle.alp_journal.specs.declared.log.Sent.TheVariants as sent_as;
ghost use Rattle.alp_rpc.specs.Frames.{request, IsHead};
ghost use Rattle.alp_rpc.specs.Replies.{IsSendable};
ghost use Rattle.alp_session.specs.Crowds.{client_at, request_next};
ghost use Rattle.alp_session.specs.Frames.{IsReady, sent_by};
ghost use Rattle.alp_jobs.specs.Does.{asked_at, tick_due as tick_said};
ghost use Rattle.alp_jobs.specs.Jobs.{IsBehind, DoesRest, frame_due, timeout_due, after_unheard};
ghost use Rattle.alp_storm.specs.Logs.{IsSpelled, IsWorkers};
ghost use Rattle.alp_storm.specs.Rings.{IsRing};
ghost use Rattle.alp_storm.specs.Works.{HasDue, HasTurned, IsUnread, EndsWork, Hears, item_for, WorksOn, StopsIn, IsBack};

use crate::exchange::{mark_of, spell};
use crate::fault::StormFault;
use crate::host::{Answer, Host};
use crate::ring::{place_of, turn_at};
use alp_base::{Bytes, OutOfMemory, TransId};
use alp_files::Call;
use alp_jobs::{Gate, Job, ToDo};
use alp_journal::{Event, Item, Sent};
use alp_monitor::{Monitor, Pass};
use alp_rpc::{Request, decode_request};
use alp_session::Addressed;
use std::alloc::Global;
use std::sync::Wait;

/// A job, and one pass at each monitor, each with the same number.
#[derive(Drop)]
pub struct Worker<S: Host> {
    pub number: usize,
    pub job: Job,
    pub ring: Vec<Pass<S>>,
}

// What is sent of a request, beside it.
fn sent_of(request: &Request) -> Result<Sent, OutOfMemory>
    ensures { IfOk result (λ x. x ≡ sent_as.Call request.now.client request.now.epoch request.now.number request.now.call) }
{
    let call = request.call.clone()?;
    Ok(Sent::Call {
        client: request.client,
        epoch: request.epoch,
        number: request.number,
        call,
    })
}

// The request that a frame spells.
fn read(alloc: Global, bytes: &Bytes) -> Result<Request, StormFault>
    ensures ok { IfOk result (λ r. IsSpelled r × (whole request bytes.now ≡ Some r)) }
    ensures err { IfErr result (IsUnread bytes.now) }
{
    match decode_request(alloc, bytes.as_slice()) {
        Ok(Some(request)) => Ok(request),
        Ok(None) => Err(StormFault::BadFrame),
        Err(OutOfMemory) => Err(StormFault::OutOfMemory),
    }
}

impl<S: Host> Worker<S> {
    // Its turn at the server of this number.
    fn turn<R: Wait>(
        &mut self,
        rt: &R,
        monitors: &[Monitor<S>],
        server: u8,
        event: Event,
    ) -> Result<Answer, StormFault>
        requires ring { IsRing S.base monitors.now self.old.number self.old.ring.items }
        requires asked { IsWorkers event }
        requires due { HasDue self.old.job server event }
        ensures still { (self.new.number ≡ self.old.number) × (self.new.job ≡ self.old.job) }
        ensures ok { IfOk result (HasTurned S.base S.log monitors.now server event self.old.ring.items self.new.ring.items) }
        ensures err { IfErr result (λ f. EndsWork S.base S.log monitors.now f self.old.job self.old.ring.items self.new.job self.new.ring.items) }
        ensures ring { IsRing S.base monitors.now self.new.number self.new.ring.items }
    {
        let Some(at) = place_of(server, monitors.len()) else {
            return Err(StormFault::NoServer { server });
        };
        turn_at(rt, monitors, &mut self.ring, at, event)
    }

    // It gives the Tick that is due.
    fn tick<R: Wait>(
        &mut self,
        rt: &R,
        monitors: &[Monitor<S>],
        server: u8,
    ) -> Result<bool, StormFault>
        requires ring { IsRing S.base monitors.now self.old.number self.old.ring.items }
        requires due { tick_said self.old.job.stage ≡ Some server }
        ensures still { self.new.number ≡ self.old.number }
        ensures ok { IfOk result (λ over. (over ≡ false) × WorksOn S.base S.log monitors.now self.old.number self.old.job self.old.ring.items self.new.job self.new.ring.items) }
        ensures err { IfErr result (λ f. StopsIn S.base S.log monitors.now self.old.number f self.old.job self.old.ring.items self.new.job self.new.ring.items) }
    {
        let _answer = match self.turn(rt, monitors, server, Event::Tick) {
            Ok(answer) => answer,
            Err(fault) => return Err(fault),
        };
        self.job.ticked();
        Ok(false)
    }

    // It gives the Timeout that is due.
    fn time_out<R: Wait>(
        &mut self,
        rt: &R,
        monitors: &[Monitor<S>],
        server: u8,
        trans: TransId,
    ) -> Result<bool, StormFault>
        requires ring { IsRing S.base monitors.now self.old.number self.old.ring.items }
        requires due { timeout_due self.old.job ≡ Some (server, trans) }
        ensures still { self.new.number ≡ self.old.number }
        ensures ok { IfOk result (λ over. (over ≡ false) × WorksOn S.base S.log monitors.now self.old.number self.old.job self.old.ring.items self.new.job self.new.ring.items) }
        ensures err { IfErr result (λ f. StopsIn S.base S.log monitors.now self.old.number f self.old.job self.old.ring.items self.new.job self.new.ring.items) }
    {
        let _answer = match self.turn(rt, monitors, server, Event::Timeout { trans }) {
            Ok(answer) => answer,
            Err(fault) => return Err(fault),
        };
        self.job.timed_out();
        Ok(false)
    }

    // It goes on without a deed.
    fn go_onward(&mut self, monitors: &[Monitor<S>]) -> Result<bool, StormFault>
        requires ring { IsRing S.base monitors.now self.old.number self.old.ring.items }
        requires behind { IsBehind self.old.job }
        ensures still { self.new.number ≡ self.old.number }
        ensures ok { IfOk result (λ over. (over ≡ false) × WorksOn S.base S.log monitors.now self.old.number self.old.job self.old.ring.items self.new.job self.new.ring.items) }
        ensures err { IfErr result (λ f. StopsIn S.base S.log monitors.now self.old.number f self.old.job self.old.ring.items self.new.job self.new.ring.items) }
    {
        match self.job.goes_on() {
            Ok(()) => Ok(false),
            Err(OutOfMemory) => Err(StormFault::OutOfMemory),
        }
    }

    // The reply to its frame is spelled, and its client hears it. Where memory is refused for that the item tells it all the same.
    fn hear(
        &mut self,
        alloc: Global,
        frame: Addressed,
        sent: Sent,
        head: (u8, u32),
        answer: Answer,
    ) -> Result<(), OutOfMemory>
        requires head { IsHead head.0 head.1 }
        requires sendable { IfSome answer.reply IsSendable }
        requires room { self.old.job.room ≡ true }
        requires asked { frame_due self.old.job ≡ Some frame }
        requires fits { IfSome (request_next self.old.job.crowd self.old.job.number self.old.job.line (asked_at self.old.job.stage)) request.Fits }
        requires sent { sent ≡ sent_by frame.bytes }
        ensures still { (self.new.number ≡ self.old.number) × (self.new.ring ≡ self.old.ring) }
        ensures ok { OnOk result (Hears self.old.job frame (item_for self.old.job.line frame sent answer) head.0 head.1 answer self.new.job) }
        ensures err { OnErr result (self.new.job ≡ after_unheard self.old.job (item_for self.old.job.line frame sent answer)) }
    {
        let Answer {
            reply,
            place,
            epoch,
        } = answer;
        let (bytes, reply) = spell(alloc, epoch, head.0, head.1, reply);
        let item = Item {
            line: 0,
            server: frame.server,
            mark: mark_of(self.job.line()),
            sent,
            reply,
            place: Some(place),
        };
        match bytes {
            Ok(bytes) => self.job.hears(alloc, frame, item, &bytes),
            Err(OutOfMemory) => {
                self.job.keeps(item);
                Err(OutOfMemory)
            }
        }
    }

    // It sends its frame, and hears what it is handed once the gate lets it. There is room for the item.
    fn ask<R: Wait, G: Gate>(
        &mut self,
        rt: &R,
        gate: &G,
        alloc: Global,
        monitors: &[Monitor<S>],
        frame: Addressed,
    ) -> Result<bool, StormFault>
        requires ring { IsRing S.base monitors.now self.old.number self.old.ring.items }
        requires room { self.old.job.room ≡ true }
        requires asked { frame_due self.old.job ≡ Some frame }
        requires fits { IfSome (request_next self.old.job.crowd self.old.job.number self.old.job.line (asked_at self.old.job.stage)) request.Fits }
        ensures still { self.new.number ≡ self.old.number }
        ensures ok { IfOk result (λ over. (over ≡ false) × WorksOn S.base S.log monitors.now self.old.number self.old.job self.old.ring.items self.new.job self.new.ring.items) }
        ensures err { IfErr result (λ f. StopsIn S.base S.log monitors.now self.old.number f self.old.job self.old.ring.items self.new.job self.new.ring.items) }
    {
        let request = match read(alloc, &frame.bytes) {
            Ok(request) => request,
            Err(fault) => return Err(fault),
        };
        let Ok(sent) = sent_of(&request) else {
            return Err(StormFault::OutOfMemory);
        };
        let Request {
            client,
            epoch,
            number,
            call,
        } = request;
        let event = Event::Call {
            client,
            epoch,
            number,
            call,
        };
        let answer = match self.turn(rt, monitors, frame.server, event) {
            Ok(answer) => answer,
            Err(fault) => return Err(fault),
        };
        gate.hold(frame.server, client, number);
        match self.hear(alloc, frame, sent, (client, number), answer) {
            Ok(()) => Ok(false),
            Err(OutOfMemory) => Err(StormFault::OutOfMemory),
        }
    }

    // It makes room for the item, and sends its frame.
    fn send<R: Wait, G: Gate>(
        &mut self,
        rt: &R,
        gate: &G,
        alloc: Global,
        monitors: &[Monitor<S>],
        frame: Addressed,
    ) -> Result<bool, StormFault>
        requires ring { IsRing S.base monitors.now self.old.number self.old.ring.items }
        requires asked { frame_due self.old.job ≡ Some frame }
        requires fits { IfSome (request_next self.old.job.crowd self.old.job.number self.old.job.line (asked_at self.old.job.stage)) request.Fits }
        ensures still { self.new.number ≡ self.old.number }
        ensures ok { IfOk result (λ over. (over ≡ false) × WorksOn S.base S.log monitors.now self.old.number self.old.job self.old.ring.items self.new.job self.new.ring.items) }
        ensures err { IfErr result (λ f. StopsIn S.base S.log monitors.now self.old.number f self.old.job self.old.ring.items self.new.job self.new.ring.items) }
    {
        match self.job.make_room() {
            Ok(()) => self.ask(rt, gate, alloc, monitors, frame),
            Err(OutOfMemory) => Err(StormFault::OutOfMemory),
        }
    }

    // It does what comes next. Tells whether all is done.
    fn go_once<R: Wait, G: Gate>(
        &mut self,
        rt: &R,
        gate: &G,
        alloc: Global,
        monitors: &[Monitor<S>],
    ) -> Result<bool, StormFault>
        requires ring { IsRing S.base monitors.now self.old.number self.old.ring.items }
        requires ready { IsReady self.old.job.number (client_at self.old.job.crowd self.old.job.number) }
        ensures still { self.new.number ≡ self.old.number }
        ensures ok { IfOk result (λ over. WorksOn S.base S.log monitors.now self.old.number self.old.job self.old.ring.items self.new.job self.new.ring.items) }
        ensures over { IfOk result (λ over. over ≡ true → DoesRest self.new.job [] self.new.job.crowd) }
        ensures err { IfErr result (λ f. StopsIn S.base S.log monitors.now self.old.number f self.old.job self.old.ring.items self.new.job self.new.ring.items) }
    {
        let deed = match self.job.next_deed(alloc) {
            Ok(deed) => deed,
            Err(OutOfMemory) => return Err(StormFault::OutOfMemory),
        };
        match deed {
            ToDo::Frame(frame) => self.send(rt, gate, alloc, monitors, frame),
            ToDo::Tick { server } => self.tick(rt, monitors, server),
            ToDo::Timeout { server, trans } => self.time_out(rt, monitors, server, trans),
            ToDo::Onward => self.go_onward(monitors),
            ToDo::Done => Ok(true),
        }
    }

    /// Does its job. Each time it has left the monitor of a call's turn it comes by the gate, and then its client hears the reply.
    pub fn work<R: Wait, G: Gate>(
        self,
        rt: &R,
        gate: &G,
        alloc: Global,
        monitors: &[Monitor<S>],
    ) -> (Worker<S>, Option<StormFault>)
        requires ring { IsRing S.base monitors.now self.number self.ring.items }
        requires ready { IsReady self.job.number (client_at self.job.crowd self.job.number) }
        ensures still { result.0.number ≡ self.number }
        ensures back { IsBack S.base S.log monitors.now self.number result.1 self.job self.ring.items result.0.job result.0.ring.items }
    {
        let mut worker = self;
        for _ in rt.forever() {
            match worker.go_once(rt, gate, alloc, monitors) {
                Ok(false) => {}
                Ok(true) => return (worker, None),
                Err(fault) => return (worker, Some(fault)),
            }
        }
        unreachable!()
    }
}
