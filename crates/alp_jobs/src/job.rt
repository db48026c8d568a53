//! A job: the transactions of a client thread, line by line.
ghost use Rattle.std.specs.Prelude.{◌≡◌, ◌≤◌, [], List, OnOk, OnErr, IfOk, IfSome, None, Some, true, map, not, ◌&&◌};
ghost use Rattle.std.specs.List.{AllByRecursion};
ghost use Rattle.alp_rpc.specs.Frames.{request};
ghost use Rattle.alp_session.specs.Calls.{IsAskable};
ghost use Rattle.alp_session.specs.Crowd.{Crowd};
ghost use Rattle.alp_session.specs.Crowds.{client_at, request_next};
ghost use Rattle.alp_session.specs.Frames.{IsOfFrame, IsReady, told_by};
ghost use Rattle.alp_jobs.specs.Deeds.{Deed, sends, gives_tick, gives_timeout};
ghost use Rattle.alp_jobs.specs.Does.{asked_at as asked_said, tick_due as tick_said, after_tick as after_tick_said, after_reply as after_reply_said, stage_after as stage_said, DoesJob};
ghost use Rattle.alp_jobs.specs.Jobs.{IsBehind, IsToDo, DoesRest, Does, GoesOn, new_job, with_room, heard_so, after_unheard, frame_due, timeout_due, is_coming as is_coming_said, is_lost as is_lost_said, is_ended as is_ended_said, way_after as way_said, stage_ticked as stage_ticked_said, after_frame, after_tick_given, after_timeout, at_its_line, giving_up, at_next, gone_on};
ghost use Rattle.alp_jobs.specs.declared.to_do.ToDo.TheVariants.{Done};

use crate::items::{is_refusal, waits_on};
use crate::queues::{has_no_line, has_no_transaction, take_line, take_transaction};
use crate::{Stage, ToDo, Way};
use alp_base::{Bytes, OutOfMemory, Stamp};
use alp_journal::Item;
use alp_lines::Line;
use alp_session::{Addressed, Clients, Next};
use std::alloc::Global;
use std::collections::VecDeque;
use std::marker::Model;

/// What a client thread does for its job, from where it stands.
#[derive(Drop)]
pub struct Job {
    number: u8,
    line: Line,
    stage: Stage,
    way: Way,
    // The lines of its transaction that come after this one.
    rest: VecDeque<Line>,
    // The transactions that come after this one.
    others: VecDeque<Vec<Line>>,
    clients: Clients,
    // What its client sent and was handed.
    items: Vec<Item>,
    // Whether a place for one item more is reserved.
    room: bool,
}

impl Model for Job {
    ghost use Rattle.std.specs.Prelude.{map};
    ghost use Rattle.alp_jobs.specs.States.{JobState, job_code};
    ghost use Rattle.alp_jobs.specs.Jobs.{IsSound};

    ghost Value = { JobState };

    ghost coded = { job_code };

    ghost view = { λ j. record { number = j.number; line = j.line; stage = j.stage; way = j.way; rest = j.rest.items; others = map (λ ls. ls.items) j.others.items; crowd = j.clients; items = j.items.items; room = j.room } };

    ghost invariant = { λ j. IsSound j.number j.line j.rest.items (map (λ ls. ls.items) j.others.items) j.room j.items };
}

// What the client is asked for.
fn asked_at(stage: Stage) -> Next
    ensures { result ≡ asked_said stage }
{
    match stage {
        Stage::Asking(next) => next,
        Stage::Last => Next::Collect,
        _ => Next::Over,
    }
}

// The server of the Tick that is due.
fn tick_due(stage: Stage) -> Option<u8>
    ensures { result ≡ tick_said stage }
{
    match stage {
        Stage::Ticking { server, .. } => Some(server),
        _ => None,
    }
}

fn is_coming(stage: Stage) -> bool
    ensures { result ≡ is_coming_said stage }
{
    matches!(stage, Stage::Coming)
}

fn is_lost(way: Way) -> bool
    ensures { result ≡ is_lost_said way }
{
    matches!(way, Way::Refused)
}

// Whether the line has begun, and its transaction goes on after it.
fn is_kept(stage: Stage, way: Way) -> bool
    ensures { result ≡ (not (is_coming_said stage) && not (is_lost_said way)) }
{
    !is_coming(stage) && !is_lost(way)
}

// What comes after the Tick that a collect calls for.
fn after_tick(stage: Stage, next: Next) -> Next
    ensures { result ≡ after_tick_said stage next }
{
    match (stage, next) {
        (Stage::Last, _) => Next::Over,
        (_, Next::TimeOut) => Next::TimeOut,
        _ => Next::Collect,
    }
}

// What comes after another answer.
fn after_reply(stage: Stage, next: Next) -> Next
    ensures { result ≡ after_reply_said stage next }
{
    match (stage, next) {
        (Stage::Last, Next::Call) => Next::Call,
        (Stage::Last, _) => Next::Over,
        _ => next,
    }
}

fn stage_after(stage: Stage, item: &Item, next: Next) -> Stage
    ensures { result ≡ stage_said stage item.now next }
{
    if waits_on(item) {
        return Stage::Ticking {
            server: item.server,
            after: after_tick(stage, next),
        };
    }
    Stage::Asking(after_reply(stage, next))
}

fn stage_ticked(stage: Stage) -> Stage
    ensures { result ≡ stage_ticked_said stage }
{
    match stage {
        Stage::Ticking { after, .. } => Stage::Asking(after),
        _ => stage,
    }
}

// How the transaction goes once something of its line was refused, or was not.
fn way_after(refused: bool, way: Way) -> Way
    ensures { result ≡ way_said refused way }
{
    match (refused, way) {
        (true, Way::Going) => Way::Refused,
        _ => way,
    }
}

impl Job {
    // A job of which nothing is done.
    fn fresh(alloc: Global, number: u8, clients: Clients, transactions: Vec<Vec<Line>>) -> Job
        requires number { number ≤ 16 }
        requires lines { AllByRecursion (AllByRecursion IsAskable) (map (λ ls. ls.items) transactions.items) }
        ensures { result ≡ new_job number (map (λ ls. ls.items) transactions.items) clients }
    {
        Job {
            number,
            line: Line::Abort { client: number },
            stage: Stage::Asking(Next::Over),
            way: Way::Going,
            rest: VecDeque::new(alloc),
            others: VecDeque::from(transactions),
            clients,
            items: Vec::new(alloc),
            room: false,
        }
    }

    /// The job of the client of that number, who stands among these clients. Nothing of its transactions is done yet.
    pub fn new(alloc: Global, number: u8, clients: Clients, transactions: Vec<Vec<Line>>) -> Job
        requires number { number ≤ 16 }
        requires lines { AllByRecursion (AllByRecursion IsAskable) (map (λ ls. ls.items) transactions.items) }
        ensures stands { result ≡ new_job number (map (λ ls. ls.items) transactions.items) clients }
        ensures does { (ds : List Deed) (d : Crowd) → DoesRest result ds d → DoesJob number (map (λ ls. ls.items) transactions.items) clients ds d }
    {
        Job::fresh(alloc, number, clients, transactions)
    }

    /// The line that it is at.
    pub fn line(&self) -> &Line
        ensures { result.now ≡ self.now.line }
    {
        &self.line
    }

    /// The number of its client.
    pub fn number(&self) -> u8
        ensures { result ≡ self.now.number }
    {
        self.number
    }

    /// The greatest stamp that its client was told.
    pub fn told(&self) -> Stamp
        ensures { result ≡ (client_at self.now.crowd self.now.number).told }
    {
        self.clients.told(self.number)
    }

    // Whether nothing comes after its line.
    fn is_ended(&self) -> bool
        ensures { result ≡ is_ended_said self.now }
    {
        is_kept(self.stage, self.way) && has_no_line(&self.rest) && has_no_transaction(&self.others)
    }

    // What it does where it has no frame to send.
    fn without_frame(&self) -> ToDo
        requires asked { frame_due self.now ≡ None }
        requires ticked { tick_said self.now.stage ≡ None }
        ensures due { IsToDo self.now result }
    {
        let next = asked_at(self.stage);
        if let Some((server, trans)) = self.clients.due(self.number, next) {
            return ToDo::Timeout { server, trans };
        }
        if self.is_ended() {
            return ToDo::Done;
        }
        ToDo::Onward
    }

    // Its next frame, or what it does without one.
    fn with_frame(&self, alloc: Global) -> Result<ToDo, OutOfMemory>
        requires ready { IsReady self.now.number (client_at self.now.crowd self.now.number) }
        requires ticked { tick_said self.now.stage ≡ None }
        ensures due { IfOk result (IsToDo self.now) }
        ensures fits { OnOk result (IfSome (request_next self.now.crowd self.now.number self.now.line (asked_said self.now.stage)) request.Fits) }
    {
        let next = asked_at(self.stage);
        match self.clients.asks(alloc, self.number, &self.line, next)? {
            Some(frame) => Ok(ToDo::Frame(frame)),
            None => Ok(self.without_frame()),
        }
    }

    // What it does next.
    fn due(&self, alloc: Global) -> Result<ToDo, OutOfMemory>
        requires ready { IsReady self.now.number (client_at self.now.crowd self.now.number) }
        ensures due { IfOk result (IsToDo self.now) }
        ensures fits { OnOk result (IfSome (request_next self.now.crowd self.now.number self.now.line (asked_said self.now.stage)) request.Fits) }
    {
        if let Some(server) = tick_due(self.stage) {
            return Ok(ToDo::Tick { server });
        }
        self.with_frame(alloc)
    }

    /// What it does next. It goes on once it is told how that went: by `hears`, `ticked`, `timed_out` or `goes_on`.
    pub fn next_deed(&self, alloc: Global) -> Result<ToDo, OutOfMemory>
        requires ready { IsReady self.now.number (client_at self.now.crowd self.now.number) }
        ensures due { IfOk result (IsToDo self.now) }
        ensures fits { OnOk result (IfSome (request_next self.now.crowd self.now.number self.now.line (asked_said self.now.stage)) request.Fits) }
        ensures done { IfOk result (λ x. x ≡ Done → DoesRest self.now [] self.now.crowd) }
    {
        self.due(alloc)
    }

    fn reserve(&mut self) -> Result<(), OutOfMemory>
        ensures now { OnOk result (self.new ≡ with_room self.old) }
        ensures err { OnErr result (self.new ≡ self.old) }
    {
        self.items.reserve(1)?;
        self.room = true;
        Ok(())
    }

    /// Makes room for the next item, before the turn that it tells of. So it is kept whatever memory is refused behind that.
    pub fn make_room(&mut self) -> Result<(), OutOfMemory>
        ensures now { OnOk result (self.new ≡ with_room self.old) }
        ensures goes { OnOk result (GoesOn self.old self.new) }
        ensures due { OnOk result (frame_due self.new ≡ frame_due self.old) }
        ensures asked { OnOk result (request_next self.new.crowd self.new.number self.new.line (asked_said self.new.stage)
            ≡ request_next self.old.crowd self.old.number self.old.line (asked_said self.old.stage)) }
        ensures err { OnErr result (self.new ≡ self.old) }
    {
        self.reserve()
    }

    /// It sent its frame, and the item tells what was answered, but its client does not hear it.
    pub fn keeps(&mut self, item: Item)
        requires room { self.old.room ≡ true }
        ensures { self.new ≡ after_unheard self.old item }
    {
        self.room = false;
        self.items.push_reserved(item);
    }

    // Its client heard the reply, and this comes next for the line.
    fn hears_on(&mut self, item: Item, next: Next)
        requires room { self.old.room ≡ true }
        ensures { self.new ≡ heard_so self.old item next }
    {
        self.stage = stage_after(self.stage, &item, next);
        self.way = way_after(is_refusal(&item.reply), self.way);
        self.keeps(item);
    }

    // Its client hears the reply, and the item is kept.
    fn hear(
        &mut self,
        alloc: Global,
        frame: Addressed,
        item: Item,
        handed: &Option<Bytes>,
    ) -> Result<(), OutOfMemory>
        requires room { self.old.room ≡ true }
        requires told { told_by handed.now ≡ item.reply }
        ensures now { OnOk result (self.new ≡ after_frame self.old frame item) }
        ensures err { OnErr result (self.new ≡ after_unheard self.old item) }
    {
        let next = asked_at(self.stage);
        match self
            .clients
            .hears(alloc, self.number, &self.line, next, frame, handed)
        {
            Ok(next) => {
                self.hears_on(item, next);
                Ok(())
            }
            Err(OutOfMemory) => {
                self.keeps(item);
                Err(OutOfMemory)
            }
        }
    }

    /// It sent its frame, and is handed the bytes of the reply, or silence. The item says so, and is kept. Where memory is refused its
    /// client did not hear it, and all else is as before.
    pub fn hears(
        &mut self,
        alloc: Global,
        frame: Addressed,
        item: Item,
        handed: &Option<Bytes>,
    ) -> Result<(), OutOfMemory>
        requires room { self.old.room ≡ true }
        requires asked { frame_due self.old ≡ Some frame }
        requires fits { IfSome (request_next self.old.crowd self.old.number self.old.line (asked_said self.old.stage)) request.Fits }
        requires sent { IsOfFrame self.old.line frame item }
        requires told { told_by handed.now ≡ item.reply }
        ensures now { OnOk result (self.new ≡ after_frame self.old frame item) }
        ensures does { OnOk result (Does self.old (sends item) self.new) }
        ensures err { OnErr result (self.new ≡ after_unheard self.old item) }
    {
        self.hear(alloc, frame, item, handed)
    }

    fn tick(&mut self)
        ensures { self.new ≡ after_tick_given self.old }
    {
        self.stage = stage_ticked(self.stage);
    }

    /// It gave its Tick.
    pub fn ticked(&mut self)
        ensures now { self.new ≡ after_tick_given self.old }
        ensures does { IfSome (tick_said self.old.stage) (λ server. Does self.old (gives_tick server) self.new) }
    {
        self.tick();
    }

    fn time_out(&mut self)
        ensures { self.new ≡ after_timeout self.old }
    {
        self.stage = Stage::Last;
    }

    /// It gave its Timeout.
    pub fn timed_out(&mut self)
        ensures now { self.new ≡ after_timeout self.old }
        ensures does { IfSome (timeout_due self.old) (λ due. Does self.old (gives_timeout due.0 due.1) self.new) }
    {
        self.time_out();
    }

    // The client comes to its line.
    fn comes(&mut self) -> Result<(), OutOfMemory>
        ensures ok { OnOk result (self.new ≡ at_its_line self.old) }
        ensures err { OnErr result (self.new ≡ self.old) }
    {
        self.clients.at_line(self.number, &self.line)?;
        self.stage = Stage::Asking(Next::Call);
        Ok(())
    }

    // The next line is the one that gives the transaction up.
    fn gives_up(&mut self)
        ensures { self.new ≡ giving_up self.old }
    {
        self.line = Line::Abort {
            client: self.number,
        };
        self.stage = Stage::Coming;
        self.way = Way::GivenUp;
        self.rest.clear();
    }

    // The next transaction, if there is one.
    fn begins_next(&mut self)
        ensures { self.new ≡ at_next self.old [] self.old.others }
    {
        if let Some(lines) = take_transaction(&mut self.others) {
            self.rest = VecDeque::from(lines);
            self.way = Way::Going;
        }
    }

    // The next line of its transaction, or the next transaction.
    fn comes_to_next(&mut self)
        ensures { self.new ≡ at_next self.old self.old.rest self.old.others }
    {
        if let Some(line) = take_line(&mut self.rest) {
            self.line = line;
            self.stage = Stage::Coming;
            self.way = Way::Going;
            return;
        }
        self.begins_next();
    }

    // Whether its client has not come to its line.
    fn is_coming(&self) -> bool
        ensures { result ≡ is_coming_said self.now.stage }
    {
        is_coming(self.stage)
    }

    // Whether its transaction is to be given up.
    fn is_lost(&self) -> bool
        ensures { result ≡ is_lost_said self.now.way }
    {
        is_lost(self.way)
    }

    // Its client comes to the next line, or another line is the next one.
    fn go_on(&mut self) -> Result<(), OutOfMemory>
        ensures now { OnOk result (self.new ≡ gone_on self.old) }
        ensures err { OnErr result (self.new ≡ self.old) }
    {
        if self.is_coming() {
            return self.comes();
        }
        if self.is_lost() {
            self.gives_up();
            return Ok(());
        }
        self.comes_to_next();
        Ok(())
    }

    /// It goes on where its line is over: its client comes to the next line, or another line is the next one.
    pub fn goes_on(&mut self) -> Result<(), OutOfMemory>
        requires over { IsBehind self.old }
        ensures now { OnOk result (self.new ≡ gone_on self.old) }
        ensures goes { OnOk result (GoesOn self.old self.new) }
        ensures err { OnErr result (self.new ≡ self.old) }
    {
        self.go_on()
    }

    /// The clients, and what its client sent and was handed, in order.
    pub fn into_parts(self) -> (Clients, Vec<Item>)
        ensures clients { result.0 ≡ self.crowd }
        ensures items { result.1.items ≡ self.items }
    {
        let Job { clients, items, .. } = self;
        (clients, items)
    }
}
