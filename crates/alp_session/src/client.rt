//! A client of the script: what it was told, what it sends for a line, and what it makes of a reply.
ghost use Rattle.std.specs.Prelude.{◌≡◌, ◌∷◌, false, OnOk, OnErr, IfOk, IfSome, Some};
ghost use Rattle.std.specs.Option.{option_map};
ghost use Rattle.alp_rpc.specs.Frames.{request, IsSendable};
ghost use Rattle.alp_session.specs.Props.{later as later_said};
ghost use Rattle.std.specs.FinMap as map;
ghost use Rattle.alp_session.specs.Frames.{told_by as told_said};
ghost use Rattle.alp_session.specs.Heard.{is_not_yet as is_not_yet_said, is_part as is_part_said, goes_on as goes_on_said, purpose_of as purpose_said, purpose_in as purpose_in_said, collects_by_itself, patient as patient_said};
ghost use Rattle.alp_session.specs.declared.meaning.Meaning.TheVariants as meaning;

use crate::asking::{asking_for, call_asked};
use crate::{
    Addressed, Asking, Frames, Greeted, Meaning, Next, Opens, Purpose, Sending, Sessions, Settings,
    Waiting, Waits, Words,
};
use alp_base::{Bytes, FileId, Name, OutOfMemory, Stamp, TransId};
use alp_files::{Call, Ended, Refusal, Reply};
use alp_lines::Line;
use alp_rpc::{Request, decode_reply, encode_request};
use std::alloc::Global;
use std::cmp::Ordering;

/// What a client knows.
#[derive(Drop)]
pub struct Client {
    pub name: Name,
    pub sessions: Sessions,
    pub trans: Option<TransId>,
    /// The last transaction that it begun, whether it has it still or not.
    pub begun: Option<TransId>,
    /// The greatest stamp that it was told.
    pub told: Stamp,
    pub opens: Opens,
    /// The calls that were answered that they wait, each as long as no collect of it is answered otherwise.
    pub waiting: Waits,
    pub frames: Frames,
}

const NO_TRANS: TransId = TransId {
    server: 0,
    epoch: 0,
    counter: 0,
};

// The reply that bytes tell, if they are those of one.
fn told_by(alloc: Global, handed: &Option<Bytes>) -> Result<Option<Reply>, OutOfMemory>
    ensures { IfOk result (λ told. told ≡ told_said handed.now) }
{
    let Some(bytes) = handed else {
        return Ok(None);
    };
    let Some(frame) = decode_reply(alloc, bytes.as_slice())? else {
        return Ok(None);
    };
    Ok(Some(frame.reply))
}

impl Client {
    ghost use Rattle.alp_session.specs.Clients.{new_client, first_of};
    ghost use Rattle.alp_session.specs.declared.waiting.Purpose.TheVariants as purposes;
    ghost use Rattle.alp_session.specs.Calls.{server_for, asking_for as asking_said, IsAskable};
    ghost use Rattle.alp_session.specs.Frames.{number_after, request_in, request_for, request_of, addressed, frame_of, IsReady};
    ghost use Rattle.alp_session.specs.Heard.{begins as begins_said, knows_part as knows_part_said, started as started_said, forgets as forgets_said, learned_reply, created as created_said, opened as opened_said, bound, told_refusal, told_end as told_end_said, told_only as told_only_said, left as left_said, greeted as greeted_said, is_waiting_at, waiting_for, due_in, awaiting, is_not_yet, part_known as part_known_said, called as called_said, joined_reply as joined_said, joined_late as joined_late_said, opened_late as opened_late_said, late_reply, collected_reply, purpose_in, waits_on as waits_on_said, collected as collected_said, answered as answered_said, counted, heard_in, heard_own, heard_again as again_said, heard, words_awaiting, words_called, words_late, words_late_told, words_answered, words_in_session, words_heard};

    pub fn new(alloc: Global) -> Client
        ensures { result ≡ new_client }
    {
        Client {
            name: Name::spelled(b"Admin"),
            sessions: Sessions::new(alloc),
            trans: None,
            begun: None,
            told: Stamp {
                ts: 0,
                trans: NO_TRANS,
            },
            opens: Opens::new(alloc),
            waiting: Waits::new(alloc),
            frames: Frames::new(),
        }
    }

    // The request of a line for its call at the server, or for what comes before that.
    fn request(&self, number: u8, server: u8, line: &Line, call: Call) -> Request
        ensures { result ≡ request_in number self.now line.now (map.get self.now.sessions server) call }
    {
        let Some(greeted) = self.sessions.get(server) else {
            return Request {
                client: number,
                epoch: 0,
                number: 1,
                call: Call::Hello { name: self.name },
            };
        };
        let asking = asking_for(greeted.joined, self.trans, line, Next::Call);
        Request {
            client: number,
            epoch: greeted.epoch,
            number: greeted.last.saturating_add(1),
            call: call_asked(asking, call),
        }
    }

    // What the client with that number asks next, if its line is for a call.
    fn asks_for(
        &self,
        alloc: Global,
        number: u8,
        words: &Words,
        line: &Line,
    ) -> Result<Option<Request>, OutOfMemory>
        requires line { IsAskable line.now }
        requires ready { IsReady number self.now }
        ensures request { IfOk result (λ asked. asked ≡ request_for words.now number self.now line.now) }
        ensures sendable { IfOk result (λ asked. IfSome asked IsSendable) }
    {
        let Some(call) = self.call_of(alloc, words, line)? else {
            return Ok(None);
        };
        let server = self.server_for(words, line);
        Ok(Some(self.request(number, server, line, call)))
    }

    // The frame of that, and where it goes.
    fn sends_for(
        &self,
        alloc: Global,
        number: u8,
        words: &Words,
        line: &Line,
    ) -> Result<Option<Addressed>, OutOfMemory>
        requires line { IsAskable line.now }
        requires ready { IsReady number self.now }
        ensures frame { IfOk result (λ frame. frame ≡ option_map (addressed (server_for words.now self.now line.now)) (request_for words.now number self.now line.now)) }
        ensures fits { OnOk result (IfSome (request_for words.now number self.now line.now) request.Fits) }
    {
        let Some(asked) = self.asks_for(alloc, number, words, line)? else {
            return Ok(None);
        };
        let bytes = encode_request(alloc, &asked)?;
        Ok(Some(Addressed {
            server: self.server_for(words, line),
            bytes,
        }))
    }

    /// The frame that the client with that number sends for a line, and the server that it goes to, or nothing where it sends nothing:
    /// that of its next request, one of the last two again, or the bytes of a raw line.
    pub fn asks(
        &self,
        alloc: Global,
        number: u8,
        words: &Words,
        line: &Line,
    ) -> Result<Option<Addressed>, OutOfMemory>
        requires line { IsAskable line.now }
        requires ready { IsReady number self.now }
        ensures frame { IfOk result (λ frame. frame ≡ frame_of words.now number self.now line.now) }
        ensures fits { OnOk result (IfSome (request_of words.now number self.now line.now) request.Fits) }
    {
        match line {
            Line::Repeat { .. } => Ok(self.frames.last.clone()?),
            Line::Old { .. } => Ok(self.frames.before.clone()?),
            Line::Raw { server, bytes, .. } => Ok(Some(Addressed {
                server: *server,
                bytes: bytes.clone()?,
            })),
            _ => self.sends_for(alloc, number, words, line),
        }
    }

    /// The client comes to a line: a `begin` leaves the transaction before, and its calls that wait.
    pub fn begins(&mut self, line: &Line)
        ensures { self.new ≡ begins_said self.old line.now }
    {
        if let Line::Begin { .. } = line {
            self.trans = None;
            self.opens.clear();
            self.waiting.clear();
        }
    }

    // The word stands for the file, whose open number is kept.
    fn binds(
        &mut self,
        words: &mut Words,
        word: &Name,
        file: FileId,
        open_no: u32,
    ) -> Result<(), OutOfMemory>
        ensures client { OnOk result (self.new ≡ record self.old { opens = map.insert self.old.opens file open_no }) }
        ensures words { OnOk result (words.new ≡ map.insert words.old word.now (meaning.File file)) }
        ensures err { OnErr result (self.new ≡ self.old) }
        ensures words_err { OnErr result (words.new ≡ words.old) }
    {
        let stood = words.bind(*word, Meaning::File(file))?;
        if self.opens.give(file, open_no).is_err() {
            words.restore(*word, stood);
            return Err(OutOfMemory);
        }
        Ok(())
    }

    // The created file's id is bound to the word of the line, and its open number is kept.
    fn created(
        &mut self,
        words: &mut Words,
        line: &Line,
        file: FileId,
        open_no: u32,
    ) -> Result<(), OutOfMemory>
        ensures client { OnOk result (self.new ≡ created_said self.old line.now file open_no) }
        ensures words { OnOk result (words.new ≡ bound words.old line.now (meaning.File file)) }
        ensures err { OnErr result (self.new ≡ self.old) }
        ensures words_err { OnErr result (words.new ≡ words.old) }
    {
        if let Line::Create { word, .. } = line {
            self.binds(words, word, file, open_no)?;
        }
        Ok(())
    }

    // The open number of the file that the word of the line stands for is kept.
    fn opened(&mut self, words: &Words, line: &Line, open_no: u32) -> Result<(), OutOfMemory>
        ensures ok { OnOk result (self.new ≡ opened_said words.now self.old line.now open_no) }
        ensures err { OnErr result (self.new ≡ self.old) }
    {
        if let Line::OpenFile { file, .. } = line {
            self.opens.give(words.file_of(file), open_no)?;
        }
        Ok(())
    }

    // The client knows of a part of the transaction at the server.
    fn knows_part(&mut self, server: u8, trans: TransId)
        ensures { self.new ≡ knows_part_said self.old server trans }
    {
        let Some(greeted) = self.sessions.get(server) else {
            return;
        };
        self.sessions.update(
            server,
            Greeted {
                epoch: greeted.epoch,
                last: greeted.last,
                joined: Some(trans),
            },
        );
    }

    // The transaction that a `begin` begun there.
    fn started(&mut self, server: u8, line: &Line, trans: TransId)
        ensures { self.new ≡ started_said self.old server line.now trans }
    {
        if matches!(line, Line::Begin { .. }) {
            self.knows_part(server, trans);
            self.trans = Some(trans);
            self.begun = Some(trans);
        }
    }

    // The session at the server is stale: the client has none there, and knows of no part.
    fn forgets(&mut self, server: u8)
        ensures { self.new ≡ forgets_said self.old server }
    {
        self.sessions.forget(server);
    }

    fn refused(&mut self, server: u8, line: &Line, refusal: &Refusal)
        ensures { self.new ≡ told_refusal self.old server line.now refusal.now }
    {
        match refusal {
            Refusal::StaleSession { epoch: _ } => self.forgets(server),
            Refusal::UnknownTrans => self.left(line),
            Refusal::Aborted { cause: _ } => self.left(line),
            _ => {}
        }
    }

    // How a transaction ended, which is told with its stamp where it was committed.
    fn told_end(&mut self, end: &Ended)
        ensures { self.new ≡ told_end_said self.old end.now }
    {
        if let Ended::Committed { stamp } = end {
            self.told = later(self.told, *stamp);
        }
    }

    // A commit or an abort that is answered so has no transaction behind it.
    fn left(&mut self, line: &Line)
        ensures { self.new ≡ left_said self.old line.now }
    {
        if let Line::Commit { .. } | Line::Abort { .. } = line {
            self.trans = None;
            self.waiting.clear();
        }
    }

    // Of a reply only a stamp, or that the session is stale.
    fn told_only(&mut self, server: u8, reply: &Reply)
        ensures { self.new ≡ told_only_said self.old server reply.now }
    {
        match reply {
            Reply::Committed { stamp } => self.told = later(self.told, *stamp),
            Reply::Ended(end) => self.told_end(end),
            Reply::Refused(Refusal::StaleSession { epoch: _ }) => self.forgets(server),
            _ => {}
        }
    }

    // What the client makes of the reply to the call of a line, where it is not to wait.
    fn learn(
        &mut self,
        words: &mut Words,
        server: u8,
        line: &Line,
        reply: &Reply,
    ) -> Result<(), OutOfMemory>
        requires { is_not_yet reply.now ≡ false }
        ensures client { OnOk result (self.new ≡ learned_reply words.old self.old server line.now reply.now) }
        ensures words { OnOk result (words.new ≡ words_called words.old self.old server line.now reply.now) }
        ensures err { OnErr result (self.new ≡ self.old) }
        ensures words_err { OnErr result (words.new ≡ words.old) }
    {
        match reply {
            Reply::Begun { trans } => self.started(server, line, *trans),
            Reply::Created { file, open_no } => {
                return self.created(words, line, *file, *open_no);
            }
            Reply::Opened { open_no } => return self.opened(words, line, *open_no),
            Reply::Committed { stamp } => {
                self.left(line);
                self.told = later(self.told, *stamp);
            }
            Reply::Ended(end) => self.told_end(end),
            Reply::Refused(refusal) => self.refused(server, line, refusal),
            _ => {}
        }
        Ok(())
    }

    // The reply to a greeting: it begins a session, in which the client goes on, or ends the line.
    fn greeted(
        &mut self,
        server: u8,
        next: Next,
        reply: &Option<Reply>,
    ) -> Result<Next, OutOfMemory>
        ensures client { IfOk result (λ after. (self.new, after) ≡ greeted_said self.old server next reply.now) }
        ensures err { OnErr result (self.new ≡ self.old) }
    {
        let Some(Reply::Welcome { epoch }) = reply else {
            return Ok(Next::Over);
        };
        let greeted = Greeted {
            epoch: *epoch,
            last: 1,
            joined: None,
        };
        self.sessions.put(server, greeted)?;
        Ok(next)
    }

    // The call waits from now on.
    fn comes_to_wait(&mut self, sending: Sending, purpose: Purpose) -> Result<(), OutOfMemory>
        ensures ok { OnOk result (self.new ≡ record self.old { waiting = waiting_for sending purpose ∷ self.old.waiting }) }
        ensures err { OnErr result (self.new ≡ self.old) }
    {
        self.waiting.put(sending.server, sending.number, purpose)
    }

    // The `Join` is to wait, and becomes the call that waits at the server where there is none.
    fn join_waits(&mut self, sending: Sending) -> Result<Next, OutOfMemory>
        ensures client { IfOk result (λ next. (self.new, next) ≡ awaiting self.old sending purposes.Part) }
        ensures err { OnErr result (self.new ≡ self.old) }
    {
        if self.waiting.has(sending.server) {
            return Ok(Next::Over);
        }
        self.comes_to_wait(sending, Purpose::Part)?;
        Ok(collecting(sending.settings))
    }

    // The call of a line is to wait, and becomes the one that waits at the server where there is none. What it creates is awaited by its
    // word then.
    fn call_waits(
        &mut self,
        words: &mut Words,
        sending: Sending,
        line: &Line,
    ) -> Result<Next, OutOfMemory>
        ensures client { IfOk result (λ next. (self.new, next) ≡ awaiting self.old sending (purpose_said words.old line.now)) }
        ensures words { OnOk result (words.new ≡ words_awaiting words.old line.now (is_waiting_at self.old.waiting sending.server) self.old.trans sending.server) }
        ensures err { OnErr result (self.new ≡ self.old) }
        ensures words_err { OnErr result (words.new ≡ words.old) }
    {
        if self.waiting.has(sending.server) {
            return Ok(Next::Over);
        }
        self.comes_to_wait(sending, purpose_of(words, line))?;
        match words.awaiting(line, self.trans, sending.server) {
            Ok(()) => Ok(collecting(sending.settings)),
            Err(OutOfMemory) => {
                self.waiting.take();
                Err(OutOfMemory)
            }
        }
    }

    // The reply to the call of a line.
    fn called(
        &mut self,
        words: &mut Words,
        sending: Sending,
        line: &Line,
        reply: &Reply,
    ) -> Result<Next, OutOfMemory>
        ensures client { IfOk result (λ next. (self.new, next) ≡ called_said words.old self.old sending line.now reply.now) }
        ensures words { OnOk result (words.new ≡ words_called words.old self.old sending.server line.now reply.now) }
        ensures err { OnErr result (self.new ≡ self.old) }
        ensures words_err { OnErr result (words.new ≡ words.old) }
    {
        if is_not_yet(reply) {
            return self.call_waits(words, sending, line);
        }
        self.learn(words, sending.server, line, reply)?;
        Ok(Next::Over)
    }

    // The reply to a `Join`: the line goes on with its call, or the `Join` waits.
    fn joined(
        &mut self,
        sending: Sending,
        trans: TransId,
        reply: &Reply,
    ) -> Result<Next, OutOfMemory>
        ensures client { IfOk result (λ next. (self.new, next) ≡ joined_said self.old sending trans reply.now) }
        ensures err { OnErr result (self.new ≡ self.old) }
    {
        if is_not_yet(reply) {
            return self.join_waits(sending);
        }
        if let Reply::Joined = reply {
            self.knows_part(sending.server, trans);
            return Ok(Next::Call);
        }
        self.told_only(sending.server, reply);
        Ok(Next::Over)
    }

    // The client knows of a part of its transaction at the server, if it has one.
    fn part_known(&mut self, server: u8)
        ensures { self.new ≡ part_known_said self.old server self.old.trans }
    {
        if let Some(trans) = self.trans {
            self.knows_part(server, trans);
        }
    }

    // The reply to a `Join` that waited.
    fn joined_late(&mut self, server: u8, reply: &Reply)
        ensures { self.new ≡ joined_late_said self.old server reply.now }
    {
        if let Reply::Joined = reply {
            self.part_known(server);
            return;
        }
        self.told_only(server, reply);
    }

    // A file that a call created which waited: its id is bound to the word that awaits it, and its open number is kept.
    fn created_late(
        &mut self,
        words: &mut Words,
        server: u8,
        purpose: &Purpose,
        file: FileId,
        open_no: u32,
    ) -> Result<(), OutOfMemory>
        ensures client { OnOk result (self.new ≡ record self.old { opens = map.insert self.old.opens file open_no }) }
        ensures words { OnOk result (words.new ≡ words_late words.old self.old.trans server purpose.now file) }
        ensures err { OnErr result (self.new ≡ self.old) }
        ensures words_err { OnErr result (words.new ≡ words.old) }
    {
        if let Purpose::Word(word) = purpose {
            if words.awaits(word, self.trans, server) {
                return self.binds(words, word, file, open_no);
            }
        }
        self.opens.give(file, open_no)
    }

    // The open number of a file that a call opened which waited is kept.
    fn opened_late(&mut self, purpose: &Purpose, open_no: u32) -> Result<(), OutOfMemory>
        ensures ok { OnOk result (self.new ≡ opened_late_said self.old purpose.now open_no) }
        ensures err { OnErr result (self.new ≡ self.old) }
    {
        if let Purpose::Open(file) = purpose {
            self.opens.give(*file, open_no)?;
        }
        Ok(())
    }

    // What the reply of a call that waited tells, but for a `Join`, which is collected in this line.
    fn learn_late(
        &mut self,
        words: &mut Words,
        server: u8,
        purpose: &Purpose,
        line: &Line,
        reply: &Reply,
    ) -> Result<(), OutOfMemory>
        ensures client { OnOk result (self.new ≡ late_reply self.old server purpose.now line.now reply.now) }
        ensures words { OnOk result (words.new ≡ words_late_told words.old self.old.trans server purpose.now reply.now) }
        ensures err { OnErr result (self.new ≡ self.old) }
        ensures words_err { OnErr result (words.new ≡ words.old) }
    {
        match reply {
            Reply::Created { file, open_no } => {
                return self.created_late(words, server, purpose, *file, *open_no);
            }
            Reply::Opened { open_no } => return self.opened_late(purpose, *open_no),
            Reply::Committed { stamp } => {
                self.left(line);
                self.told = later(self.told, *stamp);
            }
            Reply::Ended(end) => self.told_end(end),
            Reply::Refused(refusal) => self.refused(server, line, refusal),
            _ => {}
        }
        Ok(())
    }

    // What the reply of a call that waited tells.
    #[tactic(auto, using(crate::proofs::WaitLemmas::part_binds_nothing))]
    fn learn_collected(
        &mut self,
        words: &mut Words,
        server: u8,
        purpose: &Purpose,
        line: &Line,
        reply: &Reply,
    ) -> Result<(), OutOfMemory>
        ensures client { OnOk result (self.new ≡ collected_reply self.old server purpose.now line.now reply.now) }
        ensures words { OnOk result (words.new ≡ words_late_told words.old self.old.trans server purpose.now reply.now) }
        ensures err { OnErr result (self.new ≡ self.old) }
        ensures words_err { OnErr result (words.new ≡ words.old) }
    {
        if is_part(purpose) {
            self.joined_late(server, reply);
            return Ok(());
        }
        self.learn_late(words, server, purpose, line, reply)
    }

    // The call waits on.
    fn waits_on(&mut self, settings: Settings) -> Next
        ensures { (self.new, result) ≡ waits_on_said settings self.old }
    {
        match self.waiting.ask_again() {
            Some(asked) => patient(settings, asked),
            None => Next::Over,
        }
    }

    // The answer to a collect: the call waits on, or it waits no more.
    fn collected(
        &mut self,
        words: &mut Words,
        sending: Sending,
        line: &Line,
        reply: &Reply,
    ) -> Result<Next, OutOfMemory>
        ensures client { IfOk result (λ next. (self.new, next) ≡ collected_said self.old sending line.now reply.now) }
        ensures words { OnOk result (words.new ≡ words_late_told words.old self.old.trans sending.server (purpose_in (first_of self.old.waiting)) reply.now) }
        ensures err { OnErr result (self.new ≡ self.old) }
        ensures words_err { OnErr result (words.new ≡ words.old) }
    {
        if is_not_yet(reply) {
            return Ok(self.waits_on(sending.settings));
        }
        let purpose = purpose_in(self.waiting.first());
        self.learn_collected(words, sending.server, &purpose, line, reply)?;
        self.waiting.take();
        Ok(goes_on(&purpose, reply, sending.next))
    }

    // The reply to what was asked for a line, in a session.
    fn answered(
        &mut self,
        words: &mut Words,
        sending: Sending,
        line: &Line,
        asking: Asking,
        told: &Option<Reply>,
    ) -> Result<Next, OutOfMemory>
        ensures client { IfOk result (λ next. (self.new, next) ≡ answered_said words.old self.old sending line.now asking told.now) }
        ensures words { OnOk result (words.new ≡ words_answered words.old self.old sending.server line.now asking told.now) }
        ensures err { OnErr result (self.new ≡ self.old) }
        ensures words_err { OnErr result (words.new ≡ words.old) }
    {
        let Some(reply) = told else {
            return Ok(Next::Over);
        };
        match asking {
            Asking::Collect => self.collected(words, sending, line, reply),
            Asking::Join(trans) => self.joined(sending, trans, reply),
            Asking::Call => self.called(words, sending, line, reply),
        }
    }

    /// The server of the call that came to wait last, at which the transaction times out, and the transaction.
    pub fn due(&self) -> Option<(u8, TransId)>
        ensures { result ≡ due_in (first_of self.now.waiting) self.now.trans }
    {
        match (self.waiting.first(), self.trans) {
            (Some(waiting), Some(trans)) => Some((waiting.server, trans)),
            _ => None,
        }
    }

    // The reply to a frame that was sent again.
    fn hears_again(&mut self, server: u8, told: &Option<Reply>)
        ensures { self.new ≡ again_said self.old server told.now }
    {
        if let Some(reply) = told {
            self.told_only(server, reply);
        }
    }

    // The session at the server, where it stands still, has come to this number.
    fn counts(&mut self, server: u8, number: u32)
        ensures { self.new ≡ counted self.old server number }
    {
        let Some(greeted) = self.sessions.get(server) else {
            return;
        };
        self.sessions.update(
            server,
            Greeted {
                epoch: greeted.epoch,
                last: number,
                joined: greeted.joined,
            },
        );
    }

    // The reply to a frame of the client's own line, in the session there.
    fn hears_in(
        &mut self,
        words: &mut Words,
        sending: Sending,
        joined: Option<TransId>,
        line: &Line,
        told: &Option<Reply>,
    ) -> Result<Next, OutOfMemory>
        ensures client { IfOk result (λ after. (self.new, after) ≡ heard_in words.old self.old sending joined line.now told.now) }
        ensures words { OnOk result (words.new ≡ words_answered words.old self.old sending.server line.now (asking_said joined self.old.trans line.now sending.next) told.now) }
        ensures err { OnErr result (self.new ≡ self.old) }
        ensures words_err { OnErr result (words.new ≡ words.old) }
    {
        let asking = asking_for(joined, self.trans, line, sending.next);
        let after = self.answered(words, sending, line, asking, told)?;
        self.counts(sending.server, sending.number);
        Ok(after)
    }

    // The reply to a frame of the client's own line.
    fn hears_own(
        &mut self,
        words: &mut Words,
        settings: Settings,
        server: u8,
        line: &Line,
        next: Next,
        told: &Option<Reply>,
    ) -> Result<Next, OutOfMemory>
        ensures client { IfOk result (λ after. (self.new, after) ≡ heard_own words.old settings self.old server (map.get self.old.sessions server) line.now next told.now) }
        ensures words { OnOk result (words.new ≡ words_in_session words.old self.old server (map.get self.old.sessions server) line.now next told.now) }
        ensures err { OnErr result (self.new ≡ self.old) }
        ensures words_err { OnErr result (words.new ≡ words.old) }
    {
        let Some(greeted) = self.sessions.get(server) else {
            return self.greeted(server, next, told);
        };
        let sending = Sending {
            server,
            number: greeted.last.saturating_add(1),
            next,
            settings,
        };
        let after = self.hears_in(words, sending, greeted.joined, line, told)?;
        Ok(after)
    }

    /// What the client makes of the bytes that it is handed for a frame that it sent for a line. Gives what it does next for it.
    pub fn hears(
        &mut self,
        alloc: Global,
        words: &mut Words,
        settings: Settings,
        line: &Line,
        next: Next,
        frame: Addressed,
        handed: &Option<Bytes>,
    ) -> Result<Next, OutOfMemory>
        ensures client { IfOk result (λ after. (self.new, after) ≡ heard words.old settings self.old line.now next frame (told_said handed.now)) }
        ensures words { OnOk result (words.new ≡ words_heard words.old self.old line.now next frame.server (told_said handed.now)) }
        ensures err { OnErr result (self.new ≡ self.old) }
        ensures words_err { OnErr result (words.new ≡ words.old) }
    {
        let told = told_by(alloc, handed)?;
        match line {
            Line::Repeat { .. } | Line::Old { .. } => {
                self.hears_again(frame.server, &told);
                Ok(Next::Over)
            }
            Line::Raw { .. } => Ok(Next::Over),
            _ => {
                let after = self.hears_own(words, settings, frame.server, line, next, &told)?;
                self.frames.keep(frame);
                Ok(after)
            }
        }
    }
}

// Whether a call is answered that it waits.
fn is_not_yet(reply: &Reply) -> bool
    ensures { result ≡ is_not_yet_said reply.now }
{
    matches!(reply, Reply::Refused(Refusal::NotYet))
}

// What the answer to the call of a line is good for.
fn purpose_of(words: &Words, line: &Line) -> Purpose
    ensures { result ≡ purpose_said words.now line.now }
{
    match line {
        Line::Create { word, .. } => Purpose::Word(*word),
        Line::OpenFile { file, .. } => Purpose::Open(words.file_of(file)),
        _ => Purpose::Nothing,
    }
}

// What the answer to a call that waits is good for.
fn purpose_in(waiting: Option<Waiting>) -> Purpose
    ensures { result ≡ purpose_in_said waiting }
{
    match waiting {
        Some(waiting) => waiting.purpose,
        None => Purpose::Nothing,
    }
}

// What a client does next whose call is to wait.
fn collecting(settings: Settings) -> Next
    ensures { result ≡ collects_by_itself settings.collects }
{
    if settings.collects {
        Next::Collect
    } else {
        Next::Over
    }
}

// Whether a `Join` waited.
fn is_part(purpose: &Purpose) -> bool
    ensures { result ≡ is_part_said purpose.now }
{
    matches!(purpose, Purpose::Part)
}

// Behind a `Join` that was collected in its line the line goes on.
fn goes_on(purpose: &Purpose, reply: &Reply, next: Next) -> Next
    ensures { result ≡ goes_on_said purpose.now reply.now next }
{
    match (purpose, reply, next) {
        (Purpose::Part, Reply::Joined, Next::Collect) => Next::Call,
        _ => Next::Over,
    }
}

// What a client does behind so many collects of one call.
fn patient(settings: Settings, asked: u32) -> Next
    ensures { result ≡ patient_said settings asked }
{
    if asked >= settings.patience {
        Next::TimeOut
    } else {
        Next::Over
    }
}

// The greater of two stamps.
fn later(told: Stamp, stamp: Stamp) -> Stamp
    ensures { result ≡ later_said told stamp }
{
    if told.cmp(&stamp) == Ordering::Less {
        stamp
    } else {
        told
    }
}
