//! What workers ask of a server.
ghost use Rattle.std.specs.Prelude.{◌≡◌, min, length, IfOk, IfErr};
ghost use Rattle.std.specs.List.{list_any};
ghost use Rattle.alp_journal.specs.Moves.{stops};
ghost use Rattle.alp_storm.specs.Logs.{Log, IsWorkers, HasAnswered, EndsStep};

use crate::fault::StormFault;
use alp_carrier::Station;
use alp_files::Reply;
use alp_journal::Event;

/// What a server answered by an entry more: the reply, the place of the entry in its journal, and the epoch of the server.
#[derive(Drop)]
pub struct Answer {
    pub reply: Option<Reply>,
    pub place: u32,
    pub epoch: u32,
}

/// A server at which workers take turns, to which carriers bring messages, and of which they take some.
pub trait Host: Station {
    /// What workers see of it.
    ghost log: { Log Self.Base Self.Entry };

    /// It takes one step, by one entry more, whose rank is one above that of the last one. No step is taken by a server that is down, or
    /// whose journal is full, nor where memory is refused. One in which its device fails is told as a fault of it.
    fn step(&mut self, event: Event) -> Result<Answer, StormFault>
        requires asked { IsWorkers event }
        ensures base { Self.base self.new ≡ Self.base self.old }
        ensures ok { IfOk result (HasAnswered log (Self.base self.old) (Self.entries self.old) (Self.entries self.new) event) }
        ensures err { IfErr result (EndsStep log (Self.base self.old) (Self.entries self.old) (Self.entries self.new) event) };

    /// Its number.
    fn server(&self) -> u8
        ensures { result ≡ log.server (Self.base self.now) };

    /// Whether its device stopped it.
    fn is_down(&self) -> bool
        ensures { result ≡ list_any (λ e. stops (log.entry e)) (Self.entries self.now) };

    /// How many messages it sent so far, or the greatest number of 32 bits.
    fn sent_count(&self) -> u32
        ensures { result ≡ min (length (Self.sight.sent (Self.base self.now) (Self.entries self.now))) 4294967295 };
}
