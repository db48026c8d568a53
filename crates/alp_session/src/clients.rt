//! The clients of a script: the words that all of them know, and what each of them knows.
ghost use Rattle.std.specs.Prelude.{◌≡◌, ◌≤◌, ℕ, OnOk, OnErr, IfOk, IfSome, replicate};
ghost use Rattle.alp_rpc.specs.Frames.{request};
ghost use Rattle.alp_session.specs.Clients.{new_client};
ghost use Rattle.alp_session.specs.Calls.{IsAskable};
ghost use Rattle.alp_session.specs.Frames.{request_of, frame_of, told_by, IsReady};
ghost use Rattle.alp_session.specs.Crowd.{Crowd as ACrowd};
ghost use Rattle.alp_session.specs.Crowds.{new_crowd, client_at, lent_crowd, left_crowd, taken_back, request_next, times_out, asks as asks_said, hears as heard, at_line as at_said, declares as declared};

use crate::{Addressed, Client, Next, Settings, Words};
use alp_base::{Bytes, CLIENTS, OutOfMemory, Stamp, TransId};
use alp_lines::Line;
use std::alloc::Global;
use std::marker::Model;
use std::mem::swap;

/// After so many collects of one call its transaction times out, until a line says otherwise.
const PATIENCE_FIRST: u32 = 100;

/// The clients of a script, each at its number, and the words of the script.
#[derive(Drop)]
pub struct Clients {
    words: Words,
    places: Vec<Client>,
    settings: Settings,
}

impl Model for Clients {
    ghost use Rattle.std.specs.Prelude.{◌≡◌, length};
    ghost use Rattle.alp_session.specs.Crowd.{Crowd, crowd_code};

    ghost Value = { Crowd };

    ghost coded = { crowd_code };

    ghost view = { λ c. record { words = c.words; places = c.places.items; settings = c.settings } };

    ghost invariant = { λ c. length c.places.items ≡ 17 };
}

fn new_places(alloc: Global) -> Result<Vec<Client>, OutOfMemory>
    ensures { IfOk result (λ v. v.items ≡ replicate 17 new_client) }
{
    let mut places = Vec::new(alloc);
    for _place in 0..CLIENTS + 1 {
        places.push(Client::new(alloc))?;
    }
    Ok(places)
}

impl Clients {
    /// Clients that know nothing yet, of the principal `Admin`.
    pub fn new(alloc: Global) -> Result<Clients, OutOfMemory>
        ensures { IfOk result (λ c. c ≡ new_crowd) }
    {
        Ok(Clients {
            words: Words::new(alloc),
            places: new_places(alloc)?,
            settings: Settings {
                collects: true,
                patience: PATIENCE_FIRST,
            },
        })
    }

    /// Lends out one client, so that a thread can own it: it stands at its number among clients that know nothing yet, with the words
    /// and the settings of all. Until it is taken back, a client that knows nothing yet stands at its number here.
    pub fn lend(&mut self, alloc: Global, number: u8) -> Result<Clients, OutOfMemory>
        requires { number ≤ 16 }
        ensures lent { IfOk result (λ c. c ≡ lent_crowd self.old number) }
        ensures left { OnOk result (self.new ≡ left_crowd self.old number) }
        ensures err { OnErr result (self.new ≡ self.old) }
    {
        let words = self.words.clone()?;
        let mut places = new_places(alloc)?;
        swap(
            &mut places[number as usize],
            &mut self.places[number as usize],
        );
        Ok(Clients {
            words,
            places,
            settings: self.settings,
        })
    }

    /// Takes back a client from those among whom it was lent: what it knows now stands at its number again. What words stand for and what is
    /// set stays as it is here.
    pub fn take_back(&mut self, number: u8, lent: Clients)
        requires { number ≤ 16 }
        ensures { self.new ≡ taken_back self.old number lent }
    {
        let mut lent = lent;
        swap(
            &mut self.places[number as usize],
            &mut lent.places[number as usize],
        );
    }

    // The frame of the call or of the collect of a line.
    fn frame(
        &self,
        alloc: Global,
        number: u8,
        line: &Line,
    ) -> Result<Option<Addressed>, OutOfMemory>
        requires line { IsAskable line.now }
        requires ready { IsReady number (client_at self.now number) }
        ensures frame { IfOk result (λ frame. frame ≡ frame_of self.now.words number (client_at self.now number) line.now) }
        ensures fits { OnOk result (IfSome (request_of self.now.words number (client_at self.now number) line.now) request.Fits) }
    {
        self.places[number as usize].asks(alloc, number, &self.words, line)
    }

    /// The frame that the client sends next for a line, and the server that it goes to, or nothing. At `Next::Collect` messages are
    /// carried before.
    pub fn asks(
        &self,
        alloc: Global,
        number: u8,
        line: &Line,
        next: Next,
    ) -> Result<Option<Addressed>, OutOfMemory>
        requires line { IsAskable line.now }
        requires ready { IsReady number (client_at self.now number) }
        ensures frame { IfOk result (λ frame. frame ≡ asks_said self.now number line.now next) }
        ensures fits { OnOk result (IfSome (request_next self.now number line.now next) request.Fits) }
    {
        match next {
            Next::Call => self.frame(alloc, number, line),
            Next::Collect => self.frame(alloc, number, &Line::Collect { client: number }),
            _ => Ok(None),
        }
    }

    /// What the client makes of the bytes that it is handed for a frame that it sent for a line, where none is silence. Gives
    /// what it does next for the line.
    pub fn hears(
        &mut self,
        alloc: Global,
        number: u8,
        line: &Line,
        next: Next,
        frame: Addressed,
        handed: &Option<Bytes>,
    ) -> Result<Next, OutOfMemory>
        requires client { number ≤ 16 }
        ensures ok { IfOk result (λ after. (self.new, after) ≡ heard self.old number line.now next frame (told_by handed.now)) }
        ensures err { OnErr result (self.new ≡ self.old) }
    {
        self.places[number as usize].hears(
            alloc,
            &mut self.words,
            self.settings,
            line,
            next,
            frame,
            handed,
        )
    }

    /// The server at which the client's transaction times out, and the transaction, where this is what the client does next.
    pub fn due(&self, number: u8, next: Next) -> Option<(u8, TransId)>
        requires { number ≤ 16 }
        ensures { result ≡ times_out self.now number next }
    {
        match next {
            Next::TimeOut => self.places[number as usize].due(),
            _ => None,
        }
    }

    /// Whether messages are carried by themselves.
    pub fn carries(&self) -> bool
        ensures { result ≡ self.now.settings.collects }
    {
        self.settings.collects
    }

    /// The greatest stamp that the client was told.
    pub fn told(&self, number: u8) -> Stamp
        requires { number ≤ 16 }
        ensures { result ≡ (client_at self.now number).told }
    {
        self.places[number as usize].told
    }

    /// The transaction of the client, if it has one.
    pub fn trans_of(&self, number: u8) -> Option<TransId>
        requires { number ≤ 16 }
        ensures { result ≡ (client_at self.now number).trans }
    {
        self.places[number as usize].trans
    }

    /// The client comes to a line: a `create` binds its word, and a `begin` leaves the transaction before.
    pub fn at_line(&mut self, number: u8, line: &Line) -> Result<(), OutOfMemory>
        requires { number ≤ 16 }
        ensures ok { OnOk result (self.new ≡ at_said self.old number line.now) }
        ensures err { OnErr result (self.new ≡ self.old) }
    {
        self.words.at_line(line)?;
        self.places[number as usize].begins(line);
        Ok(())
    }

    /// A declaration names the principal of its client, and other lines set something for all of them.
    pub fn declares(&mut self, line: &Line)
        ensures { self.new ≡ declared self.old line.now }
    {
        match line {
            Line::Client { client, name } => {
                if let Some(place) = self.places.get_mut(*client as usize) {
                    place.name = *name;
                }
            }
            Line::Patience { count } => self.settings.patience = *count,
            Line::Auto { on } => self.settings.collects = *on,
            _ => {}
        }
    }
}

/// A client that is lent and taken back as it was leaves all as it was. Who is lent knows what it knew, and taking it back changes nobody
/// else.
pub fn lending_loses_nothing()
    ensures back { (c : ACrowd) (k : ℕ) → k ≤ 16 → taken_back (left_crowd c k) k (lent_crowd c k) ≡ c }
    ensures lent { (c : ACrowd) (k : ℕ) → k ≤ 16 → client_at (lent_crowd c k) k ≡ client_at c k }
    ensures others { (c d : ACrowd) (k j : ℕ) → (j ≡ k → ⊥) → client_at (taken_back c k d) j ≡ client_at c j }
{}
