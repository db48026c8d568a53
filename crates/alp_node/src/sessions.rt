//! The sessions of clients.
ghost use Rattle.std.specs.Prelude.{◌≡◌, ◌≤◌};
ghost use Rattle.std.specs.Option.{option_copied as copied};
ghost use Rattle.alp_node.specs.Orders.{order_of, greeting_order};
ghost use Rattle.alp_node.specs.Sessions.{no_sessions, session_at, with_session};
ghost use Rattle.alp_node.specs.Steps.{counted_in};

use alp_base::{CLIENTS, Name};
use alp_files::{Call, Reply};
use std::array;
use std::marker::Model;

/// A client's session: its principal, the number of its last call, and the reply that was given to it.
#[derive(Drop)]
pub struct Session {
    pub who: Name,
    pub last: u32,
    pub reply: Reply,
}

impl Model for Session {
    ghost use Rattle.alp_journal.specs.Desk as desk;

    ghost Value = { desk.Session };

    ghost view = { λ s. record { who = s.who; last = s.last; reply = s.reply } };
}

/// The next call of a session: whose it is, its number, and the session's principal.
#[derive(Clone, Copy)]
pub struct Turn {
    pub client: u8,
    pub number: u32,
    pub who: Name,
}

/// What a call is among the calls of its client.
#[derive(Clone, Copy, PartialEq, Eq)]
pub enum CallOrder {
    /// A greeting that begins a session.
    First,
    /// The call behind the last one of the session.
    Next,
    /// The last call of the session again.
    Repeat,
    /// A call, no greeting, whose client has no session here in the epoch that it names.
    Stale,
    /// A call that is neither the last one of its session nor the next, or a greeting out of place.
    Astray,
}

/// The greatest number of a client.
const MOST_CLIENT: usize = CLIENTS as usize;

/// The session of each client that has one, at the client's number.
#[derive(Drop)]
pub struct Sessions {
    places: [Option<Session>; MOST_CLIENT + 1],
}

impl Sessions {
    pub fn new() -> Sessions
        ensures { result ≡ no_sessions }
    {
        Sessions {
            places: array::from_fn(|_| None),
        }
    }

    pub fn get(&self, client: u8) -> Option<&Session>
        ensures { copied result ≡ session_at self.now client }
    {
        match self.places.get(client as usize) {
            Some(Some(session)) => Some(session),
            _ => None,
        }
    }

    /// What a call of the client is, where the server is in the epoch `here`.
    pub fn order(&self, client: u8, here: u32, epoch: u32, number: u32, call: &Call) -> CallOrder
        ensures { result ≡ order_of here epoch number call.now (session_at self.now client) }
    {
        let session = self.get(client);
        if let Call::Hello { .. } = call {
            return order_of_greeting(epoch, number, session);
        }
        let Some(session) = session else {
            return CallOrder::Stale;
        };
        if epoch != here {
            return CallOrder::Stale;
        }
        if number == session.last {
            return CallOrder::Repeat;
        }
        if session.last < number && number - session.last == 1 {
            return CallOrder::Next;
        }
        CallOrder::Astray
    }

    /// The session of this client is this one from now on.
    pub fn set(&mut self, client: u8, session: Session)
        requires { client ≤ CLIENTS }
        ensures { self.new ≡ with_session self.old client session }
    {
        self.places[client as usize] = Some(session);
    }

    /// The session has come to this call, and keeps its reply.
    pub fn count(&mut self, turn: &Turn, reply: Reply)
        requires { turn.now.client ≤ CLIENTS }
        ensures { self.new ≡ counted_in self.old turn.now reply }
    {
        self.set(
            turn.client,
            Session {
                who: turn.who,
                last: turn.number,
                reply,
            },
        );
    }
}

// What a greeting is: it begins a session with the first number, and repeats it while that is the last one.
fn order_of_greeting(epoch: u32, number: u32, session: Option<&Session>) -> CallOrder
    ensures { result ≡ greeting_order epoch number (copied session.entry) }
{
    if epoch != 0 || number != 1 {
        return CallOrder::Astray;
    }
    match session {
        None => CallOrder::First,
        Some(session) => {
            if session.last == 1 {
                return CallOrder::Repeat;
            }
            CallOrder::Astray
        }
    }
}
