//! The first message to a server from a place of a journal on.
ghost use Rattle.std.specs.Prelude.{◌≡◌, [], IfSome, IfNone, drop};
ghost use Rattle.alp_posts.specs.Messages.{message_to, messages_in};
ghost use Rattle.alp_posts.specs.Places.{IsFirst};
ghost use Rattle.alp_posts.specs.Finds.{IsFound};

use alp_journal::{Act, Entry, Message};

/// A place of a journal, by the number of the entry and that of the act in it, and the message to the server that the act sends; or
/// the end of the journal.
#[derive(Clone, Copy, Drop)]
pub(crate) struct Found {
    pub(crate) entry: usize,
    pub(crate) act: usize,
    pub(crate) message: Option<Message>,
}

// The message that the act sends there.
fn sent_to(act: &Act, to: u8) -> Option<Message>
    ensures { result ≡ message_to to act.now }
{
    match act {
        Act::Sent { to: there, message } => if *there == to { Some(*message) } else { None },
        _ => None,
    }
}

// The first message there among the acts from this one on, with its place.
fn first_in(acts: &[Act], from: usize, to: u8) -> Option<(usize, Message)>
    ensures none { IfNone result (messages_in to (drop from acts.now) ≡ []) }
    ensures some { IfSome result (λ x. IsFirst to from acts.now x.0 x.1) }
{
    for at in from..acts.len() {
        if let Some(message) = sent_to(&acts[at], to) {
            return Some((at, message));
        }
    }
    None
}

/// The first message there from this entry on, of which so many acts are passed. It costs the acts on the way.
pub(crate) fn first_from(entries: &[Entry], entry: usize, passed: usize, to: u8) -> Found
    ensures { IsFound to entry passed entries.now result }
{
    let mut first = passed;
    for at in entry..entries.len() {
        let acts = entries[at].acts.as_slice();
        if let Some((act, message)) = first_in(acts, first, to) {
            return Found {
                entry: at,
                act,
                message: Some(message),
            };
        }
        first = 0;
    }
    Found {
        entry: entries.len(),
        act: 0,
        message: None,
    }
}
