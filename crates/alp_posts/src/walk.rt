//! The walk along the journal of a server to its messages to another one.
ghost use Rattle.std.specs.Prelude.{◌≡◌, IfSome, IfNone, slice_get};
ghost use Rattle.alp_posts.specs.Messages.{messages_to, HasGrown};
ghost use Rattle.alp_posts.specs.Post.{nothing_taken, shown_all, took};

use crate::find::first_from;
use alp_journal::{Journal, Message};
use std::alloc::Global;
use std::marker::Model;
use std::snapshot::Snapshot;

/// A walk to the messages for one server. It stands at the first message that was not taken, or before it with no message between;
/// all messages before that place were taken. The place is not seen, but what of the journal was shown, how many of its messages
/// to the server were taken, and which one last, with the last rank of the sender then.
#[derive(Drop)]
pub(crate) struct Walk {
    to: u8,
    // So many entries are passed, and in the next one so many acts.
    entry: usize,
    act: usize,
    last: Option<(Message, u64)>,
    shown: Snapshot<Journal>,
}

impl Model for Walk {
    ghost use Rattle.std.specs.Prelude.{length};
    ghost use Rattle.alp_posts.specs.Places.{IsPlace, passed};
    ghost use Rattle.alp_posts.specs.Post.{Post, post_of};

    ghost Value = { Post };

    ghost view = { λ w. post_of w.to w.shown.value (length (passed w.to w.entry w.act w.shown.value)) w.last };

    ghost invariant = { λ w. IsPlace w.entry w.act w.shown.value };
}

impl Walk {
    /// A walk for this server that was shown nothing.
    pub(crate) fn new(alloc: Global, to: u8) -> Walk
        ensures { result ≡ nothing_taken to }
    {
        Walk {
            to,
            entry: 0,
            act: 0,
            last: None,
            shown: Snapshot::of(&Journal::new(alloc)),
        }
    }

    /// The next message that was not taken.
    pub(crate) fn next(&mut self, journal: &Journal) -> Option<Message>
        requires { HasGrown self.old.shown journal.now }
        ensures message { result ≡ slice_get (messages_to self.old.to journal.now) self.old.taken }
        ensures shown { self.new ≡ shown_all journal.now self.old }
    {
        let found = first_from(journal.entries(), self.entry, self.act, self.to);
        self.entry = found.entry;
        self.act = found.act;
        self.shown = Snapshot::of(journal);
        found.message
    }

    /// Takes it, if there is one, while the sender has this last rank.
    pub(crate) fn take(&mut self, journal: &Journal, rank: u64) -> Option<Message>
        requires { HasGrown self.old.shown journal.now }
        ensures message { result ≡ slice_get (messages_to self.old.to journal.now) self.old.taken }
        ensures none { IfNone result (self.new ≡ shown_all journal.now self.old) }
        ensures some { IfSome result (λ m. self.new ≡ took m rank journal.now self.old) }
    {
        let found = first_from(journal.entries(), self.entry, self.act, self.to);
        self.shown = Snapshot::of(journal);
        self.entry = found.entry;
        let Some(message) = found.message else {
            self.act = found.act;
            return None;
        };
        self.act = found.act + 1;
        self.last = Some((message, rank));
        Some(message)
    }

    /// What was taken last, with that rank.
    pub(crate) fn last(&self) -> Option<(Message, u64)>
        ensures { result ≡ self.now.last }
    {
        self.last
    }
}
