//! The messages between the servers of a run, for each pair of a sender and a receiver.
ghost use Rattle.std.specs.Prelude.{◌≡◌, ◌<◌, ℕ, List, IfOk, IfSome, IfNone, slice_get};
ghost use Rattle.alp_journal.specs.declared.entry.Entry.{Entry as AnEntry};
ghost use Rattle.alp_posts.specs.Messages.{messages_to, HasGrown};
ghost use Rattle.alp_posts.specs.Post.{shown_all, took};
ghost use Rattle.alp_posts.specs.Posts.{AreServers, Fits, IsUntaken, place_of, post_at, with_post};

use crate::walk::Walk;
use alp_base::OutOfMemory;
use alp_journal::{Journal, Message};
use std::alloc::Global;
use std::marker::Model;

/// Servers have the numbers 1 to 8.
const SERVERS: u8 = 8;

/// What was taken of the messages of each server to each other one: how many, the last of them with the last rank of its sender
/// then, and what of the sender's journal was shown.
#[derive(Drop)]
pub struct Posts {
    walks: Vec<Walk>,
}

impl Model for Posts {
    ghost use Rattle.std.specs.Prelude.{List};
    ghost use Rattle.alp_posts.specs.Post.{Post};
    ghost use Rattle.alp_posts.specs.Posts.{IsTable};

    ghost Value = { List Post };

    ghost view = { λ p. p.walks.items };

    ghost invariant = { λ p. IsTable p.walks.items };
}

// Where the pair stands.
fn place(from: u8, to: u8) -> usize
    requires { AreServers from to }
    ensures same { result ≡ place_of from to }
    ensures within { result < 64 }
{
    SERVERS as usize * (from as usize - 1) + (to as usize - 1)
}

impl Posts {
    /// Nothing was taken yet.
    pub fn new(alloc: Global) -> Result<Posts, OutOfMemory>
        ensures none { IfOk result IsUntaken }
        ensures fits { (journals : ℕ → List AnEntry) → IfOk result (Fits journals) }
    {
        let mut walks = Vec::new(alloc);
        for place in 0..SERVERS * SERVERS {
            walks.push(Walk::new(alloc, place % SERVERS + 1))?;
        }
        Ok(Posts { walks })
    }

    /// The next message of the sender, whose whole journal this is, to the other server that was not taken. It costs the acts of the
    /// sender that are passed on the way for the first time.
    pub fn next(&mut self, journal: &Journal, from: u8, to: u8) -> Option<Message>
        requires servers { AreServers from to }
        requires grown { HasGrown (post_at self.old from to).shown journal.now }
        ensures message { result ≡ slice_get (messages_to to journal.now) (post_at self.old from to).taken }
        ensures shown { self.new ≡ with_post self.old from to (shown_all journal.now (post_at self.old from to)) }
        ensures fits { (journals : ℕ → List AnEntry) → journals from ≡ journal.now → Fits journals self.old → Fits journals self.new }
    {
        self.walks[place(from, to)].next(journal)
    }

    /// Takes it, if there is one, while the sender has this last rank. It costs as much as `next`.
    pub fn take(&mut self, journal: &Journal, from: u8, to: u8, rank: u64) -> Option<Message>
        requires servers { AreServers from to }
        requires grown { HasGrown (post_at self.old from to).shown journal.now }
        ensures message { result ≡ slice_get (messages_to to journal.now) (post_at self.old from to).taken }
        ensures none { IfNone result (self.new ≡ with_post self.old from to (shown_all journal.now (post_at self.old from to))) }
        ensures some { IfSome result (λ m. self.new ≡ with_post self.old from to (took m rank journal.now (post_at self.old from to))) }
        ensures fits { (journals : ℕ → List AnEntry) → journals from ≡ journal.now → Fits journals self.old → Fits journals self.new }
    {
        self.walks[place(from, to)].take(journal, rank)
    }

    /// What was taken last of the pair, with the last rank of the sender then.
    pub fn last(&self, from: u8, to: u8) -> Option<(Message, u64)>
        requires { AreServers from to }
        ensures { result ≡ (post_at self.now from to).last }
    {
        self.walks[place(from, to)].last()
    }
}
