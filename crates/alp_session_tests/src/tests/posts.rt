//! Tests of alp_posts.
ghost use Rattle.alp_posts.specs.Posts.{AreServers};

use alp_base::{JoinNo, OutOfMemory, TransId};
use alp_journal::{Act, Acts, Entry, Event, Journal, Message};
use alp_posts::Posts;
use std::alloc::Global;
use std::marker::Model;
use std::test::Fail;

// Servers 1 and 2, and what was taken of their messages.
#[derive(Drop)]
struct Pair {
    first: Journal,
    second: Journal,
    posts: Posts,
}

impl Model for Pair {
    ghost use Rattle.std.specs.Prelude.{List, ◌==◌, if◌then◌else◌};
    ghost use Rattle.alp_posts.specs.Post.{Post};
    ghost use Rattle.alp_posts.specs.Posts.{Fits};

    ghost Value = { List Post };

    ghost view = { λ p. p.posts };

    ghost invariant = { λ p. Fits (λ n. if n == 1 then p.first else p.second) p.posts };
}

// A message that can be told by a number.
fn message(number: u32) -> Message {
    let trans = TransId {
        server: 1,
        epoch: 1,
        counter: 1,
    };
    let join = JoinNo {
        server: 2,
        epoch: 1,
        counter: number,
    };
    Message::Inquire { trans, join }
}

// The number of the message, or 0.
fn number(message: &Message) -> u32 {
    match message {
        Message::Inquire { join, .. } => join.counter,
        _ => 0,
    }
}

// The number of the message, or 0 where there is none.
fn number_of(message: Option<Message>) -> u32 {
    match message {
        Some(sent) => number(&sent),
        None => 0,
    }
}

// An entry that sends each of these servers the message of this number.
fn sending(alloc: Global, sent: &[(u8, u32)]) -> Result<Entry, OutOfMemory> {
    let mut acts = Vec::new(alloc);
    for (to, number) in sent {
        acts.push(Act::Sent {
            to: *to,
            message: message(*number),
        })?;
        acts.push(Act::Stopped)?;
    }
    Ok(Entry {
        event: Event::Tick,
        reply: None,
        acts: Acts::new(acts),
    })
}

impl Pair {
    fn new(alloc: Global) -> Result<Pair, OutOfMemory> {
        let posts = Posts::new(alloc)?;
        Ok(Pair {
            first: Journal::new(alloc),
            second: Journal::new(alloc),
            posts,
        })
    }

    // Server 1 has one entry more.
    fn send_first(&mut self, entry: Entry) -> Result<(), OutOfMemory> {
        self.first.push(entry)?;
        Ok(())
    }

    // Server 2 has.
    fn send_second(&mut self, entry: Entry) -> Result<(), OutOfMemory> {
        self.second.push(entry)?;
        Ok(())
    }

    fn next(&mut self, from: u8, to: u8) -> u32
        requires { AreServers from to }
    {
        if from == 1 {
            return number_of(self.posts.next(&self.first, 1, to));
        }
        number_of(self.posts.next(&self.second, from, to))
    }

    fn take(&mut self, from: u8, to: u8, rank: u64) -> u32
        requires { AreServers from to }
    {
        if from == 1 {
            return number_of(self.posts.take(&self.first, 1, to, rank));
        }
        number_of(self.posts.take(&self.second, from, to, rank))
    }
}

// The number of what was taken last, and the rank then.
fn last(posts: &Posts, from: u8, to: u8) -> (u32, u64)
    requires { AreServers from to }
{
    match posts.last(from, to) {
        Some((message, rank)) => (number(&message), rank),
        None => (0, 0),
    }
}

// Server 1 sends two messages to server 2 and one to a third, and server 2 sends one.
fn send_four(alloc: Global, pair: &mut Pair) -> Result<(), OutOfMemory> {
    pair.send_first(sending(alloc, &[(2, 1), (3, 2), (2, 3)])?)?;
    pair.send_second(sending(alloc, &[(1, 4)])?)
}

// Both of server 1 are taken in their order, and no more.
fn takes_both(pair: &mut Pair) -> bool {
    pair.next(1, 2) == 1
        && pair.take(1, 2, 7) == 1
        && pair.take(1, 2, 8) == 3
        && pair.take(1, 2, 9) == 0
}

// One that is sent later comes next, and the others are taken beside it.
fn takes_the_others(pair: &mut Pair) -> bool {
    pair.next(1, 2) == 5
        && last(&pair.posts, 1, 2) == (3, 8)
        && pair.take(1, 3, 10) == 2
        && pair.take(2, 1, 11) == 4
        && pair.next(2, 1) == 0
        && last(&pair.posts, 2, 1) == (4, 11)
}

fn all_are_taken(alloc: Global, pair: &mut Pair) -> Result<bool, OutOfMemory> {
    if pair.next(1, 2) != 0 {
        return Ok(false);
    }
    send_four(alloc, pair)?;
    if !takes_both(pair) {
        return Ok(false);
    }
    pair.send_first(sending(alloc, &[(2, 5)])?)?;
    Ok(takes_the_others(pair))
}

#[test]
fn two_journals_grow(rt: HostRuntime) -> Result<(), Fail> {
    let mut pair = Pair::new(rt.alloc())?;
    assert!(rt; all_are_taken(rt.alloc(), &mut pair)?);
    Ok(())
}
