//! A transaction that the first of three servers coordinates, with a part at the second: each of its writes, and messages that no
//! server of the run sends, or sends so late.
ghost use Rattle.alp_journal.specs.Timely.{IsTimelyMessage};
ghost use Rattle.alp_node.specs.Served.{IsAskable, IsServed};

use super::in_memory;
use alp_base::{AccessList, Choice, JoinNo, Name, OutOfMemory, Stamp, TransId};
use alp_files::{Call, Cause, Refusal, Reply, Why};
use alp_journal::{Act, Entry, Event, Message};
use alp_node::Node;
use alp_vault::Vault;
use std::alloc::Global;
use std::test::*;

const TRANS: TransId = TransId {
    server: 1,
    epoch: 1,
    counter: 1,
};

const STAMP: Stamp = Stamp {
    ts: 1,
    trans: TRANS,
};

const NO_STAMP: Stamp = Stamp {
    ts: 0,
    trans: TransId {
        server: 0,
        epoch: 0,
        counter: 0,
    },
};

// The join of its part.
const JOIN: JoinNo = JoinNo {
    server: 2,
    epoch: 1,
    counter: 1,
};

// A join that the second server never drew.
const NEVER: JoinNo = JoinNo {
    server: 2,
    epoch: 1,
    counter: 2,
};

// A join of the third server, which takes no part.
const STRANGE: JoinNo = JoinNo {
    server: 3,
    epoch: 1,
    counter: 1,
};

// The transaction of another client, at the first server and at the second.
const OTHER_AT_FIRST: TransId = TransId {
    server: 1,
    epoch: 1,
    counter: 2,
};

const OTHER_AT_SECOND: TransId = TransId {
    server: 2,
    epoch: 1,
    counter: 1,
};

// ---- what comes to a server

// What a client calls for: in the transaction, but for a look at its owner in another one.
#[derive(Clone, Copy)]
enum Ask {
    Hello,
    Begin,
    Join,
    Collect,
    MakeOwner,
    Finish,
    ReadOwner(TransId),
}

// What a server says of the transaction and a join.
#[derive(Clone, Copy)]
enum Word {
    Register,
    Joined,
    Ask,
    Ready,
    No,
    Commit,
    Abort,
    Done,
}

// The call with that number of the first client or of the second, or the word of a server about a join.
#[derive(Clone, Copy)]
enum Deed {
    First(u32, Ask),
    Second(u32, Ask),
    Hear(u8, Word, JoinNo),
}

fn call_of(alloc: Global, ask: &Ask) -> Call
    ensures { IsAskable result }
{
    match ask {
        Ask::Hello => Call::Hello {
            name: Name::spelled(b"Admin"),
        },
        Ask::Begin => Call::Begin { seen: NO_STAMP },
        Ask::Join => Call::Join { trans: TRANS },
        Ask::Collect => Call::Collect { number: 2 },
        Ask::MakeOwner => Call::MakeOwner {
            trans: TRANS,
            owner: Name::spelled(b"ann"),
            quota: 9,
            create: AccessList::new(Vec::new(alloc)),
            choice: Choice::Fail,
        },
        Ask::Finish => Call::Finish {
            trans: TRANS,
            commit: true,
        },
        Ask::ReadOwner(trans) => Call::ReadOwner {
            trans: *trans,
            owner: Name::spelled(b"ann"),
            choice: Choice::Fail,
        },
    }
}

fn message_of(word: &Word, join: JoinNo) -> Message
    ensures { IsTimelyMessage result }
{
    let trans = TRANS;
    match word {
        Word::Register => Message::Register {
            trans,
            join,
            client: 1,
        },
        Word::Joined => Message::Joined { trans, join },
        Word::Ask => Message::Ask { trans, join },
        Word::Ready => Message::Ready { trans, join, ts: 1 },
        Word::No => Message::No {
            trans,
            join,
            why: Why::UnknownJoin,
        },
        Word::Commit => Message::Commit {
            trans,
            join,
            stamp: STAMP,
        },
        Word::Abort => Message::Abort {
            trans,
            join,
            cause: Cause::Asked,
        },
        Word::Done => Message::Done { trans, join },
    }
}

// The first call of a client is of no epoch yet, as it greets.
fn event_of(alloc: Global, deed: &Deed) -> Event
    ensures { IsServed result }
{
    match deed {
        Deed::First(number, ask) => Event::Call {
            client: 1,
            epoch: (*number).min(2).saturating_sub(1),
            number: *number,
            call: call_of(alloc, ask),
        },
        Deed::Second(number, ask) => Event::Call {
            client: 2,
            epoch: (*number).min(2).saturating_sub(1),
            number: *number,
            call: call_of(alloc, ask),
        },
        Deed::Hear(from, word, join) => Event::Arrive {
            from: *from,
            message: message_of(word, *join),
        },
    }
}

fn meet<V: Vault>(
    alloc: Global,
    node: &mut Node<V>,
    deed: &Deed,
) -> Result<Option<Reply>, OutOfMemory> {
    node.step(event_of(alloc, deed))
}

// What is answered to the last of these.
fn meet_all<V: Vault>(
    alloc: Global,
    node: &mut Node<V>,
    deeds: &[Deed],
) -> Result<Option<Reply>, OutOfMemory> {
    let mut last = None;
    for deed in deeds {
        last = meet(alloc, node, deed)?;
    }
    Ok(last)
}

// ---- the transaction

const NOTHING: &[Deed] = &[];

// At the first server it makes an owner, and its part elsewhere is registered.
const BEGINS: &[Deed] = &[
    Deed::First(1, Ask::Hello),
    Deed::First(2, Ask::Begin),
    Deed::First(3, Ask::MakeOwner),
    Deed::Hear(2, Word::Register, JOIN),
];

// It is asked to commit.
const FINISHES: &[Deed] = &[Deed::First(4, Ask::Finish)];

// The vote comes, and what its part says last.
const IS_READY: &[Deed] = &[Deed::Hear(2, Word::Ready, JOIN)];

const IS_DONE: &[Deed] = &[Deed::Hear(2, Word::Done, JOIN)];

// At the second server its part makes an owner.
const WORKS: &[Deed] = &[
    Deed::First(1, Ask::Hello),
    Deed::First(2, Ask::Join),
    Deed::Hear(1, Word::Joined, JOIN),
    Deed::First(3, Ask::Collect),
    Deed::First(4, Ask::MakeOwner),
];

const VOTES: &[Deed] = &[Deed::Hear(1, Word::Ask, JOIN)];

const APPLIES: &[Deed] = &[Deed::Hear(1, Word::Commit, JOIN)];

// ---- writes

// Whether the server falls in the last of these, of which its vault does so many writes.
fn falls<V: Vault>(
    alloc: Global,
    node: &mut Node<V>,
    deeds: [&[Deed]; 3],
    writes: u32,
) -> Result<bool, OutOfMemory> {
    let [first, second, last] = deeds;
    let _ = meet_all(alloc, node, first)?;
    let _ = meet_all(alloc, node, second)?;
    node.stop_after(Some(writes));
    let _ = meet_all(alloc, node, last)?;
    Ok(node.is_down())
}

// Whether that server falls so.
fn server_falls(
    alloc: Global,
    server: u8,
    deeds: [&[Deed]; 3],
    writes: u32,
) -> Result<bool, OutOfMemory> {
    let mut node = in_memory(alloc, server)?;
    falls(alloc, &mut node, deeds, writes)
}

// A server and its deeds, of which the last is a vote, a decision, an application.
const WRITES: [(u8, [&[Deed]; 3]); 3] = [
    (2, [NOTHING, WORKS, VOTES]),
    (1, [BEGINS, FINISHES, IS_READY]),
    (2, [WORKS, VOTES, APPLIES]),
];

/// In each a server falls where no write may pass, and another does not where one may.
#[test]
fn a_vote_a_decision_and_an_application_are_one_write_each(rt: HostRuntime) -> Result<(), Fail> {
    for (server, deeds) in WRITES {
        assert!(rt; server_falls(rt.alloc(), server, deeds, 0)?);
        assert!(rt; !server_falls(rt.alloc(), server, deeds, 1)?);
    }
    Ok(())
}

// ---- messages of strangers

// What the coordinator is told of a server that is not registered, of a second join of one that is, of joins that it does not know,
// and in words that only a coordinator says.
const STRANGERS: &[Deed] = &[
    Deed::Hear(3, Word::Ready, STRANGE),
    Deed::Hear(2, Word::Ready, NEVER),
    Deed::Hear(2, Word::Register, NEVER),
    Deed::Hear(2, Word::Register, JOIN),
    Deed::Hear(3, Word::No, STRANGE),
    Deed::Hear(2, Word::No, NEVER),
    Deed::Hear(3, Word::Done, STRANGE),
    Deed::Hear(2, Word::Done, NEVER),
    Deed::Hear(2, Word::Commit, JOIN),
    Deed::Hear(2, Word::Abort, JOIN),
];

// What comes late, behind a decision.
const LATE: &[Deed] = &[
    Deed::Hear(2, Word::No, JOIN),
    Deed::Hear(2, Word::Ready, JOIN),
];

// What the part is told of a join that was never drawn, or of another server, and in words that only a part says.
const OTHERS: &[Deed] = &[
    Deed::Hear(1, Word::Commit, NEVER),
    Deed::Hear(1, Word::Abort, NEVER),
    Deed::Hear(1, Word::Commit, STRANGE),
    Deed::Hear(1, Word::Abort, STRANGE),
    Deed::Hear(1, Word::Ask, NEVER),
    Deed::Hear(1, Word::Joined, NEVER),
    Deed::Hear(3, Word::Ready, STRANGE),
    Deed::Hear(3, Word::Register, STRANGE),
    Deed::Hear(1, Word::No, JOIN),
    Deed::Hear(1, Word::Done, JOIN),
];

// Another client looks for the owner, in the next transaction of the first server or of the second.
const LOOKS_AT_FIRST: &[Deed] = &[
    Deed::Second(1, Ask::Hello),
    Deed::Second(2, Ask::Begin),
    Deed::Second(3, Ask::ReadOwner(OTHER_AT_FIRST)),
];

const FINDS_AT_FIRST: &[Deed] = &[Deed::Second(4, Ask::ReadOwner(OTHER_AT_FIRST))];

const LOOKS_AT_SECOND: &[Deed] = &[
    Deed::Second(1, Ask::Hello),
    Deed::Second(2, Ask::Begin),
    Deed::Second(3, Ask::ReadOwner(OTHER_AT_SECOND)),
];

const FINDS_AT_SECOND: &[Deed] = &[Deed::Second(4, Ask::ReadOwner(OTHER_AT_SECOND))];

// What is answered, as far as anybody looks.
#[derive(Clone, Copy)]
enum Told {
    Anything,
    NotYet,
    Plain,
    IsLocked,
    Owner,
}

fn is_told(reply: &Option<Reply>, told: &Told) -> bool {
    match (told, reply) {
        (Told::Anything, _) => true,
        (Told::NotYet, Some(Reply::Refused(Refusal::NotYet))) => true,
        (Told::Plain, Some(Reply::Plain)) => true,
        (Told::IsLocked, Some(Reply::Refused(Refusal::LockConflict { holder }))) => {
            *holder == TRANS
        }
        (Told::Owner, Some(Reply::Owner(_))) => true,
        _ => false,
    }
}

// Whether the last step did nothing but say something, or not even that.
fn has_said_only(entries: &[Entry]) -> bool {
    match entries {
        [.., last] => last
            .acts
            .as_slice()
            .iter()
            .all(|act| matches!(act, Act::Sent { .. })),
        [] => false,
    }
}

// Whether the deed leaves all as it was: it is not written down, and nothing comes of it but an answer.
fn is_vain<V: Vault>(alloc: Global, node: &mut Node<V>, deed: &Deed) -> Result<bool, OutOfMemory> {
    node.stop_after(Some(0));
    let _ = meet(alloc, node, deed)?;
    node.stop_after(None);
    Ok(!node.is_down() && has_said_only(node.journal().entries()))
}

fn are_vain<V: Vault>(
    alloc: Global,
    node: &mut Node<V>,
    deeds: &[Deed],
) -> Result<bool, OutOfMemory> {
    for deed in deeds {
        if !is_vain(alloc, node, deed)? {
            return Ok(false);
        }
    }
    Ok(true)
}

// Whether the last deed of each row is answered so, and those that follow it are vain.
fn stands<V: Vault>(
    alloc: Global,
    node: &mut Node<V>,
    rows: &[(&[Deed], Told, &[Deed])],
) -> Result<bool, OutOfMemory> {
    for (deeds, told, strangers) in rows {
        let reply = meet_all(alloc, node, *deeds)?;
        if !is_told(&reply, told) || !are_vain(alloc, node, *strangers)? {
            return Ok(false);
        }
    }
    Ok(true)
}

const AS_COORDINATOR: [(&[Deed], Told, &[Deed]); 5] = [
    (BEGINS, Told::Anything, STRANGERS),
    (FINISHES, Told::NotYet, STRANGERS),
    (LOOKS_AT_FIRST, Told::IsLocked, NOTHING),
    (IS_READY, Told::Anything, STRANGERS),
    (FINDS_AT_FIRST, Told::Owner, LATE),
];

// Whether a coordinator stands. What the part says last is heeded.
fn stands_until_done<V: Vault>(alloc: Global, node: &mut Node<V>) -> Result<bool, OutOfMemory> {
    let is_firm = stands(alloc, node, &AS_COORDINATOR)?;
    let _ = meet_all(alloc, node, IS_DONE)?;
    Ok(is_firm && !has_said_only(node.journal().entries()))
}

fn coordinator_stands(alloc: Global) -> Result<bool, OutOfMemory> {
    let mut node = in_memory(alloc, 1)?;
    stands_until_done(alloc, &mut node)
}

const AS_PART: [(&[Deed], Told, &[Deed]); 5] = [
    (WORKS, Told::Plain, OTHERS),
    (VOTES, Told::Anything, OTHERS),
    (LOOKS_AT_SECOND, Told::IsLocked, NOTHING),
    (APPLIES, Told::Anything, OTHERS),
    (FINDS_AT_SECOND, Told::Owner, NOTHING),
];

// Whether a part does.
fn part_stands(alloc: Global) -> Result<bool, OutOfMemory> {
    let mut node = in_memory(alloc, 2)?;
    stands(alloc, &mut node, &AS_PART)
}

/// Each of these is heard where nothing may be written, and nothing comes of it but an answer: files, intents, locks and notes are
/// as they were.
///
/// | message | of | heard by |
/// |---|---|---|
/// | `Ready`, `No`, `Done` | a server that is not registered | a coordinator that runs, waits for votes, or has decided |
/// | `Ready`, `No`, `Done` | a join that is not in the decision | the same |
/// | `Register` | a second join of a server, or the first once more | the same |
/// | `Commit`, `Abort` | the server of the part | the same |
/// | `Ready`, `No` | the part itself, which voted | a coordinator that has decided |
/// | `Commit`, `Abort`, `Ask`, `Joined` | a join that was never drawn | a part that works, is ready, or is applied |
/// | `Commit`, `Abort` | a join of another server | the same |
/// | `Ready`, `Register`, `No`, `Done` | another server, or the coordinator | the same |
#[test]
fn strangers_change_nothing(rt: HostRuntime) -> Result<(), Fail> {
    assert!(rt; coordinator_stands(rt.alloc())?);
    assert!(rt; part_stands(rt.alloc())?);
    Ok(())
}
