//! Commits in which the disk of a server stops at each of its calls, and what stands when the server has started again.
use super::{SOUND, has, run};
use std::alloc::Global;
use std::io::Write;
use std::test::Fail;

// Of a commit: what stands before it, and what looks for it behind the restart; what the report has where it took effect, where it
// did not, and where it was told.
type Commit = [&'static [u8]; 5];

// It makes an owner and a file of three pages.
const OF_ONE: Commit = [
    b"servers 1\nvolume 1 512 64\nclient 1 Admin\n1 begin 1\n1 mkowner 1 ann 10 World\n1 create 1 A ann 3\n1 write A 0 3 new\n",
    b"1 begin 1\n1 begin 1\n1 owner 1 ann\n1 open 1.1.1 read r\n1 read 1.1.1 0 3\n1 commit\n",
    b"11 refused 2 epoch 2\n12 ok trans 1.2.1\n13 ok owner ann charge 3 quota 10 create World\n14 ok open 1\n15 ok new new new\n16 ok stamp 2 1.2.1\nserver 1 epoch 2 clock 2 files 1 pages 3\nowner 1 ann charge 3 quota 10\ncommitted 2 aborted 0\n",
    b"11 refused 2 epoch 2\n12 ok trans 1.2.1\n13 refused 7\n14 refused 6\n15 refused 5\n16 ok stamp 1 1.2.1\nserver 1 epoch 2 clock 1 files 0 pages 0\ncommitted 1 aborted 1\n",
    b"9 ok stamp 1 1.1.1\n",
];

// It makes an owner at both of two servers.
const OF_TWO: Commit = [
    b"servers 2\nclient 1 Admin\nclient 2 Admin\n1 begin 1\n1 mkowner 1 ann 9 World\n1 mkowner 2 ann 9 World\n",
    b"settle\n2 begin 2\n2 owner 1 ann\n2 owner 2 ann\n2 commit\n",
    b"\n12 ok owner ann charge 0 quota 9 create World\n13 ok owner ann charge 0 quota 9 create World\n",
    b"\n12 refused 7\n13 refused 7\n",
    b"8 ok stamp 1 1.1.1\n",
];

// How often the commit was told, and how often it stood and did not stand behind the restart.
#[derive(Clone, Copy)]
struct Seen {
    told: u32,
    stood: u32,
    fell: u32,
}

// One more, where that holds.
fn more(count: u32, holds: bool) -> u32 {
    count.saturating_add(holds as u32)
}

// The disk of the server does so many calls of the commit, and the server starts again with the pick. What was seen then, unless the
// commit was told and does not stand, or stands in part.
fn play(alloc: Global, commit: Commit, stop: (u8, u32, u64), seen: Seen) -> Result<Seen, Fail> {
    let [before, behind, stood, fell, told] = commit;
    let (server, calls, pick) = stop;
    let mut text = Vec::from_slice(alloc, before)?;
    write!(
        text,
        "stop {server} {calls}\n1 commit\nrestart {server} {pick}\n"
    )?;
    text.extend_from_slice(behind)?;
    let played = run(alloc, &["play"], text.as_slice(), &SOUND)?;
    let report = played.written.as_slice();
    let (stood, fell, told) = (has(report, stood), has(report, fell), has(report, told));
    if played.code != 0 || stood == fell || fell && told {
        return Err("all of a commit that was told, and all or nothing of another".into());
    }
    Ok(Seen {
        told: more(seen.told, told),
        stood: more(seen.stood, stood),
        fell: more(seen.fell, fell),
    })
}

// What is seen where the disk of the server does so many calls, with each of six picks.
fn play_all(alloc: Global, commit: Commit, server: u8, calls: u32) -> Result<Seen, Fail> {
    let mut seen = Seen {
        told: 0,
        stood: 0,
        fell: 0,
    };
    for pick in 0..6u64 {
        seen = play(alloc, commit, (server, calls, pick), seen)?;
    }
    Ok(seen)
}

// Whether some stop leaves nothing of the commit and another one all of it, which nobody was told where the server coordinates it,
// until none is left and the commit is told. It is told with each pick or with none.
fn is_whole(alloc: Global, commit: Commit, server: u8) -> Result<bool, Fail> {
    let (mut has_fallen, mut has_stood) = (false, false);
    let (mut is_over, mut is_even) = (false, true);
    for calls in 0..30u32 {
        let seen = play_all(alloc, commit, server, calls)?;
        has_fallen = has_fallen || seen.fell > 0;
        let told = if server == 1 { seen.told } else { 0 };
        has_stood = has_stood || seen.stood > told;
        is_over = seen.told == 6;
        is_even = is_even && (is_over || seen.told == 0);
    }
    Ok(has_fallen && has_stood && is_over && is_even)
}

#[test]
fn a_commit_stands_whole_or_not_at_all(rt: HostRuntime) -> Result<(), Fail> {
    assert!(rt; is_whole(rt.alloc(), OF_ONE, 1)?);
    Ok(())
}

#[test]
fn servers_agree_when_the_coordinator_stops(rt: HostRuntime) -> Result<(), Fail> {
    assert!(rt; is_whole(rt.alloc(), OF_TWO, 1)?);
    Ok(())
}

#[test]
fn servers_agree_when_the_other_server_stops(rt: HostRuntime) -> Result<(), Fail> {
    assert!(rt; is_whole(rt.alloc(), OF_TWO, 2)?);
    Ok(())
}
