//! Lines that are outside.
use super::{Sense, is_outside, say};
use std::alloc::Global;
use std::test::Fail;

// Whether each of these texts is.
fn are_outside(alloc: Global, texts: &[&[u8]]) -> bool {
    for text in texts {
        if !is_outside(alloc, *text) {
            return false;
        }
    }
    true
}

static WRONG_LINES: [&[u8]; 35] = [
    b"1 create 1 G ann",
    b"1 create 1 G ann 4294967296",
    b"1 create 1 G ann 1 World",
    b"1 create 1 G ann 1 World a,b,c,d,e",
    b"1 create 1 G ann 1 World World fail fail",
    b"1 create 1 1.1.1 ann 1",
    b"1 create 1 G ann 1 World World wait wait",
    b"1 close F fail",
    b"1 close",
    b"1 delete F World",
    b"1 delete",
    b"1 size F",
    b"1 size F 4294967296",
    b"1 size F -1",
    b"1 props F fail",
    b"1 change F owner",
    b"1 change F owner a+b",
    b"1 change F owner ann bob",
    b"1 change F type 65536",
    b"1 change F bytes 18446744073709551616",
    b"1 change F read ann,",
    b"1 change F size 4",
    b"1 change F high 4",
    b"1 mkowner 1 ann 4",
    b"1 mkowner 9 ann 4 World",
    b"1 mkowner 1 ann 4294967296 World",
    b"1 owner ann",
    b"1 owner 1 ann 4",
    b"1 quota 1 ann",
    b"patience 0",
    b"patience 1001",
    b"1 repeat 1",
    b"1 repeat fail",
    b"1 old 2",
    b"17 old",
];

#[test]
fn refuses_wrong_lines(rt: HostRuntime) -> Result<(), Fail> {
    assert!(rt; are_outside(rt.alloc(), &WRONG_LINES));
    Ok(())
}

static WRONG_WAITS: [&[u8]; 9] = [
    b"1 close F wait",
    b"1 props F wait",
    b"1 collect 1",
    b"collect 1",
    b"auto",
    b"auto on off",
    b"timeout 1",
    b"timeout 1 17",
    b"timeout 0 1",
];

#[test]
fn refuses_wrong_waits(rt: HostRuntime) -> Result<(), Fail> {
    assert!(rt; are_outside(rt.alloc(), &WRONG_WAITS));
    Ok(())
}

static WRONG_LOCKS: [&[u8]; 18] = [
    b"1 open F read",
    b"1 open F write w",
    b"1 open F read rw",
    b"1 open F ir read",
    b"1 open F change w w",
    b"1 read F 0 0",
    b"1 read F 0 256",
    b"1 read F 0 1 ir",
    b"1 read F 0 1 riw",
    b"1 read F 0 1 fail u",
    b"1 read F 0 1 u u",
    b"1 write F 0 256 x",
    b"1 write F 0 1 x w",
    b"1 lock F 0 1",
    b"1 lock F 0 1 iw",
    b"1 lock F 0 256 r",
    b"1 lock F 0 1 fail",
    b"1 lock F 0 1 wait w",
];

#[test]
fn refuses_wrong_locks(rt: HostRuntime) -> Result<(), Fail> {
    assert!(rt; are_outside(rt.alloc(), &WRONG_LOCKS));
    Ok(())
}

static WRONG_EVENTS: [&[u8]; 26] = [
    b"tick",
    b"tick 0",
    b"tick 9",
    b"tick 1 1",
    b"1 tick 1",
    b"force",
    b"force 01",
    b"force 1 2",
    b"stop 1",
    b"stop 1 -1",
    b"stop 1 00",
    b"stop 1 4294967296",
    b"stop 9 1",
    b"stop 1 1 1",
    b"restart 1",
    b"restart 1 18446744073709551616",
    b"restart 0 1",
    b"restart 1 0x1",
    b"settle 1",
    b"1 settle",
    b"carry 1",
    b"carry 1 9",
    b"carry 1 2 3",
    b"lose 0 1",
    b"again",
    b"1 again 1 2",
];

#[test]
fn refuses_wrong_events(rt: HostRuntime) -> Result<(), Fail> {
    assert!(rt; are_outside(rt.alloc(), &WRONG_EVENTS));
    Ok(())
}

static WRONG_BYTES: [&[u8]; 13] = [
    b"3 raw 1",
    b"3 raw 1 0",
    b"3 raw 1 000",
    b"3 raw 1 0A",
    b"3 raw 1 FF",
    b"3 raw 1 0g",
    b"3 raw 1 0x00",
    b"3 raw 1 -1",
    b"3 raw 1 00 00",
    b"3 raw 9 00",
    b"3 raw 00",
    b"raw 1 00",
    b"3 outcome 1",
];

static OUTCOME: [(&[u8], Sense); 1] = [(b"3 outcome", Sense::Outcome(3))];

#[test]
fn refuses_wrong_bytes(rt: HostRuntime) -> Result<(), Fail> {
    assert!(rt; are_outside(rt.alloc(), &WRONG_BYTES) && say(rt.alloc(), &OUTCOME));
    Ok(())
}
