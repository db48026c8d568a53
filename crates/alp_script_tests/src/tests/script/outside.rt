//! Scripts with a line that is outside: of the language, of what was declared, or of its place.
use super::{are_bad, are_bad_lines, has_lines, is_bad, with_line};
use alp_base::OutOfMemory;
use std::alloc::Global;
use std::test::Fail;

static BAD_LINES: [(&[u8], u32); 16] = [
    (b"", 1),
    (b"\n# none\n", 3),
    (b" \n", 1),
    (b"# \xc3\xa9\n", 1),
    (b"servers 9\n", 1),
    (b"servers 0\n", 1),
    (b"servers 01\n", 1),
    (b"client 1 Admin\n", 1),
    (b"servers 1\nservers 1\n", 2),
    (b"servers  1\r\nclient 1 Admin \n", 2),
    (b"servers\t1\n", 1),
    (b"servers 1\nclient 1 Admin\r", 2),
    (b"servers 1\nclient 1 Admin\n1 begin 2\n", 3),
    (b"servers 1\nclient 1 Admin\n1 commit 1\n", 3),
    (b"servers 1\nclient 1 Admin\n1 abort 1\n", 3),
    (
        b"servers 1\nclient 1 Admin\n1 begin 1\n1 mkowner 1 ann 4 World\n1 create 1 A ann 4294967296\n",
        5,
    ),
];

// The number of the first line that is outside follows the text of a script.
#[test]
fn finds_the_first_bad_line(rt: HostRuntime) -> Result<(), Fail> {
    assert!(rt; are_bad(rt.alloc(), &BAD_LINES));
    Ok(())
}

static OF_THREE: [(&[u8], bool); 14] = [
    (b"volume 3 512 64", true),
    (b"volume 4 512 64", false),
    (b"1 begin 3", true),
    (b"1 begin 4", false),
    (b"1 create 3 F ann 1", true),
    (b"1 open 3.1.1 read r", true),
    (b"1 open 4.1.1 read r", false),
    (b"1 open 0.1.1 read r", false),
    (b"1 raw 3 00", true),
    (b"1 raw 4 00", false),
    (b"carry 3 1", true),
    (b"carry 1 4", false),
    (b"timeout 2 1", true),
    (b"restart 4 0", false),
];

const THREE_SERVERS: &[u8] = b"servers 3
client 1 Admin
";

// Whether each of the lines is as it says behind the declaration of three servers.
fn are_of_three(alloc: Global) -> Result<bool, OutOfMemory> {
    for (line, inside) in OF_THREE {
        let text = with_line(alloc, THREE_SERVERS, line)?;
        if has_lines(alloc, text.as_slice(), 3) != inside {
            return Ok(false);
        }
        if is_bad(alloc, text.as_slice(), 3) == inside {
            return Ok(false);
        }
    }
    Ok(true)
}

// Lines name servers of the run alone, also by the id of a file.
#[test]
fn names_servers_of_the_run(rt: HostRuntime) -> Result<(), Fail> {
    assert!(rt;
        are_of_three(rt.alloc())?
            && has_lines(
                rt.alloc(),
                b"servers 8
tick 8
",
                2
            )
    );
    Ok(())
}

static WRONG_CLIENTS: [(&[u8], u32); 9] = [
    (b"servers 1\n\nclient 1 a+n\n", 3),
    (b"servers 1\nclient 0 Admin\n", 2),
    (b"servers 1\nclient 17 Admin\n", 2),
    (
        b"servers 1\nclient 1 Admin\nclient 2 Admin\nclient 1 Admin\n",
        4,
    ),
    (b"servers 1\nclient 1 Admin\n1 begin 1\nclient 2 Admin\n", 4),
    (b"servers 1\n1 begin 1\n", 2),
    (b"servers 1\nclient 1 Admin\n2 begin 1\n", 3),
    (b"servers 1\nclient 1 Admin\n0 begin 1\n", 3),
    (b"servers 1\nclient 1 Admin\n17 begin 1\n", 3),
];

#[test]
fn refuses_wrong_clients(rt: HostRuntime) -> Result<(), Fail> {
    assert!(rt; are_bad(rt.alloc(), &WRONG_CLIENTS));
    Ok(())
}

const WITH_FILE: &[u8] = b"servers 1\nclient 1 Admin\n1 create 1 F ann 1 World World\n";

static WRONG_FILES: [&[u8]; 12] = [
    b"1 open A read r",
    b"1 open B read r",
    b"1 open 2.1.1 read r",
    b"1 write A 0 1 x",
    b"1 read A 0 1",
    b"1 lock A 0 1 r",
    b"1 lock 2.1.1 0 1 r",
    b"1 open F read x",
    b"1 open F read",
    b"1 open F read r wait wait",
    b"1 read F 0 256",
    b"1 lock F 0 1 iw",
];

#[test]
fn refuses_wrong_file_lines(rt: HostRuntime) -> Result<(), Fail> {
    assert!(rt; are_bad_lines(rt.alloc(), WITH_FILE, 4, &WRONG_FILES)?);
    Ok(())
}

const EARLY_PATIENCE: &[u8] = b"patience 3\nservers 1\n";

const OFTEN_PATIENCE: &[u8] =
    b"servers 1\npatience 3\nclient 1 bob\npatience 1\nclient 2 ann\n2 begin 1\npatience 2\n";

#[test]
fn patience_stands_behind_the_servers(rt: HostRuntime) -> Result<(), Fail> {
    assert!(rt; is_bad(rt.alloc(), EARLY_PATIENCE, 1) && has_lines(rt.alloc(), OFTEN_PATIENCE, 7));
    Ok(())
}

const TIMEOUTS: &[u8] =
    b"servers 1\nauto off\nclient 1 bob\ntimeout 1 1\nclient 2 ann\n2 begin 1\n2 collect\nauto on\ntimeout 1 2\n";

static EARLY_TIMEOUTS: [(&[u8], u32); 4] = [
    (b"auto on\nservers 1\n", 1),
    (b"servers 1\ntimeout 1 1\nclient 1 bob\n", 2),
    (b"servers 1\nclient 1 bob\ntimeout 2 1\n", 3),
    (b"servers 1\nclient 1 bob\n1 collect\nclient 2 ann\n", 4),
];

// A line that ends a transaction names a client and the server that were declared, and is no line of a client.
#[test]
fn timeouts_stand_behind_their_clients(rt: HostRuntime) -> Result<(), Fail> {
    assert!(rt; has_lines(rt.alloc(), TIMEOUTS, 9) && are_bad(rt.alloc(), &EARLY_TIMEOUTS));
    Ok(())
}

static WRONG_SIZES: [(&[u8], u32); 10] = [
    (b"volume 1 512 64\nservers 1\n", 1),
    (b"servers 1\nvolume 1 511 64\n", 2),
    (b"servers 1\nvolume 1 65537 64\n", 2),
    (b"servers 1\nvolume 1 512 63\n", 2),
    (b"servers 1\nvolume 1 512 4097\n", 2),
    (b"servers 1\nvolume 1 512\n", 2),
    (b"servers 1\nvolume 1 512 64 1\n", 2),
    (b"servers 1\nvolume 0 512 64\n", 2),
    (b"servers 1\nvolume 2 512 64\n", 2),
    (
        b"servers 1\nclient 1 Admin\n1 begin 1\nvolume 1 512 64\n",
        4,
    ),
];

#[test]
fn refuses_wrong_sizes(rt: HostRuntime) -> Result<(), Fail> {
    assert!(rt; are_bad(rt.alloc(), &WRONG_SIZES));
    Ok(())
}

const EVENTS: &[u8] =
    b"servers 1\nstop 1 3\ntick 1\nclient 1 bob\nforce 1\nrestart 1 7\nsettle\ncarry 1 1\nclient 2 ann\n1 outcome\n1 raw 1 00\nlose 1 1\nagain 1 1\nstop 1 0\n";

static EARLY_EVENTS: [(&[u8], u32); 9] = [
    (b"tick 1\nservers 1\n", 1),
    (b"stop 1 0\nservers 1\n", 1),
    (b"restart 1 0\nservers 1\n", 1),
    (b"settle\nservers 1\n", 1),
    (b"carry 1 1\nservers 1\n", 1),
    (b"force 1\nservers 1\n", 1),
    (b"again 1 1\nservers 1\n", 1),
    (b"servers 1\nclient 1 bob\n1 outcome\nclient 2 ann\n", 4),
    (b"servers 1\nclient 1 bob\n1 raw 1 00\nvolume 1 512 64\n", 4),
];

// What happens at the server may stand before its clients are declared, and a line of a client may not.
#[test]
fn events_stand_behind_the_servers(rt: HostRuntime) -> Result<(), Fail> {
    assert!(rt; has_lines(rt.alloc(), EVENTS, 14) && are_bad(rt.alloc(), &EARLY_EVENTS));
    Ok(())
}

const ONE_SERVER: &[u8] = b"servers 1\nclient 1 Admin\n";

static UNDECLARED: [&[u8]; 12] = [
    b"tick 2",
    b"force 2",
    b"stop 2 0",
    b"restart 2 0",
    b"carry 2 1",
    b"carry 1 2",
    b"lose 1 2",
    b"lose 2 1",
    b"again 1 8",
    b"1 raw 2 00",
    b"2 raw 1 00",
    b"2 outcome",
];

// Each server that a line names is declared, and so is its client.
#[test]
fn refuses_undeclared_servers(rt: HostRuntime) -> Result<(), Fail> {
    assert!(rt; are_bad_lines(rt.alloc(), ONE_SERVER, 3, &UNDECLARED)?);
    Ok(())
}
