//! Storms of one client at one server: what they leave is what a play of their script leaves.
use super::{Failing, run};
use std::test::Fail;

const SMALL: [&str; 11] = [
    "storm",
    "--servers",
    "1",
    "--clients",
    "1",
    "--size",
    "3",
    "--seed",
    "1",
    "--patience",
    "10",
];

const LARGER: [&str; 11] = [
    "storm",
    "--servers",
    "1",
    "--clients",
    "1",
    "--size",
    "20",
    "--seed",
    "7",
    "--patience",
    "50",
];

// What another program printed of their scripts.
const SMALL_SUMMARY: &[u8] =
    b"server 1 epoch 1 clock 9 files 50 pages 977\nowner 1 o1 charge 977 quota 100000\ncommitted 9 aborted 0\n";

const LARGER_SUMMARY: &[u8] =
    b"server 1 epoch 1 clock 25 files 50 pages 891\nowner 1 o1 charge 891 quota 100000\ncommitted 25 aborted 1\n";

// Each read would fail.
const NOT_READ: Failing = Failing {
    reads: 1,
    writes: 0,
    room: 4096,
};

#[test]
fn plays_storms_of_one_client(rt: HostRuntime) -> Result<(), Fail> {
    let small = run(rt.alloc(), &SMALL, b"", &NOT_READ)?;
    let larger = run(rt.alloc(), &LARGER, b"", &NOT_READ)?;
    assert!(rt; small.is(0, "", SMALL_SUMMARY) && larger.is(0, "", LARGER_SUMMARY));
    Ok(())
}
