//! A drill: its lines are made of its seed, so that it reads nothing, and its report is the summary alone.
use super::{Failing, run};
use std::test::Fail;

const DRILL: [&str; 5] = ["drill", "--seed", "7", "--size", "20"];

// The charges are sums over the files that its script creates, as another program made it.
const SUMMARY: &[u8] =
    b"server 1 epoch 1 clock 13 files 70 pages 33754\nserver 2 epoch 3 clock 14 files 70 pages 30195\nserver 3 epoch 3 clock 14 files 60 pages 28486\nowner 1 o1 charge 4490 quota 100000\nowner 1 o2 charge 5880 quota 100000\nowner 1 o3 charge 3772 quota 100000\nowner 1 o4 charge 4474 quota 100000\nowner 1 o5 charge 4356 quota 100000\nowner 1 o6 charge 0 quota 100000\nowner 1 o7 charge 5736 quota 100000\nowner 1 o8 charge 5046 quota 100000\nowner 2 o1 charge 3979 quota 100000\nowner 2 o2 charge 4605 quota 100000\nowner 2 o3 charge 3047 quota 100000\nowner 2 o4 charge 5527 quota 100000\nowner 2 o5 charge 3833 quota 100000\nowner 2 o6 charge 4781 quota 100000\nowner 2 o7 charge 0 quota 100000\nowner 2 o8 charge 4423 quota 100000\nowner 3 o1 charge 4712 quota 100000\nowner 3 o2 charge 6161 quota 100000\nowner 3 o3 charge 4089 quota 100000\nowner 3 o4 charge 4146 quota 100000\nowner 3 o5 charge 0 quota 100000\nowner 3 o6 charge 4157 quota 100000\nowner 3 o7 charge 5221 quota 100000\nowner 3 o8 charge 0 quota 100000\ncommitted 29 aborted 2\n";

// Each read would fail.
const NOT_READ: Failing = Failing {
    reads: 1,
    writes: 0,
    room: 4096,
};

#[test]
fn plays_a_drill(rt: HostRuntime) -> Result<(), Fail> {
    let told = run(rt.alloc(), &DRILL, b"", &NOT_READ)?;
    assert!(rt; told.is(0, "", SUMMARY));
    Ok(())
}
