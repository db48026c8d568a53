//! Tests of alp_modes.
use alp_modes::*;
use std::test::*;

const MODES: [Mode; 6] = [
    Mode::IntendRead,
    Mode::IntendWrite,
    Mode::Read,
    Mode::Update,
    Mode::ReadIntendWrite,
    Mode::Write,
];

// A row a mode, and in it a column a mode, both in the order of `MODES`.
const AGREEMENT: [[u8; 6]; 6] = [
    *b"+++++-", *b"++----", *b"+-++--", *b"+-+---", *b"+-----", *b"------",
];

#[test]
fn pairs_agree_as_the_table_says(rt: HostRuntime) {
    for (row, a) in MODES.iter().enumerate() {
        for (column, b) in MODES.iter().enumerate() {
            let wanted = AGREEMENT[row][column] == b'+';
            assert!(rt; agrees(*a, *b) == wanted, "at {row} and {column}");
        }
    }
}

fn are_joined() -> bool {
    let both = Mode::ReadIntendWrite;
    join(Mode::IntendWrite, Mode::Read) == both
        && join(Mode::Update, Mode::IntendWrite) == both
        && join(Mode::Read, Mode::Update) == Mode::Update
        && leaf_of(both) == Some(Mode::Update)
        && covers(both, Mode::Update)
}

#[test]
fn the_joins_that_are_neither_of_both(rt: HostRuntime) {
    assert!(rt; are_joined());
}
