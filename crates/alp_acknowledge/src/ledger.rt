//! Two files that each commit changes alike, so that a half of one can be seen.
ghost use Rattle.std.specs.Prelude.{◌≡◌, IfOk, OnOk};
ghost use Rattle.alp_acknowledge.specs.Turns.{InStep, IsLastTold};

use crate::ServeFault;
use crate::caller::Caller;
use crate::files::{create, make_owner, open, write};
use alp_base::{FileId, Page, Stamp};
use alp_vault::Vault;

/// How many pages each of the two files has.
pub const SLOTS: u32 = 32;

/// The bytes of a number in a page: `commit-` with eight digits and a point.
const WORD: usize = 16;

/// Two files of 32 pages. Commit N puts its number into page N modulo 32 of both: the text `commit-` with the eight digits of N
/// and a point, which fills the page 32 times.
#[derive(Clone, Copy)]
pub struct Ledger {
    pub left: FileId,
    pub right: FileId,
}

// The digit of a number at a place, the units at 0.
fn digit(number: u32, place: usize) -> u8 {
    let mut rest = number;
    for _ in 0..place {
        rest /= 10;
    }
    b'0' + (rest % 10) as u8
}

// What fills a page of that commit.
fn word(number: u32) -> [u8; 16] {
    let mut word = *b"commit-00000000.";
    for place in 0..8 {
        word[14 - place] = digit(number, place);
    }
    word
}

fn page_of(number: u32) -> Page {
    let word = word(number);
    let mut bytes = [0; 512];
    for at in 0..512 {
        bytes[at] = word[at % WORD];
    }
    Page::new(bytes)
}

impl Ledger {
    /// Makes both files, and their owner where it is not there, in one transaction of its own.
    pub fn make<V: Vault>(caller: &mut Caller<V>) -> Result<(Ledger, Stamp), ServeFault>
        requires { InStep caller.old }
        ensures step { OnOk result (InStep caller.new) }
        ensures told { IfOk result (λ made. IsLastTold caller.new made.1) }
    {
        let trans = caller.begin()?;
        make_owner(caller, trans)?;
        let left = create(caller, trans, SLOTS)?;
        let right = create(caller, trans, SLOTS)?;
        let stamp = caller.commit(trans)?;
        let ledger = Ledger {
            left: left.file,
            right: right.file,
        };
        Ok((ledger, stamp))
    }

    /// Puts the number of a commit into both files, in one transaction.
    pub fn enter<V: Vault>(&self, caller: &mut Caller<V>, number: u32) -> Result<Stamp, ServeFault>
        requires { InStep caller.old }
        ensures step { OnOk result (InStep caller.new) }
        ensures told { IfOk result (IsLastTold caller.new) }
    {
        let trans = caller.begin()?;
        let left = open(caller, trans, self.left)?;
        let right = open(caller, trans, self.right)?;
        let slot = number % SLOTS;
        let page = page_of(number);
        write(caller, trans, left, slot, page)?;
        write(caller, trans, right, slot, page)?;
        caller.commit(trans)
    }
}
