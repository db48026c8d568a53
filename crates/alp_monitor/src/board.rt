//! The table below a monitor. Its first word is twice the number of the entries, and one more while
//! the state is out. Its second is twice the number of the passes that wait, and one more while one
//! of them was woken and did not come back yet. Its one slot is the state's place.
use crate::story::Story;
use atomic_table::{Seat, Table, TableRule};
use std::alloc::Global;
use std::collections::LinkedList;
use std::snapshot::Snapshot;

pub(crate) const WORD: usize = 0;

pub(crate) const WAITING: usize = 1;

pub(crate) const PLACE: usize = 0;

/// What one pass knows: its number, and the history that it saw last, each entry beside the number
/// of the pass that made it.
pub struct Part<E> {
    pub number: u64,
    pub front: LinkedList<(u64, E)>,
}

/// What a seat at the table knows. No value of it is ever made.
pub enum View<B, E> {
    /// Another seat took it in.
    Spent,
    /// It makes the passes, and has made so many.
    Founder(B, u64),
    /// A pass that is outside, with those that it took in at the end.
    Outside(B, LinkedList<Part<E>>),
    /// A pass that is counted as waiting.
    Waiting(B, Part<E>),
    /// A pass that is inside: the one that the state is out with.
    Inside(B, Part<E>),
}

pub struct InTurns;

impl<S: Story> TableRule<Option<S>, View<S::Base, S::Entry>, (Snapshot<S>, u32)> for InTurns {
    ghost use Rattle.alp_monitor.specs.Rule.{IsInTurns, founding};

    ghost holds = { λ key. IsInTurns S.base S.entries (S.base key.0.value) key.1 };

    ghost first = { λ key. founding (S.base key.0.value) };
}

/// Its key is the state that it was made of, which gives the base, and the number of its passes.
pub(crate) type Board<S> = Table<
    Option<S>,
    View<<S as Story>::Base, <S as Story>::Entry>,
    (Snapshot<S>, u32),
    InTurns,
    Global,
>;

pub(crate) type Place<S> = Seat<Option<S>, View<<S as Story>::Base, <S as Story>::Entry>>;
