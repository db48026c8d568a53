//! What each step on the table tells the pass that makes it.
use crate::board::View;
use crate::story::Story;
use atomic_table::{Join, Play, Split};

/// The word goes from even to odd, and the state out, where the word is the one that was loaded.
pub(crate) struct Claim;

impl<S: Story> Play<Option<S>, View<S::Base, S::Entry>> for Claim {
    ghost use Rattle.alp_monitor.specs.Steps.{Claims};

    ghost then = { Claims S.base S.entries };
}

/// The state goes home, and the word is twice the number of its entries.
pub(crate) struct Settle;

impl<S: Story> Play<Option<S>, View<S::Base, S::Entry>> for Settle {
    ghost use Rattle.alp_monitor.specs.Steps.{Settles};

    ghost then = { Settles S.entries };
}

/// The pass is counted as waiting.
pub(crate) struct BeginWait;

impl<S, B, E> Play<S, View<B, E>> for BeginWait {
    ghost use Rattle.alp_monitor.specs.Steps.{BeginsWait};

    ghost then = { BeginsWait };
}

/// It is counted no more.
pub(crate) struct EndWait;

impl<S, B, E> Play<S, View<B, E>> for EndWait {
    ghost use Rattle.alp_monitor.specs.Steps.{EndsWait};

    ghost then = { EndsWait };
}

/// One of those that wait is awake, or none is, which changes nothing that a pass knows.
pub(crate) struct MarkAwake;

impl<S, B, E> Play<S, View<B, E>> for MarkAwake {
    ghost use Rattle.alp_monitor.specs.Steps.{Stays};

    ghost then = { Stays };
}

/// A pass is made, or taken in.
pub(crate) struct OnePass;

impl<B, E> Split<View<B, E>> for OnePass {
    ghost use Rattle.alp_monitor.specs.Steps.{with_one_more, newcomer};

    ghost left = { with_one_more };

    ghost right = { newcomer };
}

impl<B, E> Join<View<B, E>> for OnePass {
    ghost use Rattle.alp_monitor.specs.Steps.{both_of};
    ghost use Rattle.alp_monitor.specs.declared.board.View.TheVariants.{Spent};

    ghost both = { both_of };

    ghost spent = { Spent };
}
