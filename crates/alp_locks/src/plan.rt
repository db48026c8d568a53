//! A request that is ready to be granted.
ghost use Rattle.std.specs.Prelude.{◌≡◌, ◌==◌, length};

use alp_queue::Waiter;
use std::marker::Model;

/// What a transaction asks for, with all that a grant of it will need; seen as the request that
/// would wait.
#[derive(Drop)]
pub struct Plan {
    pub(super) waiter: Waiter,
}

impl Model for Plan {
    ghost use Rattle.alp_queue.specs.declared.waiter.Waiter.{Waiter as TheWaiter};
    ghost use Rattle.alp_queue.specs.contracts.waiter.Waiter as waiter_type;

    ghost Value = { TheWaiter };

    ghost coded = { waiter_type.the_row.coded };

    ghost view = { λ p. p.waiter };
}

impl Plan {
    /// Whether all that is asked for is held already.
    pub fn is_held(&self) -> bool
        ensures { result ≡ (length self.now.rises == 0) }
    {
        self.waiter.rises.as_slice().is_empty()
    }
}
