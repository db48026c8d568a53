//! What the table and the journal have in common.
ghost use Rattle.alp_turns.specs.Laws.{WalksAlike};

/// The table's walk over the queue of the journal's waiting list grants what the journal grants, in its order, and leaves the
/// queue of the list that the journal is left with.
pub fn releases_walk_the_waiting_list()
    ensures { WalksAlike }
{}
