//! What acts and the numbers of calls say.
ghost use Rattle.alp_history.specs.Numbers.{Committing, Numbering};

/// The transactions that committed are those that acts of entries decide with effect, by rising stamp: where nothing stopped the
/// entry, or where the restart behind it finds a clock that is not below the time.
pub fn committed_acts_are_the_decided()
    ensures { Committing }
{}

/// What a server performed for a transaction is told by the numbers that clients gave their calls. One thread does just that, one
/// transaction after the other, where each reply comes by its cause.
pub fn numbered_calls_are_one_threads()
    ensures { Numbering }
{}
