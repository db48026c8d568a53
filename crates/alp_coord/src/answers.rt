//! What a coordinator answers of what arrives.

/// What becomes of a part on another server that asks to take part.
#[derive(Clone, Copy, PartialEq, Eq)]
pub enum Registration {
    /// The transaction was not drawn here, and nothing is said.
    Silence,
    /// It takes part from now on.
    Registered,
    /// It took part before.
    Known,
    Refused,
}

/// What a vote for a commit comes to.
#[derive(Clone, Copy, PartialEq, Eq)]
pub enum Ballot {
    /// The transaction is not finishing, or it is not a vote of one of its parts.
    Dropped,
    /// Others have not voted yet.
    Kept,
    /// With it all have voted, and this is the latest of their times.
    Last { latest: u64 },
}

/// What it comes to that a part has applied a commit.
#[derive(Clone, Copy, PartialEq, Eq)]
pub enum Receipt {
    /// The commit is not decided or was forgotten, or it is not one of its parts.
    Dropped,
    /// Others have not applied it, or it was the last one before.
    Kept,
    /// With it all have applied the commit.
    Last,
}
