//! What became of the commits of a vault in memory.
use alp_base::{Change, NoteChange};

/// A commit that was stopped.
#[derive(Drop)]
pub struct Pending {
    pub change: Change,
    pub notes: Vec<NoteChange>,
}

/// Whether a vault serves, and which commit it was stopped in.
#[derive(Drop)]
pub enum Stage {
    Serving,
    /// It serves no more, and nothing is half made.
    Stopped,
    /// The commit may have been made or not.
    Torn(Pending),
    /// A crash left the commit made; what is in memory lacks it yet.
    Made(Pending),
}
