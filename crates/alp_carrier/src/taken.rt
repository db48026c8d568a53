//! What a carrier takes.
use alp_journal::Message;

/// A message that a carrier took, and the rank of the last entry at its sender then.
#[derive(Clone, Copy, Drop)]
pub struct Taken {
    pub message: Message,
    pub seen: u64,
}
