//! Parts of other servers' transactions: which joins were drawn, what became of each, and what is to be said again.
#![tactic(auto)]

mod again;
mod joins;
mod laws;
mod live;
mod live_list;
mod moves;
mod regain;
mod room;
mod walks;

pub use joins::Joins;
pub use laws::{joins_follow_the_journal, votes_look_at_the_sum, walks_are_alike};
pub use live::{LiveJoin, Stage};
pub use regain::ReadyPart;
pub use room::{PartSize, ReadySum, first_why};
