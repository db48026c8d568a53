//! Files as one map of cells: calls of clients, their replies, and what one thread's calls mean.
#![tactic(auto)]

mod admission;
mod call;
mod cell_map;
mod held;
mod laws;
mod leaves;
mod open;
mod refusal;
mod reply;

pub use admission::admits;
pub use call::{Call, PropChange};
pub use cell_map::{CellMap, is_in_file, is_past};
pub use held::HeldProps;
pub use laws::{
    acts_keep_files_sound, acts_keep_sizes, agreeing_parts_commute, calls_keep_to_their_locks,
    grants_cover_needs, histories_keep_files_sound,
};
pub use leaves::agreeing_locks_agree_on_leaves;
pub use open::Open;
pub use refusal::{Cause, ListName, Refusal, What, Why};
pub use reply::{Ended, Reply};
