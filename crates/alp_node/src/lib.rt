//! A server of several clients over any vault, one of one to eight: it answers their calls under locks, and the messages of the others
//! about transactions that run on several, and writes its journal.
#![tactic(auto)]

mod answer;
mod answering;
mod arriving;
mod asks;
mod begin;
mod blocks;
mod calls;
mod collect;
mod dead;
mod decide;
mod down;
mod easing;
mod endings;
mod finish;
mod found;
mod joining;
mod lives;
mod lock_counts;
mod locking;
mod messages;
mod needs;
mod node;
mod noting;
mod opened;
mod outcomes;
mod releases;
mod room;
mod served;
mod server_state;
mod sessions;
mod shape;
mod start;
mod stored;
mod ticks;
mod timeouts;
mod totals;
mod votes;
mod waits;

pub use down::Down;
pub use node::Node;
pub use opened::Opened;
pub use start::StartFault;
