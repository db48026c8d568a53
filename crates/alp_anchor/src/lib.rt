//! The two anchor pages of a disk, and the switch from one to the other.
//!
//! Each anchor says which area of the log is in use. Of two the one with the later generation
//! counts. A crash at any moment of a switch leaves the old one counting, or the new one.
#![tactic(auto)]

mod anchor;
mod fault;
mod gate;
mod laws;
mod read;
mod spelling;
mod switch;

pub use anchor::Anchor;
pub use fault::AnchorFault;
pub use gate::open_gate;
pub use laws::one_anchor_counts;
pub use read::read_anchor;
pub use spelling::anchor_page;
pub use switch::switch_anchor;
