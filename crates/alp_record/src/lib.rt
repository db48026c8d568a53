//! The records of one area of the log: one is added, and one is read.
//!
//! A record is a header page with a gate, and a body. The gate opens by a write of its own, after
//! all that stands behind it was synced, so a crash leaves the whole record or a closed gate.
#![tactic(auto)]

mod add;
mod area;
mod body;
mod fault;
mod header;
mod laws;
mod read;

pub use add::add_record;
pub use area::{Area, pages_wanted, record_pages};
pub use fault::RecordFault;
pub use header::header_page;
pub use laws::records_are_read_one_way;
pub use read::read_record;
