//! What memory keeps of a volume, as tables: files by their ids, owners by their names, numbers that are taken or free,
//! pages by their places, and what files cost their owners.
//!
//! A table knows no page of a disk. Files and owners have room for all that a volume may have, so that putting one in
//! takes no memory.
#![tactic(auto)]

mod bits;
mod cost;
mod costs;
mod file_slot;
mod files;
mod free;
mod owner_table;
mod sheets;
mod table;

pub use bits::Bits;
pub use cost::Cost;
pub use costs::charge_of;
pub use file_slot::FileSlot;
pub use files::FileTable;
pub use free::Free;
pub use owner_table::OwnerTable;
pub use sheets::Sheets;
