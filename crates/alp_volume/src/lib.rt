//! The volume: files, owners and their pages as home pages of a disk, read whole and changed.
//!
//! It stands between cells, which clients see, and home pages, which a log holds. It knows no log: it reads pages
//! through `PageReader`, and hands out the pages that a change makes.
#![tactic(auto)]

mod before;
mod blocks;
mod catalog;
mod change;
mod charges;
mod counts;
mod cut_block;
mod cut_file;
mod directory;
mod draft;
mod file_pages;
mod images;
mod laws;
mod leaders;
mod marks;
mod owner_pages;
mod put_block;
mod put_cell;
mod put_file;
mod put_leader;
mod put_owner;
mod put_page;
mod read;
mod take_back;
mod take_in;
mod takes;
mod undo;
mod volume_files;

pub use catalog::Catalog;
pub use change::plan_change;
pub use draft::Draft;
pub use images::Images;
pub use laws::free_places_may_hold_anything;
pub use read::read_volume;
pub use undo::Undo;
