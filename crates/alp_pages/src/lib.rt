//! What the home pages of a volume spell, leaders among them, and which files, owners and pages they stand for.
//!
//! Home pages are read through `PageReader`, whoever holds them.
#![tactic(auto)]

mod changes;
mod entry;
mod fetch;
mod header;
mod index;
mod laws;
mod leader;
mod leader_form;
mod leader_read;
mod leader_write;
mod owners;
mod reader;

pub use changes::{
    a_file_comes, a_file_goes, a_file_is_cut, a_leader_is_put, a_new_block_is_put,
    a_new_page_is_put, a_page_is_put, an_owner_is_put,
};
pub use entry::{
    DIRECTORY_PAGES, ENTRIES_PER_PAGE, ENTRY_BYTES, Entry, clear_entry, entry_at, set_entry,
};
pub use fetch::{
    copy_of, fetch_block, fetch_leader, fetch_owner, fetch_page, read_leader, read_row,
};
pub use header::new_header;
pub use index::{IndexPlaces, PAGES_PER_BLOCK, decode_index};
pub use laws::{
    a_new_volume_holds_nothing, pages_stand_for_one_map, pages_without_damage_stand,
    taken_places_are_those_used, unnamed_pages_may_hold_anything,
};
pub use leader::{INDEX_PLACES, Leader, Places};
pub use leader_form::leaders_are_a_form;
pub use leader_read::decode_leader;
pub use leader_write::encode_leader;
pub use owners::{OWNER_PAGES, OwnerRow, ROWS_PER_PAGE, owner_at, set_owner};
pub use reader::PageReader;
