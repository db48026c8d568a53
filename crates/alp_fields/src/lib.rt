//! Fields as bytes: a reader over bytes, and writers that append.
//!
//! Each form of a field is a definition: how a value is spelled, and what is read from the front of
//! bytes. A reader answers a value exactly where the bytes begin with a spelling of it, and a
//! writer appends that spelling. What is spelled is read back whatever follows it.
#![tactic(auto)]

mod change_field;
mod choices;
mod clock_note;
mod decision_note;
mod fixed;
mod ids;
mod items;
mod keys;
mod laws;
mod lists;
mod mode_field;
mod names;
mod numbers;
mod owner_field;
mod places;
mod props_field;
mod reader;
mod ready_note;
mod rows;

pub use choices::{put_access, put_choice, put_flag};
pub use clock_note::{ClockNote, clock_change, clock_note_name, is_clock_name, read_clock};
pub use decision_note::{
    Decision, JoinList, MOST_PARTS, decision_change, decision_end, decision_note_name,
    decision_notes_are_forms, read_decision, read_decision_name,
};
pub use fixed::{LIST_FIELD_BYTES, NAME_FIELD_BYTES};
pub use ids::{GREATEST_TIME, put_file_id, put_join_no, put_run, put_stamp, put_trans_id};
pub use keys::{put_key, put_resource};
pub use laws::{fields_are_forms, keys_have_one_spelling, longer_fields_are_forms};
pub use lists::{put_list, put_pages};
pub use mode_field::{mode_is_a_form, put_mode, read_mode};
pub use names::{put_bytes, put_name, put_page};
pub use numbers::{put_u8, put_u16, put_u32, put_u64};
pub use owner_field::{OWNER_BYTES, owner_records_are_a_form, put_owner, read_owner, set_owner};
pub use places::{
    set_bytes, set_file_id, set_list_field, set_name_field, set_named_field, set_u8, set_u16,
    set_u32, set_u64, set_zeros,
};
pub use props_field::{props_are_a_form, put_props, read_props};
pub use reader::FieldReader;
pub use ready_note::{
    LockList, ReadyPart, read_ready, read_ready_name, ready_change, ready_end, ready_note_name,
    ready_notes_are_forms,
};
pub use rows::{U32_BYTES, set_u32s};
