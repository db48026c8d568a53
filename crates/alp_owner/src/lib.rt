//! Owners' records as bytes, and whom an access list admits.
#![tactic(auto)]

mod form;

pub use alp_fields::{OWNER_BYTES, owner_records_are_a_form};
pub use alp_files::admits;
pub use form::{decode_owner, encode_owner};
