//! Batches: the pages and the changes of notes that are committed together, as bytes.
//!
//! Each batch has one spelling, and the decoder answers a batch exactly where its input is the
//! spelling of that batch.
#![tactic(auto)]

mod batch;
mod code;
mod images;
mod laws;
mod length;
mod notes;
mod rising;

pub use batch::{Batch, Images, NoteChanges, PageImage, share_images};
pub use code::{decode, encode, encode_values};
pub use laws::batches_are_forms;
pub use length::{encoded_length, values_length};
