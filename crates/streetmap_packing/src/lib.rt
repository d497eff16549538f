//! Edits, packed into batches K.1, K.2, .. of a key K.
//!
//! Each batch is the longest next run of the edits that is within the limits of a batch: a number
//! of edits, and a number of bytes of batch text (`specs/Packs`). A `Packer` returns the batches
//! one by one as the edits come. The laws say that the packing is unique, that the batches
//! returned so far are a prefix of those that more edits give, and that a key of at most 44 bytes
//! has room for each number.
#![tactic(auto)]

pub mod laws;
mod numbers;
mod packer;

pub use numbers::MAX_TEXT;
pub use packer::{MAX_EDIT, Packer};
