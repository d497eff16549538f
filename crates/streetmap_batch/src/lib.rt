//! Batches of edits: a key, and edits that act together or not at all.
//!
//! What a written batch means is defined twice. `specs/BatchMeaning` says by cases which batch a
//! value is, with no order of steps; `specs/BatchReading` says which refusal comes first, each line
//! a sentence of the order of refusals. `read_batch` returns a batch only if the bytes are that
//! batch, and a refusal, unless memory runs out, only if it is the first. `Batch::text` is the text
//! of `specs/BatchText`, by which a repeated batch is recognised.
//!
//! Modules, in the order of reading: `names`, `edit`, `batch_fault`, `batch`, `batch_text`,
//! `format`, `member`, `opening`, `edit_members`, `edit_parser`, `edit_tokens`, `batch_parser`.
#![tactic(auto)]

mod batch;
mod batch_fault;
mod batch_parser;
mod batch_text;
mod edit;
mod edit_members;
mod edit_parser;
mod edit_tokens;
mod format;
mod member;
mod names;
mod opening;

pub use batch::Batch;
pub use batch_fault::BatchFault;
pub use batch_parser::read_batch;
pub use edit::{CollectionId, Edit, TimeProperty, Title};
pub use names::{is_collection_id, is_key, is_time_property, is_title};
