//! The rows of a state, and the statements that read and write them.
//!
//! `specs/Rows` says which rows are a state's, `specs/Stands` when a database represents a state:
//! four tables of ours, anywhere in its schema, have those rows. Each function here runs one
//! statement; its clause says what it does on a database of a state, and why it may fail there:
//! because memory or room runs out, or because the store fails, and for no other cause.
//! `specs/TableReads` and `specs/TransactionCalls` say what any such call does, by its meaning: one
//! that queries a connection, and one inside a transaction.
//!
//! What is true of any plain table of a `sqlite` connection, anywhere in its schema, is in proofs:
//! what a statement over one table means (`proofs/Resolving`), what an INSERT of rows
//! (`proofs/InsertRuns`) and a DELETE (`proofs/DeleteRuns`) do and why they may fail, and what a
//! query shows (`proofs/OneRowChosen`, `proofs/OrderedRows`, `proofs/AnyOrder`).
//!
//! In the order of reading: `openness` (whether a connection is open), `failures` (how a call ends
//! that met an error), `fault` (why a read gives up), `bodies` (a feature's text, parsed again),
//! `statements` (texts that several modules run), `lookups` (reads by a key), `writes` (of one
//! row), `feature_rows` (of several).
#![tactic(auto)]

mod bodies;
mod failures;
mod fault;
mod feature_rows;
mod lookups;
mod openness;
mod statements;
mod writes;

pub use bodies::read_body;
pub use failures::{Shut, Stop, cause_of, is_memory, is_of_store, settle};
pub use fault::{ReadFault, unread};
pub use feature_rows::{FeatureRow, ROWS, insert_features};
pub use lookups::{collection_rows, has_feature, kept_rows, time_in};
pub use openness::probe;
pub use statements::{CREATE_FEATURES, CREATE_META, SELECT_COLLECTION, SELECT_COLLECTIONS};
pub use writes::{delete_feature, insert_batch, insert_collection, insert_feature};
