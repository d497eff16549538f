//! Pages, features, and summaries of collections, read from the tables of a state, row by row.
//!
//! `page_of` returns the page of a collection as the state has it: it reads the rows whose stored
//! extent and seconds overlap those of the query, by one of four statements, one row at a time and
//! in order of ids, and hands each feature to `PageFold`. `feature_of` returns one feature as the
//! state has it, by its collection and its id, with the time that the collection's time property
//! gives; `feature_outlined_of` does so by an outline of it, and first reads the row with the
//! outline's rowid, which it takes for the feature's if the row has its id. `run_of` returns the
//! features of a collection whose ids lie between two, by one statement. Nothing changes, and a
//! crash can leave no more than before. If one of them gives up it says why: memory ran out, a
//! statement failed, or a row is not one that this product writes; the last never on the tables of
//! a state (`streetmap_rows`' `ReadFault`).
//!
//! `summary_of` and `summaries_of` return the summaries of one collection and of all, and
//! `outlines_of` lists a collection's features by what is stored beside their bodies, with their
//! rowids, in one pass; none of them reads a body.
//!
//! `batch_of` returns the batch that was accepted with a serial, and `batches_of` those after one,
//! in order and as many as fit: each by one statement over the index of the column `serial`, the
//! second in one scan that stops when the room is full.
//!
//! `fold_rows` hands the rows of any query of any tables, one after the other, to a `RowFold`: a
//! type that says what it holds of rows, and which rows are good. `text_at` and `text_if_at` read a
//! text of any such row.
//!
//! In the order of reading: `candidates` (rows of a query, one after the other), `page`, `feature`,
//! `run`; `cells` (a value of a row), `fold` (rows taken one by one), `ordering` (by ids or in the
//! order of the table), `extents`, `summaries`, `outlines`; `batch_cells` (a batch from its row),
//! `scans`, `batches` (reads by a serial).
#![tactic(auto)]

mod batch_cells;
mod batches;
mod candidates;
mod cells;
mod extents;
mod feature;
mod fold;
mod ordering;
mod outlines;
mod page;
mod run;
mod scans;
mod summaries;

pub use batches::{batch_of, batches_of};
pub use cells::{text_at, text_if_at};
pub use feature::{feature_of, feature_outlined_of};
pub use fold::{RowFold, fold_rows};
pub use outlines::outlines_of;
pub use page::page_of;
pub use run::run_of;
pub use summaries::{summaries_of, summary_of};
