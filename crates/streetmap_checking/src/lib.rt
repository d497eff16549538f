//! A check of the tables of a ledger in a connection.
//!
//! `check_tables` reads all rows of the four tables, one after the other, and returns how many
//! collections, features and batches they hold, if the rows are those of a ledger; otherwise
//! `Damaged`. A feature is parsed from its text, written again, and compared with it, and so are
//! its stored extent and seconds. It writes nothing.
//!
//! In the order of reading: `cells` (the values of a row), `formats`, `collections`, `features`,
//! `owners`, `batches` (the rows of each table, which `streetmap_reading`'s `fold_rows` takes one
//! after the other), `queries` (one statement after the other), `check`.
#![tactic(auto)]

mod batches;
mod cells;
mod check;
mod collections;
mod features;
mod formats;
mod owners;
mod queries;

pub use check::{Totals, check_tables, shown_state_is_kept};
pub use streetmap_rows::{Shut, Stop};
