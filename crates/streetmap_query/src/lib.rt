//! Queries for a page of features: read from the text after the `?` of a target, and written again
//! for links.
//!
//! A query text is read as the pairs of a form, from left to right; the result is the query that
//! the pairs give, or the first fault in them, and nothing else. The text that is written for a
//! query reads as that query again.
//!
//! In the order of reading: `queries` and `datetimes` (the types), `fault`, `numbers` and
//! `box_texts` (the value of `bbox`), `query_parser` (a query text), `query_texts` (a query),
//! `laws`.
#![tactic(auto)]

mod box_texts;
mod datetimes;
mod fault;
pub mod laws;
mod numbers;
mod queries;
mod query_parser;
mod query_texts;

pub use datetimes::Datetime;
pub use fault::QueryFault;
pub use queries::Query;
pub use query_parser::{has_parameter, read_query};
pub use query_texts::{next_query, self_query};
