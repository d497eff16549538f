//! The text of a feature read as a JSON value, its coordinates placed in the grid.
//!
//! A `Value` does not have a number's text, only what 64 bits hold of it. So the coordinates of a
//! map in metres are placed before a value is made: `read_placed` reads the text of one feature
//! (RFC 7946) to the value that `streetmap_json::read_json` reads of it, except for the numbers
//! within the `coordinates` of its geometry, which are the grid's (`streetmap_decimal`), and those
//! of its properties that are not whole, which may be kept as texts. [`Numbers`] says which of
//! these two it does.
//!
//! `specs/Placed` defines what each value within a feature becomes, and which [`Role`] a member and
//! an element have; the value then goes to the reader of features, which refuses what is not a
//! feature.
//!
//! Modules, in the order of reading: `fault`, `role`, `numbers`, `number`, `values`,
//! `feature_texts`, `laws`.
#![tactic(auto)]

mod fault;
mod feature_texts;
pub mod laws;
mod number;
mod numbers;
mod role;
mod values;

pub use fault::PlacingFault;
pub use feature_texts::read_placed;
pub use numbers::{Fractions, Numbers};
pub use role::Role;
