//! The compact text of a usual feature, read byte by byte, without a value in between.
//!
//! A store keeps a feature as its compact JSON text (RFC 8259; RFC 7946, section 3.2), and shows it
//! as these same bytes. What else it needs of the feature is its id, its extent and its time.
//! [`read_compact`] finds them in one pass over the text, and takes no memory. What it finds is
//! exact: the text is that of one feature, with this id and this extent, and it reads as this
//! feature with this time (`specs/Compact`). If it finds nothing, nothing is claimed: the text may
//! still be that of a feature, and the caller reads it by `streetmap_feature_reader`.
//!
//! Each function reads what the rest of the text begins with, and returns what follows it.
//!
//! Modules, in the order of reading: `fronts` (literals and bytes), `numbers`, `texts`,
//! `positions`, `rings`, `geometries`, `flat` (values of properties), `properties`, `times`,
//! `feature`.
#![tactic(auto)]

mod feature;
mod flat;
mod fronts;
mod geometries;
mod numbers;
mod positions;
mod properties;
mod rings;
#[cfg(test)]
mod tests;
mod texts;
mod times;

pub use feature::{CompactFeature, read_compact};
