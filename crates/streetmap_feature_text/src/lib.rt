//! Features as texts: GeoJSON (RFC 7946) written as JSON values and as compact JSON texts, and
//! features that are kept as their texts.
//!
//! What `write_feature` writes reads again as that feature without its time (`feature_values`); the
//! text that `push_feature` makes is the compact text of that value, without a value in between
//! (`feature_json`). A `WrittenFeature` has its text beside it, and a `PackedFeature` is a feature
//! kept as its text, with its extent and its time. Arrays and collections of packed features are
//! copies of their texts (`packed_features`).
//!
//! Modules, in the order of reading: `feature_values`, `quotes`, `properties_text`,
//! `feature_json`, `written_feature`, `packed_interval`, `packed`, `packed_features`, `laws`.
#![tactic(auto)]

mod feature_json;
mod feature_values;
pub mod laws;
mod packed;
mod packed_features;
mod packed_interval;
mod properties_text;
mod quotes;
mod written_feature;

pub use feature_json::{push_comma, push_feature};
pub use feature_values::{write_collection, write_feature};
pub use packed::PackedFeature;
pub use packed_features::{collection_text, push_features};
pub use quotes::push_quoted;
pub use written_feature::WrittenFeature;
