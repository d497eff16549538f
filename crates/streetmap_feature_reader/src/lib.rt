//! Features read from their JSON texts (RFC 8259) as GeoJSON (RFC 7946).
//!
//! A text is usual if it is an object with the members `geometry`, `id`, `properties` and the type
//! `Feature`, each once and in any order, and no other member, and its geometry is null, or an
//! object with a type that has coordinates and its `coordinates`, and no other member: exporters
//! write features in this form, and so they are kept. `read_usual` reads such a text member by
//! member from its tokens, and makes no JSON value of the whole. `read_feature_text` reads any
//! text, a usual one in this way, and every other as a value. Both return what the value of the
//! text reads as.
//!
//! `read_stated` reads a feature among other values, at a reader's position: a usual one and its
//! geometry member by member, every other value as a value, and it never has to begin again.
//!
//! Modules, in the order of reading: `places`, `usual_geometry`, `usual_members`, `reader`,
//! `members`, `stated_geometry`, `stated_feature`.
#![tactic(auto)]

mod members;
mod places;
mod reader;
mod stated_feature;
mod stated_geometry;
mod usual_geometry;
mod usual_members;

pub use reader::{read_feature_text, read_usual};
pub use stated_feature::{StatedFeature, read_stated};
