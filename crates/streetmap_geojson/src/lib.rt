//! Features read from JSON values: GeoJSON (RFC 7946) on the local grid.
//!
//! What a value means is defined twice. `specs/FeatureMeaning` says by cases over RFC 7946 which
//! feature a value reads as, with no order of steps; `specs/FeatureReading` says which fault of a
//! value is the first, each line a sentence of the reading order. `read_feature` and
//! `read_collection` return a feature only if the value reads as it, and a refusal, unless memory
//! runs out, only if it is the first fault. `streetmap_feature_text` writes features.
//!
//! `streetmap_json` reads the value of JSON bytes; `read_json` here does so with the faults of this
//! crate.
//!
//! Modules, in the order of reading: `fault`, `json_text`, `id`, `kind`, `feature`, `times`,
//! `coordinates`, `geometry`, `levels`, `exact_numbers`, `feature_parser`, `geometry_member`,
//! `feature_members`, `collection`, `copy`.
#![tactic(auto)]

mod collection;
mod coordinates;
mod copy;
mod exact_numbers;
mod fault;
mod feature;
mod feature_members;
mod feature_parser;
mod geometry;
mod geometry_member;
mod id;
mod json_text;
mod kind;
mod levels;
mod times;

pub use collection::read_collection;
pub use fault::{CollectionFault, Fault, JsonFault};
pub use feature::Feature;
pub use feature_members::{FeatureMembers, read_members};
pub use feature_parser::{read_feature, take_feature};
pub use geometry_member::GeometryMember;
pub use id::{Id, has_no_controls, is_id, read_id};
pub use json_text::read_json;
pub use kind::SimpleKind;
