//! Any number of features, loaded from a text with one feature per line: a GeoJSON text sequence
//! (RFC 8142), or lines alone.
//!
//! `load_text` applies the features of a text to a keeper in batches K.1, K.2, .. of a key K.
//! `specs/Texts` defines which features a text has, and which fault is the first; `specs/Packs` of
//! `streetmap_packing` defines their batches; `specs/KeeperLoads` defines the state that the keeper
//! then represents, and what a crash can leave; `Skips` of `specs/Loads` says how many features at
//! fault were skipped. The laws say that the same load again changes nothing, and that a load which
//! was interrupted continues. `check_text` reads a text and loads nothing, `print_text` writes the
//! batches instead of applying them.
//!
//! Modules, in the order of reading: `text_fault`, `load_fault`, `source`, `sink`, `loaded`,
//! `progress`, `whole`; `rules`, `listener`, `edit_length`, `feature_line`, `text_edits`; `load`,
//! `opened_collection`; `keeper_sink`, `text_load`, `times`, `check`, `line_sink`, `prints`,
//! `laws`.
#![tactic(auto)]

mod check;
mod edit_length;
mod feature_line;
mod keeper_sink;
pub mod laws;
mod line_sink;
mod listener;
mod load;
mod load_fault;
mod loaded;
mod opened_collection;
mod prints;
mod progress;
mod rules;
mod sink;
mod source;
mod text_edits;
mod text_fault;
mod text_load;
mod times;
mod whole;

pub use check::check_text;
pub use keeper_sink::KeeperSink;
pub use line_sink::LineSink;
pub use listener::Listener;
pub use load::{Load, LoadOptions, MAX_KEY, Opening};
pub use load_fault::LoadFault;
pub use loaded::Loaded;
pub use prints::print_text;
pub use rules::{FeatureRules, HeldTimes};
pub use sink::Sink;
pub use source::{Edits, PlacedEdit};
pub use text_edits::{MAX_LINE, TextEdits};
pub use text_fault::TextFault;
pub use text_load::{load_text, send_text};
pub use times::read_times;
pub use whole::{MAX_EDITS, send_all};
