//! The keeper in memory.
//!
//! `PlainKeeper` keeps a state in maps, its features as texts with their extents and times beside
//! them. It meets the trait `Keeper` of `streetmap_ledger`, returns no fault but `Memory`, and is
//! never shut. A batch acts on the maps edit by edit, each of which is taken back if a later one is
//! refused.
//!
//! In the order of reading: `extents`, `kept`, `cutter`, `collection`, `undo`, `acted`,
//! `collections`, `edits`, `batches` (by their serials), `plain`.
#![tactic(auto)]

mod acted;
mod batches;
mod collection;
mod collections;
mod cutter;
mod edits;
mod extents;
mod kept;
mod plain;
mod undo;

pub use plain::PlainKeeper;
