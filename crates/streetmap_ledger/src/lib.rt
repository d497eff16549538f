//! What the product means: the state, batches of edits on it, and pages of it.
//!
//! The state is a value: collections with their features, and what is kept for each accepted key
//! (`specs/State`). A batch acts on it whole or not at all (`specs/Batches`), and a page shows what
//! a query selects of it (`specs/Pages`). A `Keeper` represents a state: its calls answer as these
//! definitions do (`specs/Keep`), and its model says what a crash may leave (`specs/Model`). `run`
//! is proved once over any keeper; `streetmap_memory` has the one that keeps the state in memory. A
//! `Durable` keeper has a store that can be opened again after a crash.
//!
//! A keeper that represents a state keeps a batch for each accepted key: its text, how many edits
//! of each kind it had, and its serial. `KeepsBatches` returns the number of these batches, the one
//! with a serial, and those after one, as the state has them (`specs/Kept`), and changes nothing.
//! The state can be rebuilt from these batches, in order of their serials.
//!
//! In the order of reading: `reply`, `page`, `summary`, `compact_box`, `outline`, `keeper` (the
//! trait and `run`), `durable`, `outlined`, `laws`; for pages `selection` and `fold`; `kept_batch`,
//! `kept_batches` (the trait), `serial_laws`. Batches are those of `streetmap_batch`.
#![tactic(auto)]

mod compact_box;
mod durable;
mod fold;
mod keeper;
mod kept_batch;
mod kept_batches;
pub mod laws;
mod outline;
mod outlined;
mod page;
mod reply;
mod selection;
pub mod serial_laws;
mod summary;

pub use compact_box::CompactBox;
pub use durable::Durable;
pub use fold::PageFold;
pub use keeper::{Keeper, run};
pub use kept_batch::KeptBatch;
pub use kept_batches::KeepsBatches;
pub use outline::FeatureOutline;
pub use outlined::Outlined;
pub use page::Page;
pub use reply::{Cause, Counts, Fault, Refusal, Reply, Run};
pub use selection::{lies_within_box, overlaps_box};
pub use streetmap_batch::{
    Batch, BatchFault, CollectionId, Edit, TimeProperty, Title, is_collection_id, is_key,
    is_time_property, is_title, read_batch,
};
pub use summary::Summary;
