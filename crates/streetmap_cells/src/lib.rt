//! A hierarchical grid over the extents of features: which chunks have one that overlaps a box.
//!
//! An index keeps its features in chunks. `Cells` lists each extent with the number of its chunk,
//! and `search` marks each chunk that has an extent that overlaps the box. Nothing else is
//! promised: a chunk may be marked that has none, for example if an extent was listed and its
//! feature has moved since. So the caller tests what it finds in a marked chunk, and passes over a
//! chunk without a mark.
//!
//! Lengths are in millimetres. In the order of reading: `envelope` (a box, counted from the corner
//! of the grid), `marks`, `cells`.
#![tactic(auto)]

mod cells;
mod envelope;
mod marks;

pub use cells::{Cells, Entry};
pub use envelope::Envelope;
pub use marks::Marks;
