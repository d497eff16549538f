//! What is known in memory of the features of a collection without reading them: the outline of
//! each, in byte order of ids, with its id, its extent, and the first and the last second of its
//! time.
//!
//! Outlines are in chunks. A page passes over a chunk whose bounds are off its box, and over one
//! with no extent that overlaps the box if the cells of the grid show that. If it shows none of a
//! chunk's features it counts them by what is kept beside the outlines: by the chunk's bounds, if
//! it lies within the box and the interval, or by the extents, if each that overlaps the box shows
//! that its feature meets it. It goes over the outlines of the others, and reads only those whose
//! extents overlap the box.
//!
//! In the order of reading: `bounds`, `within`, `extent_column`, `chunk`, `in_cells` and `chunks`
//! (outlines in chunks, of which an edit changes one, and their extents by cells), `selection`
//! (what these show of a query).
#![tactic(auto)]

mod bounds;
mod chunk;
mod chunks;
mod extent_column;
mod in_cells;
mod selection;
mod within;

pub use bounds::bounds_of_both;
pub use chunk::Chunk;
pub use chunks::Chunks;
pub use extent_column::{lies_outside, window_of};
pub use selection::{
    all_come_after, comes_after, count_selected, is_candidate, is_passed_over, is_selected,
    is_unmarked,
};
