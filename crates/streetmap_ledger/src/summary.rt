//! The description of a collection.
use streetmap_grid::GridBox;

/// A collection as it is described (OGC 17-069, section 7.14).
#[derive(Drop)]
pub struct Summary {
    pub id: String,
    pub title: String,
    /// The property that the times of its features are read from.
    pub time: Option<String>,
    /// The box of all positions of its features, in millimetres; none without positions.
    pub extent: Option<GridBox>,
}
