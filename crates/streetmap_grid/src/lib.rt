//! The local grid: positions, boxes, lines, rings, polygons and geometries, in whole millimetres.
//!
//! The geometries are those of RFC 7946 (section 3.1) on a plane, with whole numbers in place of
//! degrees. A box selects them as `bbox` of OGC 17-069 does (section 7.15.3).
//!
//! What is promised: the constructors return what they are given, and refuse exactly by
//! `specs/Faults`; `specs/WellFormed` defines what every held value is. `Geometry::meets` is true
//! exactly if some fraction of some edge lies in the box, or its corner is inside by the even-odd
//! rule (`specs/Meeting`), and what meets a box has an extent that overlaps it. All clauses speak
//! of plain values (`specs/Values`), to which one view leads from each type (`specs/Views`).
//!
//! No call allocates memory: the caller passes vectors in.
//!
//! Modules, in the order of reading: `fault`, `position`, `grid_box`, `line`, `ring`, `polygon`,
//! `non_empty`, `geometry`, `laws`; after them `range`, `area`, `segment`, `crossings`, `meeting`,
//! `extent`.
#![tactic(auto)]

mod area;
mod crossings;
mod extent;
mod fault;
mod geometry;
mod grid_box;
pub mod laws;
mod line;
mod meeting;
mod non_empty;
mod polygon;
mod position;
mod range;
mod ring;
mod segment;

pub use fault::GridFault;
pub use geometry::{Geometry, SimpleGeometry};
pub use grid_box::GridBox;
pub use line::Line;
pub use non_empty::NonEmpty;
pub use polygon::Polygon;
pub use position::Position;
pub use ring::Ring;
