//! The coordinates of a position.

/// Which coordinate of a position a number is (RFC 7946, section 3.1.1: easting, northing, height).
#[derive(Clone, Copy, PartialEq, Eq, Drop)]
pub enum Axis {
    /// The first coordinate, from west to east.
    Easting,
    /// The second coordinate, from south to north.
    Northing,
    /// The third coordinate, upwards.
    Height,
}
