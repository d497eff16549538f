ghost use Rattle.std.specs.Prelude.{◌≡◌, None, Some, IfSome, IfOk, IfErr, OnOk};
ghost use Rattle.std.proofs.Props.{props};
ghost use Rattle.streetmap_grid.specs.Range.{IsCoordinate};

use crate::fault::GridFault;
use crate::range::{is_coordinate, is_height};

/// A position on the grid, in millimetres (RFC 7946, section 3.1.1): easting, northing and an
/// optional height, each from -1,000,000,000 to 1,000,000,000.
#[derive(Clone, Copy, PartialEq, Eq, Drop)]
pub struct Position {
    /// The easting, in millimetres.
    pub x: i64,
    /// The northing, in millimetres.
    pub y: i64,
    /// The height, in millimetres. It is kept, and never tested against a box.
    pub z: Option<i64>,
    pub ghost easting: { IsCoordinate x },
    pub ghost northing: { IsCoordinate y },
    pub ghost height: { IfSome z IsCoordinate } by { Prim.hlevel props },
}

impl Position {
    ghost use Rattle.streetmap_grid.specs.PositionViews.{position_value};
    ghost use Rattle.streetmap_grid.specs.Faults.{position_fault};

    /// The position at an easting, a northing and perhaps a height, in millimetres. Refused as
    /// `OutOfGrid` if one of them is below -1,000,000,000 or above 1,000,000,000.
    pub fn new(x: i64, y: i64, z: Option<i64>) -> Result<Position, GridFault>
        ensures value { IfOk result (λ p. position_value p ≡ record { x = x; y = y; z = z }) }
        ensures accepted { OnOk result (position_fault (record { x = x; y = y; z = z }) ≡ None) }
        ensures refused { IfErr result (λ f. position_fault (record { x = x; y = y; z = z })
            ≡ Some f) }
    {
        if !is_coordinate(x) || !is_coordinate(y) || !is_height(z) {
            return Err(GridFault::OutOfGrid);
        }
        Ok(Position { x, y, z })
    }
}
