ghost use Rattle.std.specs.Prelude.{◌≡◌, ◌≤◌, None, Some, IfOk, IfErr, OnOk, IsTrue, vec_len};
ghost use Rattle.streetmap_grid.specs.PositionViews.{positions_value};
ghost use Rattle.streetmap_grid.specs.Ring.{is_closed};

use crate::area;
use crate::fault::GridFault;
use crate::position::Position;

/// A closed ring of four or more positions (RFC 7946, section 3.1.6), a boundary of a polygon.
///
/// # Semantics
///
/// The edges run from each position to the next. A point is inside by the even-odd rule, over all
/// rings of a polygon together.
///
/// # What is not checked
///
/// A ring may cross or touch itself, may have area zero, and may run in either direction until its
/// polygon is [oriented](crate::Polygon::oriented).
#[derive(Drop)]
pub struct Ring {
    positions: Vec<Position>,
    ghost long: { 4 ≤ vec_len positions },
    ghost closed: { IsTrue (is_closed (positions_value positions.items)) },
}

impl Ring {
    ghost use Rattle.streetmap_grid.specs.Views.{ring_value};
    ghost use Rattle.streetmap_grid.specs.Faults.{ring_fault};
    ghost use Rattle.streetmap_grid.specs.Ring.{double_area, turned};

    /// The ring of positions in their order. Refused as `ShortRing` below four, and then as
    /// `OpenRing` if the first and last differ in easting, northing or height.
    pub fn new(positions: Vec<Position>) -> Result<Ring, GridFault>
        ensures value { IfOk result (λ r. ring_value r ≡ positions_value positions.items) }
        ensures accepted { OnOk result (ring_fault (positions_value positions.items) ≡ None) }
        ensures refused { IfErr result (λ f. ring_fault (positions_value positions.items)
            ≡ Some f) }
    {
        let n = positions.len();
        if n < 4 {
            return Err(GridFault::ShortRing);
        }
        if positions[0] == positions[n - 1] {
            Ok(Ring { positions })
        } else {
            Err(GridFault::OpenRing)
        }
    }

    /// The positions, in their order; the last is the first again.
    pub fn positions(&self) -> &[Position]
        ensures { positions_value result.now ≡ ring_value self.now }
    {
        &self.positions
    }

    /// Twice the area inside the ring, in square millimetres: the sum over its edges of `ax * by -
    /// bx * ay`. Above zero for a counterclockwise ring, below zero for a clockwise one.
    pub(crate) fn double_area(&self) -> i128
        ensures { result ≡ double_area (ring_value self.now) }
    {
        area::double_area(&self.positions)
    }

    /// Reverses the ring if its double area has the wrong sign: above zero for a hole, below zero
    /// for an exterior ring.
    pub(crate) fn turn(&mut self, hole: bool)
        ensures { ring_value self.new ≡ turned hole (ring_value self.old) }
    {
        let area = self.double_area();
        let wrong = if hole { area > 0 } else { area < 0 };
        if wrong {
            self.positions.reverse();
        }
    }
}
