ghost use Rattle.std.specs.Prelude.{◌≡◌, ◌≤ℤ◌, ◌↔◌, ◌&&◌, ◌++◌, int_le, IsTrue, List, None, Some};
ghost use Rattle.std.specs.Prelude.{IfOk, IfErr, OnOk};
ghost use Rattle.streetmap_grid.specs.Range.{IsBound};

use crate::fault::GridFault;
use crate::range::is_bound;

/// A box of the grid, in millimetres (RFC 7946, section 5): its edges belong to it.
#[derive(Clone, Copy, PartialEq, Eq, Drop)]
pub struct GridBox {
    /// The western bound, from -2,000,000,000 to `x1`.
    pub x0: i64,
    /// The southern bound, from -2,000,000,000 to `y1`.
    pub y0: i64,
    /// The eastern bound, from `x0` to 2,000,000,000.
    pub x1: i64,
    /// The northern bound, from `y0` to 2,000,000,000.
    pub y1: i64,
    pub ghost west: { IsBound x0 },
    pub ghost south: { IsBound y0 },
    pub ghost east: { IsBound x1 },
    pub ghost north: { IsBound y1 },
    pub ghost wide: { x0 ≤ℤ x1 },
    pub ghost tall: { y0 ≤ℤ y1 },
}

/// Whether the ranges from `low` to `high` and from `from` to `to` have a number in common.
fn ranges_meet(low: i64, high: i64, from: i64, to: i64) -> bool
    ensures { result ≡ (int_le low to && int_le from high) }
{
    low <= to && from <= high
}

/// Whether the range from `low` to `high` lies within that from `from` to `to`.
fn range_within(low: i64, high: i64, from: i64, to: i64) -> bool
    ensures { result ≡ (int_le from low && int_le high to) }
{
    from <= low && high <= to
}

impl GridBox {
    ghost use Rattle.streetmap_grid.specs.Values.{PositionValue};
    ghost use Rattle.streetmap_grid.specs.Views.{box_value};
    ghost use Rattle.streetmap_grid.specs.Faults.{box_fault};
    ghost use Rattle.streetmap_grid.specs.Extent.{IsExtent, union, Overlaps, overlaps, IsWithin};
    ghost use Rattle.streetmap_grid.specs.Extent.{is_within};

    /// The box of four bounds, in millimetres. Refused as `BadBox` if a bound is below
    /// -2,000,000,000 or above 2,000,000,000, or `x0` above `x1`, or `y0` above `y1`.
    pub fn new(x0: i64, y0: i64, x1: i64, y1: i64) -> Result<GridBox, GridFault>
        ensures value { IfOk result (λ g. box_value g
            ≡ record { x0 = x0; y0 = y0; x1 = x1; y1 = y1 }) }
        ensures accepted { OnOk result (box_fault (record { x0 = x0; y0 = y0; x1 = x1; y1 = y1 })
            ≡ None) }
        ensures refused { IfErr result (λ f.
            box_fault (record { x0 = x0; y0 = y0; x1 = x1; y1 = y1 }) ≡ Some f) }
    {
        if !is_bound(x0) || !is_bound(y0) || !is_bound(x1) || !is_bound(y1) {
            return Err(GridFault::BadBox);
        }
        if x0 <= x1 && y0 <= y1 {
            Ok(GridBox { x0, y0, x1, y1 })
        } else {
            Err(GridFault::BadBox)
        }
    }

    /// The least box that holds both. The union of the extents of two lists of positions is the
    /// extent of all the positions.
    pub fn union(&self, other: &GridBox) -> GridBox
        ensures value { box_value result ≡ union (box_value self.now) (box_value other.now) }
        ensures extent { (ps qs : List PositionValue) → IsExtent ps (box_value self.now)
            → IsExtent qs (box_value other.now) → IsExtent (ps ++ qs) (box_value result) }
    {
        GridBox {
            x0: self.x0.min(other.x0),
            y0: self.y0.min(other.y0),
            x1: self.x1.max(other.x1),
            y1: self.y1.max(other.y1),
        }
    }

    /// Whether the two boxes have a point in common, on their edges too.
    pub fn overlaps(&self, other: &GridBox) -> bool
        ensures point { IsTrue result ↔ Overlaps (box_value self.now) (box_value other.now) }
        ensures test { result ≡ overlaps (box_value self.now) (box_value other.now) }
    {
        ranges_meet(self.x0, self.x1, other.x0, other.x1)
            && ranges_meet(self.y0, self.y1, other.y0, other.y1)
    }

    /// Whether each point of the box lies in the other, on its edges too.
    pub fn is_within(&self, other: &GridBox) -> bool
        ensures points { IsTrue result ↔ IsWithin (box_value self.now) (box_value other.now) }
        ensures test { result ≡ is_within (box_value self.now) (box_value other.now) }
    {
        range_within(self.x0, self.x1, other.x0, other.x1)
            && range_within(self.y0, self.y1, other.y0, other.y1)
    }
}
