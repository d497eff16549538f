//! Boxes in whole numbers from 0.
ghost use Rattle.std.specs.Prelude.{◌≡◌};
ghost use Rattle.streetmap_grid.specs.Views.{box_value};
ghost use Rattle.streetmap_grid.specs.Range.{IsBound};
ghost use Rattle.streetmap_cells.specs.Envelopes.{IsFromCorner, IsEnvelopeOf};
ghost use Rattle.streetmap_cells.specs.Envelopes.{overlaps as overlaps_of};

use streetmap_grid::GridBox;

/// How far the middle of the grid is from its south-western corner in each direction, in
/// millimetres.
const TO_MIDDLE: i64 = 2_147_483_648;

/// A bound, counted from the south-western corner of the grid.
fn from_corner(bound: i64) -> u32
    requires { IsBound bound }
    ensures { IsFromCorner result bound }
{
    (bound + TO_MIDDLE) as u32
}

/// A box in millimetres from the south-western corner of the grid: its edges belong to it. It takes
/// half the memory of a `GridBox`.
#[derive(Clone, Copy, PartialEq, Eq, Drop)]
pub struct Envelope {
    /// The western bound.
    pub x0: u32,
    /// The southern bound.
    pub y0: u32,
    /// The eastern bound.
    pub x1: u32,
    /// The northern bound.
    pub y1: u32,
}

impl Envelope {
    /// A box of the grid, counted from the grid's corner.
    pub fn of(area: &GridBox) -> Envelope
        ensures { IsEnvelopeOf result (box_value area.now) }
    {
        Envelope {
            x0: from_corner(area.x0),
            y0: from_corner(area.y0),
            x1: from_corner(area.x1),
            y1: from_corner(area.y1),
        }
    }

    /// Whether the two have a point in common, on their edges too. All four bounds are compared. If
    /// the caller counts the result without a branch on it, no branch depends on one comparison
    /// alone: among boxes in no order the processor mispredicts such a branch.
    pub fn overlaps(&self, other: &Envelope) -> bool
        ensures { result ≡ overlaps_of self.now other.now }
    {
        (self.x0 <= other.x1)
            & ((other.x0 <= self.x1) & ((self.y0 <= other.y1) & (other.y0 <= self.y1)))
    }
}
