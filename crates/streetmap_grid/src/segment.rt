ghost use Rattle.std.specs.Prelude.{◌≡◌, ℤ, pos, negsuc, ◌≤ℤ◌, ◌*ℤ◌, ◌↔◌, IsTrue};
ghost use Rattle.streetmap_grid.specs.Range.{IsCoordinate, IsBound};
ghost use Rattle.streetmap_grid.specs.Views.{position_value, box_value};
ghost use Rattle.streetmap_grid.specs.Slab.{IsReachedAt, AreBothReached};
ghost use Rattle.streetmap_grid.specs.Meeting.{IsWithinAt, SegmentMeets};

use crate::grid_box::GridBox;
use crate::position::Position;

/// One axis of a segment, reflected so that it starts at 0 and does not fall, and the box beside
/// it, in millimetres.
#[derive(Clone, Copy)]
struct Slab {
    near: i64,
    far: i64,
    along: i64,
    ghost ordered: { near ≤ℤ far },
    ghost forward: { pos 0 ≤ℤ along },
    ghost short: { along ≤ℤ pos 2000000000 },
    ghost near_in: { (negsuc 2999999999 ≤ℤ near) × (near ≤ℤ pos 3000000000) },
    ghost far_in: { (negsuc 2999999999 ≤ℤ far) × (far ≤ℤ pos 3000000000) },
}

/// The span of an axis from one end of a segment to the other, beside a box from `low` to `high`.
fn slab_of(from: i64, to: i64, low: i64, high: i64) -> Slab
    requires from_in { IsCoordinate from }
    requires to_in { IsCoordinate to }
    requires low_in { IsBound low }
    requires high_in { IsBound high }
    requires order { low ≤ℤ high }
    ensures reached { (p q : ℤ) → IsWithinAt p q from to low high
        → IsReachedAt p q result.near result.far result.along }
    ensures within { (p q : ℤ) → IsReachedAt p q result.near result.far result.along
        → IsWithinAt p q from to low high }
{
    if from <= to {
        return Slab {
            near: low - from,
            far: high - from,
            along: to - from,
        };
    }
    Slab {
        near: from - high,
        far: from - low,
        along: from - to,
    }
}

/// The product of two lengths, which fits.
pub fn product(width: i64, along: i64) -> i64
    requires width_low { negsuc 2999999999 ≤ℤ width }
    requires width_high { width ≤ℤ pos 3000000000 }
    requires along_low { negsuc 1999999999 ≤ℤ along }
    requires along_high { along ≤ℤ pos 2000000000 }
    ensures { result ≡ width *ℤ along }
{
    width * along
}

/// Whether the ends reach into the box on both axes, and two of its corners lie on the two sides of
/// the line.
fn are_both_reached(a: Slab, b: Slab) -> bool
    ensures { IsTrue result ↔ AreBothReached a.near a.far a.along b.near b.far b.along }
{
    if a.far < 0 || a.along < a.near || b.far < 0 || b.along < b.near {
        return false;
    }
    if product(b.far, a.along) < product(a.near, b.along) {
        return false;
    }
    product(b.near, a.along) <= product(a.far, b.along)
}

/// Whether some point of the segment from `a` to `b` lies in the box.
pub(crate) fn segment_meets(a: &Position, b: &Position, area: &GridBox) -> bool
    ensures { IsTrue result ↔ SegmentMeets (position_value a.now) (position_value b.now)
        (box_value area.now) }
{
    let across = slab_of(a.x, b.x, area.x0, area.x1);
    let up = slab_of(a.y, b.y, area.y0, area.y1);
    are_both_reached(across, up)
}
