//! Rings of polygons (RFC 7946, section 3.1.6).
ghost use Rattle.std.specs.Prelude.{◌≡◌, IfSome};
ghost use Rattle.streetmap_grid.specs.Ring.{is_same, is_wrong};
ghost use Rattle.streetmap_grid.specs.Views.{position_value, box_value};
ghost use Rattle.streetmap_compact_reader.specs.Fronts.{IsRingFront, IsPolygonFront};

use crate::fronts::after_byte;
use crate::positions::{MAX_POSITIONS, Positions, take_positions};
use streetmap_grid::{GridBox, Position};

/// Whether two positions are identical, in their heights too.
fn is_same(one: Position, other: Position) -> bool
    ensures { result ≡ is_same (position_value one) (position_value other) }
{
    one == other
}

/// Whether a double area has the sign of a ring in the wrong direction.
fn is_wrong(hole: bool, area: i64) -> bool
    ensures { result ≡ is_wrong hole area }
{
    if hole { area > 0 } else { area < 0 }
}

/// A closed ring of four positions or more that runs clockwise if it is a hole and otherwise
/// counterclockwise, or has no area, and what follows it.
fn take_ring(rest: &str, hole: bool) -> Option<(Positions, &str)>
    ensures { IfSome result (λ r. IsRingFront hole rest.now r.1.now r.0) }
{
    let (kept, after) = take_positions(rest)?;
    if kept.count < 4 || !is_same(kept.first, kept.last) || is_wrong(hole, kept.area) {
        return None;
    }
    Some((kept, after))
}

/// The extent of the rings of a polygon, and what follows their array.
pub(crate) fn take_rings(rest: &str) -> Option<(GridBox, &str)>
    ensures { IfSome result (λ r. IsPolygonFront rest.now r.1.now (box_value r.0)) }
{
    let (exterior, following) = take_ring(after_byte(rest, b'[')?, false)?;
    let mut count = exterior.count;
    let mut extent = exterior.extent;
    let mut after = following;
    while let Some(apart) = after_byte(after, b',') {
        let (hole, following) = take_ring(apart, true)?;
        count = count.checked_add(hole.count)?;
        if count > MAX_POSITIONS {
            return None;
        }
        extent = extent.union(&hole.extent);
        after = following;
    }
    Some((extent, after_byte(after, b']')?))
}
