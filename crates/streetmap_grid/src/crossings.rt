ghost use Rattle.std.specs.Prelude.{◌≡◌, ◌+◌, ◌%◌, cond, ℤ, pos, ◌≤ℤ◌, ◌<ℤ◌, int_lt, ◌↔◌, IsTrue};
ghost use Rattle.streetmap_grid.specs.Range.{IsBound};
ghost use Rattle.streetmap_grid.specs.Views.{position_value, positions_value, rings_value};
ghost use Rattle.streetmap_grid.specs.Crossings.{side, is_crossing, crossings, IsInside};

use crate::grid_box::GridBox;
use crate::position::Position;
use crate::ring::Ring;
use crate::segment::product;

/// Whether (x, y) lies left of the line from `lower` to `upper`, between whose northings it is.
fn lies_left(x: i64, y: i64, lower: &Position, upper: &Position) -> bool
    requires x_in { IsBound x }
    requires y_in { IsBound y }
    requires from_below { lower.now.y ≤ℤ y }
    requires to_above { y <ℤ upper.now.y }
    ensures { result ≡ int_lt (pos 0)
        (side (position_value lower.now) (position_value upper.now) x y) }
{
    let east = x - lower.x;
    let rise = upper.y - lower.y;
    let run = upper.x - lower.x;
    let north = y - lower.y;
    product(east, rise) < product(run, north)
}

/// Whether the edge from `a` to `b` is a crossing of (x, y).
fn crosses(x: i64, y: i64, a: &Position, b: &Position) -> bool
    requires x_in { IsBound x }
    requires y_in { IsBound y }
    ensures { result ≡ is_crossing x y (position_value a.now) (position_value b.now) }
{
    if a.y > y {
        if b.y > y {
            return false;
        }
        return lies_left(x, y, b, a);
    }
    if b.y > y {
        return lies_left(x, y, a, b);
    }
    false
}

/// A truth value negated once for each crossing of (x, y) by a ring.
fn turned_over(odd: bool, x: i64, y: i64, ring: &[Position]) -> bool
    requires x_in { IsBound x }
    requires y_in { IsBound y }
    ensures { cond result 1 0 ≡ (cond odd 1 0 + crossings x y (positions_value ring.now)) % 2 }
{
    let mut inside = odd;
    for i in 1..ring.len() {
        if crosses(x, y, &ring[i - 1], &ring[i]) {
            inside = !inside;
        }
    }
    inside
}

/// Whether the south-western corner of the box is inside of the rings.
pub(crate) fn holds_corner(rings: &[Ring], area: &GridBox) -> bool
    ensures { IsTrue result ↔ IsInside area.now.x0 area.now.y0 (rings_value rings.now) }
{
    let mut odd = false;
    for ring in rings {
        odd = turned_over(odd, area.x0, area.y0, ring.positions());
    }
    odd
}
