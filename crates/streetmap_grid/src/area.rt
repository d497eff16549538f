ghost use Rattle.std.specs.Prelude.{◌≡◌, ℤ, pos, negsuc, ◌≤ℤ◌, ◌*ℤ◌};
ghost use Rattle.streetmap_grid.specs.Range.{IsCoordinate};
ghost use Rattle.streetmap_grid.specs.PositionViews.{position_value, positions_value};
ghost use Rattle.streetmap_grid.specs.Ring as ring;

use crate::position::Position;

/// The product of two coordinates, which fits.
fn product(a: i64, b: i64) -> i64
    requires a_in { IsCoordinate a }
    requires b_in { IsCoordinate b }
    ensures value { result ≡ a *ℤ b }
    ensures low { negsuc 999999999999999999 ≤ℤ result }
    ensures high { result ≤ℤ pos 1000000000000000000 }
{
    a * b
}

/// Twice the area between an edge and the origin, in square millimetres.
fn edge_area(a: &Position, b: &Position) -> i64
    ensures value { result ≡ ring.edge_area (position_value a.now, position_value b.now) }
    ensures low { negsuc 1999999999999999999 ≤ℤ result }
    ensures high { result ≤ℤ pos 2000000000000000000 }
{
    let forth = product(a.x, b.y);
    let back = product(b.x, a.y);
    forth - back
}

/// Twice the area inside a ring, in square millimetres.
pub(crate) fn double_area(positions: &[Position]) -> i128
    ensures { result ≡ ring.double_area (positions_value positions.now) }
{
    let mut sum: i128 = 0;
    for i in 1..positions.len() {
        sum += i128::from(edge_area(&positions[i - 1], &positions[i]));
    }
    sum
}
