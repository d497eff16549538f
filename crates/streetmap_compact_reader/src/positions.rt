//! Positions, and arrays of positions (RFC 7946, section 3.1.1).
ghost use Rattle.std.specs.Prelude.{◌≡◌, ◌++◌, ◌∷◌, [], IfSome, List};
ghost use Rattle.serde_json.specs.Written.{compact_text};
ghost use Rattle.streetmap_grid.specs.Values.{PositionValue};
ghost use Rattle.streetmap_grid.specs.Views.{position_value, box_value};
ghost use Rattle.streetmap_grid.specs.Extent.{positions_extent};
ghost use Rattle.streetmap_grid.specs.Ring.{edge_area};
ghost use Rattle.streetmap_feature_text.specs.Written.{height_text, position_data};
ghost use Rattle.streetmap_compact_reader.specs.Fronts.{IsKeptOf, ArePositions};

use crate::fronts::{after_byte, first_byte};
use crate::numbers::take_number;
use streetmap_grid::{GridBox, Position};

/// The greatest number of positions of a feature.
pub(crate) const MAX_POSITIONS: usize = 100_000;

/// What is kept of the positions of an array, one at least.
#[derive(Clone, Copy)]
pub(crate) struct Positions {
    /// Their number, from 1 to 100,000.
    pub(crate) count: usize,
    /// Their extent, in millimetres.
    pub(crate) extent: GridBox,
    pub(crate) first: Position,
    pub(crate) last: Position,
    /// The sum over their edges of `ax * by - bx * ay`, in square millimetres: above zero for a
    /// ring that runs counterclockwise.
    pub(crate) area: i64,
}

/// A height, if any, with the bracket that closes its position, and what follows it.
fn take_height(rest: &str) -> Option<(Option<i64>, &str)>
    ensures { IfSome result (λ r. rest.now ≡ height_text r.0 ++ 93 ∷ r.1.now) }
{
    let (first, rest) = first_byte(rest)?;
    match first {
        b']' => Some((None, rest)),
        b',' => {
            let (height, rest) = take_number(rest)?;
            Some((Some(height), after_byte(rest, b']')?))
        }
        _ => None,
    }
}

/// A position of the grid, and what follows it.
pub(crate) fn take_position(rest: &str) -> Option<(Position, &str)>
    ensures { IfSome result (λ r. rest.now
        ≡ compact_text (position_data (position_value r.0)) ++ r.1.now) }
{
    let opened = after_byte(rest, b'[')?;
    let (x, after_x) = take_number(opened)?;
    let apart = after_byte(after_x, b',')?;
    let (y, after_y) = take_number(apart)?;
    let (z, after) = take_height(after_y)?;
    match Position::new(x, y, z) {
        Ok(position) => Some((position, after)),
        Err(_) => None,
    }
}

/// The extent of one position.
pub(crate) fn extent_at(position: Position) -> GridBox
    ensures { box_value result ≡ positions_extent (position_value position ∷ []) }
{
    GridBox {
        x0: position.x,
        y0: position.y,
        x1: position.x,
        y1: position.y,
    }
}

/// Twice the area between an edge and the origin, in square millimetres, if it fits.
fn edge_area(from: Position, to: Position) -> Option<i64>
    ensures { IfSome result (λ area. area ≡ edge_area (position_value from, position_value to)) }
{
    let forth = from.x.checked_mul(to.y)?;
    let back = to.x.checked_mul(from.y)?;
    let area = forth.checked_sub(back)?;
    Some(area)
}

/// What is kept of one position.
fn kept_of(position: Position) -> Positions
    ensures { IsKeptOf (position_value position) [] result }
{
    Positions {
        count: 1,
        extent: extent_at(position),
        first: position,
        last: position,
        area: 0,
    }
}

/// What is kept of the positions with one more, unless they are too many or the sum does not fit.
fn with_next(kept: Positions, next: Position) -> Option<Positions>
    ensures { IfSome result (λ more. (first : PositionValue) (others : List PositionValue)
        → IsKeptOf first others kept → IsKeptOf first (others ++ position_value next ∷ []) more) }
{
    if kept.count >= MAX_POSITIONS {
        return None;
    }
    let edge = edge_area(kept.last, next)?;
    let area = kept.area.checked_add(edge)?;
    Some(Positions {
        count: kept.count + 1,
        extent: kept.extent.union(&extent_at(next)),
        first: kept.first,
        last: next,
        area,
    })
}

/// An array of positions, one at least, and what follows it.
pub(crate) fn take_positions(rest: &str) -> Option<(Positions, &str)>
    ensures { IfSome result (λ r. ArePositions rest.now r.1.now r.0) }
{
    let (first, following) = take_position(after_byte(rest, b'[')?)?;
    let mut kept = kept_of(first);
    let mut after = following;
    while let Some(apart) = after_byte(after, b',') {
        let (next, following) = take_position(apart)?;
        kept = with_next(kept, next)?;
        after = following;
    }
    Some((kept, after_byte(after, b']')?))
}
