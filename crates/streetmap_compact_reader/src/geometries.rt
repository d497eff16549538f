//! Geometries (RFC 7946, section 3.1).
ghost use Rattle.std.specs.Prelude.{IfSome, option_map};
ghost use Rattle.streetmap_grid.specs.Views.{box_value};
ghost use Rattle.streetmap_compact_reader.specs.Fronts.{AreCoordinates, IsGeometryFront};

use crate::fronts::after;
use crate::positions::{extent_at, take_position, take_positions};
use crate::rings::take_rings;
use streetmap_grid::GridBox;

/// The extent of a point, from its coordinates on, and what follows it.
fn take_point(rest: &str) -> Option<(GridBox, &str)>
    ensures { IfSome result (λ r. AreCoordinates rest.now r.1.now (box_value r.0)) }
{
    let (position, typed) = take_position(rest)?;
    let following = after(typed, ",\"type\":\"Point\"}")?;
    Some((extent_at(position), following))
}

/// The extent of a line or of several points, from the coordinates on, and what follows.
fn take_line_or_points(rest: &str) -> Option<(GridBox, &str)>
    ensures { IfSome result (λ r. AreCoordinates rest.now r.1.now (box_value r.0)) }
{
    let (kept, typed) = take_positions(rest)?;
    match after(typed, ",\"type\":\"LineString\"}") {
        Some(following) => {
            if kept.count < 2 {
                return None;
            }
            Some((kept.extent, following))
        }
        None => {
            let following = after(typed, ",\"type\":\"MultiPoint\"}")?;
            Some((kept.extent, following))
        }
    }
}

/// The extent of a polygon, from its coordinates on, and what follows it.
fn take_polygon(rest: &str) -> Option<(GridBox, &str)>
    ensures { IfSome result (λ r. AreCoordinates rest.now r.1.now (box_value r.0)) }
{
    let (extent, typed) = take_rings(rest)?;
    let following = after(typed, ",\"type\":\"Polygon\"}")?;
    Some((extent, following))
}

/// The extent of a geometry, from its coordinates on, and what follows it.
fn take_coordinates(rest: &str) -> Option<(GridBox, &str)>
    ensures { IfSome result (λ r. AreCoordinates rest.now r.1.now (box_value r.0)) }
{
    if rest.as_bytes().starts_with(b"[[[") {
        take_polygon(rest)
    } else if rest.as_bytes().starts_with(b"[[") {
        take_line_or_points(rest)
    } else {
        take_point(rest)
    }
}

/// The extent of a geometry, or none of null, and what follows it.
pub(crate) fn take_geometry(rest: &str) -> Option<(Option<GridBox>, &str)>
    ensures { IfSome result (λ r. IsGeometryFront rest.now r.1.now (option_map box_value r.0)) }
{
    match after(rest, "{\"coordinates\":") {
        Some(placed) => {
            let (extent, following) = take_coordinates(placed)?;
            Some((Some(extent), following))
        }
        None => {
            let following = after(rest, "null")?;
            Some((None, following))
        }
    }
}
