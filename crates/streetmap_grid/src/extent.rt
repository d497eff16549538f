ghost use Rattle.std.specs.Prelude.{◌≡◌, List, [], ◌∷◌, ◌++◌, Some};
ghost use Rattle.std.specs.List.{flat_map};
ghost use Rattle.streetmap_grid.specs.Values.{PositionValue};
ghost use Rattle.streetmap_grid.specs.Views.{position_value, positions_value, lines_value};
ghost use Rattle.streetmap_grid.specs.Views.{rings_value, polygons_value, simple_value};
ghost use Rattle.streetmap_grid.specs.Views.{simples_value, geometry_value, box_value};
ghost use Rattle.streetmap_grid.specs.Extent.{IsExtent, polygon_vertices, simple_vertices};
ghost use Rattle.streetmap_grid.specs.Extent.{vertices, extent_of};
ghost use Rattle.streetmap_grid.specs.Bounds.{AreBounds};

use crate::geometry::{Geometry, SimpleGeometry};
use crate::grid_box::GridBox;
use crate::line::Line;
use crate::polygon::Polygon;
use crate::position::Position;
use crate::ring::Ring;

/// The extent of one position.
fn extent_at(p: &Position) -> GridBox
    ensures { IsExtent (position_value p.now ∷ []) (box_value result) }
{
    GridBox {
        x0: p.x,
        y0: p.y,
        x1: p.x,
        y1: p.y,
    }
}

/// The bounds so far, extended by one more position.
fn grown(bounds: Option<GridBox>, p: &Position) -> Option<GridBox>
    ensures { (ps : List PositionValue) → AreBounds ps bounds
        → AreBounds (ps ++ position_value p.now ∷ []) result }
{
    match bounds {
        Some(b) => Some(b.union(&extent_at(p))),
        None => Some(extent_at(p)),
    }
}

/// The bounds so far, extended by more positions.
fn with_positions(bounds: Option<GridBox>, positions: &[Position]) -> Option<GridBox>
    ensures { (ps : List PositionValue) → AreBounds ps bounds
        → AreBounds (ps ++ positions_value positions.now) result }
{
    let mut grows = bounds;
    for p in positions {
        grows = grown(grows, p);
    }
    grows
}

/// The bounds so far, extended by the positions of lines.
fn with_lines(bounds: Option<GridBox>, lines: &[Line]) -> Option<GridBox>
    ensures { (ps : List PositionValue) → AreBounds ps bounds
        → AreBounds (ps ++ flat_map (λ line. line) (lines_value lines.now)) result }
{
    let mut grows = bounds;
    for line in lines {
        grows = with_positions(grows, line.positions());
    }
    grows
}

/// The bounds so far, extended by the positions of rings.
fn with_rings(bounds: Option<GridBox>, rings: &[Ring]) -> Option<GridBox>
    ensures { (ps : List PositionValue) → AreBounds ps bounds
        → AreBounds (ps ++ polygon_vertices (rings_value rings.now)) result }
{
    let mut grows = bounds;
    for ring in rings {
        grows = with_positions(grows, ring.positions());
    }
    grows
}

/// The bounds so far, extended by the positions of polygons.
fn with_polygons(bounds: Option<GridBox>, polygons: &[Polygon]) -> Option<GridBox>
    ensures { (ps : List PositionValue) → AreBounds ps bounds
        → AreBounds (ps ++ flat_map polygon_vertices (polygons_value polygons.now)) result }
{
    let mut grows = bounds;
    for polygon in polygons {
        grows = with_rings(grows, polygon.rings());
    }
    grows
}

/// The bounds so far, extended by the positions of a geometry that is not a collection.
fn with_simple(bounds: Option<GridBox>, geometry: &SimpleGeometry) -> Option<GridBox>
    ensures { (ps : List PositionValue) → AreBounds ps bounds
        → AreBounds (ps ++ simple_vertices (simple_value geometry.now)) result }
{
    match geometry {
        SimpleGeometry::Point(p) => grown(bounds, p),
        SimpleGeometry::MultiPoint(positions) => with_positions(bounds, positions.items()),
        SimpleGeometry::LineString(line) => with_positions(bounds, line.positions()),
        SimpleGeometry::MultiLineString(lines) => with_lines(bounds, lines.items()),
        SimpleGeometry::Polygon(polygon) => with_rings(bounds, polygon.rings()),
        SimpleGeometry::MultiPolygon(polygons) => with_polygons(bounds, polygons.items()),
    }
}

/// The bounds so far, extended by the positions of the members of a collection.
fn with_members(bounds: Option<GridBox>, members: &[SimpleGeometry]) -> Option<GridBox>
    ensures { (ps : List PositionValue) → AreBounds ps bounds
        → AreBounds (ps ++ flat_map simple_vertices (simples_value members.now)) result }
{
    let mut grows = bounds;
    for member in members {
        grows = with_simple(grows, member);
    }
    grows
}

/// The bounds of all positions of a geometry.
fn bounds_of(geometry: &Geometry) -> Option<GridBox>
    ensures { AreBounds (vertices (geometry_value geometry.now)) result }
{
    match geometry {
        Geometry::Simple(simple) => with_simple(None, simple),
        Geometry::Collection(members) => with_members(None, members.items()),
    }
}

/// The extent of a geometry, which has at least one position.
pub(crate) fn extent_of_geometry(geometry: &Geometry) -> GridBox
    ensures extent { IsExtent (vertices (geometry_value geometry.now)) (box_value result) }
    ensures value { box_value result ≡ extent_of (geometry_value geometry.now) }
{
    match bounds_of(geometry) {
        Some(extent) => extent,
        None => unreachable!(),
    }
}
