ghost use Rattle.std.specs.Prelude.{◌↔◌, IsTrue};
ghost use Rattle.streetmap_grid.specs.Views.{position_value, positions_value, lines_value};
ghost use Rattle.streetmap_grid.specs.Views.{rings_value, polygon_value, polygons_value};
ghost use Rattle.streetmap_grid.specs.Views.{simple_value, simples_value, geometry_value};
ghost use Rattle.streetmap_grid.specs.Views.{box_value};
ghost use Rattle.streetmap_grid.specs.Some.{SomeOf};
ghost use Rattle.streetmap_grid.specs.Meeting.{PointMeets, LineMeets, PolygonMeets, SimpleMeets};
ghost use Rattle.streetmap_grid.specs.Meeting.{GeometryMeets};

use crate::crossings::holds_corner;
use crate::geometry::{Geometry, SimpleGeometry};
use crate::grid_box::GridBox;
use crate::line::Line;
use crate::polygon::Polygon;
use crate::position::Position;
use crate::ring::Ring;
use crate::segment::segment_meets;

/// Whether the position lies in the box.
fn point_meets(p: &Position, area: &GridBox) -> bool
    ensures { IsTrue result ↔ PointMeets (position_value p.now) (box_value area.now) }
{
    if p.x < area.x0 || area.x1 < p.x {
        return false;
    }
    if p.y < area.y0 || area.y1 < p.y {
        return false;
    }
    true
}

/// Whether some position lies in the box.
fn some_point_meets(positions: &[Position], area: &GridBox) -> bool
    ensures { IsTrue result ↔ SomeOf (λ p. PointMeets p (box_value area.now))
        (positions_value positions.now) }
{
    for p in positions {
        if point_meets(p, area) {
            return true;
        }
    }
    false
}

/// Whether some segment of the line meets the box.
fn line_meets(positions: &[Position], area: &GridBox) -> bool
    ensures { IsTrue result ↔ LineMeets (positions_value positions.now) (box_value area.now) }
{
    for i in 1..positions.len() {
        if segment_meets(&positions[i - 1], &positions[i], area) {
            return true;
        }
    }
    false
}

/// Whether some line meets the box.
fn some_line_meets(lines: &[Line], area: &GridBox) -> bool
    ensures { IsTrue result ↔ SomeOf (λ l. LineMeets l (box_value area.now))
        (lines_value lines.now) }
{
    for line in lines {
        if line_meets(line.positions(), area) {
            return true;
        }
    }
    false
}

/// Whether some edge of some ring meets the box.
fn some_ring_meets(rings: &[Ring], area: &GridBox) -> bool
    ensures { IsTrue result ↔ SomeOf (λ r. LineMeets r (box_value area.now))
        (rings_value rings.now) }
{
    for ring in rings {
        if line_meets(ring.positions(), area) {
            return true;
        }
    }
    false
}

/// Whether an edge of any ring meets the box, or its south-western corner is inside.
fn polygon_meets(polygon: &Polygon, area: &GridBox) -> bool
    ensures { IsTrue result ↔ PolygonMeets (polygon_value polygon.now) (box_value area.now) }
{
    let rings = polygon.rings();
    some_ring_meets(rings, area) || holds_corner(rings, area)
}

/// Whether some polygon meets the box.
fn some_polygon_meets(polygons: &[Polygon], area: &GridBox) -> bool
    ensures { IsTrue result ↔ SomeOf (λ p. PolygonMeets p (box_value area.now))
        (polygons_value polygons.now) }
{
    for polygon in polygons {
        if polygon_meets(polygon, area) {
            return true;
        }
    }
    false
}

/// Whether a geometry that is not a collection meets the box.
fn simple_meets(geometry: &SimpleGeometry, area: &GridBox) -> bool
    ensures { IsTrue result ↔ SimpleMeets (simple_value geometry.now) (box_value area.now) }
{
    match geometry {
        SimpleGeometry::Point(p) => point_meets(p, area),
        SimpleGeometry::MultiPoint(positions) => some_point_meets(positions.items(), area),
        SimpleGeometry::LineString(line) => line_meets(line.positions(), area),
        SimpleGeometry::MultiLineString(lines) => some_line_meets(lines.items(), area),
        SimpleGeometry::Polygon(polygon) => polygon_meets(polygon, area),
        SimpleGeometry::MultiPolygon(polygons) => some_polygon_meets(polygons.items(), area),
    }
}

/// Whether some member meets the box.
fn some_member_meets(members: &[SimpleGeometry], area: &GridBox) -> bool
    ensures { IsTrue result ↔ SomeOf (λ s. SimpleMeets s (box_value area.now))
        (simples_value members.now) }
{
    for member in members {
        if simple_meets(member, area) {
            return true;
        }
    }
    false
}

/// Whether a geometry meets the box.
pub fn geometry_meets(geometry: &Geometry, area: &GridBox) -> bool
    ensures { IsTrue result ↔ GeometryMeets (geometry_value geometry.now) (box_value area.now) }
{
    match geometry {
        Geometry::Simple(simple) => simple_meets(simple, area),
        Geometry::Collection(members) => some_member_meets(members.items(), area),
    }
}
