ghost use Rattle.std.specs.Prelude.{◌≡◌, ◌↔◌, IsTrue};
ghost use Rattle.std.specs.Bool.{OnTrue};

use crate::extent::extent_of_geometry;
use crate::grid_box::GridBox;
use crate::line::Line;
use crate::meeting::geometry_meets;
use crate::non_empty::NonEmpty;
use crate::polygon::Polygon;
use crate::position::Position;

/// A geometry of one of six kinds (RFC 7946, sections 3.1.2 to 3.1.7).
#[derive(Drop)]
pub enum SimpleGeometry {
    /// One position.
    Point(Position),
    /// One or more positions.
    MultiPoint(NonEmpty<Position>),
    /// A line.
    LineString(Line),
    /// One or more lines.
    MultiLineString(NonEmpty<Line>),
    /// A polygon.
    Polygon(Polygon),
    /// One or more polygons.
    MultiPolygon(NonEmpty<Polygon>),
}

/// A geometry of one of the six kinds, or a collection of these (RFC 7946, section 3.1).
///
/// # Semantics
///
/// A list of any kind is the union of its members. A geometry has at least one vertex.
///
/// # What is not checked
///
/// Members may overlap or be equal. A collection holds no collection.
#[derive(Drop)]
pub enum Geometry {
    /// A geometry of one of the six kinds.
    Simple(SimpleGeometry),
    /// One or more geometries (RFC 7946, section 3.1.8), not nested.
    Collection(NonEmpty<SimpleGeometry>),
}

impl Geometry {
    ghost use Rattle.streetmap_grid.specs.Views.{geometry_value, box_value};
    ghost use Rattle.streetmap_grid.specs.WellFormed.{IsGeometry};
    ghost use Rattle.streetmap_grid.specs.Meeting as meeting;
    ghost use Rattle.streetmap_grid.specs.Extent.{IsExtent, extent_of, vertices, Overlaps};
    ghost use Rattle.streetmap_grid.specs.Extent.{is_within};

    /// What is known of every geometry: its coordinates are in range, its lines and rings are long
    /// enough, its rings are closed and its lists are not empty.
    pub fn facts(&self)
        ensures { IsGeometry (geometry_value self.now) }
    {}

    /// The extent: the box that holds every position, those of holes and members too, and each of
    /// whose bounds is the coordinate of one. In millimetres. Heights are ignored.
    pub fn extent(&self) -> GridBox
        ensures extent { IsExtent (vertices (geometry_value self.now)) (box_value result) }
        ensures value { box_value result ≡ extent_of (geometry_value self.now) }
    {
        extent_of_geometry(self)
    }

    /// Whether the geometry meets the box (`bbox` of OGC 17-069, section 7.15.3): a position that
    /// lies in it, a line of which a segment has a point in it, a polygon of which an edge of any
    /// ring has one or in which the box's south-western corner lies, a list of which a member does.
    pub fn meets(&self, area: &GridBox) -> bool
        ensures meets { IsTrue result ↔ meeting.GeometryMeets (geometry_value self.now)
            (box_value area.now) }
        ensures test { result ≡ meeting.geometry_meets (geometry_value self.now)
            (box_value area.now) }

        // What meets a box has an extent that overlaps it.
        ensures overlaps { OnTrue result
            (Overlaps (extent_of (geometry_value self.now)) (box_value area.now)) }

        // What has an extent within the box meets it.
        ensures within { IsTrue (is_within (extent_of (geometry_value self.now))
            (box_value area.now)) → IsTrue result }
    {
        geometry_meets(self, area)
    }
}
