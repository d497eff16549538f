//! Features and collections as JSON texts (RFC 7946, section 3; RFC 8259), without a value in
//! between.
ghost use Rattle.std.specs.Prelude.{◌≡◌, ◌++◌, IfOk, OnOk, OnErr, map, option_map, string_bytes};
ghost use Rattle.serde_json.specs.Written.{comma_if, compact_text};
ghost use Rattle.streetmap_grid.specs.Values as values;
ghost use Rattle.streetmap_grid.specs.Views.{position_value, positions_value};
ghost use Rattle.streetmap_grid.specs.Views.{lines_value, rings_value};
ghost use Rattle.streetmap_grid.specs.Views.{polygons_value, simple_value, simples_value};
ghost use Rattle.streetmap_grid.specs.Views.{geometry_value};
ghost use Rattle.streetmap_geojson.specs.FeatureView.{feature_value};
ghost use Rattle.streetmap_feature_text.specs.Written.{number_data, height_text, name_of};
ghost use Rattle.streetmap_feature_text.specs.Written.{coordinates_data, position_data, line_data};
ghost use Rattle.streetmap_feature_text.specs.Written.{polygon_data, array_of, simple_data};
ghost use Rattle.streetmap_feature_text.specs.Written.{geometry_data, geometry_member};
ghost use Rattle.streetmap_feature_text.specs.Written.{feature_data, collection_data};

use crate::feature_values::kind_name;
use crate::properties_text::push_properties;
use crate::quotes::push_quoted;
use serde_json::Value;
use std::alloc::{AllocError, Global};
use streetmap_geojson::Feature;
use streetmap_grid::{Geometry, Line, Polygon, Position, Ring, SimpleGeometry};

/// Appends a comma, if an element or a member comes before. If memory runs out, nothing is
/// appended.
pub fn push_comma(out: &mut String, later: bool) -> Result<(), AllocError>
    ensures bytes { OnOk result (string_bytes out.new ≡ string_bytes out.old ++ comma_if later) }
    ensures kept { OnErr result (string_bytes out.new ≡ string_bytes out.old) }
{
    if later { out.push_str(",") } else { Ok(()) }
}

/// Appends a whole number in decimal digits.
pub(crate) fn push_number(out: &mut String, number: i64) -> Result<(), AllocError>
    ensures { OnOk result (string_bytes out.new
        ≡ string_bytes out.old ++ compact_text (number_data number)) }
{
    let mut digits = itoa::Buffer::new();
    out.push_str(digits.format(number))
}

/// Appends a height, if any, and the comma before it.
fn push_height(out: &mut String, height: Option<i64>) -> Result<(), AllocError>
    ensures { OnOk result (string_bytes out.new ≡ string_bytes out.old ++ height_text height) }
{
    match height {
        Some(number) => {
            out.push_str(",")?;
            push_number(out, number)
        }
        None => Ok(()),
    }
}

#[tactic(auto, unfolding(crate::specs::Written::position_data))]
fn push_position(out: &mut String, position: &Position) -> Result<(), AllocError>
    ensures { OnOk result (string_bytes out.new
        ≡ string_bytes out.old ++ compact_text (position_data (position_value position.now))) }
{
    out.push_str("[")?;
    push_number(out, position.x)?;
    out.push_str(",")?;
    push_number(out, position.y)?;
    push_height(out, position.z)?;
    out.push_str("]")
}

fn push_positions(out: &mut String, positions: &[Position]) -> Result<(), AllocError>
    ensures { OnOk result (string_bytes out.new
        ≡ string_bytes out.old ++ compact_text (line_data (positions_value positions.now))) }
{
    out.push_str("[")?;
    let mut later = false;
    for position in positions {
        push_comma(out, later)?;
        push_position(out, position)?;
        later = true;
    }
    out.push_str("]")
}

fn push_lines(out: &mut String, lines: &[Line]) -> Result<(), AllocError>
    ensures { OnOk result (string_bytes out.new
        ≡ string_bytes out.old ++ compact_text (array_of line_data (lines_value lines.now))) }
{
    out.push_str("[")?;
    let mut later = false;
    for line in lines {
        push_comma(out, later)?;
        push_positions(out, line.positions())?;
        later = true;
    }
    out.push_str("]")
}

fn push_rings(out: &mut String, rings: &[Ring]) -> Result<(), AllocError>
    ensures { OnOk result (string_bytes out.new
        ≡ string_bytes out.old ++ compact_text (polygon_data (rings_value rings.now))) }
{
    out.push_str("[")?;
    let mut later = false;
    for ring in rings {
        push_comma(out, later)?;
        push_positions(out, ring.positions())?;
        later = true;
    }
    out.push_str("]")
}

fn push_polygons(out: &mut String, polygons: &[Polygon]) -> Result<(), AllocError>
    ensures { OnOk result (string_bytes out.new
        ≡ string_bytes out.old ++ compact_text
        (array_of polygon_data (polygons_value polygons.now))) }
{
    out.push_str("[")?;
    let mut later = false;
    for polygon in polygons {
        push_comma(out, later)?;
        push_rings(out, polygon.rings())?;
        later = true;
    }
    out.push_str("]")
}

/// Appends the array of a geometry's `coordinates`.
#[tactic(auto, unfolding(crate::specs::Written::position_data))]
fn push_coordinates(out: &mut String, geometry: &SimpleGeometry) -> Result<(), AllocError>
    ensures { OnOk result (string_bytes out.new
        ≡ string_bytes out.old ++ compact_text (coordinates_data (simple_value geometry.now))) }
{
    match geometry {
        SimpleGeometry::Point(position) => push_position(out, position),
        SimpleGeometry::MultiPoint(positions) => push_positions(out, positions.items()),
        SimpleGeometry::LineString(line) => push_positions(out, line.positions()),
        SimpleGeometry::MultiLineString(lines) => push_lines(out, lines.items()),
        SimpleGeometry::Polygon(polygon) => push_rings(out, polygon.rings()),
        SimpleGeometry::MultiPolygon(polygons) => push_polygons(out, polygons.items()),
    }
}

/// Appends the name of a geometry's kind.
fn push_name(out: &mut String, geometry: &SimpleGeometry) -> Result<(), AllocError>
    ensures { OnOk result (string_bytes out.new
        ≡ string_bytes out.old ++ name_of (simple_value geometry.now)) }
{
    out.push_str(kind_name(geometry))
}

fn push_simple(out: &mut String, geometry: &SimpleGeometry) -> Result<(), AllocError>
    ensures { OnOk result (string_bytes out.new
        ≡ string_bytes out.old ++ compact_text (simple_data (simple_value geometry.now))) }
{
    out.push_str("{\"coordinates\":")?;
    push_coordinates(out, geometry)?;
    out.push_str(",\"type\":\"")?;
    push_name(out, geometry)?;
    out.push_str("\"}")
}

fn push_simples(out: &mut String, geometries: &[SimpleGeometry]) -> Result<(), AllocError>
    ensures { OnOk result (string_bytes out.new
        ≡ string_bytes out.old ++ compact_text
        (array_of simple_data (simples_value geometries.now))) }
{
    out.push_str("[")?;
    let mut later = false;
    for geometry in geometries {
        push_comma(out, later)?;
        push_simple(out, geometry)?;
        later = true;
    }
    out.push_str("]")
}

/// Appends a GeometryCollection of these members.
fn push_collection(out: &mut String, members: &[SimpleGeometry]) -> Result<(), AllocError>
    ensures { OnOk result (string_bytes out.new
        ≡ string_bytes out.old ++ compact_text
        (geometry_data (values.collection (simples_value members.now)))) }
{
    out.push_str("{\"geometries\":")?;
    push_simples(out, members)?;
    out.push_str(",\"type\":\"GeometryCollection\"}")
}

/// Appends a geometry, or null.
fn push_geometry(out: &mut String, geometry: Option<&Geometry>) -> Result<(), AllocError>
    ensures { OnOk result (string_bytes out.new
        ≡ string_bytes out.old ++ compact_text
        (geometry_member (option_map (λ g. geometry_value g.now) geometry.entry))) }
{
    match geometry {
        None => out.push_str("null"),
        Some(Geometry::Simple(simple)) => push_simple(out, simple),
        Some(Geometry::Collection(members)) => push_collection(out, members.items()),
    }
}

/// Appends the compact JSON text of a feature, as `write_feature` writes its value: without its
/// time. If memory runs out, a prefix of it may have been appended.
pub fn push_feature(alloc: Global, out: &mut String, feature: &Feature) -> Result<(), AllocError>
    ensures { OnOk result (string_bytes out.new
        ≡ string_bytes out.old ++ compact_text (feature_data (feature_value feature.now))) }
{
    out.push_str("{\"geometry\":")?;
    push_geometry(out, feature.geometry())?;
    out.push_str(",\"id\":")?;
    push_quoted(alloc, out, feature.id())?;
    out.push_str(",\"properties\":")?;
    push_properties(alloc, out, feature)?;
    out.push_str(",\"type\":\"Feature\"}")
}
