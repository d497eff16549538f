//! Features and collections as JSON values (RFC 7946, section 3).
ghost use Rattle.std.specs.Prelude.{◌≡◌, All, IfOk, None, Ok, option_map, map, codes};
ghost use Rattle.serde_json.specs.Data.{string, object, no_members, member};
ghost use Rattle.serde_json.specs.View.{view};
ghost use Rattle.serde_json.specs.Written.{compact_text};
ghost use Rattle.streetmap_grid.specs.Views.{position_value, positions_value, line_value};
ghost use Rattle.streetmap_grid.specs.Views.{lines_value, ring_value, rings_value, polygon_value};
ghost use Rattle.streetmap_grid.specs.Views.{polygons_value, simple_value, simples_value};
ghost use Rattle.streetmap_grid.specs.Views.{geometry_value};
ghost use Rattle.streetmap_geojson.specs.FeatureValue.{untimed};
ghost use Rattle.streetmap_geojson.specs.FeatureView.{feature_value};
ghost use Rattle.streetmap_geojson.specs.FeatureMeaning.{ReadsAs};
ghost use Rattle.streetmap_geojson.specs.FeatureInvariant.{IsFeature};
ghost use Rattle.streetmap_geojson.specs.Collection.{AreFeatures};
ghost use Rattle.streetmap_geojson.specs.JsonText.{json_of};
ghost use Rattle.streetmap_feature_text.specs.Written.{name_of, coordinates_data, position_data};
ghost use Rattle.streetmap_feature_text.specs.Written.{line_data, polygon_data, array_of};
ghost use Rattle.streetmap_feature_text.specs.Written.{simple_data, geometry_data, geometry_member};
ghost use Rattle.streetmap_feature_text.specs.Written.{feature_data, collection_data};

use serde_json::{Value, json};
use std::alloc::{AllocError, Global};
use streetmap_geojson::Feature;
use streetmap_grid::{Geometry, Line, Polygon, Position, Ring, SimpleGeometry};

#[tactic(auto, unfolding(crate::specs::Written::position_data))]
fn write_position(alloc: Global, position: &Position) -> Result<Value, AllocError>
    ensures { IfOk result (λ v. view v ≡ position_data (position_value position.now)) }
{
    let mut elements = Vec::with_capacity(alloc, 3)?;
    elements.push(Value::from(position.x))?;
    elements.push(Value::from(position.y))?;
    if let Some(z) = position.z {
        elements.push(Value::from(z))?;
    }
    Ok(Value::Array(elements))
}

fn write_positions(alloc: Global, positions: &[Position]) -> Result<Value, AllocError>
    ensures { IfOk result (λ v. view v ≡ line_data (positions_value positions.now)) }
{
    let mut written = Vec::with_capacity(alloc, positions.len())?;
    for position in positions {
        written.push(write_position(alloc, position)?)?;
    }
    Ok(Value::Array(written))
}

fn write_line(alloc: Global, line: &Line) -> Result<Value, AllocError>
    ensures { IfOk result (λ v. view v ≡ line_data (line_value line.now)) }
{
    write_positions(alloc, line.positions())
}

fn write_lines(alloc: Global, lines: &[Line]) -> Result<Value, AllocError>
    ensures { IfOk result (λ v. view v ≡ array_of line_data (lines_value lines.now)) }
{
    let mut written = Vec::with_capacity(alloc, lines.len())?;
    for line in lines {
        written.push(write_line(alloc, line)?)?;
    }
    Ok(Value::Array(written))
}

fn write_ring(alloc: Global, ring: &Ring) -> Result<Value, AllocError>
    ensures { IfOk result (λ v. view v ≡ line_data (ring_value ring.now)) }
{
    write_positions(alloc, ring.positions())
}

fn write_rings(alloc: Global, rings: &[Ring]) -> Result<Value, AllocError>
    ensures { IfOk result (λ v. view v ≡ array_of line_data (rings_value rings.now)) }
{
    let mut written = Vec::with_capacity(alloc, rings.len())?;
    for ring in rings {
        written.push(write_ring(alloc, ring)?)?;
    }
    Ok(Value::Array(written))
}

fn write_polygon(alloc: Global, polygon: &Polygon) -> Result<Value, AllocError>
    ensures { IfOk result (λ v. view v ≡ polygon_data (polygon_value polygon.now)) }
{
    write_rings(alloc, polygon.rings())
}

fn write_polygons(alloc: Global, polygons: &[Polygon]) -> Result<Value, AllocError>
    ensures { IfOk result (λ v. view v ≡ array_of polygon_data (polygons_value polygons.now)) }
{
    let mut written = Vec::with_capacity(alloc, polygons.len())?;
    for polygon in polygons {
        written.push(write_polygon(alloc, polygon)?)?;
    }
    Ok(Value::Array(written))
}

// The array of a geometry's `coordinates`.
#[tactic(auto, unfolding(crate::specs::Written::position_data))]
fn write_coordinates(alloc: Global, geometry: &SimpleGeometry) -> Result<Value, AllocError>
    ensures { IfOk result (λ v. view v ≡ coordinates_data (simple_value geometry.now)) }
{
    match geometry {
        SimpleGeometry::Point(position) => write_position(alloc, position),
        SimpleGeometry::MultiPoint(positions) => write_positions(alloc, positions.items()),
        SimpleGeometry::LineString(line) => write_line(alloc, line),
        SimpleGeometry::MultiLineString(lines) => write_lines(alloc, lines.items()),
        SimpleGeometry::Polygon(polygon) => write_polygon(alloc, polygon),
        SimpleGeometry::MultiPolygon(polygons) => write_polygons(alloc, polygons.items()),
    }
}

/// The name of a geometry's kind.
pub(crate) fn kind_name(geometry: &SimpleGeometry) -> &'static str
    ensures { result.now ≡ name_of (simple_value geometry.now) }
{
    match geometry {
        SimpleGeometry::Point(_) => "Point",
        SimpleGeometry::MultiPoint(_) => "MultiPoint",
        SimpleGeometry::LineString(_) => "LineString",
        SimpleGeometry::MultiLineString(_) => "MultiLineString",
        SimpleGeometry::Polygon(_) => "Polygon",
        SimpleGeometry::MultiPolygon(_) => "MultiPolygon",
    }
}

fn write_simple(alloc: Global, geometry: &SimpleGeometry) -> Result<Value, AllocError>
    ensures { IfOk result (λ v. view v ≡ simple_data (simple_value geometry.now)) }
{
    let coordinates = write_coordinates(alloc, geometry)?;
    json!(in alloc; {"coordinates": coordinates, "type": kind_name(geometry)})
}

fn write_simples(alloc: Global, geometries: &[SimpleGeometry]) -> Result<Value, AllocError>
    ensures { IfOk result (λ v. view v ≡ array_of simple_data (simples_value geometries.now)) }
{
    let mut written = Vec::with_capacity(alloc, geometries.len())?;
    for geometry in geometries {
        written.push(write_simple(alloc, geometry)?)?;
    }
    Ok(Value::Array(written))
}

fn write_geometry(alloc: Global, geometry: &Geometry) -> Result<Value, AllocError>
    ensures { IfOk result (λ v. view v ≡ geometry_data (geometry_value geometry.now)) }
{
    match geometry {
        Geometry::Simple(simple) => write_simple(alloc, simple),
        Geometry::Collection(members) => {
            let geometries = write_simples(alloc, members.items())?;
            json!(in alloc; {"geometries": geometries, "type": "GeometryCollection"})
        }
    }
}

fn write_geometry_member(alloc: Global, geometry: Option<&Geometry>) -> Result<Value, AllocError>
    ensures { IfOk result (λ v. view v
        ≡ geometry_member (option_map (λ g. geometry_value g.now) geometry.entry)) }
{
    match geometry {
        Some(geometry) => write_geometry(alloc, geometry),
        None => Ok(Value::Null),
    }
}

// The object of a feature's members.
fn feature_object(
    alloc: Global,
    geometry: Value,
    id: &str,
    properties: Value,
) -> Result<Value, AllocError>
    ensures { IfOk result (λ v. view v
        ≡ object (member (codes "geometry") (view geometry)
        (member (codes "id") (string id.now)
        (member (codes "properties") (view properties)
        (member (codes "type") (string (codes "Feature")) no_members))))) }
{
    json!(in alloc; {"geometry": geometry, "id": id, "properties": properties, "type": "Feature"})
}

fn write_members(alloc: Global, feature: &Feature) -> Result<Value, AllocError>
    ensures { IfOk result (λ v. view v ≡ feature_data (feature_value feature.now)) }
{
    let geometry = write_geometry_member(alloc, feature.geometry())?;
    let properties = feature.properties().clone()?;
    feature_object(alloc, geometry, feature.id(), properties)
}

/// The JSON value of a feature (RFC 7946, section 3.2), without its time: the members `geometry`,
/// `id`, `properties` and `type`; the id is always text.
pub fn write_feature(alloc: Global, feature: &Feature) -> Result<Value, AllocError>
    ensures value { IfOk result (λ v. view v ≡ feature_data (feature_value feature.now)) }
    // What is written reads as that feature without its time.
    ensures reads_again { IfOk result (λ v.
        ReadsAs None (view v) (untimed (feature_value feature.now))) }
    // Its compact text is read as the same value.
    ensures text { IfOk result (λ v. json_of (compact_text (view v)) ≡ Ok (view v)) }
{
    feature.facts();
    write_members(alloc, feature)
}

// What is true of each feature of a list.
fn facts_of_each(features: &[Feature])
    ensures { All (λ f. IsFeature (feature_value f)) features.now }
{
    for feature in features {
        feature.facts();
    }
}

fn write_features(alloc: Global, features: &[Feature]) -> Result<Value, AllocError>
    ensures { IfOk result (λ v. view v
        ≡ array_of feature_data (map feature_value features.now)) }
{
    let mut written = Vec::with_capacity(alloc, features.len())?;
    for feature in features {
        written.push(write_feature(alloc, feature)?)?;
    }
    Ok(Value::Array(written))
}

fn write_whole(alloc: Global, features: &[Feature]) -> Result<Value, AllocError>
    ensures { IfOk result (λ v. view v ≡ collection_data (map feature_value features.now)) }
{
    let written = write_features(alloc, features)?;
    json!(in alloc; {"features": written, "type": "FeatureCollection"})
}

/// The JSON value of a collection of features in their order (RFC 7946, section 3.3), without
/// their times.
pub fn write_collection(alloc: Global, features: &[Feature]) -> Result<Value, AllocError>
    ensures value { IfOk result (λ v. view v
        ≡ collection_data (map feature_value features.now)) }
    // What is written reads as those features without their times.
    ensures reads_again { IfOk result (λ v.
        AreFeatures None (view v) (map untimed (map feature_value features.now))) }
    // Its compact text is read as the same value.
    ensures text { IfOk result (λ v. json_of (compact_text (view v)) ≡ Ok (view v)) }
{
    facts_of_each(features);
    write_whole(alloc, features)
}
