//! Geometries of JSON values (RFC 7946, section 3.1).
ghost use Rattle.std.specs.Prelude.{◌≡◌, ◌≤◌, length, map, option_map, option_and_then};
ghost use Rattle.serde_json.specs.Find.{as_array, get};
ghost use Rattle.serde_json.specs.View.{view, items_view};
ghost use Rattle.streetmap_grid.specs.Views.{simple_value, simples_value, geometry_value};
ghost use Rattle.streetmap_geojson.specs.Fault.{Gives};
ghost use Rattle.streetmap_geojson.specs.ParsedGeometries.{coordinates_as, simple_as, array_at};
ghost use Rattle.streetmap_geojson.specs.ParsedGeometries.{kind_at};
ghost use Rattle.streetmap_geojson.specs.ParsedGeometries.{member_of_collection, members};
ghost use Rattle.streetmap_geojson.specs.ParsedGeometries.{collection};
ghost use Rattle.streetmap_geojson.specs.ParsedGeometries.{geometry, inside, max_positions};
ghost use Rattle.streetmap_geojson.specs.ParsedGeometries.{single_of};
ghost use Rattle.streetmap_geojson.specs.ParsedGeometries.{unless_empty};
ghost use Rattle.streetmap_geojson.specs.FeatureMembers.{simple_object};
ghost use Rattle.streetmap_geojson.specs.declared.fault.Fault.TheVariants.{BadGeometry};

use crate::coordinates::{
    elements, read_line, read_polygon, read_position, read_some_lines, read_some_polygons,
    read_some_positions,
};
use crate::fault::{Fault, JsonFault};
use crate::kind::{Kind, SimpleKind};
use serde_json::Value;
use std::alloc::Global;
use streetmap_grid::{Geometry, NonEmpty, SimpleGeometry};

#[tactic(auto, unfolding(crate::specs::ParsedGeometries::coordinates_as))]
fn read_coordinates(
    alloc: Global,
    kind: SimpleKind,
    values: &[Value],
    seen: &mut usize,
) -> Result<SimpleGeometry, JsonFault>
    requires room { seen.old ≤ max_positions }
    requires some { 1 ≤ length values.now }
    ensures reads { Gives (λ s. (simple_value s, seen.new)) result
        (coordinates_as kind (map view values.now) seen.old) }
    ensures counted { seen.new ≤ max_positions }
{
    match kind {
        SimpleKind::Point => Ok(SimpleGeometry::Point(read_position(values, seen)?)),
        SimpleKind::MultiPoint => Ok(SimpleGeometry::MultiPoint(read_some_positions(
            alloc, values, seen,
        )?)),
        SimpleKind::LineString => Ok(SimpleGeometry::LineString(read_line(alloc, values, seen)?)),
        SimpleKind::MultiLineString => Ok(SimpleGeometry::MultiLineString(read_some_lines(
            alloc, values, seen,
        )?)),
        SimpleKind::Polygon => Ok(SimpleGeometry::Polygon(read_polygon(alloc, values, seen)?)),
        SimpleKind::MultiPolygon => Ok(SimpleGeometry::MultiPolygon(read_some_polygons(
            alloc, values, seen,
        )?)),
    }
}

/// A member that is an array.
pub(crate) fn array_in<'v>(value: &'v Value, name: &str) -> Option<&'v Vec<Value>>
    ensures { option_map (λ v. items_view v.now.items) result
        ≡ option_and_then as_array (get name.now (view value.now)) }
{
    value.get(name).and_then(Value::as_array)
}

// The elements of a member that must be an array.
fn array_at<'v>(value: &'v Value, name: &str) -> Result<&'v [Value], JsonFault>
    ensures { Gives (λ v. map view v.now) result (array_at name.now (view value.now)) }
{
    match array_in(value, name) {
        Some(items) => Ok(items),
        None => Err(JsonFault::Fault(Fault::BadGeometry)),
    }
}

// The kind that an object names.
fn kind_at(value: &Value) -> Option<Kind>
    ensures { result ≡ kind_at (view value.now) }
{
    value.get("type").and_then(Value::as_str).and_then(Kind::of)
}

// The geometry of a kind, or none if it has no elements.
fn read_elements(
    alloc: Global,
    kind: SimpleKind,
    values: &[Value],
    seen: &mut usize,
) -> Result<Option<SimpleGeometry>, JsonFault>
    requires { seen.old ≤ max_positions }
    ensures reads { Gives (λ o. (option_map simple_value o, seen.new)) result
        (unless_empty (coordinates_as kind) (map view values.now) seen.old) }
    ensures counted { seen.new ≤ max_positions }
{
    if values.is_empty() {
        return Ok(None);
    }
    Ok(Some(read_coordinates(alloc, kind, values, seen)?))
}

// The geometry of a kind, or none if its array is empty.
#[tactic(auto, unfolding(crate::specs::ParsedGeometries::simple_as))]
fn read_simple(
    alloc: Global,
    kind: SimpleKind,
    value: &Value,
    seen: &mut usize,
) -> Result<Option<SimpleGeometry>, JsonFault>
    requires { seen.old ≤ max_positions }
    ensures reads { Gives (λ o. (option_map simple_value o, seen.new)) result
        (simple_as kind (view value.now) seen.old) }
    ensures counted { seen.new ≤ max_positions }
{
    let values = array_at(value, "coordinates")?;
    read_elements(alloc, kind, values, seen)
}

// A member of `geometries`.
#[tactic(auto, unfolding(crate::specs::ParsedGeometries::member_of_collection))]
fn read_member(
    alloc: Global,
    value: &Value,
    seen: &mut usize,
) -> Result<Option<SimpleGeometry>, JsonFault>
    requires { seen.old ≤ max_positions }
    ensures reads { Gives (λ o. (option_map simple_value o, seen.new)) result
        (member_of_collection (view value.now) seen.old) }
    ensures counted { seen.new ≤ max_positions }
{
    if value.is_null() {
        return Ok(None);
    }
    match kind_at(value) {
        None => Err(JsonFault::Fault(Fault::BadGeometry)),
        Some(Kind::Collection) => {
            let _members = array_at(value, "geometries")?;
            Err(JsonFault::Fault(Fault::NestedCollection))
        }
        Some(Kind::Simple(kind)) => read_simple(alloc, kind, value, seen),
    }
}

// The members that do not read as null.
fn read_members(
    alloc: Global,
    values: &[Value],
    seen: &mut usize,
) -> Result<Vec<SimpleGeometry>, JsonFault>
    requires { seen.old ≤ max_positions }
    ensures reads { Gives (λ v. (simples_value v.items, seen.new)) result
        (members (map view values.now) seen.old) }
    ensures counted { seen.new ≤ max_positions }
{
    let mut read = Vec::new(alloc);
    for value in values {
        if let Some(member) = read_member(alloc, value, seen)? {
            read.push(member)?;
        }
    }
    Ok(read)
}

#[tactic(auto, unfolding(crate::specs::ParsedGeometries::collection))]
fn read_geometry_collection(
    alloc: Global,
    value: &Value,
    seen: &mut usize,
) -> Result<Option<Geometry>, JsonFault>
    requires { seen.old ≤ max_positions }
    ensures reads { Gives (λ o. (option_map geometry_value o, seen.new)) result
        (collection (view value.now) seen.old) }
    ensures counted { seen.new ≤ max_positions }
{
    let values = array_at(value, "geometries")?;
    let members = read_members(alloc, values, seen)?;
    if members.is_empty() {
        return Ok(None);
    }
    Ok(Some(Geometry::Collection(NonEmpty::new(members))))
}

// A geometry that is not a collection, or none.
fn single(simple: Option<SimpleGeometry>) -> Option<Geometry>
    ensures { option_map geometry_value result ≡ single_of (option_map simple_value simple) }
{
    match simple {
        Some(simple) => Some(Geometry::Simple(simple)),
        None => None,
    }
}

/// The geometry of a value, or none. `seen` counts the positions of the feature.
#[tactic(auto, unfolding(crate::specs::ParsedGeometries::geometry))]
pub(crate) fn read_geometry(
    alloc: Global,
    value: &Value,
    seen: &mut usize,
) -> Result<Option<Geometry>, JsonFault>
    requires { seen.old ≤ max_positions }
    ensures reads { Gives (λ o. (option_map geometry_value o, seen.new)) result
        (geometry (view value.now) seen.old) }
    ensures counted { seen.new ≤ max_positions }
{
    if value.is_null() {
        return Ok(None);
    }
    match kind_at(value) {
        None => Err(JsonFault::Fault(Fault::BadGeometry)),
        Some(Kind::Collection) => read_geometry_collection(alloc, value, seen),
        Some(Kind::Simple(kind)) => Ok(single(read_simple(alloc, kind, value, seen)?)),
    }
}

// The geometry of a kind whose `coordinates` have that value, or none if its array is empty.
#[tactic(auto, unfolding(crate::specs::ParsedGeometries::inside))]
fn read_coordinates_value(
    alloc: Global,
    kind: SimpleKind,
    coordinates: &Value,
    seen: &mut usize,
) -> Result<Option<SimpleGeometry>, JsonFault>
    requires { seen.old ≤ max_positions }
    ensures reads { Gives (λ o. (option_map simple_value o, seen.new)) result
        (inside BadGeometry (unless_empty (coordinates_as kind)) (view coordinates.now) seen.old) }
    ensures counted { seen.new ≤ max_positions }
{
    let values = elements(coordinates, Fault::BadGeometry)?;
    read_elements(alloc, kind, values, seen)
}

/// The geometry of the object of a kind and its `coordinates`, or none. `seen` counts the positions
/// of the feature.
#[tactic(auto, using(crate::proofs::SimpleObjects::simple_is))]
pub(crate) fn read_simple_object(
    alloc: Global,
    kind: SimpleKind,
    coordinates: &Value,
    seen: &mut usize,
) -> Result<Option<Geometry>, JsonFault>
    requires { seen.old ≤ max_positions }
    ensures reads { Gives (λ o. (option_map geometry_value o, seen.new)) result
        (geometry (simple_object kind (view coordinates.now)) seen.old) }
    ensures counted { seen.new ≤ max_positions }
{
    Ok(single(read_coordinates_value(alloc, kind, coordinates, seen)?))
}
