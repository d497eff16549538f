//! The geometry of a feature among other values, read from its tokens (RFC 7946, section 3.1).
ghost use Rattle.std.specs.Prelude.{◌≡◌, ◌<◌, ◌≤◌, ℕ, IfOk, IfSome, Some, OnOk, MatchOption};
ghost use Rattle.std.specs.Prelude.{length, option_map};
ghost use Rattle.json.specs.Json.{parse_map};
ghost use Rattle.serde_json.specs.Data.{object, string, no_members, put};
ghost use Rattle.serde_json.specs.View.{view, members_view};
ghost use Rattle.streetmap_json.specs.Values.{value_at, members_at, Takes};
ghost use Rattle.streetmap_geojson.specs.FeatureMembers.{geometry_data, simple_object};
ghost use Rattle.streetmap_geojson.specs.Kind.{kind_name};
ghost use Rattle.streetmap_feature_reader.specs.Places.{members_after};
ghost use Rattle.streetmap_feature_reader.specs.StatedGeometry.{geometry_values};

use crate::members::{insert_found, read_rest};
use crate::places::put_at;
use json::{Reader, Token};
use serde_json::{Map, Value};
use std::alloc::{AllocError, Global};
use streetmap_geojson::{GeometryMember, SimpleKind};
use streetmap_json::{ParseFault, read_token, read_value};

/// The members that were found so far.
#[derive(Drop)]
struct FoundGeometry {
    coordinates: Option<Value>,
    kind: Option<Value>,
}

impl FoundGeometry {
    fn none() -> FoundGeometry
        ensures { geometry_values result ≡ no_members }
    {
        FoundGeometry {
            coordinates: None,
            kind: None,
        }
    }

    /// Puts a value at the place of its name, or returns it if there is no such place, or the
    /// place is taken.
    fn put(&mut self, name: &str, value: Value) -> Option<Value>
        ensures { MatchOption result
            (geometry_values self.new ≡ put name.now (view value) (geometry_values self.old))
            (λ v. (v ≡ value) × (self.new ≡ self.old)) }
    {
        match name {
            "coordinates" => put_at(&mut self.coordinates, value),
            "type" => put_at(&mut self.kind, value),
            _ => Some(value),
        }
    }

    /// The members that were found, put together.
    fn together(self, alloc: Global) -> Result<Map<String, Value>, AllocError>
        ensures { IfOk result (λ members. members_view members.entries ≡ geometry_values self) }
    {
        let FoundGeometry { coordinates, kind } = self;
        let mut members = Map::new(alloc);
        insert_found(alloc, &mut members, "type", kind)?;
        insert_found(alloc, &mut members, "coordinates", coordinates)?;
        Ok(members)
    }

    /// The object of the members that were found.
    fn value(self, alloc: Global) -> Result<Value, AllocError>
        ensures { IfOk result (λ v. view v ≡ object (geometry_values self)) }
    {
        let members = self.together(alloc)?;
        Ok(Value::Object(members))
    }

    /// The kind whose name was found, if it has coordinates.
    fn simple_kind(&self) -> Option<SimpleKind>
        ensures { IfSome result (λ kind. option_map view self.now.kind
            ≡ Some (string (kind_name kind))) }
    {
        match &self.kind {
            Some(Value::String(name)) => SimpleKind::of(name.as_str()),
            _ => None,
        }
    }

    /// The geometry of the members that were found, if they are all.
    fn stated(self, alloc: Global) -> Result<GeometryMember, AllocError>
        ensures { IfOk result (λ member. geometry_data member ≡ object (geometry_values self)) }
    {
        let Some(simple) = self.simple_kind() else {
            return Ok(GeometryMember::Other(self.value(alloc)?));
        };
        let FoundGeometry { coordinates, kind } = self;
        match coordinates {
            Some(coordinates) => {
                drop(kind);
                Ok(GeometryMember::Simple(simple, coordinates))
            }
            None => {
                let found = FoundGeometry {
                    coordinates: None,
                    kind,
                };
                Ok(GeometryMember::Other(found.value(alloc)?))
            }
        }
    }
}

/// The name of a kind.
fn name_of(kind: SimpleKind) -> &'static str
    ensures { result.now ≡ kind_name kind }
{
    match kind {
        SimpleKind::Point => "Point",
        SimpleKind::MultiPoint => "MultiPoint",
        SimpleKind::LineString => "LineString",
        SimpleKind::MultiLineString => "MultiLineString",
        SimpleKind::Polygon => "Polygon",
        SimpleKind::MultiPolygon => "MultiPolygon",
    }
}

/// The object of a kind and its `coordinates`.
fn simple_value(alloc: Global, kind: SimpleKind, coordinates: Value) -> Result<Value, AllocError>
    ensures { IfOk result (λ v. view v ≡ simple_object kind (view coordinates)) }
{
    let name = String::from_str(alloc, name_of(kind))?;
    let found = FoundGeometry {
        coordinates: Some(coordinates),
        kind: Some(Value::String(name)),
    };
    found.value(alloc)
}

/// The value that a geometry is.
fn value_of(alloc: Global, geometry: GeometryMember) -> Result<Value, AllocError>
    ensures { IfOk result (λ v. view v ≡ geometry_data geometry) }
{
    match geometry {
        GeometryMember::Simple(kind, coordinates) => simple_value(alloc, kind, coordinates),
        GeometryMember::Other(value) => Ok(value),
    }
}

/// The value that a geometry is, if there is one.
pub(crate) fn value_if(
    alloc: Global,
    geometry: Option<GeometryMember>,
) -> Result<Option<Value>, AllocError>
    ensures { IfOk result (λ value. option_map view value ≡ option_map geometry_data geometry) }
{
    match geometry {
        Some(geometry) => Ok(Some(value_of(alloc, geometry)?)),
        None => Ok(None),
    }
}

/// Reads on after a member that has no place.
fn read_on(
    alloc: Global,
    found: FoundGeometry,
    name: &str,
    value: Value,
    reader: &mut Reader<'_>,
    depth: usize,
) -> Result<GeometryMember, ParseFault>
    ensures takes { (n : ℕ) → length reader.old ≤ n → Takes geometry_data result reader.new
        (parse_map object
        (members_after (put name.now (view value) (geometry_values found)) depth n reader.old)) }
    ensures shorter { OnOk result (length reader.new < length reader.old) }
{
    let mut members = found.together(alloc)?;
    let name = String::from_str(alloc, name)?;
    drop(members.insert(name, value)?);
    let members = read_rest(alloc, members, reader, depth)?;
    Ok(GeometryMember::Other(Value::Object(members)))
}

/// The geometry of the members of an object, whose opening brace was read.
fn read_object(
    alloc: Global,
    reader: &mut Reader<'_>,
    depth: usize,
) -> Result<GeometryMember, ParseFault>
    ensures takes { Takes geometry_data result reader.new
        (parse_map object (members_at depth reader.old)) }
    ensures shorter { OnOk result (length reader.new < length reader.old) }
{
    let mut found = FoundGeometry::none();
    'members: while let Some(name) = reader.next_key()? {
        let value = read_value(alloc, reader, depth)?;
        if let Some(value) = found.put(name, value) {
            return read_on(alloc, found, name, value, reader, depth);
        }
    }
    Ok(found.stated(alloc)?)
}

/// Reads the next value, nested no deeper than this. If it is an object with a type that has
/// coordinates and its `coordinates`, and no other member, no value of the whole is made.
pub(crate) fn read_stated_geometry(
    alloc: Global,
    reader: &mut Reader<'_>,
    depth: usize,
) -> Result<GeometryMember, ParseFault>
    ensures takes { Takes geometry_data result reader.new (value_at depth reader.old) }
    ensures shorter { OnOk result (length reader.new < length reader.old) }
{
    match reader.next() {
        Some(Token::BeginObject) if depth > 0 => read_object(alloc, reader, depth - 1),
        Some(token) => Ok(GeometryMember::Other(read_token(alloc, token, reader, depth)?)),
        None => Err(ParseFault::NotJson),
    }
}
