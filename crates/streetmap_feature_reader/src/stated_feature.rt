//! A feature among other values, read from its tokens (RFC 7946, section 3.2).
ghost use Rattle.std.specs.Prelude.{◌≡◌, ◌<◌, ◌≤◌, ℕ, IfOk, IsTrue, None, Some, OnOk, MatchOption};
ghost use Rattle.std.specs.Prelude.{codes, length, option_map};
ghost use Rattle.json.specs.Json.{parse_map};
ghost use Rattle.serde_json.specs.Data.{object, string, no_members, put};
ghost use Rattle.serde_json.specs.View.{view, members_view};
ghost use Rattle.streetmap_json.specs.Values.{value_at, members_at, Takes};
ghost use Rattle.streetmap_feature_reader.specs.Places.{members_after};
ghost use Rattle.streetmap_feature_reader.specs.StatedFeature.{stated_data, found_values};
ghost use Rattle.streetmap_feature_reader.specs.StatedFeature.{TakesMember};

use crate::members::{insert_found, read_rest};
use crate::places::put_at;
use crate::stated_geometry::{read_stated_geometry, value_if};
use json::{Reader, Token};
use serde_json::{Map, Value};
use std::alloc::{AllocError, Global};
use streetmap_geojson::{FeatureMembers, GeometryMember};
use streetmap_json::{ParseFault, read_token, read_value};

/// A value that states a feature.
#[derive(Drop)]
pub enum StatedFeature {
    /// The members of an object that has those that a feature usually has, and no other.
    Usual(FeatureMembers),
    /// Any value.
    Other(Value),
}

/// The members that were found so far.
#[derive(Drop)]
struct Found {
    geometry: Option<GeometryMember>,
    id: Option<Value>,
    properties: Option<Value>,
    kind: Option<Value>,
}

impl Found {
    fn none() -> Found
        ensures { found_values result ≡ no_members }
    {
        Found {
            geometry: None,
            id: None,
            properties: None,
            kind: None,
        }
    }

    /// Puts a value at the place of its name, or returns it if there is no such place, the place
    /// is taken, or it is that of the geometry.
    fn put(&mut self, name: &str, value: Value) -> Option<Value>
        ensures { MatchOption result
            (found_values self.new ≡ put name.now (view value) (found_values self.old))
            (λ v. (v ≡ value) × (self.new ≡ self.old)) }
    {
        match name {
            "id" => put_at(&mut self.id, value),
            "properties" => put_at(&mut self.properties, value),
            "type" => put_at(&mut self.kind, value),
            _ => Some(value),
        }
    }

    /// Reads the value of the member of that name, and puts it at its place, or returns it if there
    /// is no such place, or the place is taken.
    fn read_member(
        &mut self,
        alloc: Global,
        name: &str,
        reader: &mut Reader<'_>,
        depth: usize,
    ) -> Result<Option<Value>, ParseFault>
        ensures takes { TakesMember depth name.now self.old self.new result reader.old reader.new }
        ensures shorter { OnOk result (length reader.new < length reader.old) }
    {
        if name == "geometry" && self.geometry.is_none() {
            self.geometry = Some(read_stated_geometry(alloc, reader, depth)?);
            return Ok(None);
        }
        let value = read_value(alloc, reader, depth)?;
        Ok(self.put(name, value))
    }

    /// The members that were found, put together.
    fn together(self, alloc: Global) -> Result<Map<String, Value>, AllocError>
        ensures { IfOk result (λ members. members_view members.entries ≡ found_values self) }
    {
        let Found {
            geometry,
            id,
            properties,
            kind,
        } = self;
        let geometry = value_if(alloc, geometry)?;
        let mut members = Map::new(alloc);
        insert_found(alloc, &mut members, "type", kind)?;
        insert_found(alloc, &mut members, "properties", properties)?;
        insert_found(alloc, &mut members, "id", id)?;
        insert_found(alloc, &mut members, "geometry", geometry)?;
        Ok(members)
    }

    /// Whether the type of a feature was found.
    fn has_type(&self) -> bool
        ensures { IsTrue result → option_map view self.now.kind ≡ Some (string (codes "Feature")) }
    {
        match &self.kind {
            Some(Value::String(kind)) => kind.as_str() == "Feature",
            _ => false,
        }
    }

    /// The object of the members that were found.
    fn other(self, alloc: Global) -> Result<StatedFeature, AllocError>
        ensures { IfOk result (λ stated. stated_data stated ≡ object (found_values self)) }
    {
        let members = self.together(alloc)?;
        Ok(StatedFeature::Other(Value::Object(members)))
    }

    /// What the members that were found state, if they are all.
    fn stated(self, alloc: Global) -> Result<StatedFeature, AllocError>
        ensures { IfOk result (λ stated. stated_data stated ≡ object (found_values self)) }
    {
        if !self.has_type() {
            return self.other(alloc);
        }
        let Found {
            geometry,
            id,
            properties,
            kind,
        } = self;
        match (geometry, id, properties) {
            (Some(geometry), Some(id), Some(properties)) => {
                drop(kind);
                Ok(StatedFeature::Usual(FeatureMembers {
                    geometry,
                    id,
                    properties,
                }))
            }
            (geometry, id, properties) => Found {
                geometry,
                id,
                properties,
                kind,
            }
            .other(alloc),
        }
    }
}

/// Reads on after a member that has no place.
fn read_on(
    alloc: Global,
    found: Found,
    name: &str,
    value: Value,
    reader: &mut Reader<'_>,
    depth: usize,
) -> Result<StatedFeature, ParseFault>
    ensures takes { (n : ℕ) → length reader.old ≤ n → Takes stated_data result reader.new
        (parse_map object
        (members_after (put name.now (view value) (found_values found)) depth n reader.old)) }
    ensures shorter { OnOk result (length reader.new < length reader.old) }
{
    let mut members = found.together(alloc)?;
    let name = String::from_str(alloc, name)?;
    drop(members.insert(name, value)?);
    let members = read_rest(alloc, members, reader, depth)?;
    Ok(StatedFeature::Other(Value::Object(members)))
}

/// What the members of an object state, whose opening brace was read.
fn read_object(
    alloc: Global,
    reader: &mut Reader<'_>,
    depth: usize,
) -> Result<StatedFeature, ParseFault>
    ensures takes { Takes stated_data result reader.new
        (parse_map object (members_at depth reader.old)) }
    ensures shorter { OnOk result (length reader.new < length reader.old) }
{
    let mut found = Found::none();
    'members: while let Some(name) = reader.next_key()? {
        if let Some(value) = found.read_member(alloc, name, reader, depth)? {
            return read_on(alloc, found, name, value, reader, depth);
        }
    }
    Ok(found.stated(alloc)?)
}

/// Reads the next value, nested no deeper than this. If it is an object with the members that a
/// feature usually has, they are read one by one, and no value of the whole is made.
///
/// # Errors
///
/// As [`read_value`].
pub fn read_stated(
    alloc: Global,
    reader: &mut Reader<'_>,
    depth: usize,
) -> Result<StatedFeature, ParseFault>
    requires { 0 < depth }
    ensures takes { Takes stated_data result reader.new (value_at depth reader.old) }
    ensures shorter { OnOk result (length reader.new < length reader.old) }
{
    match reader.next() {
        Some(Token::BeginObject) => read_object(alloc, reader, depth - 1),
        Some(token) => Ok(StatedFeature::Other(read_token(alloc, token, reader, depth)?)),
        None => Err(ParseFault::NotJson),
    }
}
