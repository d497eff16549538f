//! The geometry of a feature, taken from the tokens of its text.
ghost use Rattle.std.specs.Prelude.{◌≡◌, ◌<◌, IfOk, IfSome, IsTrue, Some, length, codes};
ghost use Rattle.json.specs.Json.{parse_map};
ghost use Rattle.serde_json.specs.Data.{string, object, no_members};
ghost use Rattle.streetmap_json.specs.Values.{value_at, members_at};
ghost use Rattle.streetmap_geojson.specs.FeatureMembers.{geometry_data};
ghost use Rattle.streetmap_geojson.specs.Kind.{kind_name};
ghost use Rattle.streetmap_feature_reader.specs.Places.{Takes};
ghost use Rattle.streetmap_feature_reader.specs.UsualGeometry.{geometry_members};

use crate::places::fill;
use json::{Reader, Token};
use serde_json::Value;
use std::alloc::Global;
use streetmap_geojson::{GeometryMember, SimpleKind};
use streetmap_json::ParseFault;

/// How deep the value of `coordinates` may nest.
const COORDINATES_DEPTH: usize = 125;

/// The members that were found so far.
#[derive(Drop)]
struct UsualGeometry {
    coordinates: Option<Value>,
    kind: Option<SimpleKind>,
}

/// The kind whose name comes next, if it has coordinates.
fn read_kind(reader: &mut Reader<'_>) -> Option<SimpleKind>
    ensures { IfSome result (λ kind. (value_at 125 reader.old
        ≡ Some (string (kind_name kind), reader.new)) × (length reader.new < length reader.old)) }
{
    match reader.next() {
        Some(Token::String(name)) => SimpleKind::of(name),
        _ => None,
    }
}

impl UsualGeometry {
    fn none() -> UsualGeometry
        ensures { geometry_members result ≡ no_members }
    {
        UsualGeometry {
            coordinates: None,
            kind: None,
        }
    }

    /// Reads the type, if it was not found before; returns whether it did.
    fn take_kind(&mut self, reader: &mut Reader<'_>) -> bool
        ensures { IsTrue result → Takes 125 (codes "type") (geometry_members self.old)
            (geometry_members self.new) reader.old reader.new }
    {
        if self.kind.is_some() {
            return false;
        }
        self.kind = read_kind(reader);
        self.kind.is_some()
    }

    /// Reads the value of the member of that name, if a geometry usually has it and it was not
    /// found before; returns whether it did.
    fn take(
        &mut self,
        alloc: Global,
        name: &str,
        reader: &mut Reader<'_>,
    ) -> Result<bool, ParseFault>
        ensures { IfOk result (λ taken. IsTrue taken → Takes 125 name.now
            (geometry_members self.old) (geometry_members self.new) reader.old reader.new) }
    {
        match name {
            "coordinates" => fill(alloc, &mut self.coordinates, reader, COORDINATES_DEPTH),
            "type" => Ok(self.take_kind(reader)),
            _ => Ok(false),
        }
    }

    /// The members after an opening brace, up to the closing one, if they are those that a geometry
    /// usually has.
    fn read(alloc: Global, reader: &mut Reader<'_>) -> Result<Option<UsualGeometry>, ParseFault>
        ensures { IfOk result (λ found. IfSome found (λ members.
            (members_at 125 reader.old ≡ Some (geometry_members members, reader.new))
            × (length reader.new < length reader.old))) }
    {
        let mut members = UsualGeometry::none();
        'members: while let Some(name) = reader.next_key()? {
            if !members.take(alloc, name, reader)? {
                return Ok(None);
            }
        }
        Ok(Some(members))
    }

    /// The geometry, if no member is missing.
    fn whole(self) -> Option<GeometryMember>
        ensures { IfSome result (λ geometry. object (geometry_members self)
            ≡ geometry_data geometry) }
    {
        Some(GeometryMember::Simple(self.kind?, self.coordinates?))
    }
}

/// The geometry after an opening brace, if it is usual.
fn read_object(alloc: Global, reader: &mut Reader<'_>) -> Result<Option<GeometryMember>, ParseFault>
    ensures { IfOk result (λ found. IfSome found (λ geometry.
        (parse_map object (members_at 125 reader.old) ≡ Some (geometry_data geometry, reader.new))
        × (length reader.new < length reader.old))) }
{
    match UsualGeometry::read(alloc, reader)? {
        Some(members) => Ok(members.whole()),
        None => Ok(None),
    }
}

/// Reads the next geometry, if it is null, or an object with a type that has coordinates, its
/// `coordinates`, and no other member.
pub(crate) fn read_geometry(
    alloc: Global,
    reader: &mut Reader<'_>,
) -> Result<Option<GeometryMember>, ParseFault>
    ensures { IfOk result (λ found. IfSome found (λ geometry.
        (value_at 126 reader.old ≡ Some (geometry_data geometry, reader.new))
        × (length reader.new < length reader.old))) }
{
    match reader.next() {
        Some(Token::Null) => Ok(Some(GeometryMember::Other(Value::Null))),
        Some(Token::BeginObject) => read_object(alloc, reader),
        _ => Ok(None),
    }
}
