//! The members of a feature, taken from the tokens of its text.
ghost use Rattle.std.specs.Prelude.{◌≡◌, ◌<◌, IfOk, IfSome, IsTrue, None, Some, length, codes};
ghost use Rattle.std.specs.Prelude.{MatchOption, option_map};
ghost use Rattle.serde_json.specs.Data.{string, object, no_members};
ghost use Rattle.serde_json.specs.View.{view};
ghost use Rattle.streetmap_json.specs.Values.{value_at, members_at};
ghost use Rattle.streetmap_geojson.specs.FeatureMembers.{feature_object, geometry_data};
ghost use Rattle.streetmap_feature_reader.specs.Places.{Takes};
ghost use Rattle.streetmap_feature_reader.specs.UsualMembers.{found_members};

use crate::places::fill;
use crate::usual_geometry::read_geometry;
use json::{Reader, Token};
use serde_json::Value;
use std::alloc::Global;
use streetmap_geojson::{FeatureMembers, GeometryMember};
use streetmap_json::ParseFault;

/// How deep the value of a member may nest.
const MEMBER_DEPTH: usize = 126;

/// The members that were found so far.
#[derive(Drop)]
pub(crate) struct UsualMembers {
    geometry: Option<GeometryMember>,
    id: Option<Value>,
    properties: Option<Value>,
    is_feature: bool,
}

/// Reads the next geometry, if none was found before and it is usual; returns whether it did.
fn fill_geometry(
    alloc: Global,
    place: &mut Option<GeometryMember>,
    reader: &mut Reader<'_>,
) -> Result<bool, ParseFault>
    ensures { IfOk result (λ filled. IsTrue filled → (option_map geometry_data place.old ≡ None)
        × MatchOption place.new ⊥ (λ g. value_at 126 reader.old
        ≡ Some (geometry_data g, reader.new)) × (length reader.new < length reader.old)) }
{
    if place.is_some() {
        return Ok(false);
    }
    *place = read_geometry(alloc, reader)?;
    Ok(place.is_some())
}

/// Whether the type of a feature comes next.
fn is_feature_type(reader: &mut Reader<'_>) -> bool
    ensures { IsTrue result → (value_at 126 reader.old
        ≡ Some (string (codes "Feature"), reader.new)) × (length reader.new < length reader.old) }
{
    match reader.next() {
        Some(Token::String(text)) => text == "Feature",
        _ => false,
    }
}

impl UsualMembers {
    fn none() -> UsualMembers
        ensures { found_members result ≡ no_members }
    {
        UsualMembers {
            geometry: None,
            id: None,
            properties: None,
            is_feature: false,
        }
    }

    /// Reads the type of a feature, if it was not found before; returns whether it did.
    fn take_type(&mut self, reader: &mut Reader<'_>) -> bool
        ensures { IsTrue result → Takes 126 (codes "type") (found_members self.old)
            (found_members self.new) reader.old reader.new }
    {
        if self.is_feature {
            return false;
        }
        self.is_feature = is_feature_type(reader);
        self.is_feature
    }

    /// Reads the value of the member of that name, if a feature usually has it and it was not found
    /// before; returns whether it did.
    fn take(
        &mut self,
        alloc: Global,
        name: &str,
        reader: &mut Reader<'_>,
    ) -> Result<bool, ParseFault>
        ensures { IfOk result (λ taken. IsTrue taken → Takes 126 name.now
            (found_members self.old) (found_members self.new) reader.old reader.new) }
    {
        match name {
            "geometry" => fill_geometry(alloc, &mut self.geometry, reader),
            "id" => fill(alloc, &mut self.id, reader, MEMBER_DEPTH),
            "properties" => fill(alloc, &mut self.properties, reader, MEMBER_DEPTH),
            "type" => Ok(self.take_type(reader)),
            _ => Ok(false),
        }
    }

    /// The members after an opening brace, up to the closing one, if they are those that a feature
    /// usually has.
    pub(crate) fn read(
        alloc: Global,
        reader: &mut Reader<'_>,
    ) -> Result<Option<UsualMembers>, ParseFault>
        ensures { IfOk result (λ found. IfSome found (λ members.
            members_at 126 reader.old ≡ Some (found_members members, reader.new))) }
    {
        let mut members = UsualMembers::none();
        'members: while let Some(name) = reader.next_key()? {
            if !members.take(alloc, name, reader)? {
                return Ok(None);
            }
        }
        Ok(Some(members))
    }

    /// The members, if none is missing.
    pub(crate) fn whole(self) -> Option<FeatureMembers>
        ensures { IfSome result (λ members. object (found_members self)
            ≡ feature_object (geometry_data members.geometry) (view members.id)
            (view members.properties)) }
    {
        if !self.is_feature {
            return None;
        }
        Some(FeatureMembers {
            geometry: self.geometry?,
            id: self.id?,
            properties: self.properties?,
        })
    }
}
