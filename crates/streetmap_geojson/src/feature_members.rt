//! Features from the members that they usually have (RFC 7946, section 3.2).
ghost use Rattle.std.specs.Prelude.{◌≡◌, ◌≤◌, ◌↔◌, IfOk, IsTrue, false, option_map};
ghost use Rattle.serde_json.specs.Data.{depth};
ghost use Rattle.serde_json.specs.View.{view};
ghost use Rattle.serde_json.specs.Written.{has_float};
ghost use Rattle.streetmap_json.specs.ExactData.{is_exact};
ghost use Rattle.streetmap_geojson.specs.Fault.{Gives};
ghost use Rattle.streetmap_geojson.specs.FeatureMembers.{feature_object, flat_feature};
ghost use Rattle.streetmap_geojson.specs.FeatureMembers.{geometry_data};
ghost use Rattle.streetmap_geojson.specs.ParsedFeatures.{feature, is_properties, properties_of};
ghost use Rattle.streetmap_geojson.specs.FeatureView.{feature_value};
ghost use Rattle.streetmap_geojson.specs.Id as ids;
ghost use Rattle.streetmap_geojson.specs.IdView.{id_value};

use crate::fault::{Fault, JsonFault};
use crate::feature::Feature;
use crate::feature_parser::{check_properties, read_feature_time};
use crate::geometry_member::GeometryMember;
use crate::id::{Id, read_id};
use crate::levels::nests_within;
use serde_json::Value;
use std::alloc::Global;

/// The members of an object that has these three and the type `Feature`, and no other.
#[derive(Drop)]
pub struct FeatureMembers {
    pub geometry: GeometryMember,
    pub id: Value,
    pub properties: Value,
}

/// The id that a value gives, as [`read_id`] reads it. A text is not copied.
fn take_id(alloc: Global, value: Value) -> Result<Id, JsonFault>
    ensures reads { Gives id_value result (ids.id_from (view value)) }
{
    match value {
        Value::String(text) => match Id::new(text) {
            Ok(id) => Ok(id),
            Err(fault) => Err(JsonFault::Fault(fault)),
        },
        other => read_id(alloc, &other),
    }
}

/// The properties that a value is, which are not copied.
fn take_properties(value: Value) -> Result<Value, JsonFault>
    requires { depth (view value) ≤ 63 }
    ensures reads { Gives view result (properties_of (view value)) }
    ensures kept { IfOk result (λ v. IsTrue (is_properties (view v))) }
    ensures whole { IfOk result (λ v. has_float (view v) ≡ false) }
    ensures exact { IfOk result (λ v. IsTrue (is_exact (view v))) }
    ensures flat { IfOk result (λ v. depth (view v) ≤ 63) }
{
    check_properties(&value)?;
    Ok(value)
}

impl FeatureMembers {
    /// Whether none is nested so deep that the object has more than 64 levels.
    fn are_flat(&self) -> bool
        ensures reported { IsTrue result ↔ depth (feature_object
            (geometry_data self.now.geometry) (view self.now.id) (view self.now.properties)) ≤ 64 }
        ensures flat { IsTrue result → depth (view self.now.properties) ≤ 63 }
    {
        self.geometry.is_flat() && nests_within(&self.id, 63) && nests_within(&self.properties, 63)
    }
}

/// The feature of members that are nested no deeper than allowed.
#[tactic(auto, unfolding(crate::specs::FeatureMembers::flat_feature))]
fn read_flat(
    alloc: Global,
    members: FeatureMembers,
    time_property: Option<&str>,
) -> Result<Feature, JsonFault>
    requires { depth (view members.properties) ≤ 63 }
    ensures { Gives feature_value result
        (flat_feature (option_map (λ s. s.now) time_property.entry) (geometry_data members.geometry)
        (view members.id) (view members.properties)) }
{
    let FeatureMembers {
        geometry,
        id,
        properties,
    } = members;
    let id = take_id(alloc, id)?;
    let geometry = geometry.read(alloc)?;
    let properties = take_properties(properties)?;
    let time = read_feature_time(&properties, time_property)?;
    Ok(Feature {
        id,
        geometry,
        properties,
        time,
    })
}

/// The feature that the object with these members is, as [`crate::read_feature`] reads it. Nothing
/// is copied.
///
/// # Errors
///
/// The fault of [`crate::read_feature`]. `Memory` if memory runs out.
pub fn read_members(
    alloc: Global,
    members: FeatureMembers,
    time_property: Option<&str>,
) -> Result<Feature, JsonFault>
    ensures { Gives feature_value result
        (feature (option_map (λ s. s.now) time_property.entry)
        (feature_object (geometry_data members.geometry) (view members.id)
        (view members.properties))) }
{
    if members.are_flat() {
        read_flat(alloc, members, time_property)
    } else {
        Err(JsonFault::Fault(Fault::TooDeep))
    }
}
