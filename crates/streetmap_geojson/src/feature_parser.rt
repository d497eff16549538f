//! Features of JSON values (RFC 7946, section 3.2).
ghost use Rattle.std.specs.Prelude.{◌≡◌, ◌≤◌, IfOk, IsTrue, option_map, Ok, Err, false, codes};
ghost use Rattle.serde_json.specs.Data.{depth};
ghost use Rattle.serde_json.specs.Find.{get};
ghost use Rattle.serde_json.specs.View.{view};
ghost use Rattle.serde_json.specs.Written.{has_float};
ghost use Rattle.streetmap_grid.specs.Views.{geometry_value};
ghost use Rattle.streetmap_moment.specs.Views.{interval_value};
ghost use Rattle.streetmap_geojson.specs.Fault.{Gives};
ghost use Rattle.streetmap_geojson.specs.ParsedGeometries.{geometry, value_of, max_positions};
ghost use Rattle.streetmap_geojson.specs.Meaning.{count_if, position_count};
ghost use Rattle.streetmap_geojson.specs.FeatureInvariant.{is_oriented_if};
ghost use Rattle.streetmap_geojson.specs.Id.{id_of};
ghost use Rattle.streetmap_geojson.specs.IdView.{id_value};
ghost use Rattle.streetmap_geojson.specs.Times.{time_of, as_fault};
ghost use Rattle.streetmap_geojson.specs.FeatureValue.{FeatureValue};
ghost use Rattle.streetmap_geojson.specs.FeatureView.{feature_value};
ghost use Rattle.streetmap_geojson.specs.ParsedFeatures.{feature, feature_at, is_feature};
ghost use Rattle.streetmap_geojson.specs.ParsedFeatures.{is_properties, properties_of, member_of};
ghost use Rattle.streetmap_json.specs.ExactData.{is_exact};
ghost use Rattle.streetmap_geojson.specs.FeatureMeaning.{ReadsAs};

use crate::exact_numbers::is_exact;
use crate::fault::{Fault, JsonFault};
use crate::feature::Feature;
use crate::geometry::read_geometry;
use crate::id::{Id, read_member_id};
use crate::levels::nests_within;
use crate::times::read_time;
use serde_json::Value;
use std::alloc::Global;
use streetmap_grid::Geometry;
use streetmap_moment::Interval;

fn is_feature(value: &Value) -> bool
    ensures { result ≡ is_feature (view value.now) }
{
    match value.get("type").and_then(Value::as_str) {
        Some(name) => name == "Feature",
        None => false,
    }
}

fn read_id_at(alloc: Global, value: &Value, place: Option<u64>) -> Result<Id, JsonFault>
    ensures { Gives id_value result (id_of place (get (codes "id") (view value.now))) }
{
    read_member_id(alloc, value.get("id"), place)
}

pub(crate) fn read_counted(alloc: Global, member: &Value) -> Result<Option<Geometry>, JsonFault>
    ensures reads { Gives (λ o. option_map geometry_value o) result
        (value_of (geometry (view member.now) 0)) }
    ensures few { IfOk result (λ o. count_if position_count (option_map geometry_value o)
        ≤ max_positions) }
    ensures oriented { IfOk result (λ o. IsTrue (is_oriented_if (option_map geometry_value o))) }
{
    let mut seen = 0;
    read_geometry(alloc, member, &mut seen)
}

#[tactic(auto, unfolding(crate::specs::ParsedGeometries::geometry))]
fn read_geometry_member(alloc: Global, value: &Value) -> Result<Option<Geometry>, JsonFault>
    ensures reads { Gives (λ o. option_map geometry_value o) result
        (value_of (geometry (member_of (codes "geometry") (view value.now)) 0)) }
    ensures few { IfOk result (λ o. count_if position_count (option_map geometry_value o)
        ≤ max_positions) }
    ensures oriented { IfOk result (λ o. IsTrue (is_oriented_if (option_map geometry_value o))) }
{
    match value.get("geometry") {
        Some(member) => read_counted(alloc, member),
        None => Ok(None),
    }
}

/// Whether a value can be properties, or why not.
pub(crate) fn check_properties(value: &Value) -> Result<(), JsonFault>
    ensures reads { Gives (λ _. view value.now) result (properties_of (view value.now)) }
    ensures kept { IfOk result (λ _. IsTrue (is_properties (view value.now))) }
    ensures whole { IfOk result (λ _. has_float (view value.now) ≡ false) }
    ensures exact { IfOk result (λ _. IsTrue (is_exact (view value.now))) }
{
    if !value.is_null() && !value.is_object() {
        return Err(JsonFault::Fault(Fault::BadProperties));
    }
    if !is_exact(value) {
        return Err(JsonFault::Fault(Fault::Fraction));
    }
    Ok(())
}

fn read_properties(value: &Value) -> Result<Value, JsonFault>
    ensures reads { Gives view result
        (properties_of (member_of (codes "properties") (view value.now))) }
    ensures kept { IfOk result (λ v. IsTrue (is_properties (view v))) }
    ensures whole { IfOk result (λ v. has_float (view v) ≡ false) }
    ensures exact { IfOk result (λ v. IsTrue (is_exact (view v))) }
{
    match value.get("properties") {
        Some(member) => {
            check_properties(member)?;
            Ok(member.clone()?)
        }
        None => Ok(Value::Null),
    }
}

fn read_flat_properties(value: &Value) -> Result<Value, JsonFault>
    requires { depth (view value.now) ≤ 64 }
    ensures reads { Gives view result
        (properties_of (member_of (codes "properties") (view value.now))) }
    ensures kept { IfOk result (λ v. IsTrue (is_properties (view v))) }
    ensures whole { IfOk result (λ v. has_float (view v) ≡ false) }
    ensures exact { IfOk result (λ v. IsTrue (is_exact (view v))) }
    ensures flat { IfOk result (λ v. depth (view v) ≤ 63) }
{
    read_properties(value)
}

pub(crate) fn read_feature_time(
    properties: &Value,
    time_property: Option<&str>,
) -> Result<Option<Interval>, JsonFault>
    ensures { Gives (λ o. option_map interval_value o) result
        (as_fault (time_of (option_map (λ s. s.now) time_property.entry) (view properties.now))) }
{
    match read_time(properties, time_property) {
        Ok(time) => Ok(time),
        Err(fault) => Err(JsonFault::Fault(Fault::of_time(fault))),
    }
}

/// The properties of a feature, taken out of its value.
fn take_properties(value: &mut Value) -> Result<Value, JsonFault>
    ensures reads { Gives view result
        (properties_of (member_of (codes "properties") (view value.old))) }
    ensures kept { IfOk result (λ v. IsTrue (is_properties (view v))) }
    ensures whole { IfOk result (λ v. has_float (view v) ≡ false) }
    ensures exact { IfOk result (λ v. IsTrue (is_exact (view v))) }
{
    match value.get_mut("properties") {
        Some(member) => {
            check_properties(member)?;
            Ok(member.take())
        }
        None => Ok(Value::Null),
    }
}

fn take_flat_properties(value: &mut Value) -> Result<Value, JsonFault>
    requires { depth (view value.old) ≤ 64 }
    ensures reads { Gives view result
        (properties_of (member_of (codes "properties") (view value.old))) }
    ensures kept { IfOk result (λ v. IsTrue (is_properties (view v))) }
    ensures whole { IfOk result (λ v. has_float (view v) ≡ false) }
    ensures exact { IfOk result (λ v. IsTrue (is_exact (view v))) }
    ensures flat { IfOk result (λ v. depth (view v) ≤ 63) }
{
    take_properties(value)
}

/// A feature that has a place in a collection: the place is its id, if it has none.
#[tactic(auto, unfolding(crate::specs::ParsedFeatures::feature_at))]
pub(crate) fn read_at(
    alloc: Global,
    value: &Value,
    place: Option<u64>,
    time_property: Option<&str>,
) -> Result<Feature, JsonFault>
    ensures exact { Gives feature_value result
        (feature_at place (option_map (λ s. s.now) time_property.entry) (view value.now)) }
{
    if !is_feature(value) {
        return Err(JsonFault::Fault(Fault::WrongType));
    }
    if !nests_within(value, 64) {
        return Err(JsonFault::Fault(Fault::TooDeep));
    }
    let id = read_id_at(alloc, value, place)?;
    let geometry = read_geometry_member(alloc, value)?;
    let properties = read_flat_properties(value)?;
    let time = read_feature_time(&properties, time_property)?;
    Ok(Feature {
        id,
        geometry,
        properties,
        time,
    })
}

/// The feature that a value is (RFC 7946, section 3.2), its time read from the property of that
/// name, or none without a name.
///
/// It returns the first fault, in this order: the type; more than 64 levels; the id; the geometry,
/// its arrays from left to right, each element wholly before the next; the properties, then a
/// number in them that is not whole; the time. Members `bbox` and foreign members are skipped, but
/// count for the levels.
pub fn read_feature(
    alloc: Global,
    value: &Value,
    time_property: Option<&str>,
) -> Result<Feature, JsonFault>
    // What is read is what the value reads as.
    ensures found { IfOk result (λ f.
        ReadsAs (option_map (λ s. s.now) time_property.entry) (view value.now) (feature_value f)) }
    // It reads what the value reads as, unless memory runs out.
    ensures only { (f : FeatureValue)
        → ReadsAs (option_map (λ s. s.now) time_property.entry) (view value.now) f
        → Gives feature_value result (Ok f) }
    // Which fault it is.
    ensures exact { Gives feature_value result
        (feature (option_map (λ s. s.now) time_property.entry) (view value.now)) }
{
    read_at(alloc, value, None, time_property)
}

/// The feature that a value is, as [`read_feature`] reads it (RFC 7946, section 3.2). The
/// properties are taken out of the value, and not copied: what is left of it is of no use.
///
/// # Errors
///
/// The fault of [`read_feature`]. `Memory` if memory runs out.
#[tactic(auto, unfolding(crate::specs::ParsedFeatures::feature_at))]
pub fn take_feature(
    alloc: Global,
    mut value: Value,
    time_property: Option<&str>,
) -> Result<Feature, JsonFault>
    ensures exact { Gives feature_value result
        (feature (option_map (λ s. s.now) time_property.entry) (view value)) }
{
    if !is_feature(&value) {
        return Err(JsonFault::Fault(Fault::WrongType));
    }
    if !nests_within(&value, 64) {
        return Err(JsonFault::Fault(Fault::TooDeep));
    }
    let id = read_id_at(alloc, &value, None)?;
    let geometry = read_geometry_member(alloc, &value)?;
    let properties = take_flat_properties(&mut value)?;
    let time = read_feature_time(&properties, time_property)?;
    Ok(Feature {
        id,
        geometry,
        properties,
        time,
    })
}
