//! Collections of features (RFC 7946, section 3.3).
ghost use Rattle.std.specs.Prelude.{◌≡◌, ◌<◌, ◌^◌, ◌+◌, List, Ok, Some, IfOk, map, option_map};
ghost use Rattle.std.specs.Prelude.{option_and_then, codes};
ghost use Rattle.serde_json.specs.View.{view};
ghost use Rattle.serde_json.specs.Find.{as_array, get};
ghost use Rattle.streetmap_geojson.specs.ParsedGeometries.{list_of};
ghost use Rattle.streetmap_geojson.specs.FeatureValue.{FeatureValue};
ghost use Rattle.streetmap_geojson.specs.FeatureView.{feature_value};
ghost use Rattle.streetmap_geojson.specs.ParsedFeatures.{feature_at};
ghost use Rattle.streetmap_geojson.specs.Collection.{GivesAt, at_place, features_after};
ghost use Rattle.streetmap_geojson.specs.Collection.{features_in, features, is_collection};
ghost use Rattle.streetmap_geojson.specs.Collection.{AreFeatures};

use crate::fault::{CollectionFault, Fault, JsonFault};
use crate::feature::Feature;
use crate::feature_parser::read_at;
use crate::geometry::array_in;
use serde_json::Value;
use std::alloc::Global;

fn read_placed(
    alloc: Global,
    value: &Value,
    place: u64,
    time_property: Option<&str>,
) -> Result<Feature, CollectionFault>
    ensures { GivesAt feature_value result
        (at_place place (feature_at (Some place) (option_map (λ s. s.now) time_property.entry)
        (view value.now))) }
{
    match read_at(alloc, value, Some(place), time_property) {
        Ok(feature) => Ok(feature),
        Err(JsonFault::Memory) => Err(CollectionFault::Memory),
        Err(JsonFault::Fault(fault)) => Err(CollectionFault::At(place, fault)),
    }
}

fn read_features(
    alloc: Global,
    values: &[Value],
    time_property: Option<&str>,
) -> Result<Vec<Feature>, CollectionFault>
    ensures { GivesAt (λ v. map feature_value v.items) result
        (features_after 0 (option_map (λ s. s.now) time_property.entry) (map view values.now)) }
{
    let mut read = Vec::new(alloc);
    for i in 0..values.len() {
        read.push(read_placed(alloc, &values[i], i as u64 + 1, time_property)?)?;
    }
    Ok(read)
}

fn is_collection(value: &Value) -> bool
    ensures { result ≡ is_collection (view value.now) }
{
    match value.get("type").and_then(Value::as_str) {
        Some(name) => name == "FeatureCollection",
        None => false,
    }
}

fn read_members(
    alloc: Global,
    value: &Value,
    time_property: Option<&str>,
) -> Result<Vec<Feature>, CollectionFault>
    ensures { GivesAt (λ v. map feature_value v.items) result
        (features_in (option_map (λ s. s.now) time_property.entry)
        (option_map list_of (option_and_then as_array (get (codes "features") (view value.now))))) }
{
    match array_in(value, "features") {
        Some(items) => read_features(alloc, items, time_property),
        None => Err(CollectionFault::Fault(Fault::WrongType)),
    }
}

fn read_whole(
    alloc: Global,
    value: &Value,
    time_property: Option<&str>,
) -> Result<Vec<Feature>, CollectionFault>
    ensures { GivesAt (λ v. map feature_value v.items) result
        (features (option_map (λ s. s.now) time_property.entry) (view value.now)) }
{
    if !is_collection(value) {
        return Err(CollectionFault::Fault(Fault::WrongType));
    }
    read_members(alloc, value, time_property)
}

/// The features of a collection (RFC 7946, section 3.3), in its order, each read as by
/// `read_feature`. A feature without an id has its place in the array, counted from 1, as id.
///
/// It returns the first fault, with the place of its feature; if the value is not a collection,
/// `WrongType` without a place.
pub fn read_collection(
    alloc: Global,
    value: &Value,
    time_property: Option<&str>,
) -> Result<Vec<Feature>, CollectionFault>
    // What is read is what the value reads as.
    ensures found { IfOk result (λ v.
        AreFeatures (option_map (λ s. s.now) time_property.entry) (view value.now)
        (map feature_value v.items)) }
    // It reads what the value reads as, unless memory runs out.
    ensures only { (fs : List FeatureValue)
        → AreFeatures (option_map (λ s. s.now) time_property.entry) (view value.now) fs
        → GivesAt (λ v. map feature_value v.items) result (Ok fs) }
    // Which fault it is, and of which feature.
    ensures exact { GivesAt (λ v. map feature_value v.items) result
        (features (option_map (λ s. s.now) time_property.entry) (view value.now)) }
{
    read_whole(alloc, value, time_property)
}
