//! The body of a feature.
ghost use Rattle.std.specs.Prelude.{◌≡◌, IfOk, string_bytes, codes};
ghost use Rattle.serde_json.specs.Data.{object, put as put_member};
ghost use Rattle.serde_json.specs.View.{view, members_view};
ghost use Rattle.serde_json.specs.Written.{compact_text};
ghost use Rattle.streetmap_geojson.specs.FeatureView.{feature_value};
ghost use Rattle.streetmap_bodies.specs.Bodies as spec;

use crate::links::{collection_href, feature_href, link};
use serde_json::{Map, Value, json, put};
use std::alloc::{AllocError, Global};
use streetmap_feature_text::{PackedFeature, write_feature};
use streetmap_geojson::Feature;

/// The links of a feature.
fn links_of_feature(alloc: Global, here: &str, collection: &str) -> Result<Value, AllocError>
    ensures { IfOk result (λ v. view v ≡ spec.links_of_feature here.now collection.now) }
{
    let here = link(alloc, here, "self", "application/geo+json")?;
    let collection = link(alloc, collection, "collection", "application/json")?;
    json!(in alloc; [here, collection])
}

/// The links of a feature with this id.
fn feature_links(alloc: Global, root: &str, name: &str, id: &str) -> Result<Value, AllocError>
    ensures { IfOk result (λ v. view v ≡ spec.feature_links root.now name.now id.now) }
{
    let here = feature_href(alloc, root, name, id)?;
    let collection = collection_href(alloc, root, name)?;
    links_of_feature(alloc, here.as_str(), collection.as_str())
}

/// The members of a feature with its links.
fn with_links(alloc: Global, members: Map<String, Value>, links: Value) -> Result<Value, AllocError>
    ensures { IfOk result (λ v. view v
        ≡ object (put_member (codes "links") (view links) (members_view members.entries))) }
{
    let mut members = members;
    put(&mut members, alloc, "links", links)?;
    Ok(Value::Object(members))
}

/// The value of a feature with its links.
#[tactic(auto, unfolding(crate::specs::Bodies::linked_feature_data))]
fn linked_feature(
    alloc: Global,
    root: &str,
    name: &str,
    feature: &Feature,
) -> Result<Value, AllocError>
    ensures { IfOk result (λ v. view v
        ≡ spec.linked_feature_data root.now name.now (feature_value feature.now)) }
{
    let links = feature_links(alloc, root, name, feature.id())?;
    match write_feature(alloc, feature)? {
        Value::Object(members) => with_links(alloc, members, links),
        _ => Err(AllocError),
    }
}

/// The body of a feature of a collection (OGC 17-069, section 7.16), with its links.
///
/// # Errors
///
/// Only that memory runs out.
pub fn feature_text(
    alloc: Global,
    root: &str,
    name: &str,
    feature: &PackedFeature,
) -> Result<String, AllocError>
    ensures { IfOk result (λ text. string_bytes text
        ≡ compact_text (spec.linked_feature_data root.now name.now feature.now)) }
{
    feature.facts();
    let value = linked_feature(alloc, root, name, &feature.unpack(alloc)?)?;
    let text = value.to_string(alloc)?;
    Ok(text)
}
