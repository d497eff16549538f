//! Edits from their members. Each is judged at its place, counted from 1.
ghost use Rattle.std.specs.Prelude.{◌≡◌, Ok, Some, None, option_map};
ghost use Rattle.serde_json.specs.Data.{Data, object};
ghost use Rattle.serde_json.specs.Find.{get};
ghost use Rattle.serde_json.specs.View.{view};
ghost use Rattle.streetmap_feature_reader.specs.StatedFeature.{stated_data};
ghost use Rattle.streetmap_geojson.specs.Fault as geojson;
ghost use Rattle.streetmap_geojson.specs.FeatureView.{feature_value};
ghost use Rattle.streetmap_geojson.specs.ParsedFeatures.{feature};
ghost use Rattle.streetmap_geojson.specs.Id.{id_from};
ghost use Rattle.streetmap_geojson.specs.IdView.{id_value};
ghost use Rattle.streetmap_batch.specs.Names.{is_collection_id, is_title, is_time_property};
ghost use Rattle.streetmap_batch.specs.Names.{passing};
ghost use Rattle.streetmap_batch.specs.BatchFaults.{Gives};
ghost use Rattle.streetmap_batch.specs.EditMembers.{stated_members, IsObjectRead};
ghost use Rattle.streetmap_batch.specs.ParsedBatches.{as_cause, as_shape, shaped, collection_at};
ghost use Rattle.streetmap_batch.specs.ParsedBatches.{title_of, time_of, open_at, feature_at};
ghost use Rattle.streetmap_batch.specs.ParsedBatches.{stated_feature, stated_id, insert_at};
ghost use Rattle.streetmap_batch.specs.ParsedBatches.{replace_at, operation_of, operation_at};
ghost use Rattle.streetmap_batch.specs.ParsedBatches.{delete_at, edit_at};
ghost use Rattle.streetmap_batch.specs.BatchView.{edit_value, feature_edit_value};

use crate::batch_fault::BatchFault;
use crate::edit::{CollectionId, Edit, TimeProperty, Title};
use crate::edit_members::EditMembers;
use crate::format::{Format, Operation};
use serde_json::Value;
use std::alloc::Global;
use streetmap_feature_reader::StatedFeature;
use streetmap_feature_text::WrittenFeature;
use streetmap_geojson::{Feature, Id, JsonFault, read_id, read_members, take_feature};

/// The fault of an edit at that place which does not have the form of an edit.
fn misshapen(place: u64) -> BatchFault
    ensures { result ≡ BatchFault.BadBatch (Some place) }
{
    BatchFault::BadBatch { place: Some(place) }
}

fn check_collection(alloc: Global, text: &str, place: u64) -> Result<CollectionId, BatchFault>
    ensures { Gives (λ id. id) result (shaped place (passing is_collection_id text.now)) }
{
    let text = String::from_str(alloc, text)?;
    match CollectionId::new(text) {
        Some(id) => Ok(id),
        None => Err(misshapen(place)),
    }
}

/// The collection of an edit.
fn read_collection(
    alloc: Global,
    members: &EditMembers,
    place: u64,
) -> Result<CollectionId, BatchFault>
    ensures { Gives (λ id. id) result
        (collection_at place (object (stated_members members.now))) }
{
    match members.text_at("collection") {
        Some(text) => check_collection(alloc, text, place),
        None => Err(misshapen(place)),
    }
}

fn check_title(alloc: Global, text: &str, place: u64) -> Result<Title, BatchFault>
    ensures { Gives (λ title. title) result (shaped place (passing is_title text.now)) }
{
    let text = String::from_str(alloc, text)?;
    match Title::new(text) {
        Some(title) => Ok(title),
        None => Err(misshapen(place)),
    }
}

/// The title of an open edit.
fn read_title(
    alloc: Global,
    collection: &CollectionId,
    stated: Option<&Value>,
    place: u64,
) -> Result<Title, BatchFault>
    ensures { Gives (λ title. title) result
        (title_of place collection.now (option_map (λ v. view v.now) stated.entry)) }
{
    match stated {
        Some(stated) => match stated.as_str() {
            Some(text) => check_title(alloc, text, place),
            None => Err(misshapen(place)),
        },
        None => Ok(Title::from_id(alloc, collection)?),
    }
}

fn check_time(alloc: Global, name: &str, place: u64) -> Result<Option<TimeProperty>, BatchFault>
    ensures { Gives (λ time. time) result
        (shaped place (option_map (λ t. Some t) (passing is_time_property name.now))) }
{
    let name = String::from_str(alloc, name)?;
    match TimeProperty::new(name) {
        Some(time) => Ok(Some(time)),
        None => Err(misshapen(place)),
    }
}

/// The time property of an open edit, if any.
fn read_time(
    alloc: Global,
    stated: Option<&Value>,
    place: u64,
) -> Result<Option<TimeProperty>, BatchFault>
    ensures { Gives (λ time. time) result
        (time_of place (option_map (λ v. view v.now) stated.entry)) }
{
    match stated {
        Some(stated) => match stated.as_str() {
            Some(name) => check_time(alloc, name, place),
            None => Err(misshapen(place)),
        },
        None => Ok(None),
    }
}

#[tactic(auto, unfolding(crate::specs::ParsedBatches::open_at))]
fn read_open(alloc: Global, members: &EditMembers, place: u64) -> Result<Edit, BatchFault>
    ensures { Gives edit_value result (open_at place (object (stated_members members.now))) }
{
    if !members.has_only(Format::Open) {
        return Err(misshapen(place));
    }
    let collection = read_collection(alloc, members, place)?;
    let title = read_title(alloc, &collection, members.get("title"), place)?;
    let time = read_time(alloc, members.get("time"), place)?;
    Ok(Edit::Open {
        collection,
        title,
        time,
    })
}

/// The feature that was stated, without a time.
fn feature_of(alloc: Global, stated: StatedFeature) -> Result<Feature, JsonFault>
    ensures { geojson.Gives feature_value result (feature None (stated_data stated)) }
{
    match stated {
        StatedFeature::Usual(members) => read_members(alloc, members, None),
        StatedFeature::Other(value) => take_feature(alloc, value, None),
    }
}

/// A feature, whose time is set when its edit acts.
fn check_feature(
    alloc: Global,
    stated: StatedFeature,
    place: u64,
) -> Result<WrittenFeature, BatchFault>
    ensures { Gives (λ f. f) result (as_cause place (feature None (stated_data stated))) }
{
    match feature_of(alloc, stated) {
        Ok(feature) => Ok(WrittenFeature::new(alloc, feature)?),
        Err(JsonFault::Memory) => Err(BatchFault::Memory),
        Err(JsonFault::Fault(cause)) => Err(BatchFault::BadFeature { place, cause }),
    }
}

fn read_feature(
    alloc: Global,
    stated: Option<StatedFeature>,
    place: u64,
) -> Result<WrittenFeature, BatchFault>
    ensures { Gives (λ f. f) result (stated_feature place (option_map stated_data stated)) }
{
    match stated {
        Some(stated) => check_feature(alloc, stated, place),
        None => Err(misshapen(place)),
    }
}

/// The collection and the feature of an edit: its shape is judged before its feature.
#[tactic(auto, unfolding(crate::specs::ParsedBatches::feature_at))]
fn read_feature_edit(
    alloc: Global,
    members: EditMembers,
    place: u64,
) -> Result<(CollectionId, WrittenFeature), BatchFault>
    ensures { Gives feature_edit_value result
        (feature_at place (object (stated_members members))) }
{
    if !members.has_only(Format::Feature) {
        return Err(misshapen(place));
    }
    let collection = read_collection(alloc, &members, place)?;
    let feature = read_feature(alloc, members.into_feature(), place)?;
    Ok((collection, feature))
}

fn read_insert(alloc: Global, members: EditMembers, place: u64) -> Result<Edit, BatchFault>
    ensures { Gives edit_value result (insert_at place (object (stated_members members))) }
{
    let (collection, feature) = read_feature_edit(alloc, members, place)?;
    Ok(Edit::Insert {
        collection,
        feature,
    })
}

fn read_replace(alloc: Global, members: EditMembers, place: u64) -> Result<Edit, BatchFault>
    ensures { Gives edit_value result (replace_at place (object (stated_members members))) }
{
    let (collection, feature) = read_feature_edit(alloc, members, place)?;
    Ok(Edit::Replace {
        collection,
        feature,
    })
}

fn check_id(alloc: Global, stated: &Value, place: u64) -> Result<Id, BatchFault>
    ensures { Gives id_value result (as_shape place (id_from (view stated.now))) }
{
    match read_id(alloc, stated) {
        Ok(id) => Ok(id),
        Err(JsonFault::Memory) => Err(BatchFault::Memory),
        Err(JsonFault::Fault(_)) => Err(misshapen(place)),
    }
}

fn read_stated_id(alloc: Global, stated: Option<&Value>, place: u64) -> Result<Id, BatchFault>
    ensures { Gives id_value result (stated_id place (option_map (λ v. view v.now) stated.entry)) }
{
    match stated {
        Some(stated) => check_id(alloc, stated, place),
        None => Err(misshapen(place)),
    }
}

#[tactic(auto, unfolding(crate::specs::ParsedBatches::delete_at))]
fn read_delete(alloc: Global, members: &EditMembers, place: u64) -> Result<Edit, BatchFault>
    ensures { Gives edit_value result (delete_at place (object (stated_members members.now))) }
{
    if !members.has_only(Format::Delete) {
        return Err(misshapen(place));
    }
    let collection = read_collection(alloc, members, place)?;
    let id = read_stated_id(alloc, members.get("id"), place)?;
    Ok(Edit::Delete { collection, id })
}

fn operation_of(name: &str) -> Option<Operation>
    ensures { result ≡ operation_of name.now }
{
    match name {
        "open" => Some(Operation::Open),
        "insert" => Some(Operation::Insert),
        "replace" => Some(Operation::Replace),
        "delete" => Some(Operation::Delete),
        _ => None,
    }
}

/// What an edit does.
fn read_operation(members: &EditMembers) -> Option<Operation>
    ensures { result ≡ operation_at (object (stated_members members.now)) }
{
    match members.text_at("op") {
        Some(name) => operation_of(name),
        None => None,
    }
}

#[tactic(auto, unfolding(crate::specs::ParsedBatches::edit_at))]
fn read_object(alloc: Global, members: EditMembers, place: u64) -> Result<Edit, BatchFault>
    ensures { Gives edit_value result (edit_at place (object (stated_members members))) }
{
    match read_operation(&members) {
        Some(Operation::Open) => read_open(alloc, &members, place),
        Some(Operation::Insert) => read_insert(alloc, members, place),
        Some(Operation::Replace) => read_replace(alloc, members, place),
        Some(Operation::Delete) => read_delete(alloc, &members, place),
        None => Err(misshapen(place)),
    }
}

/// The edit of these members: those of a value, if it is an object.
pub(crate) fn read_edit(
    alloc: Global,
    members: Option<EditMembers>,
    place: u64,
) -> Result<Edit, BatchFault>
    ensures { (d : Data) → IsObjectRead d members → Gives edit_value result (edit_at place d) }
{
    match members {
        Some(members) => read_object(alloc, members, place),
        None => Err(misshapen(place)),
    }
}
