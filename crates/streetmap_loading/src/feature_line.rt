//! The edit of a feature's text.
ghost use Rattle.std.specs.Prelude.{◌≡◌, ℕ, IfOk, IfSome, IsTrue, option_map, codes};
ghost use Rattle.std.specs.Prelude.{decimal, is_some, if◌then◌else◌};
ghost use Rattle.serde_json.specs.Data.{string, put};
ghost use Rattle.serde_json.specs.Find.{get};
ghost use Rattle.serde_json.specs.View.{view, members_view};
ghost use Rattle.streetmap_batch.specs.BatchValue as edit;
ghost use Rattle.streetmap_batch.specs.BatchView.{edit_value};
ghost use Rattle.streetmap_batch.specs.Names.{is_collection_id};
ghost use Rattle.streetmap_geojson.specs.Collection.{is_collection};
ghost use Rattle.streetmap_geojson.specs.FeatureView.{feature_value};
ghost use Rattle.streetmap_loading.specs.Texts.{put_id, with_place, timely, held, edit_of};
ghost use Rattle.streetmap_loading.specs.Texts.{item_of_edit, item_of_feature, item_of_value};
ghost use Rattle.streetmap_loading.specs.Texts.{item_of_text, unread};
ghost use Rattle.streetmap_loading.specs.TextView.{property_of, rules_value, IsItem, Measures};
ghost use Rattle.streetmap_loading.specs.declared.load_fault.LoadFault.TheVariants.{AtFault};
ghost use Rattle.streetmap_loading.specs.declared.text_fault.TextFault.TheVariants.{BadFeature};

use crate::edit_length::text_len;
use crate::load_fault::LoadFault;
use crate::rules::{FeatureRules, HeldTimes};
use crate::source::PlacedEdit;
use crate::text_fault::TextFault;
use json::Scratch;
use serde_json::{Map, Value};
use std::alloc::{AllocError, Global};
use streetmap_batch::Edit;
use streetmap_feature_reader::read_usual;
use streetmap_geojson::{Fault, Feature, JsonFault, read_feature};
use streetmap_packing::MAX_EDIT;
use streetmap_placing::{Fractions, PlacingFault, read_placed};

/// The members with the text of a place as `id`.
fn put_id(
    alloc: Global,
    members: Map<String, Value>,
    place: u64,
) -> Result<Map<String, Value>, AllocError>
    ensures { IfOk result (λ m. members_view m.entries ≡
        put (codes "id") (string (decimal place)) (members_view members.entries)) }
{
    let mut members = members;
    let name = String::from_str(alloc, "id")?;
    let text = format!(in alloc; "{place}")?;
    drop(members.insert(name, Value::String(text))?);
    Ok(members)
}

/// The value with the text of a place as its id, if it is an object.
fn with_id(alloc: Global, value: Value, place: u64) -> Result<Value, AllocError>
    ensures { IfOk result (λ v. view v ≡ put_id place (view value)) }
{
    match value {
        Value::Object(members) => Ok(Value::Object(put_id(alloc, members, place)?)),
        Value::Array(items) => Ok(Value::Array(items)),
        Value::String(text) => Ok(Value::String(text)),
        Value::Number(number) => Ok(Value::Number(number)),
        Value::Bool(truth) => Ok(Value::Bool(truth)),
        Value::Null => Ok(Value::Null),
    }
}

/// Whether the value has an id.
fn has_id(value: &Value) -> bool
    ensures { result ≡ is_some (get (codes "id") (view value.now)) }
{
    value.get("id").is_some()
}

/// The value with the text of its place as its id, if it is an object without one.
fn with_place(alloc: Global, value: Value, place: u64) -> Result<Value, AllocError>
    ensures { IfOk result (λ v. view v ≡ with_place place (view value)) }
{
    if has_id(&value) {
        Ok(value)
    } else {
        with_id(alloc, value, place)
    }
}

/// Whether a value is a FeatureCollection (RFC 7946, section 3.3).
fn is_collection(value: &Value) -> bool
    ensures { result ≡ is_collection (view value.now) }
{
    match value.get("type").and_then(Value::as_str) {
        Some(name) => name == "FeatureCollection",
        None => false,
    }
}

/// Tests whether the time of a feature can be read, if times must satisfy a property.
fn test_time(feature: &Feature, skip: Option<&HeldTimes>) -> Result<(), Fault>
    ensures { timely (feature_value feature.now) result
        ≡ held (option_map (λ t. property_of t.now) skip.entry) (feature_value feature.now) }
{
    let Some(times) = skip else {
        return Ok(());
    };
    let property = match &times.property {
        Some(name) => Some(name.as_str()),
        None => None,
    };
    match feature.time_under(property) {
        Ok(_) => Ok(()),
        Err(fault) => Err(Fault::of_time(fault)),
    }
}

/// The edit that puts a feature into the collection.
fn make_edit(
    alloc: Global,
    collection: &str,
    replace: bool,
    feature: Feature,
) -> Result<Edit, AllocError>
    requires { IsTrue (is_collection_id collection.now) }
    ensures { IfOk result (λ e. edit_value e ≡
        (if replace then edit.replace collection.now (feature_value feature)
        else edit.insert collection.now (feature_value feature))) }
{
    let made = if replace {
        Edit::replace(alloc, collection, feature)
    } else {
        Edit::insert(alloc, collection, feature)
    };
    match made {
        Ok(edit) => Ok(edit),
        Err(_) => Err(AllocError),
    }
}

impl PlacedEdit {
    /// An edit with its place; none if its text has more than 8,388,480 bytes.
    pub fn new(
        alloc: Global,
        place: Option<u64>,
        edit: Edit,
    ) -> Result<Option<PlacedEdit>, AllocError>
        ensures { IfOk result (Measures place (edit_value edit)) }
    {
        let size = text_len(alloc, &edit)?;
        Ok(if size <= MAX_EDIT {
            Some(PlacedEdit { place, edit, size })
        } else {
            None
        })
    }
}

/// The edit of a feature at a place in the text.
fn place_edit(
    alloc: Global,
    rules: &FeatureRules,
    place: u64,
    feature: Feature,
) -> Result<PlacedEdit, LoadFault>
    ensures { IsItem
        (item_of_edit place (edit_of (rules_value rules.now) (feature_value feature))) result }
{
    let edit = make_edit(alloc, rules.collection.as_str(), rules.replace, feature)?;
    match PlacedEdit::new(alloc, Some(place), edit)? {
        Some(placed) => Ok(placed),
        None => Err(LoadFault::AtFault(TextFault::TooLarge(place))),
    }
}

/// The result for a feature at fault.
fn feature_at_fault(place: u64, fault: Fault) -> LoadFault
    ensures { result ≡ AtFault (BadFeature place fault) }
{
    LoadFault::AtFault(TextFault::BadFeature(place, fault))
}

/// The edit of a feature at a place in the text, if its time can be read.
fn edit_where_timely(
    alloc: Global,
    rules: &FeatureRules,
    place: u64,
    feature: Feature,
) -> Result<PlacedEdit, LoadFault>
    ensures { IsItem (item_of_feature (rules_value rules.now) place
        (held (rules_value rules.now).skip (feature_value feature))) result }
{
    match test_time(&feature, rules.skip.as_ref()) {
        Ok(()) => place_edit(alloc, rules, place, feature),
        Err(fault) => Err(feature_at_fault(place, fault)),
    }
}

/// The edit of a value at a place in the text.
fn read_edit_of(
    alloc: Global,
    rules: &FeatureRules,
    place: u64,
    value: Value,
) -> Result<PlacedEdit, LoadFault>
    ensures { IsItem (item_of_value (rules_value rules.now) place (view value)) result }
{
    if place == 1 && is_collection(&value) {
        return Err(LoadFault::AtFault(TextFault::NotASequence));
    }
    let value = with_place(alloc, value, place)?;
    match read_feature(alloc, &value, None) {
        Ok(feature) => edit_where_timely(alloc, rules, place, feature),
        Err(JsonFault::Memory) => Err(LoadFault::Memory),
        Err(JsonFault::Fault(fault)) => Err(feature_at_fault(place, fault)),
    }
}

/// What is wrong with the text of a feature at a place that could not be read as a value.
fn unread(place: u64, fault: PlacingFault) -> TextFault
    ensures { result ≡ unread place fault }
{
    match fault {
        PlacingFault::NotJson if place == 1 => TextFault::NotASequence,
        PlacingFault::NotJson | PlacingFault::Memory => TextFault::BadFeature(
            place,
            Fault::NotJson,
        ),
        PlacingFault::TooManyDigits => TextFault::TooManyDigits(place),
        PlacingFault::OutOfGrid => TextFault::BadFeature(place, Fault::OutOfGrid),
        PlacingFault::Fraction => TextFault::BadFeature(place, Fault::Fraction),
    }
}

/// The edit of the text of a feature at a place, by its value.
fn read_edit_by_value(
    alloc: Global,
    scratch: &mut Scratch,
    rules: &FeatureRules,
    place: u64,
    text: &[u8],
) -> Result<PlacedEdit, LoadFault>
    ensures { IsItem (item_of_text (rules_value rules.now) place text.now) result }
{
    match read_placed(alloc, scratch, text, &rules.numbers) {
        Ok(value) => read_edit_of(alloc, rules, place, value),
        Err(PlacingFault::Memory) => Err(LoadFault::Memory),
        Err(fault) => Err(LoadFault::AtFault(unread(place, fault))),
    }
}

/// The feature of a text whose numbers stay as they are, if it is usual.
fn usual_feature(
    alloc: Global,
    scratch: &mut Scratch,
    rules: &FeatureRules,
    text: &[u8],
) -> Result<Option<Feature>, AllocError>
    ensures { IfOk result (λ found. IfSome found (λ f. (place : ℕ)
        → item_of_text (rules_value rules.now) place text.now ≡ item_of_feature
        (rules_value rules.now) place (held (rules_value rules.now).skip (feature_value f)))) }
{
    match (&rules.numbers.placement, rules.numbers.fractions) {
        (None, Fractions::Number) => read_usual(alloc, scratch, text, None),
        _ => Ok(None),
    }
}

/// The edit of the text of a feature at a place.
pub(crate) fn read_edit(
    alloc: Global,
    scratch: &mut Scratch,
    rules: &FeatureRules,
    place: u64,
    text: &[u8],
) -> Result<PlacedEdit, LoadFault>
    ensures { IsItem (item_of_text (rules_value rules.now) place text.now) result }
{
    match usual_feature(alloc, scratch, rules, text)? {
        Some(feature) => edit_where_timely(alloc, rules, place, feature),
        None => read_edit_by_value(alloc, scratch, rules, place, text),
    }
}
