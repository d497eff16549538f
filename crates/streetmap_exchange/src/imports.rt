//! Texts of features, read into batches.
ghost use Rattle.std.specs.Prelude.{◌≤◌, IfOk, IsTrue, Ok, length, map};
ghost use Rattle.streetmap_geojson.specs.FeatureView.{feature_value};
ghost use Rattle.streetmap_batch.specs.BatchValue.{BatchValue};
ghost use Rattle.streetmap_batch.specs.BatchView.{batch_value, edit_value, edit_values};
ghost use Rattle.streetmap_batch.specs.Names.{is_key, is_collection_id};
ghost use Rattle.streetmap_exchange.specs.ImportFaults.{IsReadBy};
ghost use Rattle.streetmap_exchange.specs.ImportMeaning.{IsImport};
ghost use Rattle.streetmap_exchange.specs.Imports.{edit_of, features_of, import_text, import_of};

use crate::fault::ImportFault;
use crate::progress::{Progress, report};
use std::alloc::Global;
use streetmap_batch::{Batch, Edit, is_collection_id, is_key};
use streetmap_geojson::{CollectionFault, Feature, JsonFault, read_collection, read_json};

/// The most bytes that a text may have.
pub const MAX_TEXT: usize = 8_388_608;

/// The most features that a text may have.
const MAX_FEATURES: usize = 10_000;

/// The features of a text.
fn read_features(alloc: Global, text: &[u8]) -> Result<Vec<Feature>, ImportFault>
    ensures { IsReadBy (λ fs. map feature_value fs.items) result (features_of text.now) }
{
    let value = match read_json(alloc, text) {
        Ok(value) => value,
        Err(JsonFault::Memory) => return Err(ImportFault::Memory),
        Err(JsonFault::Fault(_)) => return Err(ImportFault::NotJson),
    };
    match read_collection(alloc, &value, None) {
        Ok(features) => Ok(features),
        Err(CollectionFault::Memory) => Err(ImportFault::Memory),
        Err(CollectionFault::Fault(_)) => Err(ImportFault::WrongType),
        Err(CollectionFault::At(place, cause)) => Err(ImportFault::BadFeature { place, cause }),
    }
}

/// The edit that puts a feature into the collection.
fn make_edit(
    alloc: Global,
    collection: &str,
    replace: bool,
    feature: Feature,
) -> Result<Edit, ImportFault>
    requires { IsTrue (is_collection_id collection.now) }
    ensures { IsReadBy edit_value result
        (Ok (edit_of replace collection.now (feature_value feature))) }
{
    let made = if replace {
        Edit::replace(alloc, collection, feature)
    } else {
        Edit::insert(alloc, collection, feature)
    };
    match made {
        Ok(edit) => Ok(edit),
        Err(fault) => Err(ImportFault::of_batch(fault)),
    }
}

/// The edits that put the features into the collection, in their order.
fn make_edits<P: Progress>(
    alloc: Global,
    collection: &str,
    replace: bool,
    features: Vec<Feature>,
    progress: &mut P,
) -> Result<Vec<Edit>, ImportFault>
    requires { IsTrue (is_collection_id collection.now) }
    ensures { IsReadBy (λ edits. edit_values edits.items) result
        (Ok (map (edit_of replace collection.now) (map feature_value features.items))) }
{
    let mut edits = Vec::with_capacity(alloc, features.len())?;
    for feature in features {
        edits.push(make_edit(alloc, collection, replace, feature)?)?;
        report(progress, edits.len() as u64);
    }
    Ok(edits)
}

/// The batch of a key and edits.
fn make_batch(alloc: Global, key: &str, edits: Vec<Edit>) -> Result<Batch, ImportFault>
    requires keyed { IsTrue (is_key key.now) }
    requires few { length edits.items ≤ 10000 }
    ensures { IsReadBy batch_value result
        (Ok (record { key = key.now; edits = edit_values edits.items })) }
{
    match Batch::new(String::from_str(alloc, key)?, edits) {
        Ok(batch) => Ok(batch),
        Err(fault) => Err(ImportFault::of_batch(fault)),
    }
}

/// The batch of a text, if the names are valid.
fn read_text<P: Progress>(
    alloc: Global,
    text: &[u8],
    key: &str,
    collection: &str,
    replace: bool,
    progress: &mut P,
) -> Result<Batch, ImportFault>
    requires keyed { IsTrue (is_key key.now) }
    requires placed { IsTrue (is_collection_id collection.now) }
    ensures { IsReadBy batch_value result (import_text replace key.now collection.now text.now) }
{
    let features = read_features(alloc, text)?;
    if features.len() > MAX_FEATURES {
        return Err(ImportFault::TooManyEdits);
    }
    let edits = make_edits(alloc, collection, replace, features, progress)?;
    make_batch(alloc, key, edits)
}

/// The batch of a text, or the first refusal.
#[tactic(auto, unfolding(crate::specs::Imports::import_of))]
fn read_import<P: Progress>(
    alloc: Global,
    text: &[u8],
    key: &str,
    collection: &str,
    replace: bool,
    progress: &mut P,
) -> Result<Batch, ImportFault>
    ensures { IsReadBy batch_value result (import_of replace key.now collection.now text.now) }
{
    if !is_key(key) {
        return Err(ImportFault::BadKey);
    }
    if !is_collection_id(collection) {
        return Err(ImportFault::BadBatch);
    }
    if text.len() > MAX_TEXT {
        return Err(ImportFault::TextTooLarge);
    }
    read_text(alloc, text, key, collection, replace, progress)
}

/// The batch that inserts each feature of a FeatureCollection text (RFC 7946, section 3.3) into the
/// collection, in the order of the text, or with `replace` puts each in the place of the one with
/// its id. A feature without `id` has its place in the text, counted from 1, as id. The features
/// are read without a time property: their times are set when the batch acts. It reports to
/// `progress` how many are read.
///
/// # Errors
///
/// The first in this order: `BadKey`, `BadBatch` if `collection` is not a collection id,
/// `TextTooLarge` above 8,388,608 bytes, `NotJson`, `WrongType`, `BadFeature` at the first feature
/// at fault, `TooManyEdits` above 10,000 features. `Memory` may be returned instead of any.
pub fn import_batch<P: Progress>(
    alloc: Global,
    text: &[u8],
    key: &str,
    collection: &str,
    replace: bool,
    progress: &mut P,
) -> Result<Batch, ImportFault>
    // The batch is the one that the text is imported by.
    ensures found { IfOk result (λ b.
        IsImport replace key.now collection.now text.now (batch_value b)) }
    // The batch that the text is imported by is made, unless memory runs out.
    ensures only { (b : BatchValue) → IsImport replace key.now collection.now text.now b
        → IsReadBy batch_value result (Ok b) }
    // Which refusal it is, and at which feature.
    ensures exact { IsReadBy batch_value result
        (import_of replace key.now collection.now text.now) }
{
    read_import(alloc, text, key, collection, replace, progress)
}
