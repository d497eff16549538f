//! Runs of features that a page reads, whose outlines follow one another.
ghost use Rattle.std.specs.Prelude.{◌≡◌, ◌≤◌, ◌∷◌, ◌++◌, [], List, All, Some, None, IsTrue, IfOk};
ghost use Rattle.std.specs.Prelude.{length, take, slice_get, string_bytes};
ghost use Rattle.streetmap_geojson.specs.FeatureValue.{FeatureValue};
ghost use Rattle.streetmap_query.specs.QueryValue.{QueryValue};
ghost use Rattle.streetmap_query.specs.Views.{query_value};
ghost use Rattle.streetmap_ledger.specs.Folds.{IsFoldOf};
ghost use Rattle.streetmap_ledger.specs.Keep.{IsRead};
ghost use Rattle.streetmap_index.specs.OutlinePages.{IsExamined, HaveIds, TakesRun};
ghost use Rattle.streetmap_ledger.specs.declared.outline.FeatureOutline.{FeatureOutline};

use std::alloc::{AllocError, Global};
use streetmap_feature_text::PackedFeature;
use streetmap_ledger::{Fault, FeatureOutline, Outlined, PageFold};
use streetmap_outlines::{comes_after, is_candidate, is_selected};
use streetmap_query::Query;

/// How many features are read together at least, if their outlines have hints. One takes some 4.5
/// microseconds alone, and a run takes 14, and 2 more for each: 5 are read sooner alone, and 6
/// together.
const SHORTEST_RUN: usize = 6;

/// Whether a page that has room reads the feature with this outline: it examines it, and the
/// outline does not show that it is only counted.
fn is_due(query: &Query, outline: &FeatureOutline) -> bool
    ensures { IsTrue result → IsExamined (query_value query.now) outline.now }
{
    is_candidate(query, outline) && (comes_after(query, outline) || !is_selected(query, outline))
}

/// How many of these outlines, from the first on and `most` at most, are of features that a page
/// reads one after the other.
pub(crate) fn run_length(query: &Query, outlines: &[FeatureOutline], most: usize) -> usize
    ensures within { result ≤ length outlines.now }
    ensures examined { All (IsExamined (query_value query.now)) (take result outlines.now) }
{
    for (place, outline) in outlines.iter().enumerate() {
        if place >= most || !is_due(query, outline) {
            return place;
        }
    }
    outlines.len()
}

/// Whether the feature has the id of the outline in this place.
fn has_id(
    alloc: Global,
    outlines: &[FeatureOutline],
    place: usize,
    feature: &PackedFeature,
) -> Result<bool, AllocError>
    ensures { IfOk result (λ has. IsTrue has → (o : FeatureOutline)
        × (slice_get outlines.now place ≡ Some o) × (string_bytes o.id ≡ feature.now.id)) }
{
    match outlines.get(place) {
        Some(outline) => feature.is_named(alloc, outline.id.as_str()),
        None => Ok(false),
    }
}

/// Takes the next features, and returns whether they are those with these outlines.
fn take_all(
    alloc: Global,
    outlines: &[FeatureOutline],
    features: Vec<PackedFeature>,
    fold: &mut PageFold<'_>,
) -> Result<bool, AllocError>
    ensures { IfOk result (λ taken. IsTrue taken → HaveIds outlines.now features.items
        × ((q : QueryValue) (met : List FeatureValue) → IsFoldOf q fold.old met
        → IsFoldOf q fold.new (met ++ features.items))) }
{
    let mut place = 0;
    for feature in features {
        if !has_id(alloc, outlines, place, &feature)? {
            return Ok(false);
        }
        fold.take(feature)?;
        place += 1;
    }
    Ok(place == outlines.len())
}

/// Takes the next features, which are those with these outlines, as the keeper has them, and
/// returns whether they exist, with none between them.
fn take_between<K: Outlined>(
    alloc: Global,
    keeper: &mut K,
    collection: &str,
    outlines: &[FeatureOutline],
    first: &str,
    last: &str,
    fold: &mut PageFold<'_>,
) -> Result<bool, Fault>
    ensures { IsRead K.model keeper.old keeper.new result
        (TakesRun collection.now outlines.now fold.old fold.new) }
{
    match keeper.features(collection, first, last) {
        Ok(Some(features)) => match take_all(alloc, outlines, features, fold) {
            Ok(taken) => Ok(taken),
            Err(_) => Err(Fault::Memory),
        },
        Ok(None) => Ok(false),
        Err(fault) => Err(fault),
    }
}

/// Takes the next feature, which is the one with this outline, as the keeper has it, and returns
/// whether it exists.
fn take_one<K: Outlined>(
    keeper: &mut K,
    collection: &str,
    outline: &FeatureOutline,
    fold: &mut PageFold<'_>,
) -> Result<bool, Fault>
    requires { K.model.cause keeper.old ≡ None }
    ensures { IsRead K.model keeper.old keeper.new result
        (TakesRun collection.now (outline.now ∷ []) fold.old fold.new) }
{
    match keeper.feature_outlined(collection, outline) {
        Ok(Some(feature)) => match fold.take(feature) {
            Ok(()) => Ok(true),
            Err(_) => Err(Fault::Memory),
        },
        Ok(None) => Ok(false),
        Err(fault) => Err(fault),
    }
}

/// Takes the next features, which are those with these outlines, as the keeper has each, and
/// returns whether they exist.
fn take_each<K: Outlined>(
    keeper: &mut K,
    collection: &str,
    outlines: &[FeatureOutline],
    fold: &mut PageFold<'_>,
) -> Result<bool, Fault>
    requires { K.model.cause keeper.old ≡ None }
    ensures { IsRead K.model keeper.old keeper.new result
        (TakesRun collection.now outlines.now fold.old fold.new) }
{
    for outline in outlines {
        match take_one(keeper, collection, outline, fold) {
            Ok(true) => {}
            Ok(false) => return Ok(false),
            Err(fault) => return Err(fault),
        }
    }
    Ok(true)
}

/// Takes the next features, which are those with these outlines, as the keeper has them, and
/// returns whether they exist: each alone if they are few and their places are known, else by the
/// ids of the first and the last.
pub(crate) fn take_run<K: Outlined>(
    alloc: Global,
    keeper: &mut K,
    collection: &str,
    outlines: &[FeatureOutline],
    fold: &mut PageFold<'_>,
) -> Result<bool, Fault>
    requires { K.model.cause keeper.old ≡ None }
    ensures { IsRead K.model keeper.old keeper.new result
        (TakesRun collection.now outlines.now fold.old fold.new) }
{
    match outlines {
        [first, .., last] if outlines.len() >= SHORTEST_RUN || first.hint.is_none() => {
            let (first, last) = (first.id.as_str(), last.id.as_str());
            take_between(alloc, keeper, collection, outlines, first, last, fold)
        }
        _ => take_each(keeper, collection, outlines, fold),
    }
}
