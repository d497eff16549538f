//! How a query selects a feature.
ghost use Rattle.std.specs.Prelude.{◌≡◌, Option, IfOk, IfSome, IsTrue, Some, true, option_map};
ghost use Rattle.streetmap_grid.specs.Extent.{extent_of};
ghost use Rattle.streetmap_grid.specs.Values.{GeometryValue};
ghost use Rattle.streetmap_grid.specs.Meeting.{geometry_meets};
ghost use Rattle.streetmap_grid.specs.Views.{box_value};
ghost use Rattle.streetmap_moment.specs.Views.{interval_value};
ghost use Rattle.streetmap_moment.specs.Meeting.{meets, seconds_overlap};
ghost use Rattle.streetmap_geojson.specs.FeatureValue.{FeatureValue};
ghost use Rattle.streetmap_geojson.specs.FeatureInvariant.{IsGeometryIf};
ghost use Rattle.streetmap_query.specs.Views.{query_value};
ghost use Rattle.streetmap_ledger.specs.Pages.{passes, requested_interval, selects as selects_of};
ghost use Rattle.streetmap_ledger.specs.Pages.{comes_after as comes_after_of, extent_overlaps};
ghost use Rattle.streetmap_ledger.specs.Pages.{is_candidate as is_candidate_of};

use std::alloc::{AllocError, Global};
use streetmap_feature_text::PackedFeature;
use streetmap_grid::GridBox;
use streetmap_moment::Interval;
use streetmap_query::Query;

/// Whether the feature has a geometry that meets the box: the geometry is read from its text.
fn meets_area(alloc: Global, feature: &PackedFeature, area: &GridBox) -> Result<bool, AllocError>
    ensures { IfOk result (λ met. met
        ≡ passes geometry_meets feature.now.geometry (Some (box_value area.now))) }
{
    match feature.unpack(alloc)?.geometry() {
        None => Ok(false),
        Some(geometry) => Ok(geometry.meets(area)),
    }
}

/// Whether the feature's geometry meets the query's box, if any. The geometry is read only if its
/// extent does not decide it.
fn meets_box(alloc: Global, query: &Query, feature: &PackedFeature) -> Result<bool, AllocError>
    ensures { IfOk result (λ met. met
        ≡ passes geometry_meets feature.now.geometry (query_value query.now).bbox) }
{
    feature.facts();
    if lies_within_box(query, feature.extent()) {
        return Ok(true);
    }
    match &query.bbox {
        None => Ok(true),
        Some(area) => meets_area(alloc, feature, area),
    }
}

/// Whether a feature's time meets the query's interval, if any.
fn meets_interval(query: &Query, time: Option<Interval>) -> bool
    ensures { result ≡ passes meets (option_map interval_value time)
        (requested_interval (query_value query.now)) }
{
    match &query.datetime {
        None => true,
        Some(datetime) => match time {
            None => false,
            Some(time) => time.meets(&datetime.interval),
        },
    }
}

/// Whether the query selects the feature.
pub(crate) fn selects(
    alloc: Global,
    query: &Query,
    feature: &PackedFeature,
) -> Result<bool, AllocError>
    ensures { IfOk result (λ selected. selected ≡ selects_of (query_value query.now) feature.now) }
{
    if !meets_interval(query, feature.time()) {
        return Ok(false);
    }
    meets_box(alloc, query, feature)
}

/// Whether the id comes after the query's, if any.
fn follows(query: &Query, id: &str) -> bool
    ensures { (f : FeatureValue) → f.id ≡ id.now
        → result ≡ comes_after_of (query_value query.now).after f }
{
    match &query.after {
        Some(after) => id > after.as_str(),
        None => true,
    }
}

/// Whether the feature's id comes after the query's, if any.
pub(crate) fn comes_after(
    alloc: Global,
    query: &Query,
    feature: &PackedFeature,
) -> Result<bool, AllocError>
    ensures { IfOk result (λ following. following
        ≡ comes_after_of (query_value query.now).after feature.now) }
{
    match comes_after_unread(query, feature) {
        Some(following) => Ok(following),
        None => Ok(follows(query, feature.id(alloc)?.as_str())),
    }
}

/// Whether the extent, that of a geometry or none, overlaps the query's box, if any. Both are in
/// millimetres.
pub fn overlaps_box(query: &Query, extent: Option<GridBox>) -> bool
    ensures { (geometry : Option GeometryValue)
        → option_map box_value extent ≡ option_map extent_of geometry
        → result ≡ passes extent_overlaps geometry (query_value query.now).bbox }
{
    match &query.bbox {
        None => true,
        Some(area) => match extent {
            None => false,
            Some(extent) => extent.overlaps(area),
        },
    }
}

/// Whether the extent lies within the query's box, if any: then the geometry that it belongs to
/// meets the box. Both are in millimetres.
pub fn lies_within_box(query: &Query, extent: Option<GridBox>) -> bool
    ensures { IsTrue result → (geometry : Option GeometryValue)
        → option_map box_value extent ≡ option_map extent_of geometry → IsGeometryIf geometry
        → passes geometry_meets geometry (query_value query.now).bbox ≡ true }
{
    match &query.bbox {
        None => true,
        Some(area) => match extent {
            None => false,
            Some(extent) => extent.is_within(area),
        },
    }
}

/// Whether the seconds of the time overlap those of the query's interval, if any.
fn overlaps_interval(query: &Query, time: Option<Interval>) -> bool
    ensures { result ≡ passes seconds_overlap (option_map interval_value time)
        (requested_interval (query_value query.now)) }
{
    match &query.datetime {
        None => true,
        Some(datetime) => match time {
            None => false,
            Some(time) => time.overlaps_seconds(&datetime.interval),
        },
    }
}

/// Whether a page examines the feature.
pub(crate) fn is_candidate(query: &Query, feature: &PackedFeature) -> bool
    ensures { result ≡ is_candidate_of (query_value query.now) feature.now }
{
    overlaps_box(query, feature.extent()) && overlaps_interval(query, feature.time())
}

/// Whether the query selects the feature, if its extent and its time decide it.
pub(crate) fn selects_unread(query: &Query, feature: &PackedFeature) -> Option<bool>
    ensures { IfSome result (λ known. known ≡ selects_of (query_value query.now) feature.now) }
{
    feature.facts();
    if !meets_interval(query, feature.time()) {
        return Some(false);
    }
    if lies_within_box(query, feature.extent()) {
        return Some(true);
    }
    None
}

/// Whether the feature's id comes after the query's, if the text has it unescaped.
pub(crate) fn comes_after_unread(query: &Query, feature: &PackedFeature) -> Option<bool>
    ensures { IfSome result (λ known. known
        ≡ comes_after_of (query_value query.now).after feature.now) }
{
    match &query.after {
        None => Some(true),
        Some(after) => match feature.unescaped_id() {
            Some(id) => Some(id.cmp(after.as_str().as_bytes()).is_gt()),
            None => None,
        },
    }
}
