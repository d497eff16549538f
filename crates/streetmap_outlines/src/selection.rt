//! What an outline shows of a feature that a query may select.
ghost use Rattle.std.specs.Prelude.{◌≡◌, Option, IsTrue, IfSome, false, true, not};
ghost use Rattle.std.specs.Prelude.{option_copied};
ghost use Rattle.streetmap_grid.specs.Meeting.{geometry_meets};
ghost use Rattle.streetmap_moment.specs.Meeting.{meets, seconds_overlap};
ghost use Rattle.streetmap_geojson.specs.FeatureValue.{FeatureValue};
ghost use Rattle.streetmap_geojson.specs.FeatureInvariant.{IsFeature};
ghost use Rattle.streetmap_query.specs.Views.{query_value};
ghost use Rattle.streetmap_ledger.specs.Pages.{passes, requested_interval, selects};
ghost use Rattle.streetmap_ledger.specs.Pages.{comes_after as comes_after_of};
ghost use Rattle.streetmap_ledger.specs.Pages.{is_candidate as is_candidate_of};
ghost use Rattle.streetmap_outlines.specs.Outlines.{IsOutlineOf, LiesWithin, IsTimedBy, IsBounded};
ghost use Rattle.streetmap_outlines.specs.Selections.{is_marked_if, IsCountedFor, CountsWhole};
ghost use Rattle.streetmap_outlines.specs.Selections.{AllComeAfter};
ghost use Rattle.streetmap_outlines.specs.Chunks.{AreInOrder, BeginsAfter};
ghost use Rattle.streetmap_ledger.specs.declared.outline.FeatureOutline.{FeatureOutline};

use crate::chunk::Chunk;
use crate::extent_column::count_in_window;
use crate::within::decides_meeting;
use streetmap_cells::{Envelope, Marks};
use streetmap_ledger::{FeatureOutline, overlaps_box};
use streetmap_query::Query;

/// Whether the seconds overlap those of the interval, if the query has one.
fn overlaps_interval(query: &Query, outline: &FeatureOutline) -> bool
    ensures { (f : FeatureValue) → IsOutlineOf outline.now f
        → result ≡ passes seconds_overlap f.time (requested_interval (query_value query.now)) }
{
    match &query.datetime {
        None => true,
        Some(datetime) => match outline.seconds {
            None => false,
            Some((first, last)) => {
                let (start, end) = datetime.interval.seconds();
                first <= end && start <= last
            }
        },
    }
}

/// Whether a page examines the feature with this outline.
pub fn is_candidate(query: &Query, outline: &FeatureOutline) -> bool
    ensures { (f : FeatureValue) → IsOutlineOf outline.now f
        → result ≡ is_candidate_of (query_value query.now) f }
{
    overlaps_box(query, outline.extent()) && overlaps_interval(query, outline)
}

/// Whether the chunk's bounds show that a page examines none of the features with its outlines.
pub fn is_passed_over(query: &Query, chunk: &Chunk) -> bool
    ensures { IsTrue result → (outline : FeatureOutline) (f : FeatureValue)
        → LiesWithin outline.extent chunk.now.bounds → IsOutlineOf outline f
        → is_candidate_of (query_value query.now) f ≡ false }
{
    !overlaps_box(query, chunk.bounds)
}

/// Whether a chunk has no mark, if marks are given.
pub fn is_unmarked(marks: Option<&Marks>, chunk: &Chunk) -> bool
    ensures { result ≡ not (is_marked_if (option_copied marks.entry) chunk.now.number) }
{
    match marks {
        None => false,
        Some(marks) => !marks.has(chunk.number),
    }
}

/// Whether the first second comes before the one that the interval ends in, and the last one after
/// the one that it begins in, if the query has an interval. Then each time with seconds within
/// these bounds meets it.
fn reaches_into_interval(query: &Query, seconds: Option<(i64, i64)>) -> bool
    ensures { IsTrue result → (outline : FeatureOutline) (f : FeatureValue) →
        IsTimedBy outline.seconds seconds → IsOutlineOf outline f →
        passes meets f.time (requested_interval (query_value query.now)) ≡ true }
{
    match &query.datetime {
        None => true,
        Some(datetime) => match seconds {
            None => false,
            Some((first, last)) => {
                let (start, end) = datetime.interval.seconds();
                first < end && start < last
            }
        },
    }
}

/// Whether the outline shows that the query selects the feature.
pub fn is_selected(query: &Query, outline: &FeatureOutline) -> bool
    ensures { IsTrue result → (f : FeatureValue) → IsOutlineOf outline.now f → IsFeature f
        → selects (query_value query.now) f ≡ true }
{
    decides_meeting(query, outline.extent()) && reaches_into_interval(query, outline.seconds)
}

/// Whether the chunk's bounds lie within the box, if the query has one. Then each feature with an
/// extent meets it.
fn lies_whole_within_box(query: &Query, chunk: &Chunk) -> bool
    ensures { IsTrue result → (outline : FeatureOutline) (f : FeatureValue) →
        LiesWithin outline.extent chunk.now.bounds → IsOutlineOf outline f → IsFeature f →
        IsCountedFor (query_value query.now) outline →
        passes geometry_meets f.geometry (query_value query.now).bbox ≡ true }
{
    match &query.bbox {
        None => true,
        Some(area) => match chunk.bounds {
            None => false,
            Some(bounds) => bounds.is_within(area),
        },
    }
}

/// How many features of a chunk the query selects, if its bounds show that it selects all those
/// that a page examines: all of them if the query has no box, otherwise those with an extent. None
/// if they do not show it.
pub(crate) fn count_by_bounds(query: &Query, chunk: &Chunk) -> Option<u64>
    ensures { IsBounded chunk.now
        → IfSome result (CountsWhole (query_value query.now) chunk.now) }
{
    if !lies_whole_within_box(query, chunk) {
        return None;
    }
    if !reaches_into_interval(query, chunk.seconds) {
        return None;
    }
    match &query.bbox {
        None => Some(chunk.outlines.len() as u64),
        Some(_) => Some(chunk.with_extent),
    }
}

/// How many features of a chunk the query selects, if it has a box and the kept extents show the
/// number: all are kept, and each that overlaps the box has three bounds in it. None if they do not
/// show it.
fn count_by_extents(query: &Query, chunk: &Chunk) -> Option<u64>
    ensures { IsBounded chunk.now
        → IfSome result (CountsWhole (query_value query.now) chunk.now) }
{
    let is_whole = chunk.extents.len() == chunk.outlines.len();
    if !is_whole || !reaches_into_interval(query, chunk.seconds) {
        return None;
    }
    match &query.bbox {
        None => None,
        Some(area) => count_in_window(&Envelope::of(area), chunk.extents.as_slice()),
    }
}

/// How many features of a chunk the query selects, if the chunk shows that it selects all those
/// that a page examines: by its bounds, or otherwise by the extents that it keeps. None if it does
/// not show it. It reads no outline.
pub fn count_selected(query: &Query, chunk: &Chunk) -> Option<u64>
    ensures { IsBounded chunk.now
        → IfSome result (CountsWhole (query_value query.now) chunk.now) }
{
    match count_by_bounds(query, chunk) {
        Some(count) => Some(count),
        None => count_by_extents(query, chunk),
    }
}

/// Whether the feature's id comes after the id of the query.
pub fn comes_after(query: &Query, outline: &FeatureOutline) -> bool
    ensures { (f : FeatureValue) → IsOutlineOf outline.now f
        → result ≡ comes_after_of (query_value query.now).after f }
{
    match &query.after {
        Some(id) => outline.id.as_str() > id.as_str(),
        None => true,
    }
}

/// Whether the first outline of a chunk, if any, has an id after this one.
fn begins_after(chunk: &Chunk, id: &str) -> bool
    ensures { IsTrue result → BeginsAfter id.now chunk.now.outlines.items }
{
    match chunk.outlines.first() {
        Some(first) => first.id.as_str() > id,
        None => true,
    }
}

/// Whether all features of a chunk come after the id of the query, or none does; none if neither is
/// known.
pub fn all_come_after(query: &Query, chunk: &Chunk) -> Option<bool>
    ensures { AreInOrder chunk.now.outlines.items
        → IfSome result (λ following. AllComeAfter (query_value query.now) following
        chunk.now.outlines.items) }
{
    match &query.after {
        None => Some(true),
        Some(id) => {
            if !chunk.reaches(id.as_str()) {
                return Some(false);
            }
            if begins_after(chunk, id.as_str()) {
                return Some(true);
            }
            None
        }
    }
}
