//! The extents of a chunk's outlines, one after the other, as a column. A page of a box goes over
//! these, and reads only the outlines whose extents overlap the box: of each other outline it reads
//! 16 bytes, instead of the whole outline. If it only counts, and each extent that overlaps the box
//! shows that its feature meets it, it reads no outline.
ghost use Rattle.std.specs.Prelude.{◌≡◌, ◌<◌, ◌↔◌, List, All, Some, IsSome, IfSome, IsTrue, false};
ghost use Rattle.std.specs.Prelude.{not, length, slice_get, ◌≤◌};
ghost use Rattle.std.specs.List.{count_by};
ghost use Rattle.streetmap_geojson.specs.FeatureValue.{FeatureValue};
ghost use Rattle.streetmap_query.specs.QueryValue.{QueryValue};
ghost use Rattle.streetmap_query.specs.Views.{query_value};
ghost use Rattle.streetmap_ledger.specs.Pages.{passes, extent_overlaps, is_candidate};
ghost use Rattle.streetmap_cells.specs.Envelopes.{overlaps};
ghost use Rattle.streetmap_outlines.specs.Outlines.{IsOutlineOf, IsExtentIf, AreExtentsOf};
ghost use Rattle.streetmap_outlines.specs.Selections.{IsWindowOf};
ghost use Rattle.streetmap_outlines.specs.Within.{DecidesMeeting};
ghost use Rattle.streetmap_ledger.specs.declared.outline.FeatureOutline.{FeatureOutline};

use crate::within::has_three_bounds_in;
use streetmap_cells::Envelope;
use streetmap_grid::GridBox;
use streetmap_ledger::FeatureOutline;
use streetmap_query::Query;

/// How many extents are counted at a time: few enough for a count of 32 bits.
const BLOCK: usize = 4_096;

/// The kept form of an extent. For no extent it ends at the corner of the grid, so that no box
/// overlaps it.
fn envelope_of(extent: Option<GridBox>) -> Envelope
    ensures { IsExtentIf result extent }
{
    match &extent {
        Some(extent) => Envelope::of(extent),
        None => Envelope {
            x0: 0,
            y0: 0,
            x1: 0,
            y1: 0,
        },
    }
}

/// Keeps the extents of outlines, in place of those kept before: of as many, from the first on, as
/// memory allows.
pub(crate) fn keep_extents(extents: &mut Vec<Envelope>, outlines: &[FeatureOutline])
    ensures { AreExtentsOf extents.new.items outlines.now }
{
    extents.clear();
    for outline in outlines {
        let Ok(()) = extents.push(envelope_of(outline.extent())) else {
            return;
        };
    }
}

/// The box of a query, in the form of the kept extents; none if the query has none.
pub fn window_of(query: &Query) -> Option<Envelope>
    ensures { IsWindowOf (query_value query.now) result }
{
    match &query.bbox {
        Some(area) => Some(Envelope::of(area)),
        None => None,
    }
}

/// Whether the kept extent of the outline in this place lies outside the window. Then a page does
/// not examine its feature.
pub fn lies_outside(window: Option<Envelope>, extents: &[Envelope], place: usize) -> bool
    ensures passed_over { IsTrue result → (q : QueryValue) (os : List FeatureOutline)
        (o : FeatureOutline) (f : FeatureValue) → IsWindowOf q window → AreExtentsOf extents.now os
        → slice_get os place ≡ Some o → IsOutlineOf o f → is_candidate q f ≡ false }
    ensures exact { place < length extents.now → (q : QueryValue) (os : List FeatureOutline)
        (o : FeatureOutline) (f : FeatureValue) → IsWindowOf q window → AreExtentsOf extents.now os
        → slice_get os place ≡ Some o → IsOutlineOf o f
        → result ≡ not (passes extent_overlaps f.geometry q.bbox) }
{
    let Some(window) = window else {
        return false;
    };
    match extents.get(place) {
        Some(extent) => !extent.overlaps(&window),
        None => false,
    }
}

/// How many of the extents overlap the window, if each of these has three bounds in it; none if one
/// has fewer. No branch depends on an extent: with unsorted extents the processor mispredicts
/// such a branch, and without it the processor compares four of them at once.
fn count_in_block(window: &Envelope, extents: &[Envelope]) -> Option<u32>
    requires { length extents.now ≤ BLOCK }
    ensures count { IfSome result (λ count. count
        ≡ count_by (λ e. overlaps e window.now) extents.now) }
    ensures reported { IsSome result ↔ All (λ e. DecidesMeeting e window.now) extents.now }
{
    let mut count: u32 = 0;
    let mut is_decided = true;
    for extent in extents {
        let overlaps = extent.overlaps(window);
        count += u32::from(overlaps);
        is_decided &= !overlaps | has_three_bounds_in(extent, window);
    }
    if is_decided { Some(count) } else { None }
}

/// How many of the extents overlap the window, if each of these has three bounds in it; none if one
/// has fewer.
pub(crate) fn count_in_window(window: &Envelope, extents: &[Envelope]) -> Option<u64>
    ensures count { IfSome result (λ count. count
        ≡ count_by (λ e. overlaps e window.now) extents.now) }
    ensures reported { IsSome result ↔ All (λ e. DecidesMeeting e window.now) extents.now }
{
    let mut count = 0;
    for block in extents.chunks(BLOCK) {
        count += u64::from(count_in_block(window, block)?);
    }
    Some(count)
}
