//! What an extent shows of a geometry that may meet a box.
ghost use Rattle.std.specs.Prelude.{◌≡◌, ◌↔◌, Option, IsTrue, true, option_map};
ghost use Rattle.streetmap_grid.specs.Extent.{extent_of};
ghost use Rattle.streetmap_grid.specs.Meeting.{geometry_meets};
ghost use Rattle.streetmap_grid.specs.Values.{GeometryValue};
ghost use Rattle.streetmap_grid.specs.Views.{box_value};
ghost use Rattle.streetmap_geojson.specs.FeatureInvariant.{IsGeometryIf};
ghost use Rattle.streetmap_query.specs.Views.{query_value};
ghost use Rattle.streetmap_ledger.specs.Pages.{passes};
ghost use Rattle.streetmap_outlines.specs.Within.{is_between, HasThreeBoundsIn};

use streetmap_cells::Envelope;
use streetmap_grid::GridBox;
use streetmap_query::Query;

/// Whether a bound lies between two others, or is one of them. It always makes both comparisons,
/// without a branch: with unsorted bounds the processor mispredicts such a branch.
fn lies_between(low: u32, high: u32, at: u32) -> bool
    ensures { result ≡ is_between low high at }
{
    (low <= at) & (at <= high)
}

/// Whether three of the four bounds of an extent, or all, lie between those of a window.
pub(crate) fn has_three_bounds_in(extent: &Envelope, window: &Envelope) -> bool
    ensures { IsTrue result ↔ HasThreeBoundsIn extent.now window.now }
{
    let west = lies_between(window.x0, window.x1, extent.x0);
    let east = lies_between(window.x0, window.x1, extent.x1);
    let south = lies_between(window.y0, window.y1, extent.y0);
    let north = lies_between(window.y0, window.y1, extent.y1);
    u32::from(west) + u32::from(east) + u32::from(south) + u32::from(north) >= 3
}

/// Whether an extent shows that its geometry meets the box, if the query has one. Each bound of an
/// extent is the coordinate of a position. If three of the four lie between those of the box, the
/// position at one of them lies in the box: the extent begins or ends there in one direction, and
/// lies within the box in the other. So a line that crosses one edge of the box need not be read.
pub(crate) fn decides_meeting(query: &Query, extent: Option<GridBox>) -> bool
    ensures { IsTrue result → (geometry : Option GeometryValue)
        → option_map box_value extent ≡ option_map extent_of geometry → IsGeometryIf geometry
        → passes geometry_meets geometry (query_value query.now).bbox ≡ true }
{
    match &query.bbox {
        None => true,
        Some(area) => match &extent {
            None => false,
            Some(extent) => has_three_bounds_in(&Envelope::of(extent), &Envelope::of(area)),
        },
    }
}
