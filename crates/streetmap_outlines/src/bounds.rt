//! What is known of many outlines at once: bounds of their extents and seconds, and how many have
//! an extent.
ghost use Rattle.std.specs.Prelude.{◌≡◌, ◌++◌, ℤ, List, Option};
ghost use Rattle.std.specs.List.{count_by};
ghost use Rattle.streetmap_grid.specs.Bounds.{AreBounds};
ghost use Rattle.streetmap_grid.specs.Values.{PositionValue};
ghost use Rattle.streetmap_geojson.specs.FeatureValue.{FeatureValue};
ghost use Rattle.streetmap_ledger.specs.State.{Features};
ghost use Rattle.streetmap_ledger.specs.Summaries.{all_vertices};
ghost use Rattle.streetmap_outlines.specs.Outlines.{LiesWithin, AllLieWithin, has_extent};
ghost use Rattle.streetmap_outlines.specs.Outlines.{IsTimedBy};
ghost use Rattle.streetmap_outlines.specs.Outlines.{AllTimedBy};
ghost use Rattle.streetmap_outlines.specs.Outlines.{Pairs};

use streetmap_grid::GridBox;
use streetmap_ledger::FeatureOutline;

/// The bounds of the positions of both.
pub fn bounds_of_both(one: Option<GridBox>, other: Option<GridBox>) -> Option<GridBox>
    ensures exact { (ps qs : List PositionValue) → AreBounds ps one → AreBounds qs other
        → AreBounds (ps ++ qs) result }
    ensures one { LiesWithin one result }
    ensures other { LiesWithin other result }
{
    match (one, other) {
        (one, None) => one,
        (None, other) => other,
        (Some(one), Some(other)) => Some(one.union(&other)),
    }
}

/// The bounds so far, extended by those of the features with these outlines.
pub fn grown(bounds: Option<GridBox>, outlines: &[FeatureOutline]) -> Option<GridBox>
    ensures exact { (features : Features) (ps : List PositionValue) (fs : List FeatureValue)
        → Pairs features outlines.now fs → AreBounds ps bounds
        → AreBounds (ps ++ all_vertices fs) result }
    ensures within { AllLieWithin outlines.now result }
{
    let mut bounds = bounds;
    for outline in outlines {
        bounds = bounds_of_both(bounds, outline.extent());
    }
    bounds
}

/// How many of the outlines have an extent.
pub(crate) fn count_extents(outlines: &[FeatureOutline]) -> u64
    ensures { result ≡ count_by has_extent outlines.now }
{
    let mut count = 0;
    for outline in outlines {
        if outline.extent.is_some() {
            count += 1;
        }
    }
    count
}

/// The bounds of the seconds that have these bounds, and of those of one more time.
fn bounds_of_seconds_too(
    bounds: Option<(i64, i64)>,
    seconds: Option<(i64, i64)>,
) -> Option<(i64, i64)>
    ensures bounds { (s : Option (ℤ × ℤ)) → IsTimedBy s bounds → IsTimedBy s result }
    ensures seconds { IsTimedBy seconds result }
{
    match (bounds, seconds) {
        (Some((first, last)), Some((from, to))) => Some((first.max(from), last.min(to))),
        _ => None,
    }
}

/// The latest first second and the earliest last second of the outlines' times; none if one of them
/// has no time.
pub(crate) fn bounds_of_seconds(outlines: &[FeatureOutline]) -> Option<(i64, i64)>
    ensures { AllTimedBy outlines.now result }
{
    let mut bounds = Some((i64::MIN, i64::MAX));
    for outline in outlines {
        bounds = bounds_of_seconds_too(bounds, outline.seconds);
    }
    bounds
}
