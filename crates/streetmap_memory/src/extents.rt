//! The extent of features.
ghost use Rattle.std.specs.Prelude.{List, ◌++◌};
ghost use Rattle.streetmap_grid.specs.Values.{PositionValue};
ghost use Rattle.streetmap_grid.specs.Bounds.{AreBounds};
ghost use Rattle.streetmap_ledger.specs.Summaries.{feature_vertices};

use streetmap_feature_text::PackedFeature;
use streetmap_grid::GridBox;

/// The bounds so far, with those of one more feature.
pub fn grown(bounds: Option<GridBox>, feature: &PackedFeature) -> Option<GridBox>
    ensures { (ps : List PositionValue) → AreBounds ps bounds
        → AreBounds (ps ++ feature_vertices feature.now) result }
{
    feature.facts();
    match (bounds, feature.extent()) {
        (bounds, None) => bounds,
        (None, extent) => extent,
        (Some(bounds), Some(extent)) => Some(bounds.union(&extent)),
    }
}
