//! What is known of features without reading them.
ghost use Rattle.std.specs.Prelude.{◌≡◌, IfOk, option_map, string_bytes};
ghost use Rattle.streetmap_grid.specs.Views.{box_value};
ghost use Rattle.streetmap_moment.specs.Meeting.{seconds_of};
ghost use Rattle.streetmap_moment.specs.Views.{interval_value};
ghost use Rattle.streetmap_ledger.specs.OutlineView.{feature_outline_value};

use crate::compact_box::CompactBox;
use std::alloc::{AllocError, Global};
use streetmap_grid::GridBox;
use streetmap_moment::Interval;

/// A feature's id, extent and seconds: what a store keeps beside the feature itself, and an index
/// in memory, where it takes 80 bytes and its id.
#[derive(Drop)]
pub struct FeatureOutline {
    /// The id of the feature.
    pub id: String,
    /// The extent of its geometry, in millimetres; none if it has none.
    pub extent: Option<CompactBox>,
    /// The first and the last second of its time, since 1970-01-01T00:00:00Z and rounded down; none
    /// if it has no time. An open start is -1,000,000,000,000 and an open end 1,000,000,000,000.
    pub seconds: Option<(i64, i64)>,
    /// The place at which the store that returned this may search for the feature first. Only that
    /// store understands it, and clauses claim nothing of it: the feature may be elsewhere since.
    pub hint: Option<u32>,
}

/// The same extent in half the memory.
fn compact(extent: Option<GridBox>) -> Option<CompactBox>
    ensures { result ≡ extent }
{
    match &extent {
        Some(extent) => Some(CompactBox::of(extent)),
        None => None,
    }
}

impl FeatureOutline {
    /// The outline of a feature with this id, extent (in millimetres) and time, of whose place in a
    /// store nothing is known. The error is that memory for the id runs out.
    pub fn new(
        alloc: Global,
        id: &str,
        extent: Option<GridBox>,
        time: Option<Interval>,
    ) -> Result<FeatureOutline, AllocError>
        ensures { IfOk result (λ outline. feature_outline_value outline
            ≡ record {
              id = id.now;
              extent = option_map box_value extent;
              seconds = option_map
                  seconds_of (option_map interval_value time);
            }) }
    {
        let seconds = match time {
            Some(time) => Some(time.seconds()),
            None => None,
        };
        let id = String::from_str(alloc, id)?;
        Ok(FeatureOutline::of(id, extent, seconds, None))
    }

    /// The outline with these parts: an extent in millimetres, the first and the last second of an
    /// interval, counted from 1970, and the hint of a store.
    pub fn of(
        id: String,
        extent: Option<GridBox>,
        seconds: Option<(i64, i64)>,
        hint: Option<u32>,
    ) -> FeatureOutline
        ensures outline { feature_outline_value result ≡ record {
          id = string_bytes id;
          extent = option_map box_value extent;
          seconds = seconds;
        } }
        ensures hint { result.hint ≡ hint }
    {
        FeatureOutline {
            id,
            extent: compact(extent),
            seconds,
            hint,
        }
    }

    /// The extent of its geometry, in millimetres; none if it has none.
    pub fn extent(&self) -> Option<GridBox>
        ensures { result ≡ self.now.extent }
    {
        match &self.extent {
            Some(extent) => Some(extent.grid_box()),
            None => None,
        }
    }
}
