//! The rows of a collection's features.
ghost use Rattle.std.specs.Prelude.{◌≡◌, ◌↔◌, IsTrue, IfOk, MatchResult, length, option_map};
ghost use Rattle.std.specs.Prelude.{string_bytes};
ghost use Rattle.std.specs.Option.{option_copied};
ghost use Rattle.streetmap_batch.specs.Text.{Text};
ghost use Rattle.streetmap_geojson.specs.FeatureValue.{FeatureValue};
ghost use Rattle.streetmap_grid.specs.Views.{box_value};
ghost use Rattle.streetmap_moment.specs.Views.{interval_value};
ghost use Rattle.streetmap_moment.specs.Meeting.{seconds_of};
ghost use Rattle.streetmap_ledger.specs.WellFormed.{IsPlaced};
ghost use Rattle.streetmap_rows.specs.Stored.{IsStored};
ghost use Rattle.streetmap_rows.specs.Rows.{feature_text, extent_in, seconds_in};
ghost use Rattle.streetmap_reading.specs.FoldEffects.{Refuses};
ghost use Rattle.streetmap_checking.specs.Good.{HasTextCells, HasExtentCells, HasSeconds};
ghost use Rattle.streetmap_checking.specs.Good.{feature_view};

use crate::cells::{follows, is_number, is_text, one_more};
use crate::collections::Head;
use sqlite::Row;
use sqlite::types::ValueRef;
use std::alloc::{AllocError, Global};
use streetmap_feature_text::push_feature;
use streetmap_geojson::{Feature, JsonFault, read_feature, read_json};
use streetmap_grid::GridBox;
use streetmap_moment::Interval;
use streetmap_reading::RowFold;
use streetmap_rows::ReadFault;

/// What is known of a collection's features whose rows were read.
#[derive(Drop)]
pub struct FeatureRows {
    pub alloc: Global,
    pub head: Head,
    /// The id of the last.
    pub last: Option<String>,
    pub count: u64,
}

/// The feature that a text reads as, under a collection's time property.
fn read_body(alloc: Global, body: &[u8], property: Option<&str>) -> Result<Feature, ReadFault>
    ensures { MatchResult result (λ f. IsStored (option_copied property.entry) f
        × ((g : FeatureValue) → body.now ≡ feature_text g
        → IsStored (option_copied property.entry) g → f ≡ g)) (Refuses ((g : FeatureValue)
        → body.now ≡ feature_text g → IsStored (option_copied property.entry) g → ⊥)) }
{
    let value = match read_json(alloc, body) {
        Ok(value) => value,
        Err(JsonFault::Memory) => return Err(ReadFault::Memory),
        Err(JsonFault::Fault(_)) => return Err(ReadFault::Unread),
    };
    match read_feature(alloc, &value, property) {
        Ok(feature) => {
            feature.facts();
            Ok(feature)
        }
        Err(JsonFault::Memory) => Err(ReadFault::Memory),
        Err(JsonFault::Fault(_)) => Err(ReadFault::Unread),
    }
}

/// The text that is kept of a feature.
#[tactic(auto, unfolding(streetmap_rows::specs::Rows::feature_text))]
fn text_of(alloc: Global, feature: &Feature) -> Result<String, AllocError>
    ensures { IfOk result (λ text. string_bytes text ≡ feature_text feature.now) }
{
    let mut text = String::new(alloc);
    push_feature(alloc, &mut text, feature)?;
    Ok(text)
}

/// Whether the bounds in a row of eight cells are those of an extent, or NULLs for none.
fn has_extent(row: &Row, extent: Option<GridBox>) -> bool
    ensures { length row.now ≡ 8
        → (IsTrue result ↔ HasExtentCells (option_map box_value extent) row.now) }
{
    match extent {
        Some(extent) => {
            is_number(row, 2, Some(extent.x0))
                && is_number(row, 3, Some(extent.y0))
                && is_number(row, 4, Some(extent.x1))
                && is_number(row, 5, Some(extent.y1))
        }
        None => {
            is_number(row, 2, None)
                && is_number(row, 3, None)
                && is_number(row, 4, None)
                && is_number(row, 5, None)
        }
    }
}

/// Whether the seconds in a row of eight cells are these, or NULLs for none.
fn has_seconds(row: &Row, time: Option<Interval>) -> bool
    ensures { length row.now ≡ 8 → (IsTrue result ↔ HasSeconds
        (option_map (λ i. seconds_of (interval_value i)) time) row.now) }
{
    match time {
        Some(time) => {
            let (first, last) = time.seconds();
            is_number(row, 6, Some(first)) && is_number(row, 7, Some(last))
        }
        None => is_number(row, 6, None) && is_number(row, 7, None),
    }
}

/// Whether the first two cells of a row of eight have these texts.
fn has_texts(row: &Row, id: &str, body: &str) -> bool
    ensures { length row.now ≡ 8 → (IsTrue result ↔ HasTextCells id.now body.now row.now) }
{
    is_text(row, 0, id.as_bytes()) && is_text(row, 1, body.as_bytes())
}

/// Whether the cells of a row of eight are those of a feature, by its text.
#[tactic(auto, unfolding(streetmap_rows::specs::Rows::extent_in))]
fn has_cells(row: &Row, feature: &Feature, body: &str) -> bool
    ensures { length row.now ≡ 8
        → (IsTrue result ↔ HasTextCells feature.now.id body.now row.now
        × HasExtentCells (extent_in feature.now) row.now
        × HasSeconds (seconds_in feature.now) row.now) }
{
    has_texts(row, feature.id(), body)
        && has_extent(row, feature.extent())
        && has_seconds(row, feature.time())
}

/// Whether a row is that of a feature.
fn is_row_of(alloc: Global, row: &Row, feature: &Feature) -> Result<bool, AllocError>
    ensures { IfOk result (λ same. IsTrue same ↔ row.now
        ≡ feature_view feature.now.id feature.now) }
{
    if row.column_count() != 8 {
        return Ok(false);
    }
    let body = text_of(alloc, feature)?;
    Ok(has_cells(row, feature, body.as_str()))
}

/// The feature of a row of a collection.
fn feature_in(alloc: Global, row: &Row, head: &Head) -> Result<Feature, ReadFault>
    ensures { MatchResult result (λ f. (row.now ≡ feature_view f.id f)
        × IsPlaced (option_map string_bytes head.now.time) f.id f)
        (Refuses ((id : Text) (f : FeatureValue) → row.now ≡ feature_view id f
        → IsPlaced (option_map string_bytes head.now.time) id f → ⊥)) }
{
    let Ok(ValueRef::Text(body)) = row.get_ref(1) else {
        return Err(ReadFault::Unread);
    };
    let feature = read_body(alloc, body, head.time.as_deref())?;
    if is_row_of(alloc, row, &feature)? {
        Ok(feature)
    } else {
        Err(ReadFault::Unread)
    }
}

impl RowFold for FeatureRows {
    ghost use Rattle.streetmap_checking.specs.Held.{HoldsFeatureRows, IsGoodFeatures};

    ghost holds = { HoldsFeatureRows };

    ghost is_good = { IsGoodFeatures };

    fn take(&mut self, row: &Row) -> Result<(), ReadFault> {
        let feature = feature_in(self.alloc, row, &self.head)?;
        if !follows(self.last.as_deref(), feature.id()) {
            return Err(ReadFault::Unread);
        }
        let last = String::from_str(self.alloc, feature.id())?;
        let count = one_more(self.count)?;
        self.last = Some(last);
        self.count = count;
        Ok(())
    }
}
