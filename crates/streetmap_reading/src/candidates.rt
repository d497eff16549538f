//! The candidates of a page, whose texts the rows of a query show.
ghost use Rattle.std.specs.Prelude.{◌≡◌, ◌<◌, IfErr, MatchResult, length};
ghost use Rattle.std.specs.Option.{option_copied};
ghost use Rattle.sqlite.specs.Order.{column};
ghost use Rattle.sqlite.specs.declared.types.Value.TheVariants.{Text as Words};
ghost use Rattle.streetmap_geojson.specs.FeatureValue.{FeatureValue};
ghost use Rattle.streetmap_rows.specs.Rows.{feature_text};
ghost use Rattle.streetmap_rows.specs.Stored.{IsStored};
ghost use Rattle.streetmap_reading.specs.FoldEffects.{Refuses};

use crate::fold::RowFold;
use json::Scratch;
use sqlite::Row;
use sqlite::types::ValueRef;
use std::alloc::Global;
use streetmap_feature_text::PackedFeature;
use streetmap_geojson::JsonFault;
use streetmap_ledger::PageFold;
use streetmap_rows::{ReadFault, read_body};

/// The feature of a row that shows its text first.
pub(crate) fn read_row(
    alloc: Global,
    scratch: &mut Scratch,
    row: &Row,
    property: Option<&str>,
) -> Result<PackedFeature, ReadFault>
    ensures reads { (f : FeatureValue) → 0 < length row.now → column row.now 0
        ≡ Words (feature_text f) → IsStored (option_copied property.entry) f
        → MatchResult result (λ g. g ≡ f) (λ fault. fault ≡ ReadFault.Memory) }
    ensures refuses { IfErr result (Refuses (Unit {0})) }
{
    match row.get_ref(0) {
        Ok(ValueRef::Text(body)) => match read_body(alloc, scratch, body, property) {
            Ok(feature) => Ok(feature),
            Err(JsonFault::Memory) => Err(ReadFault::Memory),
            Err(JsonFault::Fault(_)) => Err(ReadFault::Unread),
        },
        _ => Err(ReadFault::Unread),
    }
}

/// A page that is being made, and what its rows are read by.
#[derive(Drop)]
pub struct PageRows<'a> {
    pub alloc: Global,
    /// The time property of the collection.
    pub property: Option<&'a str>,
    /// The memory that texts are read with.
    pub scratch: Scratch,
    pub fold: PageFold<'a>,
}

impl RowFold for PageRows<'_> {
    ghost use Rattle.std.specs.List.{AllByRecursion};
    ghost use Rattle.streetmap_reading.specs.Held.{HoldsPage, IsCandidate};

    ghost holds = { HoldsPage };

    ghost is_good = { λ start. AllByRecursion (IsCandidate (option_copied start.property)) };

    fn take(&mut self, row: &Row) -> Result<(), ReadFault> {
        let feature = read_row(self.alloc, &mut self.scratch, row, self.property)?;
        match self.fold.take(feature) {
            Ok(()) => Ok(()),
            Err(_) => Err(ReadFault::Memory),
        }
    }
}
