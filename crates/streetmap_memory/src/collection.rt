//! A collection as the plain keeper keeps it, by its slots.
ghost use Rattle.std.specs.Prelude.{◌≡◌, ◌+◌, ◌++◌, ◌∷◌, [], List, false, IfOk, OnOk};
ghost use Rattle.std.specs.Prelude.{OnErr, Option, Some, None, map, string_bytes};
ghost use Rattle.std.specs.Option.{option_copied, option_flatten, option_map};
ghost use Rattle.std.specs.Result.{result_ok};
ghost use Rattle.std.specs.FinMap.{get, insert, empty};
ghost use Rattle.std.specs.Map.{values_of};
ghost use Rattle.std.specs.BTreeMap.{IsOrdered};
ghost use Rattle.std.specs.BTreeMap.Range.{IsLeBy};
ghost use Rattle.std.specs.String.{string_cmp};
ghost use Rattle.streetmap_query.specs.QueryValue.{QueryValue};
ghost use Rattle.streetmap_query.specs.Views.{query_value};
ghost use Rattle.streetmap_ledger.specs.State.{timed as timed_by};
ghost use Rattle.streetmap_memory.specs.Slots.{by_text, live_entries, live_values, outline_at};
ghost use Rattle.streetmap_memory.specs.Slots.{is_emptied as is_emptied_of, run_under};
ghost use Rattle.streetmap_grid.specs.Bounds.{AreBounds};
ghost use Rattle.streetmap_ledger.specs.Summaries.{all_vertices, summary_of};
ghost use Rattle.streetmap_ledger.specs.SummaryView.{summary_value};
ghost use Rattle.streetmap_ledger.specs.Outlines.{feature_outline_of, feature_outlines_of};
ghost use Rattle.streetmap_ledger.specs.OutlineView.{feature_outline_value, feature_outline_values};
ghost use Rattle.serde_json.specs.Written.{compact_text};
ghost use Rattle.streetmap_geojson.specs.FeatureValue.{FeatureValue};
ghost use Rattle.streetmap_feature_text.specs.Written.{feature_data};
ghost use Rattle.streetmap_ledger.specs.Folds.{IsFoldOf, HoldsCandidates};
ghost use Rattle.streetmap_ledger.specs.Pages.{page_over as page_over_of};
ghost use Rattle.streetmap_ledger.specs.PageView.{page_value};

use crate::extents::grown;
use bytes::Bytes;
use std::alloc::{AllocError, Global};
use std::collections::BTreeMap;
use std::marker::Model;
use streetmap_feature_text::{PackedFeature, WrittenFeature};
use streetmap_grid::GridBox;
use streetmap_ledger::{FeatureOutline, Page, PageFold, Summary};
use streetmap_query::Query;

/// A collection whose deleted features leave their slots empty, until the batch is done.
#[derive(Drop)]
pub struct PlainCollection {
    title: String,
    time: Option<String>,
    slots: BTreeMap<String, Option<PackedFeature>>,
}

impl Model for PlainCollection {
    ghost use Rattle.std.specs.Prelude.{string_bytes};
    ghost use Rattle.std.specs.Option.{option_map};
    ghost use Rattle.streetmap_memory.specs.Slots.{SlotCollection, coded_slot_collection, map_of};

    ghost Value = { SlotCollection };

    ghost coded = { coded_slot_collection };

    ghost view = { λ c. record {
      title = string_bytes c.title;
      time =
          option_map string_bytes c.time;
      slots = map_of c.slots.entries;
    } };
}

impl PlainCollection {
    ghost use Rattle.streetmap_memory.specs.Slots.{put_slot, cut_slot, reset_slot, swept_slot};
    ghost use Rattle.streetmap_memory.specs.Slots.{live, collected};
    ghost use Rattle.std.specs.FinMap.{entries, values};

    pub fn new(alloc: Global, title: String, time: Option<String>) -> Self
        ensures { result ≡ record {
          title = string_bytes title;
          time = option_map string_bytes time;
          slots = empty;
        } }
    {
        PlainCollection {
            title,
            time,
            slots: BTreeMap::new(alloc),
        }
    }

    pub fn get(&self, id: &str) -> Option<&PackedFeature>
        ensures { option_copied result ≡ option_flatten (get self.now.slots id.now) }
    {
        match self.slots.get(id) {
            Some(slot) => slot.as_ref(),
            None => None,
        }
    }

    /// The property that the times of the features are read from.
    pub fn time(&self) -> Option<&str>
        ensures { option_copied result ≡ self.now.time }
    {
        match &self.time {
            Some(property) => Some(property.as_str()),
            None => None,
        }
    }

    /// The feature packed with its text and its time; none if the time cannot be read.
    pub fn packed(
        &self,
        alloc: Global,
        text: Bytes,
        feature: &WrittenFeature,
    ) -> Result<Option<PackedFeature>, AllocError>
        requires { text ≡ compact_text (feature_data feature.now) }
        ensures { IfOk result (λ packed. packed
            ≡ result_ok (timed_by self.now.time feature.now)) }
    {
        match feature.time_under(alloc, self.time())? {
            Ok(time) => Ok(Some(PackedFeature::new(alloc, text, feature, time)?)),
            Err(_) => Ok(None),
        }
    }

    /// Puts a feature into the slot at the id, and returns what that was.
    pub fn put(
        &mut self,
        id: String,
        feature: PackedFeature,
    ) -> Result<Option<Option<PackedFeature>>, AllocError>
        ensures ok { OnOk result (self.new ≡ put_slot self.old (string_bytes id) (Some feature)) }
        ensures was { IfOk result (λ was. was ≡ get self.old.slots (string_bytes id)) }
        ensures err { OnErr result (self.new ≡ self.old) }
    {
        Ok(self.slots.insert(id, Some(feature))?)
    }

    /// Puts this into the slot at the id, if it exists, and returns what the slot held.
    pub(crate) fn replace_slot(
        &mut self,
        id: &str,
        slot: Option<PackedFeature>,
    ) -> Option<Option<PackedFeature>>
        ensures after { self.new ≡ reset_slot self.old id.now slot }
        ensures was { result ≡ get self.old.slots id.now }
    {
        match self.slots.get_mut(id) {
            Some(place) => Some(std::mem::replace(place, slot)),
            None => {
                drop(slot);
                None
            }
        }
    }

    /// Removes the slot.
    pub(crate) fn remove_slot(&mut self, id: &str)
        ensures { self.new ≡ cut_slot self.old id.now }
    {
        let _ = self.slots.remove(id);
    }

    /// Whether the slot at the id exists and is empty.
    fn is_emptied(&self, id: &str) -> bool
        ensures { result ≡ is_emptied_of (get self.now.slots id.now) }
    {
        match self.slots.get(id) {
            Some(slot) => slot.is_none(),
            None => false,
        }
    }

    /// Removes the slot if it is empty.
    pub(crate) fn sweep(&mut self, id: &str)
        ensures { self.new ≡ swept_slot self.old id.now }
    {
        if self.is_emptied(id) {
            self.remove_slot(id);
        }
    }

    /// The description of the collection under its id.
    pub fn summary(&self, alloc: Global, id: &str) -> Result<Summary, AllocError>
        ensures { IfOk result (λ summary. summary_value summary
            ≡ summary_of id.now (collected self.now)) }
    {
        Ok(Summary {
            id: String::from_str(alloc, id)?,
            title: String::from_str(alloc, self.title.as_str())?,
            time: owned(alloc, self.time())?,
            extent: bounds_of(&self.slots),
        })
    }

    /// The outlines of the features, in the order of their ids.
    pub fn outlines(&self, alloc: Global) -> Result<Vec<FeatureOutline>, AllocError>
        ensures { IfOk result (λ outlines. feature_outline_values outlines.items
            ≡ feature_outlines_of (collected self.now)) }
    {
        outlines_of(alloc, &self.slots)
    }

    /// The page of the features.
    pub fn page(&self, alloc: Global, query: &Query) -> Result<Page, AllocError>
        ensures { IfOk result (λ page. page_value page
            ≡ page_over_of (query_value query.now) (values (live self.now.slots))) }
    {
        page_over(alloc, &self.slots, query)
    }

    /// The features under the ids between two in byte order, with those two, in the order of their
    /// ids.
    pub fn features(
        &self,
        alloc: Global,
        first: &str,
        last: &str,
    ) -> Result<Vec<PackedFeature>, AllocError>
        ensures { IfOk result (λ run. run.items
            ≡ run_under first.now last.now (entries (live self.now.slots))) }
    {
        if first > last {
            return Ok(Vec::new(alloc));
        }
        let first = String::from_str(alloc, first)?;
        let last = String::from_str(alloc, last)?;
        run_of(alloc, &self.slots, first, last)
    }
}

/// A copy of a text, if any.
pub fn owned(alloc: Global, text: Option<&str>) -> Result<Option<String>, AllocError>
    ensures { IfOk result (λ own. option_map string_bytes own ≡ option_copied text.entry) }
{
    match text {
        Some(text) => Ok(Some(String::from_str(alloc, text)?)),
        None => Ok(None),
    }
}

/// The bounds of the features in the slots.
fn bounds_of(slots: &BTreeMap<String, Option<PackedFeature>>) -> Option<GridBox>
    ensures bounds { AreBounds (all_vertices (live_values (values_of slots.now.entries))) result }
    ensures ordered { IsOrdered string_cmp slots.now }
{
    let mut bounds = None;
    for slot in slots.values() {
        if let Some(feature) = slot {
            bounds = grown(bounds, feature);
        }
    }
    bounds
}

/// The outline of the feature that is kept under an id.
fn outline_of(
    alloc: Global,
    id: &str,
    feature: &PackedFeature,
) -> Result<FeatureOutline, AllocError>
    ensures { IfOk result (λ outline. feature_outline_value outline
        ≡ feature_outline_of id.now feature.now) }
{
    FeatureOutline::new(alloc, id, feature.extent(), feature.time())
}

/// The outlines of the features in the slots, in the order of their ids.
fn outlines_of(
    alloc: Global,
    slots: &BTreeMap<String, Option<PackedFeature>>,
) -> Result<Vec<FeatureOutline>, AllocError>
    ensures outlines { IfOk result (λ outlines. feature_outline_values outlines.items
        ≡ map outline_at (live_entries (by_text slots.now.entries))) }
    ensures ordered { IsOrdered string_cmp slots.now }
{
    let mut outlines = Vec::new(alloc);
    for (id, slot) in slots.iter() {
        if let Some(feature) = slot {
            outlines.push(outline_of(alloc, id.as_str(), feature)?)?;
        }
    }
    Ok(outlines)
}

/// The page of the features in the slots, in the order of their ids.
fn page_over(
    alloc: Global,
    slots: &BTreeMap<String, Option<PackedFeature>>,
    query: &Query,
) -> Result<Page, AllocError>
    ensures page { IfOk result (λ page. page_value page
        ≡ page_over_of (query_value query.now) (live_values (values_of slots.now.entries))) }
    ensures ordered { IsOrdered string_cmp slots.now }
{
    let mut fold = PageFold::new(alloc, query);
    for slot in slots.values() {
        if let Some(feature) = slot {
            fold.examine(feature)?;
        }
    }
    fold.end(alloc)
}

/// The features in the slots under the ids between two in byte order, with those two, in the order
/// of their ids.
fn run_of(
    alloc: Global,
    slots: &BTreeMap<String, Option<PackedFeature>>,
    first: String,
    last: String,
) -> Result<Vec<PackedFeature>, AllocError>
    requires { IsLeBy string_cmp first last }
    ensures run { IfOk result (λ run. run.items
        ≡ run_under (string_bytes first) (string_bytes last)
        (live_entries (by_text slots.now.entries))) }
    ensures ordered { IsOrdered string_cmp slots.now }
{
    let mut run = Vec::new(alloc);
    for (_, slot) in slots.range(first..=last) {
        if let Some(feature) = slot {
            run.push(feature.copy(alloc)?)?;
        }
    }
    Ok(run)
}
