//! What is known of a collection without reading its features, and how it follows edits.
ghost use Rattle.std.specs.Prelude.{◌≡◌, Ok, IfOk, OnOk};
ghost use Rattle.std.specs.Option.{option_map};
ghost use Rattle.std.specs.FinMap.{get, insert};
ghost use Rattle.streetmap_moment.specs.Views.{interval_value};
ghost use Rattle.streetmap_geojson.specs.FeatureValue.{FeatureValue, retimed};
ghost use Rattle.streetmap_batch.specs.BatchView.{edit_value};
ghost use Rattle.streetmap_ledger.specs.State.{State, Collection, timed, step};
ghost use Rattle.streetmap_outlines.specs.Outlines.{IsOutlineOf};
ghost use Rattle.streetmap_index.specs.Index.{IsOutlined, IsOutlinedIf, collection_of};

use std::alloc::{AllocError, Global};
use streetmap_batch::Edit;
use streetmap_feature_text::WrittenFeature;
use streetmap_ledger::FeatureOutline;
use streetmap_moment::Interval;
use streetmap_outlines::Chunks;

/// A collection's title, the property that the times of its features are read from, and their
/// outlines.
#[derive(Drop)]
pub struct OutlinedCollection {
    pub title: String,
    pub time: Option<String>,
    pub outlines: Chunks,
}

/// The outline of a feature that has this time.
fn outline_of(
    alloc: Global,
    feature: &WrittenFeature,
    time: Option<Interval>,
) -> Result<FeatureOutline, AllocError>
    ensures { IfOk result (λ outline.
        IsOutlineOf outline (retimed feature.now (option_map interval_value time))) }
{
    FeatureOutline::new(alloc, feature.id(), feature.extent(), time)
}

impl OutlinedCollection {
    /// Puts the outline of a feature in, with the time that the collection's property gives.
    fn put(&mut self, alloc: Global, feature: &WrittenFeature) -> Result<(), AllocError>
        ensures { (c : Collection) (g : FeatureValue) → IsOutlined self.old c
            → timed c.time feature.now ≡ Ok g
            → OnOk result (IsOutlined self.new (record c { features = insert c.features g.id g })) }
    {
        match feature.time_under(alloc, self.time.as_deref())? {
            Ok(time) => self.outlines.put(alloc, outline_of(alloc, feature, time)?),
            Err(_) => Ok(()),
        }
    }

    /// Follows an edit of the collection that was done. After an error, what is known may
    /// be wrong.
    pub fn follow(&mut self, alloc: Global, edit: &Edit) -> Result<(), AllocError>
        ensures { (s t : State) → step s (edit_value edit.now) ≡ Ok t
            → IsOutlinedIf self.old (get s.collections (collection_of (edit_value edit.now)))
            → OnOk result (IsOutlinedIf self.new
            (get t.collections (collection_of (edit_value edit.now)))) }
    {
        match edit {
            Edit::Open { .. } => Ok(()),
            Edit::Insert { feature, .. } => self.put(alloc, feature),
            Edit::Replace { feature, .. } => self.put(alloc, feature),
            Edit::Delete { id, .. } => {
                self.outlines.cut(id.as_str());
                Ok(())
            }
        }
    }
}
