//! Consecutive outlines of features, and what is known of all of them.
ghost use Rattle.std.specs.Prelude.{◌≡◌, ℕ, ◌<◌, ◌≤◌, IfOk, IsTrue, OnOk, drop, length};
ghost use Rattle.std.specs.Prelude.{string_bytes, take};
ghost use Rattle.std.specs.FinMap.{insert, remove};
ghost use Rattle.std.specs.List.Sorted.{IsSearchInRange, IsBinarySearchResult};
ghost use Rattle.streetmap_grid.specs.Views.{box_value};
ghost use Rattle.streetmap_geojson.specs.FeatureValue.{FeatureValue};
ghost use Rattle.streetmap_batch.specs.Text.{text_cmp};
ghost use Rattle.streetmap_ledger.specs.State.{Features};
ghost use Rattle.streetmap_cells.specs.declared.cells.Cells.{Cells};
ghost use Rattle.streetmap_outlines.specs.Outlines.{IsOutlineOf, AreOutlines, IsBounded};
ghost use Rattle.streetmap_outlines.specs.Outlines.{IsListedIf};
ghost use Rattle.streetmap_outlines.specs.Outlines.{IsListedChunk};
ghost use Rattle.streetmap_outlines.specs.Chunks.{reaches as reaches_of};

use crate::bounds::{bounds_of_seconds, count_extents, grown};
use crate::extent_column::keep_extents;
use std::alloc::{AllocError, Global};
use streetmap_cells::Envelope;
use streetmap_grid::GridBox;
use streetmap_ledger::FeatureOutline;

/// Consecutive outlines, and what is known of all of them.
#[derive(Drop)]
pub struct Chunk {
    /// In byte order of ids.
    pub outlines: Vec<FeatureOutline>,
    /// Their extents, one after the other: only those of the first ones if memory ran out.
    pub extents: Vec<Envelope>,
    /// The bounds of their extents, in millimetres; none if no outline has an extent.
    pub bounds: Option<GridBox>,
    /// How many of them have an extent.
    pub with_extent: u64,
    /// The latest first second and the earliest last second of their times, since
    /// 1970-01-01T00:00:00Z; none if an outline has no time.
    pub seconds: Option<(i64, i64)>,
    /// The number that cells have for their extents.
    pub number: u32,
}

/// Whether two boxes are the same.
fn is_same_box(one: &GridBox, other: &GridBox) -> bool
    ensures { IsTrue result → box_value one.now ≡ box_value other.now }
{
    one.x0 == other.x0 && one.y0 == other.y0 && one.x1 == other.x1 && one.y1 == other.y1
}

/// Whether two extents are the same.
fn is_same_extent(one: Option<GridBox>, other: Option<GridBox>) -> bool
    ensures { IsTrue result → (cells : Cells) (number : ℕ) → IsListedIf cells number one →
        IsListedIf cells number other }
{
    match (one, other) {
        (_, None) => true,
        (None, Some(_)) => false,
        (Some(one), Some(other)) => is_same_box(&one, &other),
    }
}

impl Chunk {
    /// A chunk of these outlines, with this number.
    pub(crate) fn new(alloc: Global, number: u32, outlines: Vec<FeatureOutline>) -> Self
        ensures number { result.number ≡ number }
        ensures same { result.outlines.items ≡ outlines.items }
        ensures bounded { IsBounded result }
    {
        let bounds = grown(None, outlines.as_slice());
        let with_extent = count_extents(outlines.as_slice());
        let seconds = bounds_of_seconds(outlines.as_slice());
        let mut extents = Vec::new(alloc);
        keep_extents(&mut extents, outlines.as_slice());
        Chunk {
            outlines,
            extents,
            bounds,
            with_extent,
            seconds,
            number,
        }
    }

    /// The place of the outline under an id, or the place where it would be.
    fn place_of(&self, id: &str) -> Result<usize, usize>
        ensures bound { IsSearchInRange result (length self.now.outlines.items) }
        ensures place { IsBinarySearchResult (λ o. text_cmp (string_bytes o.id) id.now)
            self.now.outlines.items result }
    {
        self.outlines
            .as_slice()
            .binary_search_by(|outline| outline.id.as_str().cmp(id))
    }

    /// Whether an outline exists under this id, with this extent.
    pub(crate) fn has(&self, id: &str, extent: Option<GridBox>) -> bool
        ensures { IsTrue result → (cells : Cells) → IsListedChunk cells self.now →
            IsListedIf cells self.now.number extent }
    {
        match self.place_of(id) {
            Ok(place) => is_same_extent(self.outlines[place].extent(), extent),
            Err(_) => false,
        }
    }

    /// Computes again what is known of all the outlines.
    fn bound(&mut self)
        ensures same { self.new.outlines.items ≡ self.old.outlines.items }
        ensures number { self.new.number ≡ self.old.number }
        ensures bounded { IsBounded self.new }
    {
        self.bounds = grown(None, self.outlines.as_slice());
        self.with_extent = count_extents(self.outlines.as_slice());
        self.seconds = bounds_of_seconds(self.outlines.as_slice());
        keep_extents(&mut self.extents, self.outlines.as_slice());
    }

    /// Inserts an outline, in place of the one under its id, if any.
    pub(crate) fn put(&mut self, outline: FeatureOutline) -> Result<(), AllocError>
        ensures some { OnOk result (0 < length self.new.outlines.items) }
        ensures outlines { (features : Features) (f : FeatureValue)
            → AreOutlines self.old.outlines.items features → IsOutlineOf outline f
            → OnOk result (AreOutlines self.new.outlines.items (insert features f.id f)) }
        ensures bounded { IsBounded self.old → OnOk result (IsBounded self.new) }
        ensures listed { (cells : Cells) → IsListedChunk cells self.old →
            IsListedIf cells self.old.number outline.extent →
            OnOk result (IsListedChunk cells self.new) }
    {
        match self.place_of(outline.id.as_str()) {
            Ok(place) => {
                self.outlines[place] = outline;
                self.bound();
            }
            Err(place) => {
                self.outlines.insert(place, outline)?;
                self.bound();
            }
        }
        Ok(())
    }

    /// Removes the outline under an id, if any.
    pub(crate) fn cut(&mut self, id: &str)
        ensures outlines { (features : Features) → AreOutlines self.old.outlines.items features
            → AreOutlines self.new.outlines.items (remove features id.now) }
        ensures bounded { IsBounded self.old → IsBounded self.new }
        ensures listed { (cells : Cells) → IsListedChunk cells self.old →
            IsListedChunk cells self.new }
    {
        if let Ok(place) = self.place_of(id) {
            let _ = self.outlines.remove(place);
            self.bound();
        }
    }

    /// Removes the outlines from a place on, and returns them as a chunk of their own with this
    /// number.
    pub(crate) fn split_off(
        &mut self,
        alloc: Global,
        place: usize,
        number: u32,
    ) -> Result<Chunk, AllocError>
        requires { place ≤ length self.old.outlines.items }
        ensures front { OnOk result (self.new.outlines.items
            ≡ take place self.old.outlines.items) }
        ensures following { IfOk result (λ following. following.outlines.items
            ≡ drop place self.old.outlines.items) }
        ensures bounded { IfOk result (λ following. IsBounded self.new × IsBounded following) }
        ensures number { IfOk result (λ following. following.number ≡ number) }
        ensures listed { (cells : Cells) → IsListedChunk cells self.old →
            OnOk result (IsListedChunk cells self.new) }
    {
        let following = self.outlines.split_off(place)?;
        self.bound();
        Ok(Chunk::new(alloc, number, following))
    }

    /// Whether the last of the outlines is under this id or a later one.
    pub(crate) fn reaches(&self, id: &str) -> bool
        ensures { result ≡ reaches_of id.now self.now.outlines.items }
    {
        match self.outlines.last() {
            Some(outline) => outline.id.as_str() >= id,
            None => false,
        }
    }
}
