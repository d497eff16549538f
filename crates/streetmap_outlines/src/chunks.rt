//! Outlines of features in byte order of ids, in chunks, so that an insertion or a removal moves
//! few others.
ghost use Rattle.std.specs.Prelude.{◌≡◌, ℕ, ◌+◌, ◌<◌, [], true, false, IfOk, IfSome, OnOk, length};
ghost use Rattle.std.specs.Prelude.{All, slice_index_or};
ghost use Rattle.std.specs.FinMap.{insert, remove};
ghost use Rattle.streetmap_geojson.specs.FeatureValue.{FeatureValue};
ghost use Rattle.streetmap_query.specs.Views.{query_value};
ghost use Rattle.streetmap_ledger.specs.State.{Features};
ghost use Rattle.streetmap_ledger.specs.OutlineView.{feature_outline_values};
ghost use Rattle.streetmap_outlines.specs.Selections.{MarksCandidates};
ghost use Rattle.streetmap_outlines.specs.Outlines.{joined, joined_runs, IsOutlineOf, AreFilled};
ghost use Rattle.streetmap_outlines.specs.Outlines.{AreBounded, AreChunksOf, AreListed, IsListedIf};
ghost use Rattle.streetmap_outlines.specs.Outlines.{AreListedChunksOf};
ghost use Rattle.streetmap_outlines.specs.Chunks.{reaches as reaches_of};
ghost use Rattle.streetmap_outlines.specs.declared.chunk.Chunk.{Chunk};

use crate::chunk::Chunk;
use crate::in_cells::{cells_of, list_extent, list_outlines, renew};
use crate::selection::{count_by_bounds, is_passed_over};
use std::alloc::{AllocError, Global};
use streetmap_cells::{Cells, Marks};
use streetmap_grid::GridBox;
use streetmap_ledger::FeatureOutline;
use streetmap_query::Query;

/// The most outlines that a chunk has. A chunk that reaches this number is cut in two.
const MOST_IN_CHUNK: usize = 512;

/// How many outlines a chunk has when it is first built, which leaves room for others.
const LEARNT_IN_CHUNK: usize = 256;

/// How many chunks a page can pass over by their bounds in the time that a search of cells takes
/// for one cell of the first level, and for its part of the others.
const CHUNKS_A_CELL: i64 = 64;

/// Outlines of features in byte order of ids: those of each chunk after those of the chunk before
/// it, and no chunk is empty.
#[derive(Drop)]
pub struct Chunks {
    pub chunks: Vec<Chunk>,
    /// The extents of the outlines, under the numbers of their chunks.
    pub cells: Cells,
    /// The number for the next chunk.
    pub next: u32,
}

/// The number for the next one of chunks.
fn number_after(chunks: &[Chunk]) -> u32 {
    u32::try_from(chunks.len()).unwrap_or(u32::MAX)
}

/// Cuts outlines into runs of the number that a chunk has when it is first built, except the first
/// run, which may have fewer.
fn cut_up(
    alloc: Global,
    mut outlines: Vec<FeatureOutline>,
) -> Result<Vec<Vec<FeatureOutline>>, AllocError>
    ensures same { IfOk result (λ runs. feature_outline_values (joined_runs runs.items)
        ≡ feature_outline_values outlines.items) }
    ensures filled { IfOk result (λ runs. All (λ run. 0 < length run.items) runs.items) }
{
    let mut runs = Vec::new(alloc);
    while outlines.len() > LEARNT_IN_CHUNK {
        let last = outlines.split_off(outlines.len() - LEARNT_IN_CHUNK)?;
        runs.push(last)?;
    }
    if !outlines.is_empty() {
        runs.push(outlines)?;
    }
    runs.reverse();
    Ok(runs)
}

/// Chunks of runs of outlines. All outlines are in their place before, so that the extents of one
/// chunk come after those of the chunk before it in memory: a page of a large box goes over the
/// extents of all, and the processor prefetches them.
fn chunks_of(alloc: Global, runs: Vec<Vec<FeatureOutline>>) -> Result<Vec<Chunk>, AllocError>
    ensures same { IfOk result (λ made. joined made.items ≡ joined_runs runs.items) }
    ensures filled { All (λ run. 0 < length run.items) runs.items
        → IfOk result (λ made. AreFilled made.items) }
    ensures bounded { IfOk result (λ made. AreBounded made.items) }
{
    let mut chunks = Vec::new(alloc);
    for run in runs {
        let number = number_after(chunks.as_slice());
        chunks.push(Chunk::new(alloc, number, run))?;
    }
    Ok(chunks)
}

impl Chunks {
    /// Moves outlines into chunks.
    pub fn new(alloc: Global, outlines: Vec<FeatureOutline>) -> Result<Self, AllocError>
        ensures same { IfOk result (λ made. feature_outline_values (joined made.chunks.items)
            ≡ feature_outline_values outlines.items) }
        ensures filled { IfOk result (λ made. AreFilled made.chunks.items) }
        ensures bounded { IfOk result (λ made. AreBounded made.chunks.items) }
        ensures listed { IfOk result (λ made. AreListed made.cells made.chunks.items) }
    {
        let runs = cut_up(alloc, outlines)?;
        let chunks = chunks_of(alloc, runs)?;
        let cells = cells_of(alloc, chunks.as_slice())?;
        let next = number_after(chunks.as_slice());
        Ok(Chunks {
            chunks,
            cells,
            next,
        })
    }

    /// The first chunk that reaches an id, or otherwise the last one: the outline under the id is
    /// there, or would be there.
    fn chunk_of(&self, id: &str) -> usize
        ensures bound { 0 < length self.now.chunks.items → result < length self.now.chunks.items }
        ensures before { (features : Features) → AreChunksOf self.now.chunks.items features
            → (k : ℕ) (d : Chunk) → k < result
            → reaches_of id.now (slice_index_or self.now.chunks.items k d).outlines.items ≡ false }
        ensures here { (features : Features) → AreChunksOf self.now.chunks.items features
            → (d : Chunk) → result + 1 < length self.now.chunks.items
            → reaches_of id.now (slice_index_or self.now.chunks.items result d).outlines.items
            ≡ true }
    {
        let place = self
            .chunks
            .as_slice()
            .partition_point(|chunk| !chunk.reaches(id));
        place.min(self.chunks.len().saturating_sub(1))
    }

    /// Cuts a chunk in two, if it has reached the most outlines that one can have.
    fn halve(&mut self, alloc: Global, place: usize) -> Result<(), AllocError>
        requires { place < length self.old.chunks.items }
        ensures same { OnOk result (joined self.new.chunks.items ≡ joined self.old.chunks.items) }
        ensures filled { AreFilled self.old.chunks.items
            → OnOk result (AreFilled self.new.chunks.items) }
        ensures bounded { AreBounded self.old.chunks.items
            → OnOk result (AreBounded self.new.chunks.items) }
        ensures listed { AreListed self.old.cells self.old.chunks.items →
            OnOk result (AreListed self.new.cells self.new.chunks.items) }
    {
        let len = self.chunks[place].outlines.len();
        if len < MOST_IN_CHUNK {
            return Ok(());
        }
        let following = self.chunks[place].split_off(alloc, len / 2, self.next)?;
        list_outlines(
            &mut self.cells,
            following.number,
            following.outlines.as_slice(),
        )?;
        self.next = self.next.saturating_add(1);
        self.chunks.insert(place + 1, following)?;
        Ok(())
    }

    /// Makes a first chunk of an outline, if no chunk exists.
    fn begin(&mut self, alloc: Global, outline: FeatureOutline) -> Result<(), AllocError>
        requires { self.old.chunks.items ≡ [] }
        ensures { (features : Features) (f : FeatureValue) →
            AreListedChunksOf self.old features →
            IsOutlineOf outline f →
            OnOk result (AreListedChunksOf self.new (insert features f.id f)) }
    {
        list_extent(&mut self.cells, self.next, outline.extent())?;
        let mut first = Chunk::new(alloc, self.next, Vec::new(alloc));
        self.next = self.next.saturating_add(1);
        first.put(outline)?;
        self.chunks.push(first)?;
        Ok(())
    }

    /// Puts the extent of an outline into cells, under the number of the chunk in this place, if it
    /// is not there already.
    fn list(
        &mut self,
        alloc: Global,
        place: usize,
        outline: &FeatureOutline,
    ) -> Result<(), AllocError>
        requires { place < length self.old.chunks.items }
        ensures same { self.new.chunks ≡ self.old.chunks }
        ensures kept { AreListed self.old.cells self.old.chunks.items →
            OnOk result (AreListed self.new.cells self.new.chunks.items) }
        ensures listed { (d : Chunk) → AreListed self.old.cells self.old.chunks.items
            → OnOk result (IsListedIf self.new.cells
            (slice_index_or self.new.chunks.items place d).number outline.now.extent) }
    {
        if self.chunks[place].has(outline.id.as_str(), outline.extent()) {
            return Ok(());
        }
        renew(alloc, &mut self.cells, self.chunks.as_slice())?;
        let number = self.chunks[place].number;
        list_extent(&mut self.cells, number, outline.extent())
    }

    /// Inserts an outline, in place of the one under its id, if any. After an error outlines may
    /// be missing.
    pub fn put(&mut self, alloc: Global, outline: FeatureOutline) -> Result<(), AllocError>
        ensures { (features : Features) (f : FeatureValue) →
            AreListedChunksOf self.old features →
            IsOutlineOf outline f →
            OnOk result (AreListedChunksOf self.new (insert features f.id f)) }
    {
        if self.chunks.is_empty() {
            return self.begin(alloc, outline);
        }
        let place = self.chunk_of(outline.id.as_str());
        self.list(alloc, place, &outline)?;
        self.chunks[place].put(outline)?;
        self.halve(alloc, place)
    }

    /// Removes the outline under an id, if any, and its chunk, if that is then empty.
    pub fn cut(&mut self, id: &str)
        ensures { (features : Features) → AreListedChunksOf self.old features →
            AreListedChunksOf self.new (remove features id.now) }
    {
        let place = self.chunk_of(id);
        if place < self.chunks.len() {
            self.chunks[place].cut(id);
            if self.chunks[place].outlines.is_empty() {
                drop(self.chunks.remove(place));
            }
        }
    }

    /// Whether to search the cells for the box. Without marks a page passes over each chunk by its
    /// bounds. So if the chunks are very many for the number of cells that a search goes over,
    /// the search is cheaper wherever the box lies. Otherwise it is cheaper if, without marks, a
    /// page would go over more chunks than the search goes over cells: a chunk costs more than a
    /// cell. If the order of ids follows places, few chunks are near a small box, and a search
    /// would only add to them.
    fn is_cheaper_by_cells(&self, query: &Query, area: &GridBox) -> bool {
        let cells = Cells::cost(area);
        let chunks = i64::try_from(self.chunks.len()).unwrap_or(i64::MAX);
        if cells.saturating_mul(CHUNKS_A_CELL) <= chunks {
            return true;
        }
        let mut near: i64 = 0;
        for chunk in &self.chunks {
            if !is_passed_over(query, chunk) && count_by_bounds(query, chunk).is_none() {
                near = near.saturating_add(1);
                if near > cells {
                    return true;
                }
            }
        }
        false
    }

    /// Marks the chunks with candidates for a page; none if the query has no box, or one that is
    /// cheaper to find in the chunks than in the cells, or if memory runs out.
    pub fn marks(&self, alloc: Global, query: &Query) -> Option<Marks>
        ensures { IfSome result (MarksCandidates self.now (query_value query.now)) }
    {
        match &query.bbox {
            None => None,
            Some(area) => {
                if !self.is_cheaper_by_cells(query, area) {
                    return None;
                }
                self.cells.search(alloc, self.next as usize, area)
            }
        }
    }
}
