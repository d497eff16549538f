//! Extents by cells of the grid, with the chunks that have them.
ghost use Rattle.std.specs.Prelude.{◌≡◌, ◌<◌, ◌≤◌, ◌+◌, ◌^◌, IsTrue, OnOk, IfOk, IfSome, nat_eq};
ghost use Rattle.std.specs.Prelude.{length};

use crate::envelope::Envelope;
use crate::marks::Marks;
use std::alloc::{AllocError, Global};
use streetmap_grid::GridBox;

/// The average number of entries in a bucket when the cells are full.
const ENTRIES_A_BUCKET: usize = 32;

/// The width and height of the smallest cells, in millimetres.
const SMALLEST_CELL: i64 = 32_768;

/// The number of levels. The cells of the last one are as large as the grid.
const LEVELS: u32 = 7;

/// An extent, and the number of a chunk that has an outline with it.
#[derive(Clone, Copy, PartialEq, Eq, Drop)]
pub struct Entry {
    pub extent: Envelope,
    pub chunk: u32,
}

/// Extents by cells. On each level the cells are squares, those of the next level eight times as
/// wide. An extent is in the cell around its south-western corner, on the first level whose cells
/// are as large as it is. Several cells share a bucket.
#[derive(Drop)]
pub struct Cells {
    pub buckets: Vec<Vec<Entry>>,
    /// How many more extents may be added before the cells are full.
    pub room: usize,
    pub ghost some: { 0 < length buckets.items },
}

impl Cells {
    ghost use Rattle.streetmap_grid.specs.Views.{box_value};
    ghost use Rattle.streetmap_cells.specs.Cells.{cell_size, bucket_of_cell, IsListed, KeepsListed};
    ghost use Rattle.streetmap_cells.specs.Cells.{HasExtent, KeepsExtents};
    ghost use Rattle.streetmap_cells.specs.Searches.{AreMarked, KeepsMarks, IsCellSearched};
    ghost use Rattle.streetmap_cells.specs.Searches.{IsRowSearched, IsLevelSearched, MarksListed};
    ghost use Rattle.streetmap_cells.specs.Searches.{MarksAll};

    /// No extents, and room for `room` of them.
    pub fn new(alloc: Global, room: usize) -> Result<Self, AllocError>
        ensures { IfOk result (λ cells. cells.room ≡ room) }
    {
        let mut buckets = Vec::new(alloc);
        buckets.push(Vec::new(alloc))?;
        for _ in 0..room / ENTRIES_A_BUCKET {
            buckets.push(Vec::new(alloc))?;
        }
        Ok(Cells { buckets, room })
    }

    /// Releases the memory that no entry takes. What was added stays.
    pub fn shrink_to_fit(&mut self)
        ensures { KeepsExtents self.old self.new }
    {
        for bucket in 0..self.buckets.len() {
            self.buckets[bucket].shrink_to_fit();
        }
    }

    /// Whether no room is left for another extent. Then many extents may be out of date, and it is
    /// time to rebuild the cells.
    pub fn is_full(&self) -> bool
        ensures { result ≡ nat_eq self.now.room 0 }
    {
        self.room == 0
    }

    /// The width and height of the cells on a level, in millimetres.
    fn cell_size(level: u32) -> u64
        requires { level < 7 }
        ensures value { result ≡ cell_size level }
        ensures some { 0 < result }
    {
        32_768 * 8_u64.pow(level)
    }

    /// Whether an extent is no larger than the cells on a level.
    fn fits(extent: &Envelope, level: u32) -> bool
        requires { level < 7 }
        ensures narrow { IsTrue result → extent.now.x1 ≤ extent.now.x0 + cell_size level }
        ensures short { IsTrue result → extent.now.y1 ≤ extent.now.y0 + cell_size level }
    {
        let size = Cells::cell_size(level);
        u64::from(extent.x1.saturating_sub(extent.x0)) <= size
            && u64::from(extent.y1.saturating_sub(extent.y0)) <= size
    }

    /// The first level with cells as large as the extent.
    fn level_of(extent: &Envelope) -> u32
        ensures known { result < 7 }
        ensures narrow { extent.now.x1 ≤ extent.now.x0 + cell_size result }
        ensures short { extent.now.y1 ≤ extent.now.y0 + cell_size result }
    {
        for level in 0..LEVELS - 1 {
            if Cells::fits(extent, level) {
                return level;
            }
        }
        LEVELS - 1
    }

    /// The number of the bucket of a cell: a hash of its level, column and row.
    fn bucket_of(&self, level: u32, column: u64, row: u64) -> usize
        requires known { level < 7 }
        requires column_fits { column < 2 ^ 32 }
        requires row_fits { row < 2 ^ 32 }
        ensures value { result ≡ bucket_of_cell (length self.now.buckets.items) level column row }
        ensures bound { result < length self.now.buckets.items }
    {
        let mixed = u64::from(level) * 83_492_791 + column * 73_856_093 + row * 19_349_663;
        (mixed % self.buckets.len() as u64) as usize
    }

    /// Lists that a chunk has an outline with this extent. After an error only this entry is
    /// missing.
    fn put_envelope(&mut self, chunk: u32, extent: Envelope) -> Result<(), AllocError>
        ensures kept { KeepsListed self.old self.new }
        ensures listed { OnOk result (IsListed self.new chunk extent) }
    {
        self.room = self.room.saturating_sub(1);
        let level = Cells::level_of(&extent);
        let size = Cells::cell_size(level);
        let bucket = self.bucket_of(
            level,
            u64::from(extent.x0) / size,
            u64::from(extent.y0) / size,
        );
        self.buckets[bucket].push(Entry { extent, chunk })?;
        Ok(())
    }

    /// Lists that a chunk has an outline with this extent. After an error only this entry is
    /// missing.
    pub fn put(&mut self, chunk: u32, extent: &GridBox) -> Result<(), AllocError>
        ensures kept { KeepsExtents self.old self.new }
        ensures there { OnOk result (HasExtent self.new chunk (box_value extent.now)) }
    {
        self.put_envelope(chunk, Envelope::of(extent))
    }

    /// Marks the chunks with entries that overlap the window.
    fn mark_entries(entries: &[Entry], window: &Envelope, marks: &mut Marks)
        ensures marked { AreMarked window.now marks.new entries.now }
        ensures kept { KeepsMarks marks.old marks.new }
    {
        for entry in entries {
            if entry.extent.overlaps(window) {
                marks.mark(entry.chunk);
            }
        }
    }

    /// Marks the chunks with entries of a cell that overlap the window.
    fn mark_cell(&self, level: u32, column: u64, row: u64, window: &Envelope, marks: &mut Marks)
        requires known { level < 7 }
        requires column_fits { column < 2 ^ 32 }
        requires row_fits { row < 2 ^ 32 }
        ensures searched { IsCellSearched self.now window.now marks.new level column row }
        ensures kept { KeepsMarks marks.old marks.new }
    {
        let bucket = self.bucket_of(level, column, row);
        Cells::mark_entries(self.buckets[bucket].as_slice(), window, marks);
    }

    /// Marks the chunks with entries in a row of cells that overlap the window.
    fn mark_row(
        &self,
        level: u32,
        row: u64,
        first: u64,
        last: u64,
        window: &Envelope,
        marks: &mut Marks,
    )
        requires known { level < 7 }
        requires last_fits { last + 1 < 2 ^ 32 }
        requires row_fits { row < 2 ^ 32 }
        ensures searched { IsRowSearched self.now window.now marks.new level row first last }
        ensures kept { KeepsMarks marks.old marks.new }
    {
        for column in first..last + 1 {
            self.mark_cell(level, column, row, window, marks);
        }
    }

    /// Marks the chunks with entries on a level that overlap the window. An extent is in the cell
    /// around its south-western corner and is no larger than that cell, so the search begins a
    /// cell's size west and south of the window.
    fn mark_level(&self, level: u32, window: &Envelope, marks: &mut Marks)
        requires known { level < 7 }
        ensures searched { IsLevelSearched self.now window.now marks.new level }
        ensures kept { KeepsMarks marks.old marks.new }
    {
        let size = Cells::cell_size(level);
        let first = u64::from(window.x0).saturating_sub(size) / size;
        let last = u64::from(window.x1) / size;
        let low = u64::from(window.y0).saturating_sub(size) / size;
        let high = u64::from(window.y1) / size;
        for row in low..high + 1 {
            self.mark_row(level, row, first, last, window, marks);
        }
    }

    /// Marks the chunks with extents that overlap the window.
    fn mark(&self, window: &Envelope, marks: &mut Marks)
        ensures marked { MarksListed self.now window.now marks.new }
        ensures kept { KeepsMarks marks.old marks.new }
    {
        for level in 0..LEVELS {
            self.mark_level(level, window, marks);
        }
    }

    /// About how many cells of the first level a search for the window goes over: most of its cost.
    pub fn cost(window: &GridBox) -> i64 {
        let columns = (window.x1 - window.x0) / SMALLEST_CELL + 2;
        let rows = (window.y1 - window.y0) / SMALLEST_CELL + 2;
        columns.saturating_mul(rows)
    }

    /// Marks, among those with a number below `count`, each chunk that has an extent that overlaps
    /// the window; none if memory runs out.
    pub fn search(&self, alloc: Global, count: usize, window: &GridBox) -> Option<Marks>
        ensures { IfSome result (λ marks. MarksAll self.now (box_value window.now) marks) }
    {
        let Ok(mut marks) = Marks::new(alloc, count) else {
            return None;
        };
        self.mark(&Envelope::of(window), &mut marks);
        Some(marks)
    }
}
