//! The extents of outlines in cells.
ghost use Rattle.std.specs.Prelude.{OnOk, IfOk};
ghost use Rattle.streetmap_cells.specs.Cells.{KeepsExtents};
ghost use Rattle.streetmap_outlines.specs.Outlines.{IsListedIf, AreListedUnder, AreListed};

use crate::chunk::Chunk;
use std::alloc::{AllocError, Global};
use streetmap_cells::Cells;
use streetmap_grid::GridBox;
use streetmap_ledger::FeatureOutline;

/// Cells have room for this many extents more than twice the present number.
const SPARE_ROOM: usize = 1024;

/// Puts an extent, if any, into cells under a chunk's number.
pub(crate) fn list_extent(
    cells: &mut Cells,
    number: u32,
    extent: Option<GridBox>,
) -> Result<(), AllocError>
    ensures kept { KeepsExtents cells.old cells.new }
    ensures listed { OnOk result (IsListedIf cells.new number extent) }
{
    match &extent {
        Some(extent) => cells.put(number, extent),
        None => Ok(()),
    }
}

/// Puts the extents of outlines into cells, under a chunk's number.
pub(crate) fn list_outlines(
    cells: &mut Cells,
    number: u32,
    outlines: &[FeatureOutline],
) -> Result<(), AllocError>
    ensures kept { KeepsExtents cells.old cells.new }
    ensures listed { OnOk result (AreListedUnder cells.new number outlines.now) }
{
    for outline in outlines {
        list_extent(cells, number, outline.extent())?;
    }
    Ok(())
}

/// How many outlines chunks have.
fn count_of(chunks: &[Chunk]) -> usize {
    let mut count: usize = 0;
    for chunk in chunks {
        count = count.saturating_add(chunk.outlines.len());
    }
    count
}

/// Cells with the extents of the outlines in chunks.
pub(crate) fn cells_of(alloc: Global, chunks: &[Chunk]) -> Result<Cells, AllocError>
    ensures { IfOk result (λ cells. AreListed cells chunks.now) }
{
    let room = count_of(chunks)
        .saturating_mul(2)
        .saturating_add(SPARE_ROOM);
    let mut cells = Cells::new(alloc, room)?;
    for chunk in chunks {
        list_outlines(&mut cells, chunk.number, chunk.outlines.as_slice())?;
    }
    cells.shrink_to_fit();
    Ok(cells)
}

/// Rebuilds the cells, if it is time for that.
pub fn renew(alloc: Global, cells: &mut Cells, chunks: &[Chunk]) -> Result<(), AllocError>
    ensures { AreListed cells.old chunks.now → OnOk result (AreListed cells.new chunks.now) }
{
    if cells.is_full() {
        *cells = cells_of(alloc, chunks)?;
    }
    Ok(())
}
