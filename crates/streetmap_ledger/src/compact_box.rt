//! Boxes of the grid in half their memory.
ghost use Rattle.std.specs.Prelude.{◌≡◌, ◌≤ℤ◌};
ghost use Rattle.streetmap_grid.specs.Range.{IsBound};

use std::marker::Model;
use streetmap_grid::GridBox;

/// A box of the grid, in millimetres: its edges belong to it. It takes half the memory of a
/// `GridBox`, since each bound fits in 32 bits, and clauses see it as that box.
#[derive(Clone, Copy, Drop)]
pub struct CompactBox {
    x0: i32,
    y0: i32,
    x1: i32,
    y1: i32,
    ghost west: { IsBound x0 },
    ghost south: { IsBound y0 },
    ghost east: { IsBound x1 },
    ghost north: { IsBound y1 },
    ghost wide: { x0 ≤ℤ x1 },
    ghost tall: { y0 ≤ℤ y1 },
}

impl Model for CompactBox {
    ghost use Rattle.streetmap_grid.specs.declared.grid_box.GridBox.{GridBox};

    ghost Value = { GridBox };

    ghost view = { λ b. record {
      x0 = b.x0;
      y0 = b.y0;
      x1 = b.x1;
      y1 = b.y1;
      west = b.west;
      south = b.south;
      east = b.east;
      north = b.north;
      wide = b.wide;
      tall = b.tall;
    } };

    ghost inverse = { λ b. record {
      x0 = b.x0;
      y0 = b.y0;
      x1 = b.x1;
      y1 = b.y1;
      west = b.west;
      south = b.south;
      east = b.east;
      north = b.north;
      wide = b.wide;
      tall = b.tall;
    } };
}

impl CompactBox {
    /// The same box in half the memory.
    pub fn of(area: &GridBox) -> CompactBox
        ensures { result ≡ area.now }
    {
        CompactBox {
            x0: area.x0 as i32,
            y0: area.y0 as i32,
            x1: area.x1 as i32,
            y1: area.y1 as i32,
        }
    }

    /// The same box as a `GridBox`.
    pub fn grid_box(&self) -> GridBox
        ensures { result ≡ self.now }
    {
        GridBox {
            x0: i64::from(self.x0),
            y0: i64::from(self.y0),
            x1: i64::from(self.x1),
            y1: i64::from(self.y1),
        }
    }
}
