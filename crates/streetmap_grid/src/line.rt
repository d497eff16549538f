ghost use Rattle.std.specs.Prelude.{◌≡◌, ◌≤◌, None, Some, IfOk, IfErr, OnOk, vec_len};

use crate::fault::GridFault;
use crate::position::Position;

/// A line of two or more positions (RFC 7946, section 3.1.4).
#[derive(Drop)]
pub struct Line {
    positions: Vec<Position>,
    ghost long: { 2 ≤ vec_len positions },
}

impl Line {
    ghost use Rattle.streetmap_grid.specs.Views.{positions_value, line_value};
    ghost use Rattle.streetmap_grid.specs.Faults.{line_fault};

    /// The line through positions in their order. Refused as `ShortLine` below two.
    pub fn new(positions: Vec<Position>) -> Result<Line, GridFault>
        ensures value { IfOk result (λ l. line_value l ≡ positions_value positions.items) }
        ensures accepted { OnOk result (line_fault (positions_value positions.items) ≡ None) }
        ensures refused { IfErr result (λ f. line_fault (positions_value positions.items)
            ≡ Some f) }
    {
        if positions.len() < 2 {
            return Err(GridFault::ShortLine);
        }
        Ok(Line { positions })
    }

    /// The positions, in their order.
    pub fn positions(&self) -> &[Position]
        ensures { positions_value result.now ≡ line_value self.now }
    {
        &self.positions
    }
}
