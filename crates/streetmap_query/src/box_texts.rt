//! Boxes, read from their texts and written.
ghost use Rattle.std.specs.Prelude.{◌≡◌, option_map, IfOk, IfSome, Some, string_bytes};
ghost use Rattle.streetmap_grid.specs.Range.{IsBound};
ghost use Rattle.streetmap_grid.specs.Values.{BoxValue};
ghost use Rattle.streetmap_grid.specs.Views.{box_value};
ghost use Rattle.streetmap_query.specs.Box.{in_order, box_of, box_text};
ghost use Rattle.streetmap_query.specs.BoxText.{IsBoxText};

use crate::numbers::{after_comma, bound};
use std::alloc::{AllocError, Global};
use streetmap_grid::GridBox;

// The box of four bounds, if nothing is left of the text and they are in order.
fn ordered(x0: i64, y0: i64, x1: i64, y1: i64, rest: &[u8]) -> Option<GridBox>
    requires west { IsBound x0 }
    requires south { IsBound y0 }
    requires east { IsBound x1 }
    requires north { IsBound y1 }
    ensures { option_map box_value result
        ≡ in_order (record { x0 = x0; y0 = y0; x1 = x1; y1 = y1 }) rest.now }
{
    if !rest.is_empty() {
        return None;
    }
    GridBox::new(x0, y0, x1, y1).ok()
}

// The box of a text, whose numbers are read one after the other.
#[tactic(auto, unfolding(crate::specs::Box::box_of))]
fn box_at(text: &[u8]) -> Option<GridBox>
    ensures { option_map box_value result ≡ box_of text.now }
{
    let (x0, rest) = bound(text)?;
    let (y0, rest) = bound(after_comma(rest)?)?;
    let (x1, rest) = bound(after_comma(rest)?)?;
    let (y1, rest) = bound(after_comma(rest)?)?;
    ordered(x0, y0, x1, y1, rest)
}

/// The box of a text of four numbers, in range and in order (OGC 17-069, 7.15.3), in millimetres.
pub(crate) fn read_box(text: &[u8]) -> Option<GridBox>
    // If it reads a box, the text is four numbers that mean this box.
    ensures found { IfSome result (λ b. IsBoxText text.now (box_value b)) }
    // It reads all texts of four numbers that mean a box.
    ensures only { (b : BoxValue) → IsBoxText text.now b
        → option_map box_value result ≡ Some b }
    // The box, as a function of the text.
    ensures value { option_map box_value result ≡ box_of text.now }
{
    box_at(text)
}

/// The text of a box: its four bounds with commas between them.
pub(crate) fn write_box(alloc: Global, bbox: GridBox) -> Result<String, AllocError>
    ensures { IfOk result (λ text. string_bytes text ≡ box_text (box_value bbox)) }
{
    format!(in alloc; "{},{},{},{}", bbox.x0, bbox.y0, bbox.x1, bbox.y1)
}
