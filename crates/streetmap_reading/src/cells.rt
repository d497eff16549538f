//! The values in the cells of a row.
ghost use Rattle.std.specs.Prelude.{◌≡◌, ℤ, ◌+◌, ◌^◌, ◌<◌, Option, Ok, length};
ghost use Rattle.std.specs.Prelude.{MatchResult, IfSome, IsUtf8, IfErr, option_map};
ghost use Rattle.std.specs.Prelude.{string_bytes};
ghost use Rattle.sqlite.specs.Order.{column};
ghost use Rattle.sqlite.specs.Values.{or_null};
ghost use Rattle.sqlite.specs.declared.types.Value.TheVariants.{Int, Text as Words};
ghost use Rattle.streetmap_batch.specs.Text.{Text};
ghost use Rattle.streetmap_grid.specs.Values.{BoxValue};
ghost use Rattle.streetmap_grid.specs.Views.{box_value};
ghost use Rattle.streetmap_grid.specs.WellFormed.{IsBox};
ghost use Rattle.streetmap_reading.specs.FoldEffects.{IsForMemory, Refuses};

use sqlite::Row;
use sqlite::types::ValueRef;
use streetmap_grid::GridBox;
use streetmap_rows::{ReadFault, unread};

/// The text in a cell of a row, the first of which is at 0.
///
/// # Errors
///
/// `Memory` if memory runs out, and `Unread` if the row has no such cell, or the cell has no text
/// in UTF-8.
pub fn text_at(row: &Row, at: usize) -> Result<String, ReadFault>
    ensures reads { (t : Text) → at < length row.now → column row.now at ≡ Words t
        → IsUtf8 t → MatchResult result (λ text. string_bytes text ≡ t) IsForMemory }
    ensures refuses { IfErr result (Refuses (Unit {0})) }
    ensures exact { MatchResult result (λ text. (at < length row.now)
        × (column row.now at ≡ Words (string_bytes text))) (Refuses (at < length row.now
        → (t : Text) → column row.now at ≡ Words t → IsUtf8 t → ⊥)) }
{
    row.get::<String>(at).map_err(|error| unread(error))
}

/// The text in a cell of a row, or none if it is NULL.
///
/// # Errors
///
/// `Memory` if memory runs out, and `Unread` if the row has no such cell, or the cell has neither a
/// text in UTF-8 nor NULL.
pub fn text_if_at(row: &Row, at: usize) -> Result<Option<String>, ReadFault>
    ensures reads { (t : Option Text) → at < length row.now
        → column row.now at ≡ or_null Words t → IfSome t IsUtf8
        → MatchResult result (λ text. option_map string_bytes text ≡ t) IsForMemory }
    ensures refuses { IfErr result (Refuses (Unit {0})) }
    ensures exact { MatchResult result (λ text. (at < length row.now)
        × (column row.now at ≡ or_null Words (option_map string_bytes text)))
        (Refuses (at < length row.now → (t : Option Text)
        → column row.now at ≡ or_null Words t → IfSome t IsUtf8 → ⊥)) }
{
    row.get::<Option<String>>(at).map_err(|error| unread(error))
}

/// The number in a cell, or none.
fn number_at(row: &Row, at: usize) -> Result<Option<i64>, ReadFault>
    ensures reads { (n : Option ℤ) → at < length row.now → column row.now at ≡ or_null Int n
        → result ≡ Ok n }
    ensures refuses { IfErr result (Refuses (Unit {0})) }
{
    match row.get_ref(at) {
        Ok(ValueRef::Int(number)) => Ok(Some(number)),
        Ok(ValueRef::Null) => Ok(None),
        _ => Err(ReadFault::Unread),
    }
}

/// The integer in a cell.
pub(crate) fn integer_at(row: &Row, at: usize) -> Result<i64, ReadFault>
    ensures reads { (n : ℤ) → at < length row.now → column row.now at ≡ Int n → result ≡ Ok n }
    ensures refuses { IfErr result (Refuses (Unit {0})) }
{
    match row.get_ref(at) {
        Ok(ValueRef::Int(number)) => Ok(number),
        _ => Err(ReadFault::Unread),
    }
}

/// The box of four bounds, in millimetres; none if the bounds are missing.
fn box_of(
    west: Option<i64>,
    south: Option<i64>,
    east: Option<i64>,
    north: Option<i64>,
) -> Result<Option<GridBox>, ReadFault>
    ensures reads { (b : Option BoxValue) → IfSome b IsBox
        → west ≡ option_map (λ (g : BoxValue). g.x0) b
        → south ≡ option_map (λ (g : BoxValue). g.y0) b
        → east ≡ option_map (λ (g : BoxValue). g.x1) b
        → north ≡ option_map (λ (g : BoxValue). g.y1) b
        → MatchResult result (λ found. option_map box_value found ≡ b) (λ _. ⊥) }
    ensures refuses { IfErr result (Refuses (Unit {0})) }
{
    match (west, south, east, north) {
        (Some(x0), Some(y0), Some(x1), Some(y1)) => match GridBox::new(x0, y0, x1, y1) {
            Ok(found) => Ok(Some(found)),
            Err(_) => Err(ReadFault::Unread),
        },
        (None, None, None, None) => Ok(None),
        _ => Err(ReadFault::Unread),
    }
}

/// The first and the last second, or none.
fn seconds_of(first: Option<i64>, last: Option<i64>) -> Result<Option<(i64, i64)>, ReadFault>
    ensures reads { (s : Option (ℤ × ℤ)) → first ≡ option_map (λ (p : ℤ × ℤ). p.0) s
        → last ≡ option_map (λ (p : ℤ × ℤ). p.1) s → result ≡ Ok s }
    ensures refuses { IfErr result (Refuses (Unit {0})) }
{
    match (first, last) {
        (Some(first), Some(last)) => Ok(Some((first, last))),
        (None, None) => Ok(None),
        _ => Err(ReadFault::Unread),
    }
}

/// The box whose four bounds are in the cells from this one on, in millimetres; none if the bounds
/// are missing.
pub fn box_at(row: &Row, from: usize) -> Result<Option<GridBox>, ReadFault>
    requires { from + 3 < 2 ^ 64 }
    ensures reads { (b : Option BoxValue) → IfSome b IsBox → from + 3 < length row.now
        → column row.now from ≡ or_null Int (option_map (λ (g : BoxValue). g.x0) b)
        → column row.now (from + 1) ≡ or_null Int (option_map (λ (g : BoxValue). g.y0) b)
        → column row.now (from + 2) ≡ or_null Int (option_map (λ (g : BoxValue). g.x1) b)
        → column row.now (from + 3) ≡ or_null Int (option_map (λ (g : BoxValue). g.y1) b)
        → MatchResult result (λ found. option_map box_value found ≡ b) (λ _. ⊥) }
    ensures refuses { IfErr result (Refuses (Unit {0})) }
{
    let west = number_at(row, from)?;
    let south = number_at(row, from + 1)?;
    let east = number_at(row, from + 2)?;
    let north = number_at(row, from + 3)?;
    box_of(west, south, east, north)
}

/// The first and the last second, which are in this cell and the next one, or none.
pub(crate) fn seconds_at(row: &Row, from: usize) -> Result<Option<(i64, i64)>, ReadFault>
    requires { from + 1 < 2 ^ 64 }
    ensures reads { (s : Option (ℤ × ℤ)) → from + 1 < length row.now
        → column row.now from ≡ or_null Int (option_map (λ (p : ℤ × ℤ). p.0) s)
        → column row.now (from + 1) ≡ or_null Int (option_map (λ (p : ℤ × ℤ). p.1) s)
        → result ≡ Ok s }
    ensures refuses { IfErr result (Refuses (Unit {0})) }
{
    let first = number_at(row, from)?;
    let last = number_at(row, from + 1)?;
    seconds_of(first, last)
}
