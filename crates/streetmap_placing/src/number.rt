//! What a number of a feature becomes.
ghost use Rattle.std.specs.Prelude.{◌≡◌};
ghost use Rattle.serde_json.specs.View.{view};
ghost use Rattle.streetmap_placing.specs.Placed.{Answers, IsPlacedCoordinate, StaysAs, KeptAs};
ghost use Rattle.streetmap_placing.specs.Placed.{NumberBecomes};

use crate::fault::PlacingFault;
use crate::numbers::{Fractions, Numbers};
use crate::role::Role;
use serde_json::{Number, Value};
use std::alloc::Global;
use streetmap_decimal::{Axis, Placement};
use streetmap_json::{ParseFault, read_json};

/// What a number text of a feature becomes.
pub(crate) fn number_value(
    alloc: Global,
    numbers: &Numbers,
    role: Role,
    text: &str,
) -> Result<Value, PlacingFault>
    ensures { Answers view result (NumberBecomes numbers.now role text.now) }
{
    match (role, &numbers.placement, numbers.fractions) {
        (Role::Coordinate(axis), Some(placement), _) => placed_number(placement, axis, text),
        (Role::Properties, _, Fractions::Text) => kept_number(alloc, text),
        _ => staying_number(alloc, text),
    }
}

// A coordinate, placed in the grid.
fn placed_number(placement: &Placement, axis: Axis, text: &str) -> Result<Value, PlacingFault>
    ensures { Answers view result (IsPlacedCoordinate placement.now axis text.now) }
{
    match placement.grid_of_text(axis, text.as_bytes()) {
        Ok(millimetres) => Ok(Value::Number(Number::from(millimetres))),
        Err(fault) => Err(PlacingFault::of_decimal(fault)),
    }
}

// A number, read from its text alone.
fn staying_number(alloc: Global, text: &str) -> Result<Value, PlacingFault>
    ensures { Answers view result (StaysAs text.now) }
{
    match read_json(alloc, text.as_bytes()) {
        Ok(value) => Ok(value),
        Err(fault) => Err(PlacingFault::of_parse(fault)),
    }
}

// A whole number, read from its text alone, and any other number as its text.
fn kept_number(alloc: Global, text: &str) -> Result<Value, PlacingFault>
    ensures { Answers view result (KeptAs text.now) }
{
    match read_json(alloc, text.as_bytes()) {
        Ok(value) if !value.is_f64() => Ok(value),
        Err(ParseFault::Memory) => Err(PlacingFault::Memory),
        _ => Ok(Value::String(String::from_str(alloc, text)?)),
    }
}
