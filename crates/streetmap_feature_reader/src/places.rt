//! Places for the values of an object's members.
ghost use Rattle.std.specs.Prelude.{◌≡◌, ◌<◌, IfOk, IsTrue, None, Some, length};
ghost use Rattle.std.specs.Prelude.{MatchOption, option_map};
ghost use Rattle.serde_json.specs.View.{view};
ghost use Rattle.streetmap_json.specs.Values.{value_at};

use json::Reader;
use serde_json::Value;
use std::alloc::Global;
use streetmap_json::{ParseFault, read_value};

/// Reads the next value, nested no deeper than this, if none was found before; returns whether it
/// did.
pub(crate) fn fill(
    alloc: Global,
    place: &mut Option<Value>,
    reader: &mut Reader<'_>,
    depth: usize,
) -> Result<bool, ParseFault>
    ensures { IfOk result (λ filled. IsTrue filled → (option_map view place.old ≡ None)
        × MatchOption place.new ⊥ (λ v. value_at depth reader.old ≡ Some (view v, reader.new))
        × (length reader.new < length reader.old)) }
{
    if place.is_some() {
        return Ok(false);
    }
    *place = Some(read_value(alloc, reader, depth)?);
    Ok(true)
}

/// Puts a value at a place, or returns it if the place is taken.
pub(crate) fn put_at(place: &mut Option<Value>, value: Value) -> Option<Value>
    ensures { MatchOption result ((place.old ≡ None) × (place.new ≡ Some value))
        (λ v. (v ≡ value) × (place.new ≡ place.old)) }
{
    if place.is_some() {
        return Some(value);
    }
    *place = Some(value);
    None
}
