//! The text of a feature, read.
ghost use Rattle.std.specs.Prelude.{◌≡◌};
ghost use Rattle.json.specs.Value.{value_view};
ghost use Rattle.serde_json.specs.View.{view};
ghost use Rattle.streetmap_placing.specs.Placed.{Answers};
ghost use Rattle.streetmap_placing.specs.Text.{ParsesAs, text_tree, utf8_tree, IsReadAs};
ghost use Rattle.streetmap_placing.specs.Text.{TextBecomes};
ghost use Rattle.streetmap_placing.specs.Value.{value_of, Gives};

use crate::fault::PlacingFault;
use crate::numbers::{Fractions, Numbers};
use crate::role::Role;
use crate::values::placed_value;
use json::{Error, Reader, Scratch};
use serde_json::Value;
use std::alloc::Global;
use streetmap_json::read_json_with;

/// How deep a feature may nest.
const MAX_DEPTH: usize = 127;

/// The value of the text of a feature (RFC 7946) in UTF-8, its numbers read by `numbers`: in an
/// array of two or three elements within the coordinates of a geometry, a number is placed in the
/// grid, the first as an easting, the second as a northing, the third as a height; a number within
/// the properties that is not whole may become a text. Every other value is as
/// [`streetmap_json::read_json`] reads it, and so is the whole text if `numbers` changes nothing.
/// One `scratch` serves any number of reads, one after the other.
///
/// # Errors
///
/// `NotJson` if the text is not JSON (RFC 8259) in UTF-8, or nests deeper than 127 levels.
/// Otherwise the first fault in the order of the text: `NotJson` for a number too large for a
/// float, if it stays a number, and `TooManyDigits`, `OutOfGrid` and `Fraction` for a coordinate,
/// as [`streetmap_decimal::Placement::grid_of_text`] has them. `Memory` if memory runs out.
pub fn read_placed(
    alloc: Global,
    scratch: &mut Scratch,
    text: &[u8],
    numbers: &Numbers,
) -> Result<Value, PlacingFault>
    ensures read { Answers view result (IsReadAs numbers.now text.now) }
    // The same, by the function that gives the result.
    ensures value { Gives view result (value_of numbers.now text.now) }
{
    read_requested(alloc, scratch, text, numbers)
}

// The value of bytes, with numbers read by `numbers` if it changes any.
fn read_requested(
    alloc: Global,
    scratch: &mut Scratch,
    text: &[u8],
    numbers: &Numbers,
) -> Result<Value, PlacingFault>
    ensures { Answers view result (IsReadAs numbers.now text.now) }
{
    match (&numbers.placement, numbers.fractions) {
        (None, Fractions::Number) => match read_json_with(alloc, scratch, text) {
            Ok(value) => Ok(value),
            Err(fault) => Err(PlacingFault::of_parse(fault)),
        },
        _ => read_by(alloc, scratch, text, numbers),
    }
}

// The value of bytes.
fn read_by(
    alloc: Global,
    scratch: &mut Scratch,
    bytes: &[u8],
    numbers: &Numbers,
) -> Result<Value, PlacingFault>
    ensures { Answers view result (TextBecomes numbers.now (utf8_tree bytes.now)) }
{
    match std::str::from_utf8(bytes) {
        Ok(text) => read_text(alloc, scratch, text, numbers),
        Err(_) => Err(PlacingFault::NotJson),
    }
}

// The value of a text.
fn read_text(
    alloc: Global,
    scratch: &mut Scratch,
    text: &str,
    numbers: &Numbers,
) -> Result<Value, PlacingFault>
    ensures { Answers view result (TextBecomes numbers.now (text_tree text.now)) }
{
    let mut reader = Reader::new(text, scratch)?;
    let value = parsed(alloc, &mut reader)?;
    placed_value(alloc, &value, Role::Feature, numbers)
}

// The tree of all tokens, in which numbers are texts.
fn parsed<'a>(alloc: Global, reader: &mut Reader<'a>) -> Result<json::Value<'a>, PlacingFault>
    ensures { ParsesAs value_view result reader.old }
{
    match json::Value::read(alloc, reader, MAX_DEPTH) {
        Ok(_) if reader.next().is_some() => Err(PlacingFault::NotJson),
        Ok(value) => Ok(value),
        Err(Error::OutOfMemory) => Err(PlacingFault::Memory),
        Err(_) => Err(PlacingFault::NotJson),
    }
}
