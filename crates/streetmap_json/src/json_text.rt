// JSON texts.
ghost use Rattle.std.specs.Prelude.{◌≡◌, ◌≤◌, Some, IsTrue};
ghost use Rattle.serde_json.specs.Data.{Data, depth};
ghost use Rattle.serde_json.specs.Read.{max_depth, read};
ghost use Rattle.serde_json.specs.Written.{compact_text};
ghost use Rattle.streetmap_json.specs.ExactData.{is_exact};
ghost use Rattle.streetmap_json.specs.JsonText.{utf8_value, json_value};
ghost use Rattle.streetmap_json.specs.Reads.{Reads};

use crate::fault::ParseFault;
use crate::number_text::with_whole_numbers;
use crate::value::read_value;
use json::{Reader, Scratch};
use serde_json::Value;
use std::alloc::Global;

/// How deep a text may nest.
const MAX_DEPTH: usize = 127;

/// The value of the bytes of a JSON text (RFC 8259) in UTF-8. A number with a fraction of only
/// zeros and no exponent, such as `1200.0`, is read as the whole number, and `-0` as `0`.
///
/// # Errors
///
/// `NotJson` if the bytes have no value: they are not UTF-8 or not JSON, nest deeper than 127
/// levels, or have a number too large for a float.
pub fn read_json(alloc: Global, bytes: &[u8]) -> Result<Value, ParseFault>
    ensures exact { Reads result (json_value bytes.now) }
    // What was written for a value reads as that value, and fails only if memory runs out.
    ensures again { (d : Data) → IsTrue (is_exact d) → depth d ≤ max_depth
        → bytes.now ≡ compact_text d → Reads result (Some d) }
{
    read_json_with(alloc, &mut Scratch::new(alloc), bytes)
}

/// The same with memory that the caller lends. One `scratch`, which takes 16 KiB, serves any number
/// of reads, one after the other.
///
/// # Errors
///
/// As [`read_json`].
pub fn read_json_with(
    alloc: Global,
    scratch: &mut Scratch,
    bytes: &[u8],
) -> Result<Value, ParseFault>
    ensures exact { Reads result (json_value bytes.now) }
    ensures again { (d : Data) → IsTrue (is_exact d) → depth d ≤ max_depth
        → bytes.now ≡ compact_text d → Reads result (Some d) }
{
    match with_whole_numbers(alloc, bytes)? {
        Some(plain) => read_plain(alloc, scratch, &plain),
        None => read_plain(alloc, scratch, bytes),
    }
}

// The value of bytes that must be a text.
fn read_plain(alloc: Global, scratch: &mut Scratch, bytes: &[u8]) -> Result<Value, ParseFault>
    ensures { Reads result (utf8_value bytes.now) }
{
    match simdutf8::basic::from_utf8(bytes) {
        Ok(text) => read_text(alloc, scratch, text),
        Err(_) => Err(ParseFault::NotJson),
    }
}

// The value of a text, which must take all its tokens.
fn read_text(alloc: Global, scratch: &mut Scratch, text: &str) -> Result<Value, ParseFault>
    ensures { Reads result (read text.now) }
{
    let mut reader = Reader::new(text, scratch)?;
    let value = read_value(alloc, &mut reader, MAX_DEPTH)?;
    match reader.next() {
        None => Ok(value),
        Some(_) => Err(ParseFault::NotJson),
    }
}
