// JSON texts, with the faults of this crate.
ghost use Rattle.std.specs.Prelude.{◌≡◌, ◌≤◌, Ok, IsTrue};
ghost use Rattle.serde_json.specs.Data.{Data, depth};
ghost use Rattle.serde_json.specs.Read.{max_depth};
ghost use Rattle.serde_json.specs.View.{view};
ghost use Rattle.serde_json.specs.Written.{compact_text};
ghost use Rattle.streetmap_json.specs.ExactData.{is_exact};
ghost use Rattle.streetmap_geojson.specs.Fault.{Gives};
ghost use Rattle.streetmap_geojson.specs.JsonText.{json_of};

use crate::fault::{Fault, JsonFault};
use serde_json::Value;
use std::alloc::Global;

/// The value of the bytes of a JSON text (RFC 8259) in UTF-8, read by
/// [`streetmap_json::read_json`]. A number with a fraction of only zeros and no exponent, such as
/// `1200.0`, is read as the whole number, and `-0` as `0`.
///
/// # Errors
///
/// `NotJson` if the bytes have no value: they are not UTF-8 or not JSON, nest deeper than 127
/// levels, or have a number too large for a float.
pub fn read_json(alloc: Global, bytes: &[u8]) -> Result<Value, JsonFault>
    ensures exact { Gives view result (json_of bytes.now) }
    // What was written for a value reads as that value, and fails only if memory runs out.
    ensures again { (d : Data) → IsTrue (is_exact d) → depth d ≤ max_depth
        → bytes.now ≡ compact_text d → Gives view result (Ok d) }
{
    match streetmap_json::read_json(alloc, bytes) {
        Ok(value) => Ok(value),
        Err(streetmap_json::ParseFault::Memory) => Err(JsonFault::Memory),
        Err(streetmap_json::ParseFault::NotJson) => Err(JsonFault::Fault(Fault::NotJson)),
    }
}
