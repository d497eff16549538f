//! Members gathered into a map.
ghost use Rattle.std.specs.Prelude.{◌≡◌, ◌<◌, ◌≤◌, ℕ, IfOk, OnOk, length, option_map};
ghost use Rattle.serde_json.specs.View.{view, members_view};
ghost use Rattle.streetmap_json.specs.Values.{Takes};
ghost use Rattle.streetmap_feature_reader.specs.Places.{with_found, members_after};

use json::Reader;
use serde_json::{Map, Value};
use std::alloc::{AllocError, Global};
use streetmap_json::{ParseFault, read_value};

/// Puts a member among others, if it was found.
pub(crate) fn insert_found(
    alloc: Global,
    members: &mut Map<String, Value>,
    name: &str,
    found: Option<Value>,
) -> Result<(), AllocError>
    ensures { IfOk result (λ _. members_view members.new.entries
        ≡ with_found name.now (option_map view found) (members_view members.old.entries)) }
{
    if let Some(value) = found {
        let name = String::from_str(alloc, name)?;
        drop(members.insert(name, value)?);
    }
    Ok(())
}

/// The members up to the closing brace, after others. Of those with the same name the last is
/// kept.
pub(crate) fn read_rest(
    alloc: Global,
    mut members: Map<String, Value>,
    reader: &mut Reader<'_>,
    depth: usize,
) -> Result<Map<String, Value>, ParseFault>
    ensures takes { (n : ℕ) → length reader.old ≤ n
        → Takes (λ m. members_view m.entries) result reader.new
        (members_after (members_view members.entries) depth n reader.old) }
    ensures shorter { OnOk result (length reader.new < length reader.old) }
{
    'rest: while let Some(name) = reader.next_key()? {
        let name = String::from_str(alloc, name)?;
        let member = read_value(alloc, reader, depth)?;
        drop(members.insert(name, member)?);
    }
    Ok(members)
}
