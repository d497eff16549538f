//! The values within a feature, with their numbers placed.
ghost use Rattle.std.specs.Prelude.{◌≡◌};
ghost use Rattle.json.specs.Value.{value_view, items_view as json_items};
ghost use Rattle.json.specs.Value.{members_view as json_members};
ghost use Rattle.serde_json.specs.Data.{no_members};
ghost use Rattle.serde_json.specs.View.{view, items_view, members_view};
ghost use Rattle.streetmap_placing.specs.Placed.{Answers, Becomes, ItemsBecome, MembersBecome};
ghost use Rattle.streetmap_placing.specs.Placed.{items_count};

use crate::fault::PlacingFault;
use crate::number::number_value;
use crate::numbers::Numbers;
use crate::role::Role;
use serde_json::{Map, Value};
use std::alloc::Global;

/// What a value within a feature becomes.
#[cycle(placing)]
pub(crate) fn placed_value(
    alloc: Global,
    value: &json::Value<'_>,
    role: Role,
    numbers: &Numbers,
) -> Result<Value, PlacingFault>
    ensures { Answers view result (Becomes numbers.now role (value_view value.now)) }
{
    match value {
        json::Value::Null => Ok(Value::Null),
        json::Value::Bool(truth) => Ok(Value::Bool(*truth)),
        json::Value::Number(text) => number_value(alloc, numbers, role, text),
        json::Value::String(text) => Ok(Value::String(String::from_str(alloc, text)?)),
        json::Value::Array(items) => {
            Ok(Value::Array(placed_items(alloc, items, role, numbers)?))
        }
        json::Value::Object(members) => {
            Ok(Value::Object(placed_members(alloc, members, role, numbers)?))
        }
    }
}

/// What the elements of an array become, from left to right.
#[cycle(placing)]
fn placed_items(
    alloc: Global,
    items: &Vec<json::Value<'_>>,
    role: Role,
    numbers: &Numbers,
) -> Result<Vec<Value>, PlacingFault>
    ensures { Answers (λ v. items_view v.items) result (ItemsBecome numbers.now role
        (items_count (json_items items.now.items)) 0 (json_items items.now.items)) }
{
    let mut placed = Vec::with_capacity(alloc, items.len())?;
    for (index, item) in items.iter().enumerate() {
        let role = role.of_element(items.len(), index);
        let value = placed_value(alloc, item, role, numbers)?;
        placed.push(value)?;
    }
    Ok(placed)
}

/// What the members of an object become, from left to right. Of members with the same name the last
/// is kept.
#[cycle(placing)]
fn placed_members(
    alloc: Global,
    members: &Vec<(&str, json::Value<'_>)>,
    role: Role,
    numbers: &Numbers,
) -> Result<Map<String, Value>, PlacingFault>
    ensures { Answers (λ m. members_view m.entries) result
        (MembersBecome numbers.now role (json_members members.now.items) no_members) }
{
    let mut placed = Map::new(alloc);
    for (name, member) in members {
        let value = placed_value(alloc, member, role.of_member(name), numbers)?;
        let name = String::from_str(alloc, name)?;
        drop(placed.insert(name, value)?);
    }
    Ok(placed)
}
