// Values that their JSON text keeps exactly.
ghost use Rattle.std.specs.Prelude.{◌≡◌, true, not, string_bytes};
ghost use Rattle.std.specs.Str.{is_utf8};
ghost use Rattle.serde_json.specs.Find.{is_float};
ghost use Rattle.serde_json.specs.View.{view, items_view, members_view, number_view};
ghost use Rattle.serde_json.specs.Written.{has_float, items_have_float, members_have_float};
ghost use Rattle.streetmap_json.specs.ExactData.{is_whole, is_exact, are_exact, are_exact_members};

use serde_json::{Map, Number, Value};

/// Whether every number in it, at any depth, is whole: from -2^63 to 2^64 - 1.
#[cycle(exact)]
pub(crate) fn is_exact(value: &Value) -> bool
    ensures reported { result ≡ is_exact (view value.now) }
    ensures whole { result ≡ not (has_float (view value.now)) }
{
    match value {
        Value::Null | Value::Bool(_) => true,
        Value::String(text) => is_utf8_text(text),
        Value::Number(number) => is_whole(number),
        Value::Array(items) => are_exact(items),
        Value::Object(members) => are_exact_members(members),
    }
}

#[cycle(exact)]
fn are_exact(items: &Vec<Value>) -> bool
    ensures reported { result ≡ are_exact (items_view items.now.items) }
    ensures whole { result ≡ not (items_have_float (items_view items.now.items)) }
{
    for item in items {
        if !is_exact(item) {
            return false;
        }
    }
    true
}

#[cycle(exact)]
fn are_exact_members(members: &Map<String, Value>) -> bool
    ensures reported { result ≡ are_exact_members (members_view members.now.entries) }
    ensures whole { result ≡ not (members_have_float (members_view members.now.entries)) }
{
    let _ordered = members.len();
    for (_name, member) in members.iter() {
        if !is_exact(member) {
            return false;
        }
    }
    true
}

// A `String` is always UTF-8.
fn is_utf8_text(text: &String) -> bool
    ensures valid { result ≡ is_utf8 (string_bytes text.now) }
    ensures always { result ≡ true }
{
    let _ = text;
    true
}

fn is_whole(number: &Number) -> bool
    ensures reported { result ≡ is_whole (number_view number.now) }
    ensures whole { result ≡ not (is_float (number_view number.now)) }
{
    if let Some(n) = number.as_u64() {
        return n <= u64::MAX;
    }
    if let Some(n) = number.as_i64() {
        return n >= i64::MIN;
    }
    false
}
