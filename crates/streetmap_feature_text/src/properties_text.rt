//! The properties of features as JSON texts (RFC 7946, section 3.2), without a text in between.
ghost use Rattle.std.specs.Prelude.{◌≡◌, ◌++◌, OnOk, false, string_bytes};
ghost use Rattle.serde_json.specs.View.{view, members_view};
ghost use Rattle.serde_json.specs.Written.{compact_text, has_float, members_have_float};
ghost use Rattle.serde_json.specs.Written.{members_text};
ghost use Rattle.streetmap_geojson.specs.FeatureView.{feature_value};

use crate::feature_json::{push_comma, push_number};
use crate::quotes::push_quoted;
use serde_json::{Map, Value};
use std::alloc::{AllocError, Global};
use streetmap_geojson::Feature;

/// Appends a value of any kind.
fn push_value(alloc: Global, out: &mut String, value: &Value) -> Result<(), AllocError>
    requires { has_float (view value.now) ≡ false }
    ensures { OnOk result (string_bytes out.new
        ≡ string_bytes out.old ++ compact_text (view value.now)) }
{
    let text = value.to_string(alloc)?;
    out.push_str(text.as_str())
}

/// Appends a value that is mostly a text or a whole number.
fn push_member(alloc: Global, out: &mut String, value: &Value) -> Result<(), AllocError>
    requires { has_float (view value.now) ≡ false }
    ensures { OnOk result (string_bytes out.new
        ≡ string_bytes out.old ++ compact_text (view value.now)) }
{
    if let Some(text) = value.as_str() {
        return push_quoted(alloc, out, text);
    }
    match value.as_i64() {
        Some(number) => push_number(out, number),
        None => push_value(alloc, out, value),
    }
}

/// Appends members and the brace after them.
fn push_members(
    alloc: Global,
    out: &mut String,
    members: &Map<String, Value>,
) -> Result<(), AllocError>
    requires { members_have_float (members_view members.now.entries) ≡ false }
    ensures { OnOk result (string_bytes out.new
        ≡ string_bytes out.old ++ members_text false (members_view members.now.entries)) }
{
    let mut later = false;
    for (name, member) in members.iter() {
        push_comma(out, later)?;
        push_quoted(alloc, out, name.as_str())?;
        out.push_str(":")?;
        push_member(alloc, out, member)?;
        later = true;
    }
    out.push_str("}")
}

/// Appends the properties.
pub(crate) fn push_properties(
    alloc: Global,
    out: &mut String,
    feature: &Feature,
) -> Result<(), AllocError>
    ensures { OnOk result (string_bytes out.new
        ≡ string_bytes out.old ++ compact_text (feature_value feature.now).properties) }
{
    feature.facts();
    match feature.properties() {
        Value::Object(members) => {
            out.push_str("{")?;
            push_members(alloc, out, members)
        }
        other => push_value(alloc, out, other),
    }
}
