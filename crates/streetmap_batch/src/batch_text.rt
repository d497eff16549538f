//! The text of a batch, edit by edit.
ghost use Rattle.std.specs.Prelude.{◌≡◌, ◌++◌, IfOk, OnOk, Some, false, option_map, string_bytes};
ghost use Rattle.serde_json.specs.View.{view};
ghost use Rattle.serde_json.specs.Written.{compact_text, has_float, items_text};
ghost use Rattle.streetmap_batch.specs.BatchText.{edit_data, edits_data, feature_edit_data};
ghost use Rattle.streetmap_batch.specs.BatchText.{batch_text};
ghost use Rattle.streetmap_batch.specs.BatchValue as value;
ghost use Rattle.streetmap_batch.specs.BatchView.{edit_value, edit_values};

use crate::edit::{CollectionId, Edit, TimeProperty, Title};
use serde_json::{Value, json};
use std::alloc::{AllocError, Global};
use streetmap_feature_text::{WrittenFeature, push_comma, push_quoted};
use streetmap_geojson::Id;

/// The value of an open edit with a time property.
#[tactic(auto, unfolding(crate::specs::BatchText::edit_data))]
fn write_timed_open(
    alloc: Global,
    collection: &CollectionId,
    title: &Title,
    time: &TimeProperty,
) -> Result<Value, AllocError>
    ensures value { IfOk result (λ v. view v
        ≡ edit_data (value.«open» collection.now title.now (Some time.now))) }
    ensures whole { IfOk result (λ v. has_float (view v) ≡ false) }
{
    json!(in alloc; {
        "collection": collection.as_str(), "op": "open", "time": time.as_str(), "title": title.as_str()
    })
}

/// The value of an open edit.
#[tactic(auto, unfolding(crate::specs::BatchText::edit_data))]
fn write_open(
    alloc: Global,
    collection: &CollectionId,
    title: &Title,
    time: Option<&TimeProperty>,
) -> Result<Value, AllocError>
    ensures value { IfOk result (λ v. view v
        ≡ edit_data (value.«open» collection.now title.now (option_map (λ t. t.now) time.entry))) }
    ensures whole { IfOk result (λ v. has_float (view v) ≡ false) }
{
    match time {
        Some(time) => write_timed_open(alloc, collection, title, time),
        None => json!(in alloc; {
            "collection": collection.as_str(), "op": "open", "title": title.as_str()
        }),
    }
}

/// The value of a delete edit.
#[tactic(auto, unfolding(crate::specs::BatchText::edit_data))]
fn write_delete(alloc: Global, collection: &CollectionId, id: &Id) -> Result<Value, AllocError>
    ensures value { IfOk result (λ v. view v ≡ edit_data (value.delete collection.now id.now)) }
    ensures whole { IfOk result (λ v. has_float (view v) ≡ false) }
{
    json!(in alloc; {"collection": collection.as_str(), "id": id.as_str(), "op": "delete"})
}

/// Appends the text of a value.
fn push_value(alloc: Global, out: &mut String, value: &Value) -> Result<(), AllocError>
    requires { has_float (view value.now) ≡ false }
    ensures { OnOk result (string_bytes out.new
        ≡ string_bytes out.old ++ compact_text (view value.now)) }
{
    let text = value.to_string(alloc)?;
    out.push_str(text.as_str())
}

/// Appends an edit of a feature.
fn push_feature_edit(
    alloc: Global,
    out: &mut String,
    op: &str,
    collection: &CollectionId,
    feature: &WrittenFeature,
) -> Result<(), AllocError>
    ensures { OnOk result (string_bytes out.new
        ≡ string_bytes out.old ++ compact_text
        (feature_edit_data op.now collection.now feature.now)) }
{
    out.push_str("{\"collection\":")?;
    push_quoted(alloc, out, collection.as_str())?;
    out.push_str(",\"feature\":")?;
    out.push_str(feature.text())?;
    out.push_str(",\"op\":")?;
    push_quoted(alloc, out, op)?;
    out.push_str("}")
}

/// Appends an edit.
#[tactic(auto, unfolding(crate::specs::BatchText::edit_data))]
fn push_edit(alloc: Global, out: &mut String, edit: &Edit) -> Result<(), AllocError>
    ensures { OnOk result (string_bytes out.new
        ≡ string_bytes out.old ++ compact_text (edit_data (edit_value edit.now))) }
{
    match edit {
        Edit::Open {
            collection,
            title,
            time,
        } => {
            let value = write_open(alloc, collection, title, time.as_ref())?;
            push_value(alloc, out, &value)
        }
        Edit::Insert {
            collection,
            feature,
        } => push_feature_edit(alloc, out, "insert", collection, feature),
        Edit::Replace {
            collection,
            feature,
        } => push_feature_edit(alloc, out, "replace", collection, feature),
        Edit::Delete { collection, id } => {
            let value = write_delete(alloc, collection, id)?;
            push_value(alloc, out, &value)
        }
    }
}

/// The room that the names in an edit usually take in its text, in bytes.
const NAMES_ROOM: usize = 128;

/// The room that the text of an edit begins with, in bytes.
fn room_of(edit: &Edit) -> usize {
    match edit {
        Edit::Insert { feature, .. } | Edit::Replace { feature, .. } => {
            feature.text().len().saturating_add(NAMES_ROOM)
        }
        Edit::Open { .. } | Edit::Delete { .. } => NAMES_ROOM,
    }
}

impl Edit {
    /// The text of the edit within the text of a batch.
    pub fn text(&self, alloc: Global) -> Result<String, AllocError>
        ensures { IfOk result (λ text. string_bytes text
            ≡ compact_text (edit_data (edit_value self.now))) }
    {
        let mut text = String::with_capacity(alloc, room_of(self))?;
        push_edit(alloc, &mut text, self)?;
        Ok(text)
    }
}

/// Appends the edits and the bracket after them.
fn push_edits(alloc: Global, out: &mut String, edits: &[Edit]) -> Result<(), AllocError>
    ensures { OnOk result (string_bytes out.new
        ≡ string_bytes out.old ++ items_text false (edits_data (edit_values edits.now))) }
{
    let mut later = false;
    for edit in edits {
        push_comma(out, later)?;
        push_edit(alloc, out, edit)?;
        later = true;
    }
    out.push_str("]")
}

/// The text of the batch of a key and edits.
#[tactic(auto, unfolding(crate::specs::BatchText::batch_text, crate::specs::BatchText::batch_data))]
pub(crate) fn write_batch(alloc: Global, key: &str, edits: &[Edit]) -> Result<String, AllocError>
    ensures { IfOk result (λ text. string_bytes text
        ≡ batch_text (record { key = key.now; edits = edit_values edits.now })) }
{
    let mut text = String::new(alloc);
    text.push_str("{\"edits\":[")?;
    push_edits(alloc, &mut text, edits)?;
    text.push_str(",\"key\":")?;
    push_quoted(alloc, &mut text, key)?;
    text.push_str("}")?;
    Ok(text)
}
