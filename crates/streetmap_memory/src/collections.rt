//! Collections by id, and changes of them that can be taken back.
ghost use Rattle.std.specs.Prelude.{◌≡◌, Option, Some, None, IfOk, OnOk, OnErr, map};
ghost use Rattle.std.specs.Option.{option_copied};
ghost use Rattle.std.specs.FinMap.{get, insert, empty};
ghost use Rattle.serde_json.specs.Written.{compact_text};
ghost use Rattle.streetmap_geojson.specs.FeatureValue.{FeatureValue};
ghost use Rattle.streetmap_feature_text.specs.Written.{feature_data};
ghost use Rattle.streetmap_memory.specs.Slots.{SlotCollections, map_of, slot_in, put_in, cut_in};
ghost use Rattle.streetmap_memory.specs.Slots.{reset_in, swept_in};
ghost use Rattle.std.specs.BTreeMap.{IsOrdered};
ghost use Rattle.std.specs.String.{string_cmp};
ghost use Rattle.streetmap_memory.specs.Slots.{summary_at};
ghost use Rattle.streetmap_memory.specs.Undo.{undone, rewound, timed_in, swept_by, all_swept};
ghost use Rattle.streetmap_ledger.specs.SummaryView.{summary_values};

use crate::collection::{PlainCollection, owned};
use crate::undo::Undo;
use bytes::Bytes;
use std::alloc::{AllocError, Global};
use std::collections::BTreeMap;
use streetmap_feature_text::{PackedFeature, WrittenFeature};
use streetmap_ledger::Summary;

/// Removes a slot from a collection.
fn remove_slot(collections: &mut BTreeMap<String, PlainCollection>, name: &str, id: &str)
    ensures { map_of collections.new.entries
        ≡ cut_in (map_of collections.old.entries) name.now id.now }
{
    if let Some(collection) = collections.get_mut(name) {
        collection.remove_slot(id);
    }
}

/// Puts this into a slot if it exists, and returns what that was.
pub(crate) fn replace_slot(
    collections: &mut BTreeMap<String, PlainCollection>,
    name: &str,
    id: &str,
    slot: Option<PackedFeature>,
) -> Option<Option<PackedFeature>>
    ensures after { map_of collections.new.entries
        ≡ reset_in (map_of collections.old.entries) name.now id.now slot }
    ensures was { result ≡ slot_in (map_of collections.old.entries) name.now id.now }
{
    match collections.get_mut(name) {
        Some(collection) => collection.replace_slot(id, slot),
        None => None,
    }
}

/// The feature packed with its text, and with its time by the collection's property; none if that
/// cannot be read.
pub fn packed(
    alloc: Global,
    collections: &BTreeMap<String, PlainCollection>,
    name: &str,
    text: Bytes,
    feature: &WrittenFeature,
) -> Result<Option<PackedFeature>, AllocError>
    requires { text ≡ compact_text (feature_data feature.now) }
    ensures { IfOk result (λ packed. packed
        ≡ timed_in (map_of collections.now.entries) name.now feature.now) }
{
    match collections.get(name) {
        Some(collection) => Ok(collection.packed(alloc, text, feature)?),
        None => Ok(None),
    }
}

/// Puts a feature into a collection if it exists, and returns what its slot was.
pub fn put(
    alloc: Global,
    collections: &mut BTreeMap<String, PlainCollection>,
    name: &str,
    id: &str,
    feature: PackedFeature,
) -> Result<Option<Option<PackedFeature>>, AllocError>
    ensures ok { OnOk result (map_of collections.new.entries
        ≡ put_in (map_of collections.old.entries) name.now id.now (Some feature)) }
    ensures was { IfOk result (λ was. was
        ≡ slot_in (map_of collections.old.entries) name.now id.now) }
    ensures err { OnErr result (map_of collections.new.entries ≡ map_of collections.old.entries) }
{
    let key = String::from_str(alloc, id)?;
    match collections.get_mut(name) {
        Some(collection) => Ok(collection.put(key, feature)?),
        None => Ok(None),
    }
}

/// The undo of a write to a slot that was this before.
pub(crate) fn undo_of<'a>(
    name: &'a str,
    id: &'a str,
    was: Option<Option<PackedFeature>>,
) -> Undo<'a>
    ensures { (t : SlotCollections) (slot : Option FeatureValue)
        → slot_in t name.now id.now ≡ was
        → undone result (put_in t name.now id.now slot) ≡ t }
{
    match was {
        Some(slot) => Undo::Set(name, id, slot),
        None => Undo::Add(name, id),
    }
}

/// Opens a new collection.
pub fn open(
    alloc: Global,
    collections: &mut BTreeMap<String, PlainCollection>,
    name: &str,
    title: &str,
    time: Option<&str>,
) -> Result<(), AllocError>
    requires { get (map_of collections.old.entries) name.now ≡ None }
    ensures ok { OnOk result (map_of collections.new.entries
        ≡ insert (map_of collections.old.entries) name.now
        (record { title = title.now; time = option_copied time.entry; slots = empty })) }
    ensures err { OnErr result (map_of collections.new.entries ≡ map_of collections.old.entries) }
{
    let key = String::from_str(alloc, name)?;
    let collection = PlainCollection::new(
        alloc,
        String::from_str(alloc, title)?,
        owned(alloc, time)?,
    );
    collections.insert(key, collection)?;
    Ok(())
}

/// Takes an edit back.
fn undo(collections: &mut BTreeMap<String, PlainCollection>, edit: Undo<'_>)
    ensures { map_of collections.new.entries
        ≡ undone edit.entry (map_of collections.old.entries) }
{
    match edit {
        Undo::Open(name) => {
            let _ = collections.remove(name);
        }
        Undo::Add(name, id) => remove_slot(collections, name, id),
        Undo::Set(name, id, slot) => {
            let _ = replace_slot(collections, name, id, slot);
        }
    }
}

/// Takes edits back, the last first.
pub(crate) fn rewind(collections: &mut BTreeMap<String, PlainCollection>, mut log: Vec<Undo<'_>>)
    ensures { map_of collections.new.entries
        ≡ rewound log.entry.items (map_of collections.old.entries) }
{
    while let Some(edit) = log.pop() {
        undo(collections, edit);
    }
}

/// Removes a slot from a collection, if it is empty.
fn sweep_slot(collections: &mut BTreeMap<String, PlainCollection>, name: &str, id: &str)
    ensures { map_of collections.new.entries
        ≡ swept_in (map_of collections.old.entries) name.now id.now }
{
    if let Some(collection) = collections.get_mut(name) {
        collection.sweep(id);
    }
}

/// Removes the slot that an edit wrote, if it left that empty.
fn sweep_edit(collections: &mut BTreeMap<String, PlainCollection>, edit: Undo<'_>)
    ensures { map_of collections.new.entries
        ≡ swept_by edit.entry (map_of collections.old.entries) }
{
    match edit {
        Undo::Open(_) => {}
        Undo::Add(name, id) => sweep_slot(collections, name, id),
        Undo::Set(name, id, slot) => {
            drop(slot);
            sweep_slot(collections, name, id);
        }
    }
}

/// Removes the slots that edits wrote and left empty.
pub(crate) fn sweep(collections: &mut BTreeMap<String, PlainCollection>, mut log: Vec<Undo<'_>>)
    ensures { map_of collections.new.entries
        ≡ all_swept log.entry.items (map_of collections.old.entries) }
{
    while let Some(edit) = log.pop() {
        sweep_edit(collections, edit);
    }
}

/// The descriptions of all collections, in the order of their ids.
pub fn summaries(
    alloc: Global,
    collections: &BTreeMap<String, PlainCollection>,
) -> Result<Vec<Summary>, AllocError>
    ensures reported { IfOk result (λ reported. summary_values reported.items
        ≡ map summary_at collections.now.entries) }
    ensures ordered { IsOrdered string_cmp collections.now }
{
    let mut reported = Vec::new(alloc);
    for (id, collection) in collections.iter() {
        reported.push(collection.summary(alloc, id.as_str())?)?;
    }
    Ok(reported)
}
