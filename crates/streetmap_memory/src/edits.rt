//! Edits of the plain keeper's collections, one by one and all together.
ghost use Rattle.std.specs.Prelude.{◌≡◌, Option, Some, None, IfOk, OnErr, map};
ghost use Rattle.std.specs.Option.{option_copied};
ghost use Rattle.streetmap_memory.specs.Slots.{map_of};
ghost use Rattle.streetmap_batch.specs.BatchValue as edit;
ghost use Rattle.streetmap_batch.specs.BatchView.{edit_value};
ghost use Rattle.streetmap_memory.specs.Undo.{found_in};
ghost use Rattle.streetmap_memory.specs.Does.{DoesOne, DoesAll};

use crate::acted::Acted;
use crate::collection::PlainCollection;
use crate::collections::{open, packed, put, replace_slot, rewind, sweep, undo_of};
use crate::cutter::Cutter;
use crate::undo::Undo;
use bytes::Bytes;
use std::alloc::{AllocError, Global};
use std::collections::BTreeMap;
use streetmap_batch::{Edit, TimeProperty};
use streetmap_feature_text::WrittenFeature;
use streetmap_ledger::Refusal;

/// Whether a feature and its collection exist.
#[derive(Clone, Copy)]
pub enum Found {
    NoCollection,
    NoFeature,
    There,
}

fn find(collections: &BTreeMap<String, PlainCollection>, name: &str, id: &str) -> Found
    ensures { result ≡ found_in (map_of collections.now.entries) name.now id.now }
{
    match collections.get(name) {
        Some(collection) => match collection.get(id) {
            Some(_) => Found::There,
            None => Found::NoFeature,
        },
        None => Found::NoCollection,
    }
}

fn act_open<'a>(
    alloc: Global,
    collections: &mut BTreeMap<String, PlainCollection>,
    name: &'a str,
    title: &str,
    time: Option<&str>,
) -> Result<Acted<'a>, AllocError>
    ensures done { IfOk result (λ acted.
        DoesOne (map_of collections.old.entries)
        (edit.«open» name.now title.now (option_copied time.entry)) acted
        (map_of collections.new.entries)) }
    ensures err { OnErr result (map_of collections.new.entries ≡ map_of collections.old.entries) }
{
    match collections.get(name) {
        Some(_) => Ok(Acted::Refused(Refusal::CollectionExists)),
        None => {
            open(alloc, collections, name, title, time)?;
            Ok(Acted::Done(Undo::Open(name)))
        }
    }
}

fn act_insert<'a>(
    alloc: Global,
    collections: &mut BTreeMap<String, PlainCollection>,
    name: &'a str,
    feature: &'a WrittenFeature,
    cutter: &mut Cutter<'_>,
) -> Result<Acted<'a>, AllocError>
    ensures done { IfOk result (λ acted.
        DoesOne (map_of collections.old.entries) (edit.insert name.now feature.now) acted
        (map_of collections.new.entries)) }
    ensures err { OnErr result (map_of collections.new.entries ≡ map_of collections.old.entries) }
{
    let id = feature.id();
    match find(collections, name, id) {
        Found::NoCollection => Ok(Acted::Refused(Refusal::NoCollection)),
        Found::There => Ok(Acted::Refused(Refusal::FeatureExists)),
        Found::NoFeature => {
            let text = cutter.cut(alloc, feature)?;
            match packed(alloc, collections, name, text, feature)? {
                Some(packed) => {
                    let was = put(alloc, collections, name, id, packed)?;
                    Ok(Acted::Done(undo_of(name, id, was)))
                }
                None => Ok(Acted::Refused(Refusal::BadTime)),
            }
        }
    }
}

fn act_replace<'a>(
    alloc: Global,
    collections: &mut BTreeMap<String, PlainCollection>,
    name: &'a str,
    feature: &'a WrittenFeature,
    cutter: &mut Cutter<'_>,
) -> Result<Acted<'a>, AllocError>
    ensures done { IfOk result (λ acted.
        DoesOne (map_of collections.old.entries) (edit.replace name.now feature.now) acted
        (map_of collections.new.entries)) }
    ensures err { OnErr result (map_of collections.new.entries ≡ map_of collections.old.entries) }
{
    let id = feature.id();
    match find(collections, name, id) {
        Found::NoCollection => Ok(Acted::Refused(Refusal::NoCollection)),
        Found::NoFeature => Ok(Acted::Refused(Refusal::NoFeature)),
        Found::There => {
            let text = cutter.cut(alloc, feature)?;
            match packed(alloc, collections, name, text, feature)? {
                Some(packed) => {
                    let was = put(alloc, collections, name, id, packed)?;
                    Ok(Acted::Done(undo_of(name, id, was)))
                }
                None => Ok(Acted::Refused(Refusal::BadTime)),
            }
        }
    }
}

fn act_delete<'a>(
    collections: &mut BTreeMap<String, PlainCollection>,
    name: &'a str,
    id: &'a str,
) -> Acted<'a>
    ensures { DoesOne (map_of collections.old.entries) (edit.delete name.now id.now) result
        (map_of collections.new.entries) }
{
    match find(collections, name, id) {
        Found::NoCollection => Acted::Refused(Refusal::NoCollection),
        Found::NoFeature => Acted::Refused(Refusal::NoFeature),
        Found::There => {
            let was = replace_slot(collections, name, id, None);
            Acted::Done(undo_of(name, id, was))
        }
    }
}

/// The name of a time property, if any.
fn name_of(time: &Option<TimeProperty>) -> Option<&str>
    ensures { option_copied result ≡ time.now }
{
    match time {
        Some(property) => Some(property.as_str()),
        None => None,
    }
}

fn act<'a>(
    alloc: Global,
    collections: &mut BTreeMap<String, PlainCollection>,
    edit: &'a Edit,
    cutter: &mut Cutter<'_>,
) -> Result<Acted<'a>, AllocError>
    ensures done { IfOk result (λ acted.
        DoesOne (map_of collections.old.entries) (edit_value edit.now) acted
        (map_of collections.new.entries)) }
    ensures err { OnErr result (map_of collections.new.entries ≡ map_of collections.old.entries) }
{
    match edit {
        Edit::Open {
            collection,
            title,
            time,
        } => act_open(
            alloc,
            collections,
            collection.as_str(),
            title.as_str(),
            name_of(time),
        ),
        Edit::Insert {
            collection,
            feature,
        } => act_insert(alloc, collections, collection.as_str(), feature, cutter),
        Edit::Replace {
            collection,
            feature,
        } => act_replace(alloc, collections, collection.as_str(), feature, cutter),
        Edit::Delete { collection, id } => Ok(act_delete(
            collections,
            collection.as_str(),
            id.as_str(),
        )),
    }
}

/// Applies edits in order; the texts of their features are cut from that of the batch. If an edit
/// is refused, or memory runs out, what was done is taken back.
pub(crate) fn act_all(
    alloc: Global,
    collections: &mut BTreeMap<String, PlainCollection>,
    edits: &[Edit],
    text: &Bytes,
) -> Result<Option<(u64, Refusal)>, AllocError>
    ensures done { IfOk result (λ stopped.
        DoesAll (map_of collections.old.entries) (map edit_value edits.now) stopped
        (map_of collections.new.entries)) }
    ensures err { OnErr result (map_of collections.new.entries ≡ map_of collections.old.entries) }
{
    let mut log = Vec::with_capacity(alloc, edits.len())?;
    let mut cutter = Cutter::new(text);
    let mut place: u64 = 1;
    for edit in edits {
        match act(alloc, collections, edit, &mut cutter) {
            Ok(Acted::Done(undo)) => log.push_reserved(undo),
            Ok(Acted::Refused(why)) => {
                rewind(collections, log);
                return Ok(Some((place, why)));
            }
            Err(e) => {
                rewind(collections, log);
                return Err(e);
            }
        }
        place += 1;
    }
    sweep(collections, log);
    Ok(None)
}
