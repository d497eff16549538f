//! Edits inside a transaction.
ghost use Rattle.std.specs.Prelude.{◌≡◌, ◌≤◌, IfOk, IfSome, is_some, map, length};
ghost use Rattle.std.specs.Option.{option_copied};
ghost use Rattle.std.specs.FinMap.{get};
ghost use Rattle.streetmap_batch.specs.BatchValue as edit;
ghost use Rattle.streetmap_batch.specs.BatchView.{edit_value};
ghost use Rattle.streetmap_rows.specs.Representations.{ReadsInState};
ghost use Rattle.streetmap_tables.specs.EditEffects.{Edits, EditsAll};
ghost use Rattle.streetmap_tables.specs.Insertions.{EditsWhere, IsKnown, Knowing};
ghost use Rattle.streetmap_rows.specs.Failures.{HasReason};
ghost use Rattle.streetmap_rows.specs.TransactionCalls.{RunsInside};

use crate::insertions::{KnownCollection, insert_all};
use crate::stored_features::put_feature;
use crate::times::time_property;
use sqlite::{Alter, Error, Transaction};
use std::alloc::Global;
use streetmap_feature_text::WrittenFeature;
use streetmap_ledger::{Edit, Refusal, TimeProperty};
use streetmap_rows::{ROWS, collection_rows, delete_feature, has_feature, insert_collection};

/// Whether a collection with this id exists.
fn has_collection<S: Alter>(tx: &mut Transaction<'_, S>, collection: &str) -> Result<bool, Error>
    ensures { RunsInside S.Store HasReason
        (ReadsInState (λ s. is_some (get s.collections collection.now))) tx.old tx.new result }
{
    let rows = collection_rows(tx, collection)?;
    Ok(!rows.is_empty())
}

/// Opens a collection, or reports that it already exists.
#[tactic(auto, using(crate::proofs::Deciding::is_open))]
fn open_in<S: Alter>(
    tx: &mut Transaction<'_, S>,
    collection: &str,
    title: &str,
    time: Option<&str>,
) -> Result<Option<Refusal>, Error>
    ensures { RunsInside S.Store HasReason
        (Edits (edit.«open» collection.now title.now (option_copied time.entry)))
        tx.old tx.new result }
{
    if has_collection(tx, collection)? {
        return Ok(Some(Refusal::CollectionExists));
    }
    insert_collection(tx, collection, title, time)?;
    Ok(None)
}

/// Inserts a feature, or returns why not.
fn insert_in<S: Alter>(
    tx: &mut Transaction<'_, S>,
    alloc: Global,
    collection: &str,
    feature: &WrittenFeature,
) -> Result<Option<Refusal>, Error>
    ensures { RunsInside S.Store HasReason (Edits (edit.insert collection.now feature.now))
        tx.old tx.new result }
{
    let Some(property) = time_property(tx, collection)? else {
        return Ok(Some(Refusal::NoCollection));
    };
    if has_feature(tx, collection, feature.id())? {
        return Ok(Some(Refusal::FeatureExists));
    }
    put_feature(tx, alloc, collection, property.as_deref(), feature)
}

/// Replaces a feature by another with its id, or returns why not.
fn replace_in<S: Alter>(
    tx: &mut Transaction<'_, S>,
    alloc: Global,
    collection: &str,
    feature: &WrittenFeature,
) -> Result<Option<Refusal>, Error>
    ensures { RunsInside S.Store HasReason (Edits (edit.replace collection.now feature.now))
        tx.old tx.new result }
{
    let Some(property) = time_property(tx, collection)? else {
        return Ok(Some(Refusal::NoCollection));
    };
    if !has_feature(tx, collection, feature.id())? {
        return Ok(Some(Refusal::NoFeature));
    }
    delete_feature(tx, collection, feature.id())?;
    put_feature(tx, alloc, collection, property.as_deref(), feature)
}

/// Deletes a feature, or returns why not.
#[tactic(auto, using(crate::proofs::Deciding::no_collection, crate::proofs::Deciding::no_feature))]
fn delete_in<S: Alter>(
    tx: &mut Transaction<'_, S>,
    collection: &str,
    id: &str,
) -> Result<Option<Refusal>, Error>
    ensures { RunsInside S.Store HasReason (Edits (edit.delete collection.now id.now))
        tx.old tx.new result }
{
    if !has_collection(tx, collection)? {
        return Ok(Some(Refusal::NoCollection));
    }
    if !has_feature(tx, collection, id)? {
        return Ok(Some(Refusal::NoFeature));
    }
    delete_feature(tx, collection, id)?;
    Ok(None)
}

/// The name of a time property, if one is given.
fn name_of(time: &Option<TimeProperty>) -> Option<&str>
    ensures { option_copied result ≡ time.now }
{
    match time {
        Some(property) => Some(property.as_str()),
        None => None,
    }
}

/// Makes an edit, or returns why not.
fn edit_in<S: Alter>(
    tx: &mut Transaction<'_, S>,
    alloc: Global,
    edit: &Edit,
) -> Result<Option<Refusal>, Error>
    ensures { RunsInside S.Store HasReason (Edits (edit_value edit.now)) tx.old tx.new result }
{
    match edit {
        Edit::Open {
            collection,
            title,
            time,
        } => open_in(tx, collection.as_str(), title.as_str(), name_of(time)),
        Edit::Insert {
            collection,
            feature,
        } => insert_in(tx, alloc, collection.as_str(), feature),
        Edit::Replace {
            collection,
            feature,
        } => replace_in(tx, alloc, collection.as_str(), feature),
        Edit::Delete { collection, id } => delete_in(tx, collection.as_str(), id.as_str()),
    }
}

/// Makes edits one after the other, up to the first that is refused, whose place from 1 it returns.
fn edit_in_turn<S: Alter>(
    tx: &mut Transaction<'_, S>,
    alloc: Global,
    edits: &[Edit],
) -> Result<Option<(u64, Refusal)>, Error>
    ensures runs { RunsInside S.Store HasReason (EditsAll (map edit_value edits.now))
        tx.old tx.new result }
    ensures placed { IfOk result
        (λ stopped. IfSome stopped (λ at. at.0 ≤ length edits.now)) }
{
    let mut place: u64 = 1;
    'edits: for edit in edits {
        if let Some(why) = edit_in(tx, alloc, edit)? {
            return Ok(Some((place, why)));
        }
        place += 1;
    }
    Ok(None)
}

/// Makes edits in order, all by one statement if they can be, up to the first that is refused,
/// whose place from 1 it returns. It uses what is known of a collection, and may add to it.
fn edit_run<S: Alter>(
    tx: &mut Transaction<'_, S>,
    alloc: Global,
    edits: &[Edit],
    known: &mut Option<KnownCollection>,
) -> Result<Option<(u64, Refusal)>, Error>
    ensures runs { RunsInside S.Store HasReason
        (Knowing (EditsWhere (IsKnown known.old) (map edit_value edits.now)) known.old known.new)
        tx.old tx.new result }
    ensures placed { IfOk result
        (λ stopped. IfSome stopped (λ at. at.0 ≤ length edits.now)) }
{
    if insert_all(tx, alloc, edits, known)? {
        return Ok(None);
    }
    edit_in_turn(tx, alloc, edits)
}

/// Makes edits in order, up to the first that is refused, whose place from 1 it returns.
pub(crate) fn edit_each<S: Alter>(
    tx: &mut Transaction<'_, S>,
    alloc: Global,
    edits: &[Edit],
) -> Result<Option<(u64, Refusal)>, Error>
    ensures { RunsInside S.Store HasReason (EditsAll (map edit_value edits.now))
        tx.old tx.new result }
{
    let mut done: u64 = 0;
    let mut rest = edits;
    let mut known = None;
    'runs: while !rest.is_empty() {
        let (run, more) = rest.split_at(rest.len().min(ROWS));
        if let Some((place, why)) = edit_run(tx, alloc, run, &mut known)? {
            return Ok(Some((done + place, why)));
        }
        done += run.len() as u64;
        rest = more;
    }
    Ok(None)
}
