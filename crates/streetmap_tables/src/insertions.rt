//! Insertions into one collection, several by one statement, inside a transaction.
ghost use Rattle.std.specs.Prelude.{◌≡◌, ◌∷◌, IfOk, IfSome, IsSomeAnd, List, length, map, ◌↔◌};
ghost use Rattle.std.specs.Prelude.{IsTrue, string_bytes};
ghost use Rattle.std.specs.Option.{option_copied};
ghost use Rattle.streetmap_geojson.specs.FeatureValue.{FeatureValue};
ghost use Rattle.streetmap_batch.specs.BatchValue as edit;
ghost use Rattle.streetmap_batch.specs.BatchValue.{EditValue};
ghost use Rattle.streetmap_batch.specs.BatchView.{edit_value};
ghost use Rattle.streetmap_rows.specs.Failures.{HasReason};
ghost use Rattle.streetmap_tables.specs.Insertions.{IsRowUnder, IsInsertion, AreInsertions};
ghost use Rattle.streetmap_tables.specs.Insertions.{EditsAllOrNone, HasCollection, IsKnown};
ghost use Rattle.streetmap_tables.specs.Insertions.{FindsCollection, ComesToKnow, Knowing};
ghost use Rattle.streetmap_rows.specs.TransactionCalls.{RunsInside};

use crate::stored_features::text_of;
use crate::times::{seconds_under, time_property};
use sqlite::{Alter, Error, ErrorCode, Transaction};
use std::alloc::{AllocError, Global};
use streetmap_feature_text::WrittenFeature;
use streetmap_ledger::Edit;
use streetmap_rows::{FeatureRow, ROWS, insert_features};

/// An existing collection, and its time property.
#[derive(Drop)]
pub struct KnownCollection {
    /// The id of the collection.
    pub id: String,
    /// The property that the times of its features are read from, if it has one.
    pub property: Option<String>,
}

/// The row of a feature, with the time that the property gives; none if the property gives one that
/// cannot be read.
fn row_under<'a>(
    alloc: Global,
    property: Option<&str>,
    feature: &'a WrittenFeature,
) -> Result<Option<FeatureRow<'a>>, AllocError>
    ensures { IfOk result (λ found. IfSome found
        (IsRowUnder (option_copied property.entry) feature.now)) }
{
    match seconds_under(alloc, feature, property)? {
        Ok(seconds) => Ok(Some(FeatureRow {
            id: feature.id(),
            text: text_of(feature),
            extent: feature.extent(),
            seconds,
        })),
        Err(_) => Ok(None),
    }
}

/// The row of an edit that inserts a feature into the collection; none of any other edit.
fn row_of<'a>(
    alloc: Global,
    collection: &str,
    property: Option<&str>,
    edit: &'a Edit,
) -> Result<Option<FeatureRow<'a>>, AllocError>
    ensures { IfOk result (λ found. IfSome found
        (IsInsertion collection.now (option_copied property.entry) (edit_value edit.now))) }
{
    match edit {
        Edit::Insert {
            collection: into,
            feature,
        } if into.as_str() == collection => row_under(alloc, property, feature),
        _ => Ok(None),
    }
}

/// The rows of edits that each insert a feature into the collection; none if one of them does not.
fn rows_of<'a>(
    alloc: Global,
    collection: &str,
    property: Option<&str>,
    edits: &'a [Edit],
) -> Result<Option<Vec<FeatureRow<'a>>>, AllocError>
    ensures { IfOk result (λ found. IfSome found (λ rows.
        AreInsertions collection.now (option_copied property.entry)
        (map edit_value edits.now) rows.items)) }
{
    let mut rows = Vec::with_capacity(alloc, edits.len())?;
    'edits: for edit in edits {
        match row_of(alloc, collection, property, edit)? {
            Some(row) => rows.push(row)?,
            None => return Ok(None),
        }
    }
    Ok(Some(rows))
}

/// Makes edits that each insert a feature into an existing collection with this time property;
/// returns whether it did.
fn insert_under<S: Alter>(
    tx: &mut Transaction<'_, S>,
    alloc: Global,
    collection: &str,
    property: Option<&str>,
    edits: &[Edit],
) -> Result<bool, Error>
    requires { length edits.now ≡ 25 }
    ensures { RunsInside S.Store HasReason (EditsAllOrNone
        (HasCollection collection.now (option_copied property.entry)) (map edit_value edits.now))
        tx.old tx.new result }
{
    let Ok(found) = rows_of(alloc, collection, property, edits) else {
        return Err(Error::SqliteFailure(ErrorCode::OutOfMemory));
    };
    match found {
        Some(rows) => insert_features(tx, alloc, collection, &rows),
        None => Ok(false),
    }
}

/// The collection that the first edit inserts a feature into.
fn first_collection(edits: &[Edit]) -> Option<&str>
    ensures { IfSome result (λ name. (f : FeatureValue) × (more : List EditValue)
        × (map edit_value edits.now ≡ edit.insert name.now f ∷ more)) }
{
    match edits.first() {
        Some(Edit::Insert { collection, .. }) => Some(collection.as_str()),
        _ => None,
    }
}

/// Whether this collection is the known one.
fn is_known(known: &Option<KnownCollection>, collection: &str) -> bool
    ensures { IsTrue result ↔ IsSomeAnd known.now (λ it. string_bytes it.id ≡ collection.now) }
{
    match known {
        Some(it) => it.id.as_str() == collection,
        None => false,
    }
}

/// The collection with its time property, as the database has it; none if it does not exist.
fn find_collection<S: Alter>(
    tx: &mut Transaction<'_, S>,
    alloc: Global,
    collection: &str,
) -> Result<Option<KnownCollection>, Error>
    ensures { RunsInside S.Store HasReason (FindsCollection collection.now) tx.old tx.new result }
{
    let Some(property) = time_property(tx, collection)? else {
        return Ok(None);
    };
    let Ok(id) = String::from_str(alloc, collection) else {
        return Err(Error::SqliteFailure(ErrorCode::OutOfMemory));
    };
    Ok(Some(KnownCollection { id, property }))
}

/// Finds the collection, if it exists. It queries the database only if another collection is known,
/// or none.
fn come_to_know<S: Alter>(
    tx: &mut Transaction<'_, S>,
    alloc: Global,
    collection: &str,
    known: &mut Option<KnownCollection>,
) -> Result<(), Error>
    ensures { RunsInside S.Store HasReason (ComesToKnow collection.now known.old known.new)
        tx.old tx.new result }
{
    if is_known(known, collection) {
        return Ok(());
    }
    *known = find_collection(tx, alloc, collection)?;
    Ok(())
}

/// Makes [`ROWS`] edits by one statement, if each inserts a feature into the same collection;
/// returns whether it did. It does not if another number of edits or another kind of edit is given,
/// or if one of them is refused: then nothing has changed, and the caller must make them in turn.
///
/// The time property of the collection is queried only if it is not known from earlier edits. It
/// stays known for later ones, since no edit changes it.
///
/// # Errors
///
/// The error of the store, or that memory ran out.
pub(crate) fn insert_all<S: Alter>(
    tx: &mut Transaction<'_, S>,
    alloc: Global,
    edits: &[Edit],
    known: &mut Option<KnownCollection>,
) -> Result<bool, Error>
    ensures { RunsInside S.Store HasReason (Knowing
        (EditsAllOrNone (IsKnown known.old) (map edit_value edits.now)) known.old known.new)
        tx.old tx.new result }
{
    if edits.len() != ROWS {
        return Ok(false);
    }
    let Some(collection) = first_collection(edits) else {
        return Ok(false);
    };
    come_to_know(tx, alloc, collection, known)?;
    match known {
        Some(it) => insert_under(tx, alloc, collection, it.property.as_deref(), edits),
        None => Ok(false),
    }
}
