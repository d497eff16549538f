//! The features of format 1: their rows are read, and inserted in the form of format 2.
ghost use Rattle.std.specs.Prelude.{◌≡◌, IfErr, IsTrue, IsUtf8, OnOk, MatchResult, string_bytes};
ghost use Rattle.std.specs.Prelude.{IfOk};
ghost use Rattle.std.specs.Option.{option_copied};
ghost use Rattle.sqlite.specs.Held.{state};
ghost use Rattle.sqlite.specs.State.{HasCleanDisk};
ghost use Rattle.streetmap_geojson.specs.FeatureValue.{FeatureValue};
ghost use Rattle.streetmap_rows.specs.Rows.{feature_text};
ghost use Rattle.streetmap_rows.specs.Failures.{IsOfStore};
ghost use Rattle.streetmap_rows.specs.Holds.{KeyPair};
ghost use Rattle.streetmap_rows.specs.Stored.{IsStored, TextReadsAs};
ghost use Rattle.streetmap_tables.specs.Old.{old_cells};
ghost use Rattle.sqlite.specs.declared.error.Error.{Error};
ghost use Rattle.streetmap_tables.specs.Reasons.{IsOwn, HasReasonIn};
ghost use Rattle.streetmap_tables.specs.Part.{PutsRow, PutsRows, PutsOne, PutsEach, pair_in};
ghost use Rattle.streetmap_tables.specs.Part.{body_in, TakesOldRows, FindsTimeOf};
ghost use Rattle.streetmap_rows.specs.TransactionCalls.{StaysInside};

use crate::stored_features::put_feature;
use json::Scratch;
use sqlite::types::ValueRef;
use sqlite::{Alter, Error, Row, Transaction};
use std::alloc::Global;
use streetmap_feature_text::WrittenFeature;
use streetmap_geojson::{Feature, JsonFault};
use streetmap_rows::{ReadFault, collection_rows, is_of_store, read_body, time_in, unread};

/// Why a read or a write of a feature gave up: the store failed, or the statement was refused, as
/// it is at a row that this product does not write.
pub fn fault_of(error: Error) -> ReadFault
    ensures only { (e : Error) → result ≡ ReadFault.Store e → e ≡ error }
    ensures store { IsOfStore error → result ≡ ReadFault.Store error }
{
    if is_of_store(error) {
        ReadFault::Store(error)
    } else {
        ReadFault::Unread
    }
}

/// The rows of all features.
pub(crate) fn take_rows<S: Alter>(tx: &mut Transaction<'_, S>) -> Result<Vec<Row>, ReadFault>
    ensures { StaysInside S.Store HasReasonIn TakesOldRows tx.old tx.new result }
{
    match tx.query_all("SELECT collection, id, body FROM streetmap_features", &[]) {
        Ok(rows) => Ok(rows),
        Err(error) => Err(fault_of(error)),
    }
}

/// The time property of a collection, if it has one.
fn find_time<S: Alter>(
    tx: &mut Transaction<'_, S>,
    collection: &str,
) -> Result<Option<String>, ReadFault>
    ensures { StaysInside S.Store HasReasonIn (FindsTimeOf collection.now) tx.old tx.new result }
{
    let rows = match collection_rows(tx, collection) {
        Ok(rows) => rows,
        Err(error) => return Err(fault_of(error)),
    };
    let Some(row) = rows.first() else {
        return Err(ReadFault::Unread);
    };
    match time_in(row) {
        Ok(time) => Ok(time),
        Err(error) => Err(unread(error)),
    }
}

/// The collection in the row of a feature.
#[tactic(auto, using(crate::proofs::Reasons::unread_own))]
fn collection_in(row: &Row) -> Result<String, ReadFault>
    ensures own { IfErr result IsOwn }
    ensures named { IfOk result (λ name. string_bytes name ≡ (pair_in row.now).0) }
    ensures reads { (p : KeyPair) (f : FeatureValue) → row.now ≡ old_cells p f →
        IsUtf8 p.0 →
        MatchResult result (λ name. string_bytes name ≡ p.0) (λ fault. fault ≡ ReadFault.Memory) }
{
    match row.get::<String>(0) {
        Ok(name) => Ok(name),
        Err(error) => Err(unread(error)),
    }
}

/// The feature of the text in a row, read into values.
fn parse(alloc: Global, body: &[u8], property: Option<&str>) -> Result<Feature, ReadFault>
    ensures own { IfErr result IsOwn }
    ensures worded { IfOk result (TextReadsAs (option_copied property.entry) body.now) }
    ensures reads { (f : FeatureValue) → body.now ≡ feature_text f →
        IsStored (option_copied property.entry) f →
        MatchResult result (λ g. g ≡ f) (λ fault. fault ≡ ReadFault.Memory) }
{
    match read_body(alloc, &mut Scratch::new(alloc), body, property) {
        Ok(kept) => match kept.unpack(alloc) {
            Ok(feature) => Ok(feature),
            Err(_) => Err(ReadFault::Memory),
        },
        Err(JsonFault::Memory) => Err(ReadFault::Memory),
        Err(JsonFault::Fault(_)) => Err(ReadFault::Unread),
    }
}

/// The feature in its row, under its collection's time property.
fn feature_in(alloc: Global, row: &Row, property: Option<&str>) -> Result<WrittenFeature, ReadFault>
    ensures own { IfErr result IsOwn }
    ensures named { IfOk result (λ f. f.id ≡ (pair_in row.now).1) }
    ensures worded { IfOk result (TextReadsAs (option_copied property.entry) (body_in row.now)) }
    ensures reads { (p : KeyPair) (f : FeatureValue) → row.now ≡ old_cells p f →
        f.id ≡ p.1 →
        IsStored (option_copied property.entry) f →
        MatchResult result (λ g. g ≡ f) (λ fault. fault ≡ ReadFault.Memory) }
{
    let (Ok(ValueRef::Text(id)), Ok(ValueRef::Text(body))) = (row.get_ref(1), row.get_ref(2)) else {
        return Err(ReadFault::Unread);
    };
    let feature = parse(alloc, body, property)?;
    if feature.id().as_bytes() != id {
        return Err(ReadFault::Unread);
    }
    match WrittenFeature::new(alloc, feature) {
        Ok(feature) => Ok(feature),
        Err(_) => Err(ReadFault::Memory),
    }
}

/// Inserts the feature of a row, with its extent and its seconds.
fn put_row<S: Alter>(tx: &mut Transaction<'_, S>, alloc: Global, row: &Row) -> Result<(), ReadFault>
    ensures runs { StaysInside S.Store HasReasonIn (PutsRow row.now) tx.old tx.new result }
    ensures ran { HasCleanDisk (state S.Store tx.new.conn.now) →
        IsTrue (state S.Store tx.old.conn.now).in_transaction →
        OnOk result (PutsOne S.Store row.now tx.old.conn.now tx.new.conn.now) }
{
    let collection = collection_in(row)?;
    let time = find_time(tx, collection.as_str())?;
    let feature = feature_in(alloc, row, time.as_deref())?;
    match put_feature(tx, alloc, collection.as_str(), time.as_deref(), &feature) {
        Ok(None) => Ok(()),
        Ok(Some(_)) => Err(ReadFault::Unread),
        Err(error) => Err(fault_of(error)),
    }
}

/// Inserts the features of all rows.
pub(crate) fn put_rows<S: Alter>(
    tx: &mut Transaction<'_, S>,
    alloc: Global,
    rows: &[Row],
) -> Result<(), ReadFault>
    ensures runs { StaysInside S.Store HasReasonIn (PutsRows rows.now) tx.old tx.new result }
    ensures ran { HasCleanDisk (state S.Store tx.new.conn.now) →
        IsTrue (state S.Store tx.old.conn.now).in_transaction →
        OnOk result (PutsEach S.Store rows.now tx.old.conn.now tx.new.conn.now) }
{
    'rows: for row in rows {
        put_row(tx, alloc, row)?;
    }
    Ok(())
}
