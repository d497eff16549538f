//! A feature is inserted into its collection, inside a transaction.
ghost use Rattle.std.specs.Prelude.{◌≡◌, None};
ghost use Rattle.std.specs.Option.{option_copied};
ghost use Rattle.streetmap_rows.specs.Rows.{feature_text};
ghost use Rattle.streetmap_tables.specs.StoredFeatures.{PutsWithText};
ghost use Rattle.streetmap_rows.specs.Failures.{HasReason};
ghost use Rattle.streetmap_rows.specs.TransactionCalls.{StaysInside};

use crate::times::seconds_under;
use sqlite::{Alter, Error, ErrorCode, Transaction};
use std::alloc::Global;
use streetmap_feature_text::WrittenFeature;
use streetmap_ledger::Refusal;
use streetmap_rows::insert_feature;

/// The text that is kept of a feature.
#[tactic(auto, unfolding(streetmap_rows::specs::Rows::feature_text))]
pub fn text_of(feature: &WrittenFeature) -> &str
    ensures { result.now ≡ feature_text feature.now }
{
    feature.text()
}

/// Inserts a new feature into an existing collection, with the time that the collection's property
/// gives; or returns that this time cannot be read.
///
/// # Errors
///
/// The error of the store, or that memory ran out; or, if the tables are not those of a state, that
/// the statement was refused.
pub(crate) fn put_feature<S: Alter>(
    tx: &mut Transaction<'_, S>,
    alloc: Global,
    collection: &str,
    property: Option<&str>,
    feature: &WrittenFeature,
) -> Result<Option<Refusal>, Error>
    ensures { StaysInside S.Store HasReason
        (PutsWithText collection.now (option_copied property.entry) feature.now)
        tx.old tx.new result }
{
    let Ok(reported) = seconds_under(alloc, feature, property) else {
        return Err(Error::SqliteFailure(ErrorCode::OutOfMemory));
    };
    let Ok(seconds) = reported else {
        return Ok(Some(Refusal::BadTime));
    };
    let (id, extent) = (feature.id(), feature.extent());
    let text = text_of(feature);
    insert_feature(tx, collection, id, text, extent, seconds)?;
    Ok(None)
}
