//! The time property of a collection, and the time that it gives for a feature.
ghost use Rattle.std.specs.Prelude.{◌≡◌, Err, IfOk, OnErr};
ghost use Rattle.std.specs.Option.{option_copied};
ghost use Rattle.streetmap_ledger.specs.State.{timed};
ghost use Rattle.streetmap_ledger.specs.declared.reply.Refusal.TheVariants.{BadTime};
ghost use Rattle.streetmap_tables.specs.StoredFeatures.{FindsTime, IsTimed};
ghost use Rattle.streetmap_rows.specs.Failures.{HasReason};
ghost use Rattle.streetmap_rows.specs.TransactionCalls.{RunsInside};

use sqlite::{Alter, Error, Transaction};
use std::alloc::{AllocError, Global};
use streetmap_feature_text::WrittenFeature;
use streetmap_moment::TimeFault;
use streetmap_rows::{collection_rows, time_in};

/// The time property of a collection, if it has one; none if the collection does not exist.
pub fn time_property<S: Alter>(
    tx: &mut Transaction<'_, S>,
    collection: &str,
) -> Result<Option<Option<String>>, Error>
    ensures { RunsInside S.Store HasReason (FindsTime collection.now) tx.old tx.new result }
{
    let rows = collection_rows(tx, collection)?;
    let Some(row) = rows.first() else {
        return Ok(None);
    };
    let time = time_in(row)?;
    Ok(Some(time))
}

/// The seconds of the time that the property gives for a feature, if it gives one; or why it cannot
/// be read.
///
/// # Errors
///
/// `AllocError` if memory runs out.
pub(crate) fn seconds_under(
    alloc: Global,
    feature: &WrittenFeature,
    property: Option<&str>,
) -> Result<Result<Option<(i64, i64)>, TimeFault>, AllocError>
    ensures reported { IfOk result (λ reported.
        IfOk reported (IsTimed (option_copied property.entry) feature.now)) }
    ensures refused { IfOk result (λ reported.
        OnErr reported (timed (option_copied property.entry) feature.now ≡ Err BadTime)) }
{
    feature.facts();
    match feature.time_under(alloc, property)? {
        Ok(Some(time)) => Ok(Ok(Some(time.seconds()))),
        Ok(None) => Ok(Ok(None)),
        Err(fault) => Ok(Err(fault)),
    }
}
