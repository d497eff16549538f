//! A batch inside a transaction.
ghost use Rattle.std.specs.Prelude.{◌≡◌, ◌<◌, ◌^◌, ◌-◌};
ghost use Rattle.streetmap_batch.specs.BatchText.{batch_text};
ghost use Rattle.streetmap_batch.specs.BatchView.{batch_value};
ghost use Rattle.streetmap_tables.specs.BatchEffects.{ActsInside};
ghost use Rattle.streetmap_rows.specs.Failures.{HasReason};
ghost use Rattle.streetmap_rows.specs.TransactionCalls.{RunsInside};

use crate::edits::edit_each;
use sqlite::{Alter, Error, Transaction};
use std::alloc::Global;
use streetmap_ledger::{Batch, Counts, Reply};
use streetmap_rows::insert_batch;

/// Acts on a batch whose key is new.
pub(crate) fn act_inside<S: Alter>(
    tx: &mut Transaction<'_, S>,
    alloc: Global,
    count: u64,
    batch: &Batch,
    text: &str,
) -> Result<Reply, Error>
    requires its_text { text.now ≡ batch_text (batch_value batch.now) }
    requires room { count < 2 ^ 63 - 1 }
    ensures { RunsInside S.Store HasReason (ActsInside (batch_value batch.now) count)
        tx.old tx.new result }
{
    batch.facts();
    if let Some((place, why)) = edit_each(tx, alloc, batch.edits())? {
        return Ok(Reply::Refused(why, Some(place)));
    }
    let counts = Counts::of(batch.edits());
    insert_batch(tx, batch.key(), text, counts, count + 1)?;
    Ok(Reply::Accepted(counts, count + 1))
}
