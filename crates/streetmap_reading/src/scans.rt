//! Batches of a query, one row after the other.
ghost use Rattle.std.specs.Prelude.{◌≡◌, false};
ghost use Rattle.sqlite.specs.Held.{state};
ghost use Rattle.sqlite.specs.State.{HasCleanDisk, Survives, CommitsShowing};
ghost use Rattle.sqlite.specs.Values.{bound};
ghost use Rattle.streetmap_rows.specs.TableReads.{Queries};
ghost use Rattle.streetmap_reading.specs.Scans.{TakesBatch, TakesBatches, TakesFirst};

use crate::batch_cells::batch_in;
use sqlite::types::ValueRef;
use sqlite::{Alter, Connection, Error, ErrorCode, Rows};
use std::alloc::Global;
use streetmap_ledger::KeptBatch;
use streetmap_rows::ReadFault;

/// The batch of the next row, if any.
fn next_batch<S: Alter>(
    alloc: Global,
    rows: &mut Rows<'_, S>,
) -> Result<Option<KeptBatch>, ReadFault>
    ensures same_reference { rows.new.conn.ghost_name ≡ rows.old.conn.ghost_name }
    ensures takes { HasCleanDisk (state S.Store rows.new.conn.now) →
        TakesBatch S.Store rows.old.conn.now rows.new.conn.now result }
    ensures mode { rows.old.conn.now.in_transaction ≡ false →
        rows.new.conn.now.in_transaction ≡ false }
    ensures survives { Survives (state S.Store rows.old.conn.now)
        (state S.Store rows.new.conn.now) (λ _. ⊥) }
{
    match rows.advance() {
        Ok(()) => {}
        Err(error) => return Err(ReadFault::Store(error)),
    }
    let Some(row) = rows.get() else {
        return Ok(None);
    };
    let batch = batch_in(alloc, row)?;
    Ok(Some(batch))
}

/// The batches of the next rows: at least one, if any, and further ones while the texts of
/// those before have fewer than `room` bytes.
fn next_batches<S: Alter>(
    alloc: Global,
    rows: &mut Rows<'_, S>,
    room: usize,
) -> Result<Vec<KeptBatch>, ReadFault>
    ensures same_reference { rows.new.conn.ghost_name ≡ rows.old.conn.ghost_name }
    ensures takes { HasCleanDisk (state S.Store rows.new.conn.now) →
        TakesBatches S.Store room rows.old.conn.now rows.new.conn.now result }
    ensures mode { rows.old.conn.now.in_transaction ≡ false →
        rows.new.conn.now.in_transaction ≡ false }
    ensures survives { Survives (state S.Store rows.old.conn.now)
        (state S.Store rows.new.conn.now) (λ _. ⊥) }
{
    let mut batches = Vec::new(alloc);
    let mut bytes = 0usize;
    'rows: for _ in 0..u64::MAX {
        let next = next_batch(alloc, rows)?;
        let Some(batch) = next else {
            return Ok(batches);
        };
        bytes = bytes.saturating_add(batch.text.as_slice().len());
        batches.push(batch)?;
        if bytes >= room {
            return Ok(batches);
        }
    }
    Err(ReadFault::Store(Error::SqliteFailure(ErrorCode::TooBig)))
}

/// The batches of the first rows of a query, as many as `next_batches` takes.
pub(crate) fn first_batches<S: Alter>(
    alloc: Global,
    conn: &mut Connection<S>,
    sql: &str,
    params: &[ValueRef<'_>],
    room: usize,
) -> Result<Vec<KeptBatch>, ReadFault>
    ensures { Queries S.Store (TakesFirst room sql.now (bound params.now))
        (CommitsShowing sql.now (bound params.now)) conn.old conn.new result }
{
    match conn.query(sql, params) {
        Ok(mut rows) => next_batches(alloc, &mut rows, room),
        Err(error) => Err(ReadFault::Store(error)),
    }
}
