//! Reads by a serial.
ghost use Rattle.std.specs.Prelude.{◌≡◌, pos};
ghost use Rattle.streetmap_rows.specs.TableReads.{ReadsState, ReadsTables};
ghost use Rattle.streetmap_reading.specs.Serials.{column_serial, most_serial, ReadsBatchRow};
ghost use Rattle.streetmap_reading.specs.Serials.{IsBatchOf, AreNextOf};

use crate::batch_cells::batch_in;
use crate::scans::first_batches;
use sqlite::{Alter, Connection, Row, params};
use std::alloc::Global;
use streetmap_ledger::KeptBatch;
use streetmap_rows::ReadFault;

/// A serial as a column has it; 0 if no column can have it, which no batch has either.
fn number_of(serial: u64) -> i64
    ensures { result ≡ pos (column_serial serial) }
{
    match i64::try_from(serial) {
        Ok(number) => number,
        Err(_) => 0,
    }
}

/// A serial as a column has it; the greatest that a column can have if no column can have it.
fn most_of(serial: u64) -> i64
    ensures { result ≡ pos (most_serial serial) }
{
    match i64::try_from(serial) {
        Ok(number) => number,
        Err(_) => i64::MAX,
    }
}

/// The row of the batch that is kept with a serial, if any.
fn batch_row<S: Alter>(conn: &mut Connection<S>, serial: i64) -> Result<Option<Row>, ReadFault>
    ensures { ReadsTables S.Store (ReadsBatchRow serial) conn.old conn.new result }
{
    match conn.query_all(
        "SELECT key, body, opened, inserted, replaced, deleted, serial FROM streetmap_batches WHERE serial = ?1",
        params![serial],
    ) {
        Ok(mut rows) => Ok(rows.pop()),
        Err(error) => Err(ReadFault::Store(error)),
    }
}

/// The batch that was accepted with a serial; `None` if no batch was.
///
/// # Errors
///
/// `Memory` if memory runs out while its row is read; `Store` if the statement failed, with its
/// error, which may be that memory ran out in it; and `Unread` at a row that this product does not
/// write.
pub fn batch_of<S: Alter>(
    alloc: Global,
    conn: &mut Connection<S>,
    serial: u64,
) -> Result<Option<KeptBatch>, ReadFault>
    ensures { ReadsTables S.Store (ReadsState (IsBatchOf serial)) conn.old conn.new result }
{
    let Some(row) = batch_row(conn, number_of(serial))? else {
        return Ok(None);
    };
    let batch = batch_in(alloc, &row)?;
    Ok(Some(batch))
}

/// The batches with the next serials after one, in order: at least one, if one is kept, and further
/// ones while the texts of those before have at most `room` bytes.
///
/// # Errors
///
/// As `batch_of`.
pub fn batches_of<S: Alter>(
    alloc: Global,
    conn: &mut Connection<S>,
    after: u64,
    room: usize,
) -> Result<Vec<KeptBatch>, ReadFault>
    ensures { ReadsTables S.Store (ReadsState (AreNextOf after room)) conn.old conn.new result }
{
    first_batches(
        alloc,
        conn,
        "SELECT key, body, opened, inserted, replaced, deleted, serial FROM streetmap_batches WHERE serial > ?1 ORDER BY serial",
        params![most_of(after)],
        room,
    )
}
