//! Rows of a query, taken one after the other, whatever they are.
ghost use Rattle.std.specs.Prelude.{◌≡◌, List, false};
ghost use Rattle.sqlite.specs.Held.{state};
ghost use Rattle.sqlite.specs.Order.{Row as Cells};
ghost use Rattle.sqlite.specs.State.{HasCleanDisk, Survives, CommitsShowing};
ghost use Rattle.sqlite.specs.Values.{bound};
ghost use Rattle.streetmap_rows.specs.TableReads.{Queries};
ghost use Rattle.streetmap_reading.specs.FoldEffects.{TakesRow, TakesNext, TakesFirst};
ghost use Rattle.streetmap_reading.specs.FoldEffects.{TakesSome, TakesAll};

use sqlite::types::ValueRef;
use sqlite::{Alter, Connection, Error, ErrorCode, Row, Rows};
use streetmap_rows::ReadFault;

/// Takes rows one after the other, up to the first with which no good rows begin.
pub trait RowFold {
    /// The second value holds what these rows say, if it began as the first.
    ghost holds: { Self → Self → List Cells → Type 0 };

    /// Rows that are good for a value that begins in this way.
    ghost is_good: { Self → List Cells → Type 0 };

    /// Takes the next row; `Unread` if no good rows begin with the earlier ones and this one, and
    /// `Memory` if memory runs out or a count has no number left.
    fn take(&mut self, row: &Row) -> Result<(), ReadFault>
        ensures { TakesRow holds is_good row.now self.old self.new result };
}

/// Takes the next row, if any.
fn take_next<S: Alter, F: RowFold>(rows: &mut Rows<'_, S>, fold: &mut F) -> Result<bool, ReadFault>
    ensures same_reference { rows.new.conn.ghost_name ≡ rows.old.conn.ghost_name }
    ensures takes { HasCleanDisk (state S.Store rows.new.conn.now)
        → TakesNext F.holds F.is_good S.Store rows.old.conn.now rows.new.conn.now fold.old
        fold.new result }
    ensures mode { rows.old.conn.now.in_transaction ≡ false
        → rows.new.conn.now.in_transaction ≡ false }
    ensures survives { Survives (state S.Store rows.old.conn.now) (state S.Store rows.new.conn.now)
        (λ _. ⊥) }
{
    match rows.advance() {
        Ok(()) => {}
        Err(error) => return Err(ReadFault::Store(error)),
    }
    let Some(row) = rows.get() else {
        return Ok(false);
    };
    fold.take(row)?;
    Ok(true)
}

/// Takes the first rows of a query that has begun, at most `most`, and returns whether it saw that
/// these are all.
fn take_first<S: Alter, F: RowFold>(
    rows: &mut Rows<'_, S>,
    fold: &mut F,
    most: u64,
) -> Result<bool, ReadFault>
    ensures same_reference { rows.new.conn.ghost_name ≡ rows.old.conn.ghost_name }
    ensures takes { HasCleanDisk (state S.Store rows.new.conn.now)
        → TakesFirst F.holds F.is_good S.Store rows.old.conn.now rows.new.conn.now fold.old
        fold.new result }
    ensures mode { rows.old.conn.now.in_transaction ≡ false
        → rows.new.conn.now.in_transaction ≡ false }
    ensures survives { Survives (state S.Store rows.old.conn.now) (state S.Store rows.new.conn.now)
        (λ _. ⊥) }
{
    'rows: for _ in 0..most {
        let took = take_next(rows, fold)?;
        if !took {
            return Ok(true);
        }
    }
    Ok(false)
}

/// Takes the first rows of a query, at most `most`, and returns whether it saw that these are all.
///
/// # Errors
///
/// As `fold_rows`.
pub(crate) fn fold_first<S: Alter, F: RowFold>(
    conn: &mut Connection<S>,
    sql: &str,
    params: &[ValueRef<'_>],
    fold: &mut F,
    most: u64,
) -> Result<bool, ReadFault>
    ensures { Queries S.Store
        (TakesSome F.holds F.is_good sql.now (bound params.now) fold.old fold.new)
        (CommitsShowing sql.now (bound params.now)) conn.old conn.new result }
{
    match conn.query(sql, params) {
        Ok(mut rows) => take_first(&mut rows, fold, most),
        Err(error) => Err(ReadFault::Store(error)),
    }
}

/// Takes all rows of a query.
///
/// # Errors
///
/// `Unread` at the first row with which no good rows begin, `Memory` if memory runs out while a row
/// is taken or a count has no number left, and `Store` if the statement failed, with its error.
pub fn fold_rows<S: Alter, F: RowFold>(
    conn: &mut Connection<S>,
    sql: &str,
    params: &[ValueRef<'_>],
    fold: &mut F,
) -> Result<(), ReadFault>
    ensures { Queries S.Store
        (TakesAll F.holds F.is_good sql.now (bound params.now) fold.old fold.new)
        (CommitsShowing sql.now (bound params.now)) conn.old conn.new result }
{
    let all = fold_first(conn, sql, params, fold, u64::MAX)?;
    if !all {
        return Err(ReadFault::Store(Error::SqliteFailure(ErrorCode::TooBig)));
    }
    Ok(())
}
