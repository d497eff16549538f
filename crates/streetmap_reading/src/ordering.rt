//! The order in which the rows of a whole collection are read.
ghost use Rattle.streetmap_rows.specs.TableReads.{ReadsState, ReadsTables};

use crate::fold::{RowFold, fold_first};
use sqlite::{Alter, Connection, Row, params};
use streetmap_rows::{ReadFault, SELECT_COLLECTIONS};

/// The most rows of a collection that are read in order of ids, in a file of few collections.
const MOST_BY_IDS: u64 = 32_768;

/// A file of at most this number of collections has few.
const FEW_COLLECTIONS: u64 = 8;

/// A fold that ignores its rows.
#[derive(Drop)]
struct Passing;

impl RowFold for Passing {
    ghost holds = { λ _ _ _. Unit {0} };

    ghost is_good = { λ _ _. Unit {0} };

    fn take(&mut self, _row: &Row) -> Result<(), ReadFault> {
        Ok(())
    }
}

/// The most rows of a collection that are read in order of ids. If it has more, one pass
/// reads all rows of the table in their own order. In order of ids each row is looked up in the
/// table, which takes several times as long as the step to the next one. But if a file has many
/// collections, a pass over all rows for each of them would take longer.
pub(crate) fn most_by_ids<S: Alter>(conn: &mut Connection<S>) -> Result<u64, ReadFault>
    ensures { ReadsTables S.Store (ReadsState (λ _ _. Unit {0})) conn.old conn.new result }
{
    let few = fold_first(
        conn,
        SELECT_COLLECTIONS,
        params![],
        &mut Passing,
        FEW_COLLECTIONS + 1,
    )?;
    if !few {
        return Ok(u64::MAX);
    }
    Ok(MOST_BY_IDS)
}
