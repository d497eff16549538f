//! Summaries of collections.
ghost use Rattle.std.specs.Prelude.{◌≡◌, IfErr, MatchResult};
ghost use Rattle.streetmap_batch.specs.Text.{Text};
ghost use Rattle.streetmap_ledger.specs.State.{Collection};
ghost use Rattle.streetmap_ledger.specs.SummaryView.{summary_value};
ghost use Rattle.streetmap_rows.specs.Rows.{collection_cells};
ghost use Rattle.streetmap_rows.specs.Representations.{HasTextNames};
ghost use Rattle.streetmap_rows.specs.Views.{collection_view};
ghost use Rattle.streetmap_rows.specs.TableReads.{ReadsState, ReadsTables};
ghost use Rattle.streetmap_reading.specs.FoldEffects.{IsForMemory, Refuses};
ghost use Rattle.streetmap_reading.specs.Held.{head_of};
ghost use Rattle.streetmap_reading.specs.PassResults.{IsSummaryOf, AreSummaries, AreHeads};
ghost use Rattle.streetmap_reading.specs.PassResults.{CompletesHead};
ghost use Rattle.streetmap_reading.specs.PassResults.{ReportsCollections};

use crate::cells::{text_at, text_if_at};
use crate::extents::extent_of;
use crate::fold::{RowFold, fold_rows};
use crate::page::collection_row;
use sqlite::{Alter, Connection, Row, params};
use std::alloc::Global;
use streetmap_ledger::Summary;
use streetmap_rows::{ReadFault, SELECT_COLLECTIONS};

/// The summary of a collection before its extent is known, from its row without its id.
fn head_under(alloc: Global, id: &str, row: &Row) -> Result<Summary, ReadFault>
    ensures { (c : Collection) → row.now ≡ collection_view c → HasTextNames id.now c
        → MatchResult result (λ head. summary_value head ≡ head_of id.now c) IsForMemory }
{
    let title = text_at(row, 0)?;
    let time = text_if_at(row, 1)?;
    let id = String::from_str(alloc, id)?;
    Ok(Summary {
        id,
        title,
        time,
        extent: None,
    })
}

/// The summary of a collection before its extent is known, from its row.
fn head_in(row: &Row) -> Result<Summary, ReadFault>
    ensures reads { (id : Text) (c : Collection) → row.now ≡ collection_cells id c
        → HasTextNames id c → MatchResult result (λ head. summary_value head ≡ head_of id c)
        IsForMemory }
    ensures refuses { IfErr result (Refuses (Unit {0})) }
{
    let id = text_at(row, 0)?;
    let title = text_at(row, 1)?;
    let time = text_if_at(row, 2)?;
    Ok(Summary {
        id,
        title,
        time,
        extent: None,
    })
}

impl RowFold for Vec<Summary> {
    ghost use Rattle.std.specs.List.{AllByRecursion};
    ghost use Rattle.streetmap_reading.specs.Held.{HoldsHeads};
    ghost use Rattle.streetmap_reading.specs.Views.{IsHeadRow};

    ghost holds = { λ _. HoldsHeads };

    ghost is_good = { λ _. AllByRecursion IsHeadRow };

    fn take(&mut self, row: &Row) -> Result<(), ReadFault> {
        let head = head_in(row)?;
        self.push(head)?;
        Ok(())
    }
}

/// The summary of a collection, with its extent.
fn with_extent<S: Alter>(conn: &mut Connection<S>, head: Summary) -> Result<Summary, ReadFault>
    ensures { ReadsTables S.Store (ReadsState (CompletesHead head)) conn.old conn.new result }
{
    let extent = extent_of(conn, head.id.as_str())?;
    Ok(Summary { extent, ..head })
}

/// The summary of a collection; `None` if it does not exist.
///
/// # Errors
///
/// `Memory` if memory runs out while a row is read or its values are kept; `Store` if a statement
/// failed, with its error, which may be that memory ran out in it; and `Unread` at a row that this
/// product does not write.
pub fn summary_of<S: Alter>(
    alloc: Global,
    conn: &mut Connection<S>,
    id: &str,
) -> Result<Option<Summary>, ReadFault>
    ensures { ReadsTables S.Store (ReadsState (IsSummaryOf id.now)) conn.old conn.new result }
{
    let Some(row) = collection_row(conn, id)? else {
        return Ok(None);
    };
    let head = head_under(alloc, id, &row)?;
    let summary = with_extent(conn, head)?;
    Ok(Some(summary))
}

/// The summaries of all collections before their extents are known, in byte order of ids.
fn heads<S: Alter>(alloc: Global, conn: &mut Connection<S>) -> Result<Vec<Summary>, ReadFault>
    ensures { ReadsTables S.Store (ReadsState AreHeads) conn.old conn.new result }
{
    let mut heads = Vec::new(alloc);
    fold_rows(conn, SELECT_COLLECTIONS, params![], &mut heads)?;
    Ok(heads)
}

/// The summaries of collections, with their extents.
fn with_extents<S: Alter>(
    alloc: Global,
    conn: &mut Connection<S>,
    heads: Vec<Summary>,
) -> Result<Vec<Summary>, ReadFault>
    ensures { ReadsTables S.Store (ReportsCollections heads) conn.old conn.new result }
{
    let mut summaries = Vec::new(alloc);
    for head in heads {
        let summary = with_extent(conn, head)?;
        summaries.push(summary)?;
    }
    Ok(summaries)
}

/// The summaries of all collections, in byte order of ids.
///
/// # Errors
///
/// As `summary_of`.
pub fn summaries_of<S: Alter>(
    alloc: Global,
    conn: &mut Connection<S>,
) -> Result<Vec<Summary>, ReadFault>
    ensures { ReadsTables S.Store (ReadsState AreSummaries) conn.old conn.new result }
{
    let heads = heads(alloc, conn)?;
    with_extents(alloc, conn, heads)
}
