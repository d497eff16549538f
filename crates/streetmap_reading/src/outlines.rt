//! Outlines of the features of a collection.
ghost use Rattle.std.specs.Prelude.{◌≡◌, IfErr, MatchResult};
ghost use Rattle.streetmap_ledger.specs.OutlineView.{feature_outline_value};
ghost use Rattle.streetmap_rows.specs.TableReads.{ReadsState, ReadsTables};
ghost use Rattle.streetmap_reading.specs.FoldEffects.{IsForMemory, Refuses};
ghost use Rattle.streetmap_reading.specs.PassResults.{AreOutlinesOf, AreOutlinesIn};
ghost use Rattle.streetmap_reading.specs.PassResults.{AreOutlinesIfIn, comes_before};
ghost use Rattle.std.specs.List.Sorted.{IsPermutation, IsSortedBy};
ghost use Rattle.streetmap_reading.specs.Views.{PlacedOutline, placed_row, IsOutline};

use crate::cells::{box_at, integer_at, seconds_at, text_at};
use crate::fold::{RowFold, fold_first, fold_rows};
use crate::ordering::most_by_ids;
use crate::page::collection_row;
use sqlite::{Alter, Connection, Row, params};
use std::alloc::Global;
use streetmap_ledger::FeatureOutline;
use streetmap_rows::ReadFault;

/// The outline that a row shows. Its hint is the rowid, if that fits into 32 bits.
fn outline_in(row: &Row) -> Result<FeatureOutline, ReadFault>
    ensures reads { (p : PlacedOutline) → row.now ≡ placed_row p → IsOutline p.0
        → MatchResult result (λ outline. feature_outline_value outline ≡ p.0) IsForMemory }
    ensures refuses { IfErr result (Refuses (Unit {0})) }
{
    let id = text_at(row, 0)?;
    let extent = box_at(row, 1)?;
    let seconds = seconds_at(row, 5)?;
    let rowid = integer_at(row, 7)?;
    Ok(FeatureOutline::of(id, extent, seconds, u32::try_from(rowid).ok()))
}

impl RowFold for Vec<FeatureOutline> {
    ghost use Rattle.std.specs.List.{AllByRecursion};
    ghost use Rattle.streetmap_reading.specs.Held.{HoldsOutlines};
    ghost use Rattle.streetmap_reading.specs.Views.{IsOutlineRow};

    ghost holds = { λ _. HoldsOutlines };

    ghost is_good = { λ _. AllByRecursion IsOutlineRow };

    fn take(&mut self, row: &Row) -> Result<(), ReadFault> {
        let outline = outline_in(row)?;
        self.push(outline)?;
        Ok(())
    }
}

/// The outlines of the features of a collection, in byte order of ids, if they are fewer than
/// `most`; otherwise none.
fn outlines_by_ids<S: Alter>(
    alloc: Global,
    conn: &mut Connection<S>,
    collection: &str,
    most: u64,
) -> Result<Option<Vec<FeatureOutline>>, ReadFault>
    ensures { ReadsTables S.Store (ReadsState (AreOutlinesIfIn collection.now))
        conn.old conn.new result }
{
    let mut outlines = Vec::new(alloc);
    let all = fold_first(
        conn,
        "SELECT id, x0, y0, x1, y1, s0, s1, rowid FROM streetmap_features WHERE collection = ?1 ORDER BY id",
        params![collection],
        &mut outlines,
        most,
    )?;
    if !all {
        return Ok(None);
    }
    Ok(Some(outlines))
}

/// Sorts outlines by their ids.
fn sort_by_ids(outlines: &mut Vec<FeatureOutline>)
    ensures same { IsPermutation outlines.old.items outlines.new.items }
    ensures sorted { IsSortedBy comes_before outlines.new.items }
{
    outlines.sort_unstable_by(|one, other| one.id.as_str().cmp(other.id.as_str()));
}

/// The outlines of the features of a collection, in byte order of ids, by a pass over all rows of
/// the table.
fn outlines_by_rows<S: Alter>(
    alloc: Global,
    conn: &mut Connection<S>,
    collection: &str,
) -> Result<Vec<FeatureOutline>, ReadFault>
    ensures { ReadsTables S.Store (ReadsState (AreOutlinesIn collection.now))
        conn.old conn.new result }
{
    let mut outlines = Vec::new(alloc);
    fold_rows(
        conn,
        "SELECT id, x0, y0, x1, y1, s0, s1, rowid FROM streetmap_features WHERE +collection = ?1",
        params![collection],
        &mut outlines,
    )?;
    sort_by_ids(&mut outlines);
    Ok(outlines)
}

/// The outlines of the features of a collection, in byte order of ids; none if it does not exist.
fn outlines_in<S: Alter>(
    alloc: Global,
    conn: &mut Connection<S>,
    collection: &str,
) -> Result<Vec<FeatureOutline>, ReadFault>
    ensures { ReadsTables S.Store (ReadsState (AreOutlinesIn collection.now))
        conn.old conn.new result }
{
    let most = most_by_ids(conn)?;
    let few = outlines_by_ids(alloc, conn, collection, most)?;
    match few {
        Some(outlines) => Ok(outlines),
        None => outlines_by_rows(alloc, conn, collection),
    }
}

/// The outlines of the features of a collection, in byte order of ids; `None` if the collection
/// does not exist.
///
/// # Errors
///
/// As `summary_of`.
pub fn outlines_of<S: Alter>(
    alloc: Global,
    conn: &mut Connection<S>,
    collection: &str,
) -> Result<Option<Vec<FeatureOutline>>, ReadFault>
    ensures { ReadsTables S.Store (ReadsState (AreOutlinesOf collection.now))
        conn.old conn.new result }
{
    let Some(_row) = collection_row(conn, collection)? else {
        return Ok(None);
    };
    let outlines = outlines_in(alloc, conn, collection)?;
    Ok(Some(outlines))
}
