//! Pages, through the stored extents and seconds.
ghost use Rattle.std.specs.Prelude.{◌≡◌, Option, None, Some, Ok};
ghost use Rattle.std.specs.Prelude.{MatchResult, option_map, string_bytes};
ghost use Rattle.std.specs.Option.{option_copied};
ghost use Rattle.streetmap_grid.specs.Views.{box_value};
ghost use Rattle.streetmap_moment.specs.Views.{interval_value};
ghost use Rattle.streetmap_query.specs.Views.{query_value};
ghost use Rattle.streetmap_ledger.specs.State.{Collection};
ghost use Rattle.streetmap_rows.specs.Representations.{HasTextNames};
ghost use Rattle.streetmap_rows.specs.TableReads.{ReadsState, ReadsTables};
ghost use Rattle.streetmap_reading.specs.Choices.{TakesChosen, chosen_of, candidates_of};
ghost use Rattle.streetmap_reading.specs.ReadResults.{IsCollectionRow, IsPageOf};
ghost use Rattle.streetmap_reading.specs.ReadResults.{IsPageUnder};
ghost use Rattle.streetmap_rows.specs.Views.{collection_view};

use crate::candidates::PageRows;
use crate::fold::fold_rows;
use json::Scratch;
use sqlite::{Alter, Connection, Row, params};
use std::alloc::Global;
use streetmap_grid::GridBox;
use streetmap_ledger::{Page, PageFold};
use streetmap_moment::Interval;
use streetmap_query::Query;
use streetmap_rows::{ReadFault, SELECT_COLLECTION, time_in, unread};

/// Takes all features of a collection.
fn take_all<S: Alter>(
    conn: &mut Connection<S>,
    collection: &str,
    page: &mut PageRows<'_>,
) -> Result<(), ReadFault>
    ensures { ReadsTables S.Store
        (TakesChosen (chosen_of None None) collection.now page.old page.new)
        conn.old conn.new result }
{
    fold_rows(
        conn,
        "SELECT body FROM streetmap_features WHERE collection = ?1 ORDER BY id",
        params![collection],
        page,
    )
}

/// Takes the features of a collection whose extents overlap a box.
fn take_in_box<S: Alter>(
    conn: &mut Connection<S>,
    collection: &str,
    area: &GridBox,
    page: &mut PageRows<'_>,
) -> Result<(), ReadFault>
    ensures { ReadsTables S.Store
        (TakesChosen (chosen_of (Some (box_value area.now)) None) collection.now page.old page.new)
        conn.old conn.new result }
{
    fold_rows(
        conn,
        "SELECT body FROM streetmap_features WHERE collection = ?1 AND x0 <= ?2 AND x1 >= ?3 AND y0 <= ?4 AND y1 >= ?5 ORDER BY id",
        params![collection, area.x1, area.x0, area.y1, area.y0],
        page,
    )
}

/// Takes the features of a collection whose seconds overlap those of an interval.
fn take_in_time<S: Alter>(
    conn: &mut Connection<S>,
    collection: &str,
    interval: &Interval,
    page: &mut PageRows<'_>,
) -> Result<(), ReadFault>
    ensures { ReadsTables S.Store (TakesChosen (chosen_of None (Some (interval_value interval.now)))
        collection.now page.old page.new) conn.old conn.new result }
{
    let (start, end) = interval.seconds();
    fold_rows(
        conn,
        "SELECT body FROM streetmap_features WHERE collection = ?1 AND s0 <= ?2 AND s1 >= ?3 ORDER BY id",
        params![collection, end, start],
        page,
    )
}

/// Takes the features of a collection whose extents overlap a box, and whose seconds overlap those
/// of an interval.
fn take_in_both<S: Alter>(
    conn: &mut Connection<S>,
    collection: &str,
    area: &GridBox,
    interval: &Interval,
    page: &mut PageRows<'_>,
) -> Result<(), ReadFault>
    ensures { ReadsTables S.Store (TakesChosen
        (chosen_of (Some (box_value area.now)) (Some (interval_value interval.now))) collection.now
        page.old page.new) conn.old conn.new result }
{
    let (start, end) = interval.seconds();
    fold_rows(
        conn,
        "SELECT body FROM streetmap_features WHERE collection = ?1 AND x0 <= ?2 AND x1 >= ?3 AND y0 <= ?4 AND y1 >= ?5 AND s0 <= ?6 AND s1 >= ?7 ORDER BY id",
        params![collection, area.x1, area.x0, area.y1, area.y0, end, start],
        page,
    )
}

/// Takes the candidates of a query.
fn take_candidates<S: Alter>(
    conn: &mut Connection<S>,
    collection: &str,
    query: &Query,
    page: &mut PageRows<'_>,
) -> Result<(), ReadFault>
    ensures { ReadsTables S.Store
        (TakesChosen (candidates_of (query_value query.now)) collection.now page.old page.new)
        conn.old conn.new result }
{
    match &query.bbox {
        None => match &query.datetime {
            None => take_all(conn, collection, page),
            Some(datetime) => take_in_time(conn, collection, &datetime.interval, page),
        },
        Some(area) => match &query.datetime {
            None => take_in_box(conn, collection, area, page),
            Some(datetime) => take_in_both(conn, collection, area, &datetime.interval, page),
        },
    }
}

/// The row of a collection, its title and its time property; none if it does not exist.
pub(crate) fn collection_row<S: Alter>(
    conn: &mut Connection<S>,
    id: &str,
) -> Result<Option<Row>, ReadFault>
    ensures { ReadsTables S.Store (ReadsState (IsCollectionRow id.now)) conn.old conn.new result }
{
    match conn.query_all(SELECT_COLLECTION, params![id]) {
        Ok(mut rows) => Ok(rows.pop()),
        Err(error) => Err(ReadFault::Store(error)),
    }
}

/// The time property in the row of a collection.
pub(crate) fn property_in(row: &Row) -> Result<Option<String>, ReadFault>
    ensures { (name : _) (c : Collection) → row.now ≡ collection_view c → HasTextNames name c
        → MatchResult result (λ time. option_map string_bytes time ≡ c.time) (λ fault. fault
        ≡ ReadFault.Memory) }
{
    match time_in(row) {
        Ok(time) => Ok(time),
        Err(error) => Err(unread(error)),
    }
}

/// The page of an existing collection, whose time property is known.
fn page_under<S: Alter>(
    alloc: Global,
    conn: &mut Connection<S>,
    collection: &str,
    query: &Query,
    property: Option<&str>,
) -> Result<Page, ReadFault>
    ensures { ReadsTables S.Store
        (IsPageUnder collection.now (query_value query.now) (option_copied property.entry))
        conn.old conn.new result }
{
    let fold = PageFold::new(alloc, query);
    let mut page = PageRows {
        alloc,
        property,
        scratch: Scratch::new(alloc),
        fold,
    };
    take_candidates(conn, collection, query, &mut page)?;
    match page.fold.end(alloc) {
        Ok(page) => Ok(page),
        Err(_) => Err(ReadFault::Memory),
    }
}

/// A page of a collection; none if it does not exist.
///
/// # Errors
///
/// `Memory` if memory runs out while a row is read or the page is made; `Store` if a statement
/// failed, with its error, which may be that memory ran out too; and `Unread` at a row that this
/// product does not write.
pub fn page_of<S: Alter>(
    alloc: Global,
    conn: &mut Connection<S>,
    collection: &str,
    query: &Query,
) -> Result<Option<Page>, ReadFault>
    ensures { ReadsTables S.Store (ReadsState (IsPageOf collection.now (query_value query.now)))
        conn.old conn.new result }
{
    let Some(row) = collection_row(conn, collection)? else {
        return Ok(None);
    };
    let time = property_in(&row)?;
    let page = page_under(alloc, conn, collection, query, time.as_deref())?;
    Ok(Some(page))
}
