//! One feature, by its collection and its id.
ghost use Rattle.std.specs.Prelude.{◌≡◌, None, IsTrue, string_bytes};
ghost use Rattle.sqlite.specs.State.{CommitsShowing};
ghost use Rattle.sqlite.specs.Values.{bound};
ghost use Rattle.streetmap_geojson.specs.FeatureValue.{FeatureValue};
ghost use Rattle.streetmap_rows.specs.TableReads.{ReadsState, ReadsTables, Queries};
ghost use Rattle.streetmap_reading.specs.Candidates.{dated_row};
ghost use Rattle.streetmap_reading.specs.ReadResults.{IsTextRow, IsFeatureOf};
ghost use Rattle.streetmap_reading.specs.ReadResults.{IsOnlyRow, IsTextRowIfFound, IsFeatureIn};
ghost use Rattle.streetmap_reading.specs.ReadResults.{IsFeatureFound};

use crate::candidates::read_row;
use crate::page::{collection_row, property_in};
use json::Scratch;
use sqlite::types::ValueRef;
use sqlite::{Alter, Connection, Row, params};
use std::alloc::Global;
use streetmap_feature_text::PackedFeature;
use streetmap_ledger::FeatureOutline;
use streetmap_rows::ReadFault;

/// The row that a query shows, which shows at most one; none if it shows none.
fn only_row<S: Alter>(
    conn: &mut Connection<S>,
    sql: &str,
    params: &[ValueRef<'_>],
) -> Result<Option<Row>, ReadFault>
    ensures { Queries S.Store (IsOnlyRow sql.now (bound params.now))
        (CommitsShowing sql.now (bound params.now)) conn.old conn.new result }
{
    match conn.query_all(sql, params) {
        Ok(mut rows) => Ok(rows.pop()),
        Err(error) => Err(ReadFault::Store(error)),
    }
}

/// The row that shows the text of a feature and the first second of its time; none if it does not
/// exist.
fn text_row<S: Alter>(
    conn: &mut Connection<S>,
    collection: &str,
    id: &str,
) -> Result<Option<Row>, ReadFault>
    ensures { ReadsTables S.Store (ReadsState (IsTextRow collection.now id.now))
        conn.old conn.new result }
{
    only_row(
        conn,
        "SELECT body, s0 FROM streetmap_features WHERE collection = ?1 AND id = ?2",
        params![collection, id],
    )
}

/// The same row, if it has this rowid; none if it has another one or does not exist.
fn text_row_at<S: Alter>(
    conn: &mut Connection<S>,
    collection: &str,
    id: &str,
    rowid: i64,
) -> Result<Option<Row>, ReadFault>
    ensures { ReadsTables S.Store (ReadsState (IsTextRowIfFound collection.now id.now))
        conn.old conn.new result }
{
    only_row(
        conn,
        "SELECT body, s0 FROM streetmap_features WHERE rowid = ?3 AND collection = ?1 AND id = ?2",
        params![collection, id, rowid],
    )
}

/// The row of the feature that an outline is of, read first by the outline's hint, a rowid; none if
/// the feature does not exist.
fn outlined_row<S: Alter>(
    conn: &mut Connection<S>,
    collection: &str,
    outline: &FeatureOutline,
) -> Result<Option<Row>, ReadFault>
    ensures { ReadsTables S.Store
        (ReadsState (IsTextRow collection.now (string_bytes outline.now.id)))
        conn.old conn.new result }
{
    let id = outline.id.as_str();
    let Some(rowid) = outline.hint else {
        return text_row(conn, collection, id);
    };
    match text_row_at(conn, collection, id, i64::from(rowid))? {
        Some(row) => Ok(Some(row)),
        None => text_row(conn, collection, id),
    }
}

/// Whether the row of a feature shows that it has no time.
fn is_timeless(row: &Row) -> bool
    ensures { (f : FeatureValue) → row.now ≡ dated_row f → IsTrue result → f.time ≡ None }
{
    matches!(row.get_ref(1), Ok(ValueRef::Null))
}

/// The feature of a row, whose time is given by its collection's time property.
fn timed_feature<S: Alter>(
    alloc: Global,
    scratch: &mut Scratch,
    conn: &mut Connection<S>,
    collection: &str,
    row: &Row,
) -> Result<PackedFeature, ReadFault>
    ensures { ReadsTables S.Store (IsFeatureIn collection.now row.now) conn.old conn.new result }
{
    let Some(head) = collection_row(conn, collection)? else {
        return Err(ReadFault::Unread);
    };
    let time = property_in(&head)?;
    read_row(alloc, scratch, row, time.as_deref())
}

/// The feature of a row. A feature without a time is the same under any time property, so its
/// collection is not read.
fn feature_in<S: Alter>(
    alloc: Global,
    scratch: &mut Scratch,
    conn: &mut Connection<S>,
    collection: &str,
    row: &Row,
) -> Result<PackedFeature, ReadFault>
    ensures { ReadsTables S.Store (IsFeatureIn collection.now row.now) conn.old conn.new result }
{
    if is_timeless(row) {
        read_row(alloc, scratch, row, None)
    } else {
        timed_feature(alloc, scratch, conn, collection, row)
    }
}

/// The feature of the row that a query found; `None` if it found none.
fn found_feature<S: Alter>(
    alloc: Global,
    scratch: &mut Scratch,
    conn: &mut Connection<S>,
    collection: &str,
    found: Option<Row>,
) -> Result<Option<PackedFeature>, ReadFault>
    ensures { ReadsTables S.Store (IsFeatureFound collection.now found) conn.old conn.new result }
{
    let Some(row) = found else {
        return Ok(None);
    };
    let feature = feature_in(alloc, scratch, conn, collection, &row)?;
    Ok(Some(feature))
}

/// A feature of a collection; `None` if the collection or the feature does not exist.
///
/// # Errors
///
/// As `page_of`.
pub fn feature_of<S: Alter>(
    alloc: Global,
    scratch: &mut Scratch,
    conn: &mut Connection<S>,
    collection: &str,
    id: &str,
) -> Result<Option<PackedFeature>, ReadFault>
    ensures { ReadsTables S.Store (ReadsState (IsFeatureOf collection.now id.now))
        conn.old conn.new result }
{
    let found = text_row(conn, collection, id)?;
    found_feature(alloc, scratch, conn, collection, found)
}

/// The feature of a collection that an outline is of, by the outline's id; `None` if the collection
/// or the feature does not exist. It reads the row with the rowid of the outline's hint first, and
/// reads by the id if that row does not exist or is another feature's.
///
/// # Errors
///
/// As `page_of`.
pub fn feature_outlined_of<S: Alter>(
    alloc: Global,
    scratch: &mut Scratch,
    conn: &mut Connection<S>,
    collection: &str,
    outline: &FeatureOutline,
) -> Result<Option<PackedFeature>, ReadFault>
    ensures { ReadsTables S.Store
        (ReadsState (IsFeatureOf collection.now (string_bytes outline.now.id)))
        conn.old conn.new result }
{
    let found = outlined_row(conn, collection, outline)?;
    found_feature(alloc, scratch, conn, collection, found)
}
