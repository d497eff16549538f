//! Extents of collections, folded from the extents of their features.
ghost use Rattle.std.specs.Prelude.{◌≡◌, List, Option, option_map, ◌++◌, MatchResult};
ghost use Rattle.std.specs.Prelude.{IfErr, IfSome};
ghost use Rattle.streetmap_grid.specs.Bounds.{AreBounds};
ghost use Rattle.streetmap_grid.specs.Values.{BoxValue, PositionValue};
ghost use Rattle.streetmap_grid.specs.Views.{box_value};
ghost use Rattle.streetmap_grid.specs.WellFormed.{IsBox};
ghost use Rattle.streetmap_rows.specs.TableReads.{ReadsState, ReadsTables};
ghost use Rattle.streetmap_reading.specs.FoldEffects.{Refuses};
ghost use Rattle.streetmap_reading.specs.PassResults.{IsExtentIn, IsExtentIfIn};
ghost use Rattle.streetmap_reading.specs.Views.{extent_row};

use crate::cells::box_at;
use crate::fold::{RowFold, fold_first, fold_rows};
use crate::ordering::most_by_ids;
use sqlite::{Alter, Connection, Row, params};
use streetmap_grid::GridBox;
use streetmap_rows::ReadFault;

/// The bounds of the positions of both.
fn bounds_of_both(one: Option<GridBox>, other: Option<GridBox>) -> Option<GridBox>
    ensures { (ps qs : List PositionValue) → AreBounds ps one → AreBounds qs other
        → AreBounds (ps ++ qs) result }
{
    match (one, other) {
        (one, None) => one,
        (None, other) => other,
        (Some(one), Some(other)) => Some(one.union(&other)),
    }
}

/// The extent that a row shows.
fn extent_in(row: &Row) -> Result<Option<GridBox>, ReadFault>
    ensures reads { (b : Option BoxValue) → row.now ≡ extent_row b → IfSome b IsBox
        → MatchResult result (λ extent. option_map box_value extent ≡ b) (λ _. ⊥) }
    ensures refuses { IfErr result (Refuses (Unit {0})) }
{
    box_at(row, 0)
}

impl RowFold for Option<GridBox> {
    ghost use Rattle.std.specs.List.{AllByRecursion};
    ghost use Rattle.streetmap_reading.specs.Held.{HoldsBounds};
    ghost use Rattle.streetmap_reading.specs.Views.{IsExtentRow};

    ghost holds = { λ _. HoldsBounds };

    ghost is_good = { λ _. AllByRecursion IsExtentRow };

    fn take(&mut self, row: &Row) -> Result<(), ReadFault> {
        let extent = extent_in(row)?;
        *self = bounds_of_both(*self, extent);
        Ok(())
    }
}

/// The extent of the features of a collection, if they are fewer than `most`; otherwise none.
fn extent_by_ids<S: Alter>(
    conn: &mut Connection<S>,
    collection: &str,
    most: u64,
) -> Result<Option<Option<GridBox>>, ReadFault>
    ensures { ReadsTables S.Store (ReadsState (IsExtentIfIn collection.now))
        conn.old conn.new result }
{
    let mut extent = None;
    let all = fold_first(
        conn,
        "SELECT x0, y0, x1, y1 FROM streetmap_features WHERE collection = ?1 ORDER BY id",
        params![collection],
        &mut extent,
        most,
    )?;
    if !all {
        return Ok(None);
    }
    Ok(Some(extent))
}

/// The extent of the features of a collection, by a pass over all rows of the table.
fn extent_by_rows<S: Alter>(
    conn: &mut Connection<S>,
    collection: &str,
) -> Result<Option<GridBox>, ReadFault>
    ensures { ReadsTables S.Store (ReadsState (IsExtentIn collection.now))
        conn.old conn.new result }
{
    let mut extent = None;
    fold_rows(
        conn,
        "SELECT x0, y0, x1, y1 FROM streetmap_features WHERE +collection = ?1",
        params![collection],
        &mut extent,
    )?;
    Ok(extent)
}

/// The extent of the features of a collection, in millimetres; none if no feature has a geometry,
/// or the collection does not exist.
pub fn extent_of<S: Alter>(
    conn: &mut Connection<S>,
    collection: &str,
) -> Result<Option<GridBox>, ReadFault>
    ensures { ReadsTables S.Store (ReadsState (IsExtentIn collection.now))
        conn.old conn.new result }
{
    let most = most_by_ids(conn)?;
    let few = extent_by_ids(conn, collection, most)?;
    match few {
        Some(extent) => Ok(extent),
        None => extent_by_rows(conn, collection),
    }
}
