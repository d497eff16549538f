//! Rows of several features, inserted by one statement, inside a transaction.
ghost use Rattle.std.specs.Prelude.{◌≡◌, ◌++◌, IfOk, OnOk, length};
ghost use Rattle.sqlite.specs.Values.{bound};
ghost use Rattle.streetmap_rows.specs.Failures.{HasReason};
ghost use Rattle.streetmap_rows.specs.FeatureRows.{values_of, values_in};
ghost use Rattle.streetmap_rows.specs.TransactionCalls.{StaysInside, InsertsFeatures};

use crate::failures::is_of_store;
use sqlite::{Alter, Error, ErrorCode, Transaction, params};
use sqlite_value::value::ValueRef;
use std::alloc::{AllocError, Global};
use streetmap_grid::GridBox;

/// How many features one statement inserts.
pub const ROWS: usize = 25;

/// How many columns a row has.
const COLUMNS: usize = 9;

/// The columns that are written of a feature.
#[derive(Clone, Copy)]
pub struct FeatureRow<'a> {
    pub id: &'a str,
    /// Its compact text, without its time.
    pub text: &'a str,
    /// The extent of its geometry, in millimetres of the grid.
    pub extent: Option<GridBox>,
    /// The first and the last second of its time, counted from 1970-01-01T00:00:00Z.
    pub seconds: Option<(i64, i64)>,
}

/// Adds the values of a row.
fn push_row<'a>(
    values: &mut Vec<ValueRef<'a>>,
    collection: &'a str,
    row: &FeatureRow<'a>,
) -> Result<(), AllocError>
    ensures { OnOk result (bound values.new.items
        ≡ bound values.old.items ++ values_of collection.now row.now) }
{
    values.extend_from_slice(params![
        collection,
        row.id,
        row.text,
        row.extent.map(|extent| extent.x0),
        row.extent.map(|extent| extent.y0),
        row.extent.map(|extent| extent.x1),
        row.extent.map(|extent| extent.y1),
        row.seconds.map(|seconds| seconds.0),
        row.seconds.map(|seconds| seconds.1)
    ])
}

/// The values of rows, one after the other.
fn values_of<'a>(
    alloc: Global,
    collection: &'a str,
    rows: &[FeatureRow<'a>],
) -> Result<Vec<ValueRef<'a>>, AllocError>
    ensures { IfOk result (λ values. bound values.items ≡ values_in collection.now rows.now) }
{
    let mut values = Vec::with_capacity(alloc, ROWS * COLUMNS)?;
    'rows: for row in rows {
        push_row(&mut values, collection, row)?;
    }
    Ok(values)
}

/// Inserts features into an existing collection, [`ROWS`] of them by one statement; returns whether
/// it did. It does not if a feature already exists, or if two have the same id: then nothing has
/// changed.
///
/// # Errors
///
/// The error of the store.
pub fn insert_features<S: Alter>(
    tx: &mut Transaction<'_, S>,
    alloc: Global,
    collection: &str,
    rows: &[FeatureRow<'_>],
) -> Result<bool, Error>
    requires { length rows.now ≡ 25 }
    ensures { StaysInside S.Store HasReason (InsertsFeatures collection.now rows.now)
        tx.old tx.new result }
{
    let Ok(values) = values_of(alloc, collection, rows) else {
        return Err(Error::SqliteFailure(ErrorCode::OutOfMemory));
    };
    let ran = tx.execute(
        "INSERT INTO streetmap_features (collection, id, body, x0, y0, x1, y1, s0, s1) VALUES (?1, ?2, ?3, ?4, ?5, ?6, ?7, ?8, ?9), (?10, ?11, ?12, ?13, ?14, ?15, ?16, ?17, ?18), (?19, ?20, ?21, ?22, ?23, ?24, ?25, ?26, ?27), (?28, ?29, ?30, ?31, ?32, ?33, ?34, ?35, ?36), (?37, ?38, ?39, ?40, ?41, ?42, ?43, ?44, ?45), (?46, ?47, ?48, ?49, ?50, ?51, ?52, ?53, ?54), (?55, ?56, ?57, ?58, ?59, ?60, ?61, ?62, ?63), (?64, ?65, ?66, ?67, ?68, ?69, ?70, ?71, ?72), (?73, ?74, ?75, ?76, ?77, ?78, ?79, ?80, ?81), (?82, ?83, ?84, ?85, ?86, ?87, ?88, ?89, ?90), (?91, ?92, ?93, ?94, ?95, ?96, ?97, ?98, ?99), (?100, ?101, ?102, ?103, ?104, ?105, ?106, ?107, ?108), (?109, ?110, ?111, ?112, ?113, ?114, ?115, ?116, ?117), (?118, ?119, ?120, ?121, ?122, ?123, ?124, ?125, ?126), (?127, ?128, ?129, ?130, ?131, ?132, ?133, ?134, ?135), (?136, ?137, ?138, ?139, ?140, ?141, ?142, ?143, ?144), (?145, ?146, ?147, ?148, ?149, ?150, ?151, ?152, ?153), (?154, ?155, ?156, ?157, ?158, ?159, ?160, ?161, ?162), (?163, ?164, ?165, ?166, ?167, ?168, ?169, ?170, ?171), (?172, ?173, ?174, ?175, ?176, ?177, ?178, ?179, ?180), (?181, ?182, ?183, ?184, ?185, ?186, ?187, ?188, ?189), (?190, ?191, ?192, ?193, ?194, ?195, ?196, ?197, ?198), (?199, ?200, ?201, ?202, ?203, ?204, ?205, ?206, ?207), (?208, ?209, ?210, ?211, ?212, ?213, ?214, ?215, ?216), (?217, ?218, ?219, ?220, ?221, ?222, ?223, ?224, ?225)",
        values.as_slice(),
    );
    match ran {
        Ok(_) => Ok(true),
        Err(error) if is_of_store(error) => Err(error),
        Err(_) => Ok(false),
    }
}
