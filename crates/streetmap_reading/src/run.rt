//! Runs: the features of a collection whose ids lie between two.
ghost use Rattle.std.specs.Option.{option_copied};
ghost use Rattle.streetmap_ledger.specs.Keep.{IsRunOf};
ghost use Rattle.streetmap_rows.specs.TableReads.{ReadsState, ReadsTables};
ghost use Rattle.streetmap_reading.specs.ReadResults.{IsRunUnder};

use crate::candidates::read_row;
use crate::fold::{RowFold, fold_rows};
use crate::page::{collection_row, property_in};
use json::Scratch;
use sqlite::{Alter, Connection, Row, params};
use std::alloc::Global;
use streetmap_feature_text::PackedFeature;
use streetmap_rows::ReadFault;

/// Features that were read from rows, and what their rows are read by.
#[derive(Drop)]
pub struct FeatureRows<'a> {
    pub alloc: Global,
    /// The time property of the collection.
    pub property: Option<&'a str>,
    /// The memory that texts are read with.
    pub scratch: Scratch,
    pub features: Vec<PackedFeature>,
}

impl RowFold for FeatureRows<'_> {
    ghost use Rattle.std.specs.List.{AllByRecursion};
    ghost use Rattle.streetmap_reading.specs.Held.{HoldsRun, IsCandidate};

    ghost holds = { HoldsRun };

    ghost is_good = { λ start. AllByRecursion (IsCandidate (option_copied start.property)) };

    fn take(&mut self, row: &Row) -> Result<(), ReadFault> {
        let feature = read_row(self.alloc, &mut self.scratch, row, self.property)?;
        self.features.push(feature)?;
        Ok(())
    }
}

/// The run of an existing collection, whose time property is known.
fn run_under<S: Alter>(
    alloc: Global,
    conn: &mut Connection<S>,
    collection: &str,
    first: &str,
    last: &str,
    property: Option<&str>,
) -> Result<Vec<PackedFeature>, ReadFault>
    ensures { ReadsTables S.Store
        (IsRunUnder collection.now first.now last.now (option_copied property.entry))
        conn.old conn.new result }
{
    let features = Vec::new(alloc);
    let mut run = FeatureRows {
        alloc,
        property,
        scratch: Scratch::new(alloc),
        features,
    };
    fold_rows(
        conn,
        "SELECT body FROM streetmap_features WHERE collection = ?1 AND id >= ?2 AND id <= ?3 ORDER BY id",
        params![collection, first, last],
        &mut run,
    )?;
    Ok(run.features)
}

/// The features of a collection whose ids lie between two in byte order, with those two, in byte
/// order of ids; `None` if the collection does not exist.
///
/// # Errors
///
/// As `page_of`.
pub fn run_of<S: Alter>(
    alloc: Global,
    conn: &mut Connection<S>,
    collection: &str,
    first: &str,
    last: &str,
) -> Result<Option<Vec<PackedFeature>>, ReadFault>
    ensures { ReadsTables S.Store (ReadsState (IsRunOf collection.now first.now last.now))
        conn.old conn.new result }
{
    let Some(row) = collection_row(conn, collection)? else {
        return Ok(None);
    };
    let time = property_in(&row)?;
    let features = run_under(alloc, conn, collection, first, last, time.as_deref())?;
    Ok(Some(features))
}
