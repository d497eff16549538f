//! The queries of a check, one after the other.
ghost use Rattle.std.specs.Prelude.{IsTrue};
ghost use Rattle.streetmap_checking.specs.Held.{known};
ghost use Rattle.streetmap_checking.specs.KnownCollections.{known_of};
ghost use Rattle.streetmap_checking.specs.QueryResults.{ShowsOrWhyNot, SeesFormat, SeesCollections};
ghost use Rattle.streetmap_checking.specs.QueryResults.{SeesFeatures, SeesAllFeatures, SeesOwners};
ghost use Rattle.streetmap_checking.specs.QueryResults.{SeesBatches, NoFormat, NoCollections};
ghost use Rattle.streetmap_checking.specs.QueryResults.{NoFeatures, NoFeaturesOfAll, NoOwners};
ghost use Rattle.streetmap_checking.specs.QueryResults.{NoBatches};
ghost use Rattle.streetmap_rows.specs.TableReads.{Queries};

use crate::batches::{BatchRows, are_serials};
use crate::cells::sum_of;
use crate::collections::{CollectionRows, Head, copy_of};
use crate::features::FeatureRows;
use crate::formats::FormatRows;
use crate::owners::OwnerRows;
use sqlite::{Alter, Connection, params};
use std::alloc::Global;
use streetmap_reading::fold_rows;
use streetmap_rows::{ReadFault, SELECT_COLLECTIONS};

/// Whether the row of the format exists, and no other.
pub(crate) fn check_format<S: Alter>(conn: &mut Connection<S>) -> Result<(), ReadFault>
    ensures { Queries S.Store (λ old. ShowsOrWhyNot (λ _. SeesFormat old) (NoFormat old) old)
        (λ _ _. ⊥) conn.old conn.new result }
{
    let mut rows = FormatRows { found: 0 };
    fold_rows(
        conn,
        "SELECT name, value FROM streetmap_meta ORDER BY name",
        params![],
        &mut rows,
    )?;
    if rows.found == 0 {
        return Err(ReadFault::Unread);
    }
    Ok(())
}

/// What is kept of all collections, in byte order of ids.
pub(crate) fn check_collections<S: Alter>(
    alloc: Global,
    conn: &mut Connection<S>,
) -> Result<Vec<Head>, ReadFault>
    ensures { Queries S.Store (λ old. ShowsOrWhyNot
        (λ heads. SeesCollections (known heads.items) old) (NoCollections old) old)
        (λ _ _. ⊥) conn.old conn.new result }
{
    let heads = Vec::new(alloc);
    let mut rows = CollectionRows { heads };
    fold_rows(conn, SELECT_COLLECTIONS, params![], &mut rows)?;
    Ok(rows.heads)
}

/// How many features a collection has.
fn check_features<S: Alter>(
    alloc: Global,
    conn: &mut Connection<S>,
    head: &Head,
) -> Result<u64, ReadFault>
    ensures { Queries S.Store (λ old new r. IsTrue old.is_open → ShowsOrWhyNot
        (λ count. SeesFeatures (known_of head.now) count old) (NoFeatures (known_of head.now) old)
        old new r) (λ _ _. ⊥) conn.old conn.new result }
{
    let id = head.id.as_str();
    let copy = copy_of(head)?;
    let mut rows = FeatureRows {
        alloc,
        head: copy,
        last: None,
        count: 0,
    };
    fold_rows(
        conn,
        "SELECT id, body, x0, y0, x1, y1, s0, s1 FROM streetmap_features WHERE collection = ?1 ORDER BY id",
        params![id],
        &mut rows,
    )?;
    Ok(rows.count)
}

/// How many features these collections have.
pub(crate) fn check_all_features<S: Alter>(
    alloc: Global,
    conn: &mut Connection<S>,
    heads: &[Head],
) -> Result<u64, ReadFault>
    ensures { Queries S.Store (λ old new r. IsTrue old.is_open → ShowsOrWhyNot
        (λ count. SeesAllFeatures (known heads.now) count old)
        (NoFeaturesOfAll (known heads.now) old) old new r) (λ _ _. ⊥) conn.old conn.new result }
{
    let mut features: u64 = 0;
    'heads: for head in heads {
        let count = check_features(alloc, conn, head)?;
        features = sum_of(features, count)?;
    }
    Ok(features)
}

/// Whether each feature is in one of these collections.
pub(crate) fn check_owners<S: Alter>(
    conn: &mut Connection<S>,
    heads: Vec<Head>,
) -> Result<(), ReadFault>
    ensures { Queries S.Store (λ old. ShowsOrWhyNot (λ _. SeesOwners (known heads.items) old)
        (NoOwners (known heads.items) old) old) (λ _ _. ⊥) conn.old conn.new result }
{
    let mut rows = OwnerRows { heads };
    fold_rows(
        conn,
        "SELECT collection FROM streetmap_features ORDER BY collection",
        params![],
        &mut rows,
    )
}

/// The number of batches, whose serials are the numbers from 1 to it.
pub(crate) fn check_batches<S: Alter>(
    alloc: Global,
    conn: &mut Connection<S>,
) -> Result<u64, ReadFault>
    ensures { Queries S.Store
        (λ old. ShowsOrWhyNot (λ count. SeesBatches count old) (NoBatches old) old)
        (λ _ _. ⊥) conn.old conn.new result }
{
    let serials = Vec::new(alloc);
    let mut rows = BatchRows {
        last: None,
        serials,
    };
    fold_rows(
        conn,
        "SELECT key, body, opened, inserted, replaced, deleted, serial FROM streetmap_batches ORDER BY key",
        params![],
        &mut rows,
    )?;
    let are = are_serials(alloc, rows.serials.as_slice())?;
    if !are {
        return Err(ReadFault::Unread);
    }
    Ok(rows.serials.len() as u64)
}
