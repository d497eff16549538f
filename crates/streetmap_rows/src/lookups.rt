//! Reads by a key.
ghost use Rattle.std.specs.Prelude.{◌≡◌, IfErr, MatchResult, false, is_some, option_map};
ghost use Rattle.std.specs.Prelude.{string_bytes};
ghost use Rattle.sqlite.specs.Tree.{Trees};
ghost use Rattle.streetmap_batch.specs.Text.{Text};
ghost use Rattle.streetmap_ledger.specs.State.{State, Collection};
ghost use Rattle.streetmap_rows.specs.Failures.{IsMemory, HasReason, IsNotDiskError};
ghost use Rattle.sqlite.specs.Held.{state};
ghost use Rattle.sqlite.specs.State.{HasCleanDisk, Survives};
ghost use Rattle.streetmap_rows.specs.Rows.{feature_at};
ghost use Rattle.streetmap_rows.specs.Representations.{StandsFor, HasTextNames, ReadsInState};
ghost use Rattle.streetmap_rows.specs.Calls.{ReadsRows};
ghost use Rattle.streetmap_rows.specs.TransactionCalls.{RunsInside, StaysInside, ReadsCollection};
ghost use Rattle.streetmap_rows.specs.Views as views;

use crate::statements::SELECT_COLLECTION;
use sqlite::{Alter, Connection, Error, Row, Transaction, params};

/// What is kept for a key, outside of a transaction: a row of its text, its counts and its serial,
/// or none.
#[tactic(auto, using(crate::proofs::ErrorReasons::queried))]
pub fn kept_rows<S: Alter>(conn: &mut Connection<S>, key: &str) -> Result<Vec<Row>, Error>
    requires { conn.old.in_transaction ≡ false }
    ensures idle { conn.new.in_transaction ≡ false }
    ensures reads_state { HasCleanDisk (state S.Store conn.new)
        → ReadsRows (views.kept_rows key.now) (state S.Store conn.old) (state S.Store conn.new)
        result }
    ensures reason { HasCleanDisk (state S.Store conn.new) →
        IfErr result (HasReason (state S.Store conn.old) (state S.Store conn.new)) }
    ensures survives { Survives (state S.Store conn.old) (state S.Store conn.new) (λ _. Unit {0}) }
    ensures crash { HasCleanDisk (state S.Store conn.new) → (s : State)
        → StandsFor s (state S.Store conn.old).now → (trees : Trees)
        → (state S.Store conn.new).may_leave trees → (state S.Store conn.old).may_leave trees }
{
    conn.query_all(
        "SELECT body, opened, inserted, replaced, deleted, serial FROM streetmap_batches WHERE key = ?1",
        params![key],
    )
}

/// What is kept of a collection, inside a transaction: a row of its title and its time property, or
/// none.
pub fn collection_rows<S: Alter>(
    tx: &mut Transaction<'_, S>,
    collection: &str,
) -> Result<Vec<Row>, Error>
    ensures { StaysInside S.Store HasReason (ReadsCollection collection.now) tx.old tx.new result }
{
    tx.query_all(SELECT_COLLECTION, params![collection])
}

/// The time property in the row of a collection. The error is that memory ran out.
#[tactic(auto, using(crate::proofs::ErrorReasons::read_not_of_disk))]
pub fn time_in(row: &Row) -> Result<Option<String>, Error>
    ensures not_of_disk { IfErr result IsNotDiskError }
    ensures reads { (name : Text) (c : Collection) → row.now ≡ views.collection_view c →
        HasTextNames name c →
        MatchResult result (λ time. option_map string_bytes time ≡ c.time) IsMemory }
{
    row.get(1)
}

/// Whether a collection has a feature with this id.
pub fn has_feature<S: Alter>(
    tx: &mut Transaction<'_, S>,
    collection: &str,
    id: &str,
) -> Result<bool, Error>
    ensures { RunsInside S.Store HasReason
        (ReadsInState (λ s. is_some (feature_at s (collection.now, id.now)))) tx.old tx.new result }
{
    let rows = tx.query_all(
        "SELECT id FROM streetmap_features WHERE collection = ?1 AND id = ?2",
        params![collection, id],
    )?;
    Ok(!rows.is_empty())
}
