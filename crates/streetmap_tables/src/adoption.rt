//! Opening existing tables: the format row is read, and one row for each accepted batch.
ghost use Rattle.std.specs.Prelude.{◌≡◌, ◌≢◌, IfErr, IfSome, MatchResult, None, Some, pos, false};
ghost use Rattle.std.specs.Prelude.{IsTrue};
ghost use Rattle.sqlite.specs.Held.{state};
ghost use Rattle.sqlite.specs.State.{HasCleanDisk, KeepsCommit, Survives};
ghost use Rattle.streetmap_ledger.specs.State.{State};
ghost use Rattle.streetmap_rows.specs.Failures.{HasReason, IsOfStore};
ghost use Rattle.streetmap_tables.specs.Reasons.{OpensFor};
ghost use Rattle.streetmap_rows.specs.KeptStates.{Rests};
ghost use Rattle.streetmap_tables.specs.Adoption.{FindsKeys, IsAsItWas, StaysOpen, Adopts};
ghost use Rattle.streetmap_tables.specs.QueryResults.{format_in, IsFoundIn, IsRefusedFor, AdoptsBy};
ghost use Rattle.streetmap_tables.specs.QueryResults.{ReadsFormat, ReadsSerials, FindsBatches};
ghost use Rattle.streetmap_rows.specs.TransactionCalls.{RunsInside, StaysInside};

use crate::openings::OpenFault;
use sqlite::types::ValueRef;
use sqlite::{Alter, Connection, Error, Row, Transaction};
use streetmap_rows::{Shut, Stop, is_of_store, probe, settle};

/// What was found in a connection.
#[derive(Drop)]
enum Found {
    /// Format 2, with this number of keys.
    Keys(u64),
    /// Format 2, but the query for the batches is refused.
    Unread,
    /// Another format, or no format row.
    Other(Option<i64>),
}

/// The values of the format row.
fn read_format<S: Alter>(tx: &mut Transaction<'_, S>) -> Result<Vec<Row>, Error>
    ensures { StaysInside S.Store HasReason ReadsFormat tx.old tx.new result }
{
    tx.query_all(
        "SELECT value FROM streetmap_meta WHERE name = 'format'",
        &[],
    )
}

/// The serials of all batches, a row for each.
pub(crate) fn read_serials<S: Alter>(tx: &mut Transaction<'_, S>) -> Result<Vec<Row>, Error>
    ensures { StaysInside S.Store HasReason ReadsSerials tx.old tx.new result }
{
    tx.query_all("SELECT serial FROM streetmap_batches", &[])
}

/// The format in the format row.
fn format_of(rows: &[Row]) -> Option<i64>
    ensures { result ≡ format_in rows.now }
{
    match rows.first() {
        Some(row) => match row.get_ref(0) {
            Ok(ValueRef::Int(format)) => Some(format),
            _ => None,
        },
        None => None,
    }
}

/// What was found if the query for the batches met an error: nothing if the store failed, and
/// otherwise that the query is refused.
fn unread_by(error: Error) -> Result<Found, Error>
    ensures { MatchResult result
        (λ found. (found ≡ Found.Unread) × ¬ (IsOfStore error))
        (λ e. (e ≡ error) × IsOfStore error) }
{
    if is_of_store(error) {
        Err(error)
    } else {
        Ok(Found::Unread)
    }
}

/// The format and, if it is 2, the number of keys.
fn find_inside<S: Alter>(tx: &mut Transaction<'_, S>) -> Result<Found, Error>
    ensures runs { RunsInside S.Store HasReason FindsBatches tx.old tx.new result }
    ensures kept { HasCleanDisk (state S.Store tx.new.conn.now)
        → IsTrue (state S.Store tx.old.conn.now).in_transaction
        → KeepsCommit (state S.Store tx.old.conn.now) (state S.Store tx.new.conn.now) }
{
    let rows = read_format(tx)?;
    match format_of(&rows) {
        Some(2) => {}
        other => return Ok(Found::Other(other)),
    }
    match read_serials(tx) {
        Ok(serials) => Ok(Found::Keys(serials.len() as u64)),
        Err(error) => unread_by(error),
    }
}

/// The same, in a transaction that is rolled back, so the connection holds what it held.
fn find_alone<S: Alter>(conn: &mut Connection<S>) -> Result<Found, Error>
    requires { conn.old.in_transaction ≡ false }
    ensures reason { HasCleanDisk (state S.Store conn.new) →
        IfErr result (HasReason (state S.Store conn.old) (state S.Store conn.new)) }
    ensures idle { conn.new.in_transaction ≡ false }
    ensures survives { Survives (state S.Store conn.old) (state S.Store conn.new) (λ _. ⊥) }
    ensures same { HasCleanDisk (state S.Store conn.new)
        → IsAsItWas (state S.Store conn.old) (state S.Store conn.new) }
    ensures finds { HasCleanDisk (state S.Store conn.new)
        → FindsKeys (state S.Store conn.old) result }
    ensures reports { HasCleanDisk (state S.Store conn.new)
        → IsFoundIn (state S.Store conn.old) result }
{
    let mut tx = conn.transaction();
    let found = find_inside(&mut tx);
    tx.rollback();
    found
}

/// Why tables of another format are refused; none if it is 1.
fn refusal_of(format: Option<i64>) -> Option<OpenFault>
    ensures old { result ≡ None → format ≡ Some (pos 1) }
    ensures refused { format ≢ Some (pos 2) → IfSome result (IsRefusedFor format) }
{
    match format {
        Some(1) => None,
        Some(format) if format > 2 => Some(OpenFault::NewFormat),
        _ => Some(OpenFault::NotOurs),
    }
}

/// Opens the tables that a connection has, and returns how many batches they have accepted; none if
/// their format is 1.
///
/// It writes nothing: in every case the connection holds what it held, and a crash can leave no
/// more than before. The connection must have no step limit.
///
/// # Errors
///
/// `NewFormat` for a format above 2; `NotOurs` for any other than 1 and 2, if they have no format
/// row, and if the query for it is refused; `Damaged` if the format is 2 and the query for the
/// batches is refused; `Memory` if memory runs out and the connection is open; `Device` if the
/// store fails, with its error. `probe` checks that the connection is open before the number of
/// batches or none is returned, and after memory ran out. If `probe` runs out of memory too, the
/// result is `Device` with that error.
pub fn adopt_tables<S: Alter>(conn: &mut Connection<S>) -> Result<Option<u64>, OpenFault>
    requires { conn.old.in_transaction ≡ false }
    ensures reason { HasCleanDisk (state S.Store conn.new) →
        IfErr result (OpensFor (state S.Store conn.old) (state S.Store conn.new)) }
    ensures idle { conn.new.in_transaction ≡ false }
    ensures survives { Survives (state S.Store conn.old) (state S.Store conn.new) (λ _. ⊥) }
    ensures same { HasCleanDisk (state S.Store conn.new)
        → IsAsItWas (state S.Store conn.old) (state S.Store conn.new) }
    ensures reports { HasCleanDisk (state S.Store conn.new)
        → AdoptsBy (state S.Store conn.old) result }
    ensures live { HasCleanDisk (state S.Store conn.new)
        → StaysOpen (state S.Store conn.new) result }
    ensures adopts { HasCleanDisk (state S.Store conn.new) → (s : State)
        → Rests (state S.Store conn.old) s
        → Adopts s (state S.Store conn.old) (state S.Store conn.new) result }
{
    match find_alone(conn) {
        Ok(Found::Keys(count)) => match probe(conn) {
            Ok(()) => Ok(Some(count)),
            Err(error) => Err(OpenFault::Device(error)),
        },
        Ok(Found::Unread) => Err(OpenFault::Damaged),
        Ok(Found::Other(format)) => match refusal_of(format) {
            Some(fault) => Err(fault),
            None => match probe(conn) {
                Ok(()) => Ok(None),
                Err(error) => Err(OpenFault::Device(error)),
            },
        },
        Err(error) => match settle(conn, error) {
            Stop::Memory => Err(OpenFault::Memory),
            Stop::Closed(Shut::Device(error)) => Err(OpenFault::Device(error)),
            Stop::Closed(Shut::Damaged) => Err(OpenFault::NotOurs),
        },
    }
}
