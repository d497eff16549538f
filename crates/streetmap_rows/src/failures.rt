//! What an error of a statement means, and how a call that met it ends.
ghost use Rattle.std.specs.Prelude.{◌≡◌, ◌↔◌, IsTrue, false};
ghost use Rattle.sqlite.specs.Held.{state};
ghost use Rattle.sqlite.specs.State.{HasCleanDisk, KeepsCommit, Survives};
ghost use Rattle.streetmap_rows.specs.Failures as failing;
ghost use Rattle.streetmap_rows.specs.Failures.{IsOfStore};
ghost use Rattle.streetmap_rows.specs.CallEnds.{IsCause, Settles};

use crate::openness::probe;
use sqlite::{Alter, Connection, Error, ErrorCode};

/// Why a keeper was closed.
#[derive(Clone, Copy, PartialEq, Eq, Drop)]
pub enum Shut {
    /// The store failed, or has no room; the error that reported it.
    Device(Error),
    /// A row is not one that this product writes, or a statement was refused.
    Damaged,
}

/// Why a call gives up.
#[derive(Clone, Copy, PartialEq, Eq, Drop)]
pub enum Stop {
    /// Out of memory, and nothing changed.
    Memory,
    /// The keeper must be closed.
    Closed(Shut),
}

/// Whether memory ran out.
pub fn is_memory(error: Error) -> bool
    ensures { result ≡ failing.is_memory error }
{
    matches!(error, Error::SqliteFailure(ErrorCode::OutOfMemory))
}

/// Whether no rowid is left, or the store failed or had no room or memory.
pub fn is_of_store(error: Error) -> bool
    ensures { IsTrue result ↔ IsOfStore error }
{
    matches!(
        error,
        Error::SqliteFailure(
            ErrorCode::NoRowid
                | ErrorCode::OutOfMemory
                | ErrorCode::SystemIoFailure
                | ErrorCode::DatabaseCorrupt
                | ErrorCode::DiskFull
                | ErrorCode::Closed
                | ErrorCode::TooBig
        )
    )
}

/// The cause for which an error closes a keeper.
pub fn cause_of(error: Error) -> Shut
    ensures of_store { IsOfStore error → result ≡ Shut.Device error }
    ensures cause { IsCause error result }
{
    if is_of_store(error) {
        Shut::Device(error)
    } else {
        Shut::Damaged
    }
}

/// How a call that met an error between two transactions ends.
///
/// If memory ran out, `probe` checks the connection. If `probe` succeeds the connection is open and
/// as it was, and the call ends with `Memory`. If it fails, the keeper must be closed for the error
/// of `probe`, which may again be that memory ran out: `Closed(Device(SqliteFailure(OutOfMemory)))`
/// means that memory ran out twice, in the call and in `probe`, and that nothing is known of the
/// connection. Any other error is itself the cause: `Device` if it is of the store, and otherwise
/// `Damaged`.
pub fn settle<S: Alter>(conn: &mut Connection<S>, error: Error) -> Stop
    requires { conn.old.in_transaction ≡ false }
    ensures idle { conn.new.in_transaction ≡ false }
    ensures survives { Survives (state S.Store conn.old) (state S.Store conn.new) (λ _. ⊥) }
    ensures settled { IsTrue (state S.Store conn.new).is_open
        → (state S.Store conn.new).now ≡ (state S.Store conn.new).committed }
    ensures damaged { (result ≡ Stop.Closed Shut.Damaged) ↔ ¬ (IsOfStore error) }
    ensures ends { HasCleanDisk (state S.Store conn.new)
        → Settles error (state S.Store conn.old) (state S.Store conn.new) result }
    ensures kept { HasCleanDisk (state S.Store conn.new)
        → KeepsCommit (state S.Store conn.old) (state S.Store conn.new) }
{
    if !is_memory(error) {
        // Between two transactions the connection holds what was committed.
        let _idle = conn.is_autocommit();
        return Stop::Closed(cause_of(error));
    }
    match probe(conn) {
        Ok(()) => Stop::Memory,
        Err(error) => Stop::Closed(Shut::Device(error)),
    }
}
