//! Whether a connection is still open.
ghost use Rattle.std.specs.Prelude.{◌≡◌, IsTrue, false, IfErr, OnOk};
ghost use Rattle.sqlite.specs.Held.{state};
ghost use Rattle.sqlite.specs.State.{HasCleanDisk, IsUnchanged, KeepsCommit, Survives};
ghost use Rattle.streetmap_rows.specs.Failures.{IsOfStore, HasReason};

use sqlite::{Alter, Connection, Error};

/// Checks that the connection is still open: it only prepares a text, and nothing changes.
///
/// # Errors
///
/// The error of the store that means that the connection is not open; or that memory ran out in
/// `probe` itself, which the caller may call again while the connection is open.
pub fn probe<S: Alter>(conn: &mut Connection<S>) -> Result<(), Error>
    requires { conn.old.in_transaction ≡ false }
    ensures idle { conn.new.in_transaction ≡ false }
    ensures survives { Survives (state S.Store conn.old) (state S.Store conn.new) (λ _. ⊥) }
    ensures settled { IsTrue (state S.Store conn.new).is_open
        → (state S.Store conn.new).now ≡ (state S.Store conn.new).committed }
    ensures unchanged { HasCleanDisk (state S.Store conn.new)
        → OnOk result (IsUnchanged (state S.Store conn.old) (state S.Store conn.new)) }
    ensures failed { HasCleanDisk (state S.Store conn.new) → IfErr result IsOfStore }
    ensures reason { HasCleanDisk (state S.Store conn.new) →
        IfErr result (HasReason (state S.Store conn.old) (state S.Store conn.new)) }
    ensures kept { HasCleanDisk (state S.Store conn.new)
        → KeepsCommit (state S.Store conn.old) (state S.Store conn.new) }
{
    let probed = conn.prepare("COMMIT").map(|_| ());
    // Between two transactions the connection holds what was committed.
    let _idle = conn.is_autocommit();
    probed
}
