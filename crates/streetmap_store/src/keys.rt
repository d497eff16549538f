//! Which keys were used.
ghost use Rattle.std.specs.Prelude.{◌≡◌, false};
ghost use Rattle.streetmap_rows.specs.TableReads.{ReadsTables, ReadsState};
ghost use Rattle.streetmap_tags.specs.Keys.{IsKeyUsed};

use sqlite::{Alter, Connection};
use streetmap_rows::{ReadFault, kept_rows};

/// Whether a batch was accepted under a key.
///
/// # Errors
///
/// `Store` if the statement failed, with its error, which may be that memory ran out in it.
pub(crate) fn is_key_used<S: Alter>(conn: &mut Connection<S>, key: &str) -> Result<bool, ReadFault>
    requires { conn.old.in_transaction ≡ false }
    ensures { ReadsTables S.Store (ReadsState (IsKeyUsed key.now)) conn.old conn.new result }
{
    match kept_rows(conn, key) {
        Ok(rows) => match rows.first() {
            Some(_) => Ok(true),
            None => Ok(false),
        },
        Err(error) => Err(ReadFault::Store(error)),
    }
}
