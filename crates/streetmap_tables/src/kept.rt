//! What is kept for the key of a batch.
ghost use Rattle.std.specs.Prelude.{◌≡◌, IfErr, ◌<◌, ℕ, pos, Ok, length, false, IsTrue, option_map};
ghost use Rattle.std.specs.FinMap.{get};
ghost use Rattle.sqlite.specs.Held.{state};
ghost use Rattle.sqlite.specs.State.{HasCleanDisk, Survives};
ghost use Rattle.sqlite.specs.Tree.{Trees};
ghost use Rattle.sqlite.specs.Order.{column};
ghost use Rattle.sqlite.specs.declared.types.Value.TheVariants.{Int};
ghost use Rattle.streetmap_ledger.specs.State.{State, AcceptedBatch};
ghost use Rattle.streetmap_rows.specs.Failures.{HasReason, IsNotDiskError};
ghost use Rattle.streetmap_rows.specs.KeptStates.{Rests};
ghost use Rattle.streetmap_rows.specs.Views.{kept_view};
ghost use Rattle.streetmap_tables.specs.BatchEffects.{Rested, kept_answer};

use sqlite::types::ValueRef;
use sqlite::{Alter, Connection, Error, Row};
use streetmap_ledger::{Counts, Refusal, Reply};
use streetmap_rows::kept_rows;

/// The number in a column.
fn number_at(row: &Row, at: usize) -> Result<u64, Error>
    ensures not_of_disk { IfErr result IsNotDiskError }
    ensures reads { (n : ℕ) → at < length row.now → column row.now at ≡ Int (pos n) →
        result ≡ Ok n }
{
    match row.get_ref(at)? {
        ValueRef::Int(number) if number >= 0 => Ok(number as u64),
        _ => Err(Error::IntegralValueOutOfRange(at)),
    }
}

/// The counts in a row that is kept for a key.
fn counts_in(row: &Row) -> Result<Counts, Error>
    ensures not_of_disk { IfErr result IsNotDiskError }
    ensures reads { (kept : AcceptedBatch) → row.now ≡ kept_view kept
        → result ≡ Ok kept.counts }
{
    Ok(Counts {
        opened: number_at(row, 1)?,
        inserted: number_at(row, 2)?,
        replaced: number_at(row, 3)?,
        deleted: number_at(row, 4)?,
    })
}

/// The answer to a batch with this text, by the row that is kept for its key: the earlier answer if
/// the texts are equal, and otherwise that the key was used.
fn reply_in(row: &Row, text: &str) -> Result<Reply, Error>
    ensures not_of_disk { IfErr result IsNotDiskError }
    ensures reads { (kept : AcceptedBatch) → row.now ≡ kept_view kept →
        result ≡ Ok (kept_answer text.now kept) }
{
    let ValueRef::Text(kept) = row.get_ref(0)? else {
        return Err(Error::Utf8Error(0));
    };
    if kept != text.as_bytes() {
        return Ok(Reply::Refused(Refusal::KeyUsed, None));
    }
    let counts = counts_in(row)?;
    Ok(Reply::Repeated(counts, number_at(row, 5)?))
}

/// The answer to a batch whose key is known; none if it is new.
pub(crate) fn kept_reply<S: Alter>(
    conn: &mut Connection<S>,
    key: &str,
    text: &str,
) -> Result<Option<Reply>, Error>
    requires { conn.old.in_transaction ≡ false }
    ensures idle { conn.new.in_transaction ≡ false }
    ensures reason { HasCleanDisk (state S.Store conn.new) →
        IfErr result (HasReason (state S.Store conn.old) (state S.Store conn.new)) }
    ensures survives { Survives (state S.Store conn.old) (state S.Store conn.new) (λ _. Unit {0}) }
    ensures reads_state { HasCleanDisk (state S.Store conn.new)
        → Rested (λ s. option_map (kept_answer text.now) (get s.keys key.now))
        (state S.Store conn.old) (state S.Store conn.new) result }
    ensures same { HasCleanDisk (state S.Store conn.new) → (s : State)
        → Rests (state S.Store conn.old) s → IsTrue (state S.Store conn.new).is_open
        → (state S.Store conn.new).now ≡ (state S.Store conn.old).now }
    ensures crash { HasCleanDisk (state S.Store conn.new) → (s : State)
        → Rests (state S.Store conn.old) s → (trees : Trees)
        → (state S.Store conn.new).may_leave trees → (state S.Store conn.old).may_leave trees }
{
    let rows = match kept_rows(conn, key) {
        Ok(rows) => rows,
        Err(error) => {
            // Between two transactions the connection holds what was committed.
            let _idle = conn.is_autocommit();
            return Err(error);
        }
    };
    let Some(row) = rows.first() else {
        return Ok(None);
    };
    let reply = reply_in(row, text)?;
    Ok(Some(reply))
}
