//! A batch, in a transaction of its own.
ghost use Rattle.std.specs.Prelude.{◌≡◌, ◌<◌, ◌^◌, ◌-◌, false, IfErr};
ghost use Rattle.std.specs.FinMap.{len};
ghost use Rattle.sqlite.specs.Held.{state};
ghost use Rattle.sqlite.specs.State.{HasCleanDisk, Survives};
ghost use Rattle.streetmap_ledger.specs.State.{State};
ghost use Rattle.streetmap_batch.specs.BatchText.{batch_text};
ghost use Rattle.streetmap_batch.specs.BatchView.{batch_value};
ghost use Rattle.streetmap_rows.specs.Failures.{HasReason};
ghost use Rattle.streetmap_rows.specs.CallEnds.{StopsFor};
ghost use Rattle.streetmap_rows.specs.KeptStates.{Rests, MayBecome};
ghost use Rattle.streetmap_tables.specs.BatchEffects.{Awaits, Applied, Ended, LeavesOtherTables};
ghost use Rattle.streetmap_tables.specs.BatchEffects.{IsByStoreError};

use crate::actions::act_inside;
use crate::kept::kept_reply;
use sqlite::{Alter, Connection, Error};
use std::alloc::Global;
use streetmap_ledger::{Batch, Refusal, Reply};
use streetmap_rows::{Stop, cause_of, probe, settle};

/// The most batches that can be accepted.
const MOST_BATCHES: u64 = 9_223_372_036_854_775_807;

/// Acts on a batch whose key is new, in a transaction of its own.
fn act_alone<S: Alter>(
    alloc: Global,
    conn: &mut Connection<S>,
    count: u64,
    batch: &Batch,
    text: &str,
) -> Result<Reply, Error>
    requires idle { conn.old.in_transaction ≡ false }
    requires its_text { text.now ≡ batch_text (batch_value batch.now) }
    requires room { count < 2 ^ 63 - 1 }
    ensures idle { conn.new.in_transaction ≡ false }
    ensures reason { HasCleanDisk (state S.Store conn.new) →
        IfErr result (HasReason (state S.Store conn.old) (state S.Store conn.new)) }
    ensures survives { Survives (state S.Store conn.old) (state S.Store conn.new) (λ _. Unit {0}) }
    ensures ended { HasCleanDisk (state S.Store conn.new) → (s : State)
        → Rests (state S.Store conn.old) s → Awaits s (batch_value batch.now) count
        → Ended s (batch_value batch.now) (state S.Store conn.new) result }
    ensures elsewhere { HasCleanDisk (state S.Store conn.new) → (s : State)
        → Rests (state S.Store conn.old) s → Awaits s (batch_value batch.now) count
        → LeavesOtherTables (state S.Store conn.old) (state S.Store conn.new) }
    ensures crash { HasCleanDisk (state S.Store conn.new) → (s : State)
        → Rests (state S.Store conn.old) s → Awaits s (batch_value batch.now) count
        → MayBecome s (batch_value batch.now) (state S.Store conn.old) (state S.Store conn.new) }
{
    let mut tx = conn.transaction();
    match act_inside(&mut tx, alloc, count, batch, text) {
        Err(error) => {
            tx.rollback();
            Err(error)
        }
        Ok(Reply::Accepted(counts, serial)) => {
            tx.commit()?;
            Ok(Reply::Accepted(counts, serial))
        }
        Ok(Reply::Refused(why, place)) => {
            tx.rollback();
            Ok(Reply::Refused(why, place))
        }
        Ok(Reply::Repeated(counts, serial)) => {
            tx.rollback();
            Ok(Reply::Repeated(counts, serial))
        }
    }
}

/// Acts on a batch, given what is kept for its key.
fn act_by_key<S: Alter>(
    alloc: Global,
    conn: &mut Connection<S>,
    count: u64,
    batch: &Batch,
    text: &str,
) -> Result<Reply, Error>
    requires idle { conn.old.in_transaction ≡ false }
    requires its_text { text.now ≡ batch_text (batch_value batch.now) }
    ensures idle { conn.new.in_transaction ≡ false }
    ensures reason { HasCleanDisk (state S.Store conn.new) →
        IfErr result (HasReason (state S.Store conn.old) (state S.Store conn.new)) }
    ensures survives { Survives (state S.Store conn.old) (state S.Store conn.new) (λ _. Unit {0}) }
    ensures ended { HasCleanDisk (state S.Store conn.new) → (s : State)
        → Rests (state S.Store conn.old) s → len s.keys ≡ count
        → Ended s (batch_value batch.now) (state S.Store conn.new) result }
    ensures elsewhere { HasCleanDisk (state S.Store conn.new) → (s : State)
        → Rests (state S.Store conn.old) s → len s.keys ≡ count
        → LeavesOtherTables (state S.Store conn.old) (state S.Store conn.new) }
    ensures crash { HasCleanDisk (state S.Store conn.new) → (s : State)
        → Rests (state S.Store conn.old) s → len s.keys ≡ count
        → MayBecome s (batch_value batch.now) (state S.Store conn.old) (state S.Store conn.new) }
{
    if let Some(reply) = kept_reply(conn, batch.key(), text)? {
        return Ok(reply);
    }
    if count >= MOST_BATCHES {
        return Ok(Reply::Refused(Refusal::Full, None));
    }
    act_alone(alloc, conn, count, batch, text)
}

/// Acts on a batch whole or not at all.
///
/// # Errors
///
/// `Memory` if memory runs out, nothing changed and the connection is open; `Closed(Device(error))`
/// if the store failed or has no room, with its error. `probe` checks the connection after memory
/// ran out, and before a reply that changed nothing is returned. If `probe` fails the result is
/// `Closed(Device(error))` with its error, which may be that memory ran out in `probe`.
#[tactic(auto, using(crate::proofs::StoreErrors::of_cause, crate::proofs::StoreErrors::of_stop))]
pub fn apply_batch<S: Alter>(
    alloc: Global,
    conn: &mut Connection<S>,
    count: u64,
    batch: &Batch,
) -> Result<Reply, Stop>
    requires { conn.old.in_transaction ≡ false }
    ensures idle { conn.new.in_transaction ≡ false }
    ensures reason { HasCleanDisk (state S.Store conn.new) →
        IfErr result (StopsFor (state S.Store conn.old) (state S.Store conn.new)) }
    ensures survives { Survives (state S.Store conn.old) (state S.Store conn.new) (λ _. Unit {0}) }
    ensures reported { HasCleanDisk (state S.Store conn.new) → IfErr result IsByStoreError }
    ensures acts { HasCleanDisk (state S.Store conn.new) → (s : State)
        → Rests (state S.Store conn.old) s → len s.keys ≡ count
        → Applied s (batch_value batch.now) (state S.Store conn.new) result }
    ensures elsewhere { HasCleanDisk (state S.Store conn.new) → (s : State)
        → Rests (state S.Store conn.old) s → len s.keys ≡ count
        → LeavesOtherTables (state S.Store conn.old) (state S.Store conn.new) }
    ensures crash { HasCleanDisk (state S.Store conn.new) → (s : State)
        → Rests (state S.Store conn.old) s → len s.keys ≡ count
        → MayBecome s (batch_value batch.now) (state S.Store conn.old) (state S.Store conn.new) }
{
    let Ok(text) = batch.text(alloc) else {
        return Err(Stop::Memory);
    };
    match act_by_key(alloc, conn, count, batch, text.as_str()) {
        Ok(Reply::Accepted(counts, serial)) => Ok(Reply::Accepted(counts, serial)),
        Ok(reply) => match probe(conn) {
            Ok(()) => Ok(reply),
            Err(error) => Err(Stop::Closed(cause_of(error))),
        },
        Err(error) => Err(settle(conn, error)),
    }
}
