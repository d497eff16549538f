//! A check of tables.
ghost use Rattle.std.specs.Prelude.{◌≡◌, IfErr, false};
ghost use Rattle.sqlite.specs.Held.{state};
ghost use Rattle.sqlite.specs.State.{HasCleanDisk, Survives};
ghost use Rattle.streetmap_ledger.specs.State.{State};
ghost use Rattle.streetmap_ledger.specs.WellFormed.{IsState};
ghost use Rattle.streetmap_rows.specs.KeptStates.{Rests};
ghost use Rattle.streetmap_tables.specs.Adoption.{IsAsItWas};
ghost use Rattle.streetmap_checking.specs.QueryResults.{ShowsOrWhyNot};
ghost use Rattle.streetmap_checking.specs.CheckResults.{ShowsState, ShowsTotals, IsDamaged};
ghost use Rattle.streetmap_checking.specs.CheckResults.{ChecksBy, ChecksState};
ghost use Rattle.streetmap_rows.specs.CallEnds.{StopsFor};
ghost use Rattle.streetmap_rows.specs.TableReads.{Queries};

use crate::queries::{
    check_all_features, check_batches, check_collections, check_format, check_owners,
};
use sqlite::{Alter, Connection};
use std::alloc::Global;
use streetmap_rows::{ReadFault, Shut, Stop, settle};

/// What a check counted.
#[derive(Clone, Copy, PartialEq, Eq)]
pub struct Totals {
    pub collections: u64,
    /// The features of all collections.
    pub features: u64,
    pub batches: u64,
}

/// The totals, or the fault that a read met.
fn read_all_tables<S: Alter>(alloc: Global, conn: &mut Connection<S>) -> Result<Totals, ReadFault>
    ensures { Queries S.Store
        (λ old. ShowsOrWhyNot (λ totals. ShowsTotals totals old) (IsDamaged old) old)
        (λ _ _. ⊥) conn.old conn.new result }
{
    check_format(conn)?;
    let heads = check_collections(alloc, conn)?;
    let features = check_all_features(alloc, conn, heads.as_slice())?;
    let collections = heads.len() as u64;
    check_owners(conn, heads)?;
    let batches = check_batches(alloc, conn)?;
    Ok(Totals {
        collections,
        features,
        batches,
    })
}

/// Checks the tables that a connection has: reads all their rows, and returns how many collections,
/// features and batches they hold.
///
/// It writes nothing: in every case the connection holds what it held, and a crash can leave no
/// more than before. The connection must have no step limit.
///
/// # Errors
///
/// `Closed(Damaged)` if a statement is refused or shows rows that are not those of a ledger;
/// `Memory` if memory runs out, or a count has no number left, and the connection is open;
/// `Closed(Device)` if the store fails, with its error, or if memory runs out again while the
/// connection is checked.
pub fn check_tables<S: Alter>(alloc: Global, conn: &mut Connection<S>) -> Result<Totals, Stop>
    requires { conn.old.in_transaction ≡ false }
    ensures idle { conn.new.in_transaction ≡ false }
    ensures survives { Survives (state S.Store conn.old) (state S.Store conn.new) (λ _. ⊥) }
    ensures same { HasCleanDisk (state S.Store conn.new)
        → IsAsItWas (state S.Store conn.old) (state S.Store conn.new) }
    ensures reason { HasCleanDisk (state S.Store conn.new) →
        IfErr result (StopsFor (state S.Store conn.old) (state S.Store conn.new)) }
    ensures reports { HasCleanDisk (state S.Store conn.new)
        → ChecksBy (state S.Store conn.old) result }
    ensures checks { HasCleanDisk (state S.Store conn.new) → (s : State)
        → Rests (state S.Store conn.old) s
        → ChecksState s (state S.Store conn.old) (state S.Store conn.new) result }
{
    match read_all_tables(alloc, conn) {
        Ok(totals) => Ok(totals),
        Err(ReadFault::Memory) => Err(Stop::Memory),
        Err(ReadFault::Unread) => Err(Stop::Closed(Shut::Damaged)),
        Err(ReadFault::Store(error)) => Err(settle(conn, error)),
    }
}

/// A well-formed state whose rows are shown is the one that the tables hold, if they hold one. The
/// state whose numbers a check reports is such a state.
pub fn shown_state_is_kept<S: Alter>(conn: &Connection<S>)
    ensures { (s t : State) → IsState s → ShowsState s (state S.Store conn.now) →
        Rests (state S.Store conn.now) t → s ≡ t }
{}
