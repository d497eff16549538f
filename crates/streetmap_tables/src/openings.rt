//! Opening tables of either format.
ghost use Rattle.std.specs.Prelude.{◌≡◌, ◌≤◌, ◌⊎◌, IsTrue, IfOk, IfErr, false};
ghost use Rattle.sqlite.specs.Held.{state};
ghost use Rattle.sqlite.specs.State.{HasCleanDisk};
ghost use Rattle.sqlite.specs.View.{doubt};
ghost use Rattle.streetmap_ledger.specs.State.{State};
ghost use Rattle.streetmap_rows.specs.KeptStates.{Rests};
ghost use Rattle.streetmap_tables.specs.Adoption.{IsAsItWas, Opens};
ghost use Rattle.streetmap_tables.specs.Creation.{KeepsOtherTables};
ghost use Rattle.streetmap_tables.specs.Old.{RestsOld};
ghost use Rattle.streetmap_tables.specs.Reasons.{OpensFor};
ghost use Rattle.streetmap_tables.specs.QueryResults.{ShowsKeys};
ghost use Rattle.streetmap_tables.specs.Part.{HasCarried};
ghost use Rattle.streetmap_tables.specs.Migration.{UntouchedUnlessFormat1, KeepsNoMore, MayCarry};
ghost use Rattle.streetmap_tables.specs.Migration.{Carries, OpensBy};

use crate::adoption::adopt_tables;
use crate::migration::carry_tables;
use sqlite::{Alter, Connection, Error};
use std::alloc::Global;

/// Why tables, or the file that should hold them, were not opened.
#[derive(Drop)]
pub enum OpenFault {
    /// `not_ours`: no format row is one of this product, or the file is no database of SQLite.
    NotOurs,
    /// `new_format`: the format is above 2.
    NewFormat,
    /// `damaged`: the format is 1, and a row is not one that this product writes; or it is 2, and
    /// the query for the batches is refused.
    Damaged,
    /// `device`: the store failed, or has no room, or the file cannot be opened or is in use; the
    /// error that reported it. In format 1 also that a statement which makes its new tables was
    /// refused.
    Device(Error),
    /// `memory`: out of memory.
    Memory,
}

/// Opens the tables that a connection has, and returns how many batches they have accepted. It
/// migrates those of format 1 (`carry_tables`); if the format is not 1 it writes nothing.
///
/// Whatever the tables are, it returns `Ok` only if their format is 2 and the queries show that
/// number, or if a row was inserted into the new features for each row of the old ones.
///
/// The connection must have no step limit. After a refusal an open connection holds what it held.
///
/// # Errors
///
/// `NewFormat` for a format above 2; `NotOurs` for any other than 1 and 2, if they have no format
/// row, and if the query for it is refused; `Damaged` if the format is 1 and this product does not
/// write one of the rows, or it is 2 and the query for the batches is refused; `Memory` if memory
/// runs out and the connection is open; `Device` if the store fails, with its error, as in
/// `adopt_tables` and `carry_tables`. On the tables of a state it is `Device` or `Memory`.
#[tactic(auto, using(crate::proofs::Reasons::opens_later))]
pub fn open_tables<S: Alter>(alloc: Global, conn: &mut Connection<S>) -> Result<u64, OpenFault>
    requires { conn.old.in_transaction ≡ false }
    ensures reason { HasCleanDisk (state S.Store conn.new) →
        IfErr result (OpensFor (state S.Store conn.old) (state S.Store conn.new)) }
    ensures carried { HasCleanDisk (state S.Store conn.new) →
        IfOk result (λ count.
        ShowsKeys (state S.Store conn.old) count ⊎ HasCarried S.Store conn.old conn.new) }
    ensures idle { conn.new.in_transaction ≡ false }
    ensures clean { doubt (state S.Store conn.old).is_clean
        ≤ doubt (state S.Store conn.new).is_clean }
    ensures limit { (state S.Store conn.new).step_limit ≡ (state S.Store conn.old).step_limit }
    ensures reports { HasCleanDisk (state S.Store conn.new)
        → OpensBy (state S.Store conn.old) result }
    ensures same { HasCleanDisk (state S.Store conn.new)
        → IfErr result (λ _. IsAsItWas (state S.Store conn.old) (state S.Store conn.new)) }
    ensures fewer { HasCleanDisk (state S.Store conn.new) →
        IfErr result (λ fault.
        KeepsNoMore fault (state S.Store conn.old) (state S.Store conn.new)) }
    ensures unwritten { HasCleanDisk (state S.Store conn.new)
        → UntouchedUnlessFormat1 (state S.Store conn.old) (state S.Store conn.new) }
    ensures opens { HasCleanDisk (state S.Store conn.new) → (s : State)
        → Rests (state S.Store conn.old) s
        → Opens s (state S.Store conn.old) (state S.Store conn.new) result }
    ensures carries { HasCleanDisk (state S.Store conn.new) → (s : State)
        → RestsOld (state S.Store conn.old) s
        → Carries s (state S.Store conn.old) (state S.Store conn.new) result }
    ensures elsewhere { HasCleanDisk (state S.Store conn.new) → (s : State)
        → RestsOld (state S.Store conn.old) s → IsTrue (state S.Store conn.new).is_open
        → KeepsOtherTables (state S.Store conn.old).now (state S.Store conn.new).now }
    ensures crash { HasCleanDisk (state S.Store conn.new) → (s : State)
        → RestsOld (state S.Store conn.old) s
        → MayCarry s (state S.Store conn.old) (state S.Store conn.new) }
{
    // Between two transactions the connection holds what was committed.
    let _idle = conn.is_autocommit();
    match adopt_tables(conn) {
        Ok(Some(count)) => Ok(count),
        Ok(None) => carry_tables(alloc, conn),
        Err(fault) => Err(fault),
    }
}
