//! Format 1 is migrated, in one transaction.
ghost use Rattle.std.specs.Prelude.{◌≡◌, IsTrue, OnOk, IfErr, false};
ghost use Rattle.sqlite.specs.Held.{state};
ghost use Rattle.sqlite.specs.State.{HasCleanDisk, KeepsCommit, Survives};
ghost use Rattle.sqlite.specs.Schema.{Schema};
ghost use Rattle.streetmap_ledger.specs.State.{State};
ghost use Rattle.streetmap_tables.specs.Adoption.{IsAsItWas, LeavesNoMore};
ghost use Rattle.streetmap_tables.specs.Creation.{KeepsOtherTables};
ghost use Rattle.streetmap_tables.specs.Old.{RestsOld};
ghost use Rattle.streetmap_tables.specs.Reasons.{IsOwn, HasReasonIn, IsReturnedFor, OpensFor};
ghost use Rattle.streetmap_tables.specs.Part.{HasCarried};
ghost use Rattle.streetmap_tables.specs.Migration.{CarryingRefusedFor, IsRefusedOld, CarriesInside};
ghost use Rattle.streetmap_tables.specs.Migration.{CarriesAlone, MayCarry, Carries, IsNamedFault};
ghost use Rattle.streetmap_rows.specs.TransactionCalls.{StaysInside};

use crate::adoption::read_serials;
use crate::features::{fault_of, put_rows, take_rows};
use crate::openings::OpenFault;
use crate::recreation::remake_tables;
use sqlite::{Alter, Connection, Transaction};
use std::alloc::Global;
use streetmap_rows::{ReadFault, is_memory, probe};

/// Migrates the tables, inside a transaction, and returns how many batches they have accepted.
fn carry_inside<S: Alter>(tx: &mut Transaction<'_, S>, alloc: Global) -> Result<u64, ReadFault>
    ensures runs { StaysInside S.Store HasReasonIn CarriesInside tx.old tx.new result }
    ensures carried { HasCleanDisk (state S.Store tx.new.conn.now) →
        IsTrue (state S.Store tx.old.conn.now).in_transaction →
        OnOk result (HasCarried S.Store tx.old.conn.now tx.new.conn.now) }
{
    let rows = take_rows(tx)?;
    match remake_tables(tx) {
        Ok(()) => {}
        Err(error) => return Err(ReadFault::Store(error)),
    }
    put_rows(tx, alloc, &rows)?;
    match read_serials(tx) {
        Ok(serials) => Ok(serials.len() as u64),
        Err(error) => Err(fault_of(error)),
    }
}

/// Migrates the tables in a transaction of its own, which is rolled back if it fails.
fn carry_alone<S: Alter>(alloc: Global, conn: &mut Connection<S>) -> Result<u64, ReadFault>
    requires idle { conn.old.in_transaction ≡ false }
    ensures reason { HasCleanDisk (state S.Store conn.new) →
        IfErr result (HasReasonIn (state S.Store conn.old) (state S.Store conn.new)) }
    ensures survives { Survives (state S.Store conn.old) (state S.Store conn.new) (λ _. Unit {0}) }
    ensures carried { HasCleanDisk (state S.Store conn.new) →
        OnOk result (HasCarried S.Store conn.old conn.new) }
    ensures idle { conn.new.in_transaction ≡ false }
    ensures fewer { HasCleanDisk (state S.Store conn.new) →
        IfErr result (λ fault. IsOwn fault →
        LeavesNoMore (state S.Store conn.old) (state S.Store conn.new)) }
    ensures carries { HasCleanDisk (state S.Store conn.new) → (s : State)
        → RestsOld (state S.Store conn.old) s
        → CarriesAlone s (state S.Store conn.old) (state S.Store conn.new) result }
    ensures same { HasCleanDisk (state S.Store conn.new)
        → IfErr result (λ _. IsAsItWas (state S.Store conn.old) (state S.Store conn.new)) }
    ensures crash { HasCleanDisk (state S.Store conn.new) → (s : State)
        → RestsOld (state S.Store conn.old) s
        → MayCarry s (state S.Store conn.old) (state S.Store conn.new) }
{
    let mut tx = conn.transaction();
    match carry_inside(&mut tx, alloc) {
        Ok(count) => match tx.commit() {
            Ok(()) => Ok(count),
            Err(error) => Err(ReadFault::Store(error)),
        },
        Err(fault) => {
            tx.rollback();
            Err(fault)
        }
    }
}

/// Returns why tables were not migrated, after their transaction was rolled back.
fn report<S: Alter>(conn: &mut Connection<S>, fault: ReadFault) -> OpenFault
    requires { conn.old.in_transaction ≡ false }
    ensures reason { HasCleanDisk (state S.Store conn.new) →
        IsReturnedFor (state S.Store conn.old) (state S.Store conn.new) fault result }
    ensures idle { conn.new.in_transaction ≡ false }
    ensures survives { Survives (state S.Store conn.old) (state S.Store conn.new) (λ _. ⊥) }
    ensures named { IsNamedFault result }
    ensures damaged { result ≡ OpenFault.Damaged → fault ≡ ReadFault.Unread }
    ensures reported { HasCleanDisk (state S.Store conn.new) → (schema : Schema)
        → CarryingRefusedFor schema fault → IsRefusedOld schema result }
    ensures settled { IsTrue (state S.Store conn.new).is_open
        → (state S.Store conn.new).now ≡ (state S.Store conn.new).committed }
    ensures kept { HasCleanDisk (state S.Store conn.new)
        → KeepsCommit (state S.Store conn.old) (state S.Store conn.new) }
    ensures live { HasCleanDisk (state S.Store conn.new) → result ≡ OpenFault.Memory
        → IsTrue (state S.Store conn.new).is_open }
{
    // Between two transactions the connection holds what was committed.
    let _idle = conn.is_autocommit();
    match fault {
        ReadFault::Unread => OpenFault::Damaged,
        ReadFault::Store(error) if !is_memory(error) => OpenFault::Device(error),
        _ => match probe(conn) {
            Ok(()) => OpenFault::Memory,
            Err(error) => OpenFault::Device(error),
        },
    }
}

/// Migrates tables of format 1 to format 2, in one transaction, and returns how many batches they
/// have accepted.
///
/// The connection must have no step limit. A crash during the migration leaves the rows of format 1
/// or those of format 2, whole. After a refusal an open connection holds what it held, and every
/// other table stays in each case.
///
/// # Errors
///
/// `Damaged` at a row that this product does not write; `Memory` if memory runs out and the
/// connection is open; `Device` if the store fails or has no room, or if a statement that makes the
/// new tables is refused, with its error. After memory ran out `probe` checks the connection: if
/// memory runs out there too, it is `Device` with that error. On the tables of a state it is
/// `Memory`, or `Device` with an error of the store, or with `SchemaTooBig` or `NameTaken` if their
/// schema has no place for the tables of format 2 (`make_tables`).
#[tactic(auto, using(crate::proofs::Reasons::opens_for))]
pub fn carry_tables<S: Alter>(alloc: Global, conn: &mut Connection<S>) -> Result<u64, OpenFault>
    requires { conn.old.in_transaction ≡ false }
    ensures reason { HasCleanDisk (state S.Store conn.new) →
        IfErr result (OpensFor (state S.Store conn.old) (state S.Store conn.new)) }
    ensures survives { Survives (state S.Store conn.old) (state S.Store conn.new) (λ _. Unit {0}) }
    ensures carried { HasCleanDisk (state S.Store conn.new) →
        OnOk result (HasCarried S.Store conn.old conn.new) }
    ensures idle { conn.new.in_transaction ≡ false }
    ensures reported { IfErr result IsNamedFault }
    ensures fewer { HasCleanDisk (state S.Store conn.new) →
        IfErr result (λ fault. fault ≡ OpenFault.Damaged →
        LeavesNoMore (state S.Store conn.old) (state S.Store conn.new)) }
    ensures same { HasCleanDisk (state S.Store conn.new)
        → IfErr result (λ _. IsAsItWas (state S.Store conn.old) (state S.Store conn.new)) }
    ensures carries { HasCleanDisk (state S.Store conn.new) → (s : State)
        → RestsOld (state S.Store conn.old) s
        → Carries s (state S.Store conn.old) (state S.Store conn.new) result }
    ensures elsewhere { HasCleanDisk (state S.Store conn.new) → (s : State)
        → RestsOld (state S.Store conn.old) s → IsTrue (state S.Store conn.new).is_open
        → KeepsOtherTables (state S.Store conn.old).now (state S.Store conn.new).now }
    ensures crash { HasCleanDisk (state S.Store conn.new) → (s : State)
        → RestsOld (state S.Store conn.old) s
        → MayCarry s (state S.Store conn.old) (state S.Store conn.new) }
{
    match carry_alone(alloc, conn) {
        Ok(count) => Ok(count),
        Err(fault) => Err(report(conn, fault)),
    }
}
