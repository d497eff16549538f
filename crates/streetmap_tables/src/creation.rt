//! Making the tables, in one transaction.
ghost use Rattle.std.specs.Prelude.{◌≡◌, ◌≢◌, ◌≤◌, ◌↔◌, [], IsTrue, OnOk, IfErr, Err, false};
ghost use Rattle.sqlite.specs.Held.{state};
ghost use Rattle.sqlite.specs.State.{HasCleanDisk, Survives};
ghost use Rattle.sqlite.specs.View.{doubt};
ghost use Rattle.sqlite_catalog.specs.Change.{is_used};
ghost use Rattle.streetmap_rows.specs.Failures.{HasReason};
ghost use Rattle.streetmap_tables.specs.CreationRefusals.{our_tables, IsCreateError, IsReturned};
ghost use Rattle.streetmap_tables.specs.CreationRefusals.{IsReasoned};
ghost use Rattle.streetmap_tables.specs.Adoption.{IsAsItWas};
ghost use Rattle.streetmap_tables.specs.Part.{Ran};
ghost use Rattle.streetmap_tables.specs.Creation.{is_taken, IsReady, format_text, KeepsOtherTables};
ghost use Rattle.streetmap_tables.specs.Creation.{MayOpen, MakesAlone, Makes};
ghost use Rattle.streetmap_rows.specs.TransactionCalls.{StaysInside};
ghost use Rattle.streetmap_tables.specs.TableCalls.{CreatesTable, InsertsFormat, MakesInside};

use sqlite::{Alter, Connection, Error, Transaction};
use sqlite_schema::schema::Schema;
use streetmap_rows::{CREATE_FEATURES, CREATE_META, is_memory, probe};

/// Why tables were not made, in a connection or in a file.
#[derive(Drop)]
pub enum CreateFault {
    /// `not_ours`: the file is no database of SQLite.
    NotOurs,
    /// `taken`: a table, an index or a view has one of the four names.
    Taken,
    /// `device`: the store failed, or has no room for the tables, or the file cannot be opened or
    /// is in use; the error that reported it.
    Device(Error),
    /// `memory`: out of memory.
    Memory,
}

/// Whether a table, an index or a view has this name.
fn is_name_used(schema: &Schema, name: &str) -> bool
    ensures { result ≡ is_used schema.now name.now }
{
    schema.table_named(name.as_bytes()).is_some()
        || schema.index_named(name.as_bytes()).is_some()
        || schema.view_named(name.as_bytes()).is_some()
}

/// Whether one of the four names is used.
fn is_one_used(schema: &Schema) -> bool
    ensures { result ≡ is_taken schema.now }
{
    is_name_used(schema, "streetmap_meta")
        || is_name_used(schema, "streetmap_collections")
        || is_name_used(schema, "streetmap_batches")
        || is_name_used(schema, "streetmap_features")
}

/// Makes a table by its text, which is one CREATE TABLE. The text of one of our tables, whose name
/// is free, is refused only if the store fails or the schema has no place for the table.
pub(crate) fn create_table<S: Alter>(tx: &mut Transaction<'_, S>, sql: &str) -> Result<(), Error>
    ensures runs { StaysInside S.Store HasReason (CreatesTable sql.now) tx.old tx.new result }
    ensures ran { HasCleanDisk (state S.Store tx.new.conn.now)
        → IsTrue (state S.Store tx.old.conn.now).in_transaction
        → OnOk result (Ran S.Store sql.now tx.old.conn.now tx.new.conn.now) }
{
    tx.execute(sql, &[])?;
    Ok(())
}

/// Writes the row of format 2 into tables that have every other row of a state.
pub(crate) fn insert_format<S: Alter>(tx: &mut Transaction<'_, S>) -> Result<(), Error>
    ensures runs { StaysInside S.Store HasReason InsertsFormat tx.old tx.new result }
    ensures ran { HasCleanDisk (state S.Store tx.new.conn.now)
        → IsTrue (state S.Store tx.old.conn.now).in_transaction
        → OnOk result (Ran S.Store format_text tx.old.conn.now tx.new.conn.now) }
{
    tx.execute(
        "INSERT INTO streetmap_meta (name, value) VALUES ('format', 2)",
        &[],
    )?;
    Ok(())
}

/// Makes the four tables and the format row.
fn make_inside<S: Alter>(tx: &mut Transaction<'_, S>) -> Result<(), Error>
    ensures { StaysInside S.Store HasReason MakesInside tx.old tx.new result }
{
    create_table(tx, CREATE_META)?;
    create_table(
        tx,
        "CREATE TABLE streetmap_collections (id TEXT PRIMARY KEY, title TEXT NOT NULL, time TEXT) STRICT",
    )?;
    create_table(
        tx,
        "CREATE TABLE streetmap_batches (key TEXT PRIMARY KEY, body TEXT NOT NULL, opened INTEGER NOT NULL, inserted INTEGER NOT NULL, replaced INTEGER NOT NULL, deleted INTEGER NOT NULL, serial INTEGER NOT NULL UNIQUE) STRICT",
    )?;
    create_table(tx, CREATE_FEATURES)?;
    insert_format(tx)
}

/// Makes the four tables in a transaction of its own, which is rolled back if it fails.
fn make_alone<S: Alter>(conn: &mut Connection<S>) -> Result<(), Error>
    requires idle { conn.old.in_transaction ≡ false }
    ensures idle { conn.new.in_transaction ≡ false }
    ensures reason { HasCleanDisk (state S.Store conn.new) →
        IfErr result (HasReason (state S.Store conn.old) (state S.Store conn.new)) }
    ensures survives { Survives (state S.Store conn.old) (state S.Store conn.new) (λ _. Unit {0}) }
    ensures made { HasCleanDisk (state S.Store conn.new) → IsReady (state S.Store conn.old)
        → MakesAlone (state S.Store conn.old) (state S.Store conn.new) result }
    ensures reported { HasCleanDisk (state S.Store conn.new) → IsReady (state S.Store conn.old)
        → is_taken (state S.Store conn.old).now.schema ≡ false
        → IfErr result (IsCreateError our_tables (state S.Store conn.old).now.schema) }
    ensures same { HasCleanDisk (state S.Store conn.new)
        → IfErr result (λ _. IsAsItWas (state S.Store conn.old) (state S.Store conn.new)) }
    ensures crash { HasCleanDisk (state S.Store conn.new) → IsReady (state S.Store conn.old)
        → MayOpen (state S.Store conn.old) (state S.Store conn.new) }
{
    let mut tx = conn.transaction();
    match make_inside(&mut tx) {
        Ok(()) => {
            tx.commit()?;
            Ok(())
        }
        Err(error) => {
            tx.rollback();
            Err(error)
        }
    }
}

/// Makes the four tables with the opening state, in one transaction.
///
/// `Taken` is returned exactly if a table, an index or a view of the connection has one of the four
/// names, and `NotOurs` never. The other results hold for an open connection with no step limit
/// whose tables leave room: each has a tree of its own, none refers to the features, and if one
/// counts its rowids the table of those counts exists. After `Device` the connection may be closed;
/// if it is open its tables are as they were.
///
/// # Errors
///
/// `Taken`; `Memory` if memory runs out and the connection is open and as it was; `Device` if the
/// store fails, with its error, or if the schema has no place for the tables: with `SchemaTooBig`
/// if too few numbers of trees are left, and with `NameTaken` if the name of an index that SQLite
/// makes for one of their keys is used. After memory ran out `probe` checks the connection: if
/// memory runs out there too, it is `Device` with that error.
pub fn make_tables<S: Alter>(conn: &mut Connection<S>) -> Result<(), CreateFault>
    requires { conn.old.in_transaction ≡ false }
    ensures idle { conn.new.in_transaction ≡ false }
    ensures clean { doubt (state S.Store conn.old).is_clean
        ≤ doubt (state S.Store conn.new).is_clean }
    ensures of_tables { result ≢ Err CreateFault.NotOurs }
    ensures taken { (result ≡ Err CreateFault.Taken) ↔ IsTrue
        (is_taken (state S.Store conn.old).now.schema) }
    ensures untouched { result ≡ Err CreateFault.Taken → conn.new ≡ conn.old }
    ensures reason { HasCleanDisk (state S.Store conn.new) →
        IfErr result (IsReasoned (state S.Store conn.old) (state S.Store conn.new)) }
    ensures made { HasCleanDisk (state S.Store conn.new) → IsReady (state S.Store conn.old)
        → Makes (state S.Store conn.old) (state S.Store conn.new) result }
    ensures reported { HasCleanDisk (state S.Store conn.new) → IsReady (state S.Store conn.old)
        → IfErr result (IsReturned (state S.Store conn.old).now.schema) }
    ensures same { HasCleanDisk (state S.Store conn.new)
        → IfErr result (λ _. IsAsItWas (state S.Store conn.old) (state S.Store conn.new)) }
    ensures elsewhere { HasCleanDisk (state S.Store conn.new) → IsReady (state S.Store conn.old)
        → IsTrue (state S.Store conn.new).is_open
        → KeepsOtherTables (state S.Store conn.old).now (state S.Store conn.new).now }
    ensures crash { HasCleanDisk (state S.Store conn.new) → IsReady (state S.Store conn.old)
        → MayOpen (state S.Store conn.old) (state S.Store conn.new) }
{
    if is_one_used(conn.schema()) {
        return Err(CreateFault::Taken);
    }
    let Err(error) = make_alone(conn) else {
        return Ok(());
    };
    if !is_memory(error) {
        return Err(CreateFault::Device(error));
    }
    match probe(conn) {
        Ok(()) => Err(CreateFault::Memory),
        Err(error) => Err(CreateFault::Device(error)),
    }
}
