//! The tables of the features and of the format are dropped and made again.
ghost use Rattle.std.specs.Prelude.{IsTrue, OnOk};
ghost use Rattle.sqlite.specs.Held.{state};
ghost use Rattle.sqlite.specs.State.{HasCleanDisk};
ghost use Rattle.streetmap_rows.specs.Failures.{HasReason};
ghost use Rattle.streetmap_tables.specs.Part.{Ran, RanEach, remaking_texts};
ghost use Rattle.streetmap_rows.specs.TransactionCalls.{StaysInside};
ghost use Rattle.streetmap_tables.specs.TableCalls.{DropsTable, RemakesTables};

use crate::creation::{create_table, insert_format};
use sqlite::{Alter, Error, Transaction};
use streetmap_rows::{CREATE_FEATURES, CREATE_META};

/// Drops a table by its text, which is one DROP TABLE.
fn drop_table<S: Alter>(tx: &mut Transaction<'_, S>, sql: &str) -> Result<(), Error>
    ensures runs { StaysInside S.Store HasReason (DropsTable sql.now) tx.old tx.new result }
    ensures ran { HasCleanDisk (state S.Store tx.new.conn.now)
        → IsTrue (state S.Store tx.old.conn.now).in_transaction
        → OnOk result (Ran S.Store sql.now tx.old.conn.now tx.new.conn.now) }
{
    tx.execute(sql, &[])?;
    Ok(())
}

/// Drops the tables of the features and of the format, and makes those of format 2 with the format
/// row.
pub(crate) fn remake_tables<S: Alter>(tx: &mut Transaction<'_, S>) -> Result<(), Error>
    ensures runs { StaysInside S.Store HasReason RemakesTables tx.old tx.new result }
    ensures ran { HasCleanDisk (state S.Store tx.new.conn.now)
        → IsTrue (state S.Store tx.old.conn.now).in_transaction
        → OnOk result (RanEach S.Store remaking_texts tx.old.conn.now tx.new.conn.now) }
{
    drop_table(tx, "DROP TABLE streetmap_features")?;
    drop_table(tx, "DROP TABLE streetmap_meta")?;
    create_table(tx, CREATE_META)?;
    create_table(tx, CREATE_FEATURES)?;
    insert_format(tx)
}
