//! Tables of a connection, created beside others.
use crate::files::{Visit, output_of_new};
use sqlite::{Alter, Connection};
use std::alloc::Global;
use std::test::Fail;
use streetmap_tables::{CreateFault, adopt_tables, make_tables};

/// Whether the tables were created.
fn made<S: Alter>(conn: &mut Connection<S>) -> bool {
    conn.is_autocommit() && make_tables(conn).is_ok()
}

/// Whether a name is taken.
fn taken<S: Alter>(conn: &mut Connection<S>) -> bool {
    conn.is_autocommit() && matches!(make_tables(conn), Err(CreateFault::Taken))
}

/// Whether the tables are opened, with no batch.
fn opens<S: Alter>(conn: &mut Connection<S>) -> bool {
    conn.is_autocommit() && matches!(adopt_tables(conn), Ok(Some(0)))
}

/// Whether statements were run.
fn ran<S: Alter>(conn: &mut Connection<S>, statements: &str) -> bool {
    conn.execute_batch(statements).is_ok()
}

/// How many notes another table has; none if it does not exist.
fn notes<S: Alter>(conn: &mut Connection<S>) -> Option<i64> {
    let row = conn.query_row("SELECT count(*) FROM notes", &[]).ok()?;
    row.get(0).ok()
}

/// A table whose rowids are counted, with a row, and a view of one of the names of our tables.
const BESIDE: &str =
    "CREATE TABLE notes (id INTEGER PRIMARY KEY AUTOINCREMENT, text TEXT) STRICT; INSERT INTO notes (text) VALUES ('a'); CREATE VIEW Streetmap_Batches AS SELECT 1";

/// The tables are created beside others once none of their names is taken, and opened: what was
/// seen, and whether the other table's row is still there.
#[derive(Clone, Copy)]
struct MakeBeside;

impl Visit for MakeBeside {
    type Output = [bool; 4];

    fn visit<S: Alter + Drop>(self, _: Global, conn: Connection<S>) -> ([bool; 4], Option<S>) {
        let mut conn = conn;
        let is_taken = ran(&mut conn, BESIDE) && taken(&mut conn);
        let is_made = ran(&mut conn, "DROP VIEW Streetmap_Batches") && made(&mut conn);
        let is_opened = taken(&mut conn) && opens(&mut conn);
        let is_kept = notes(&mut conn) == Some(1);
        let seen = [is_taken, is_made, is_opened, is_kept];
        (seen, Some(conn.into_store()))
    }
}

#[test]
fn tables_are_made_once_and_opened(rt: HostRuntime) -> Result<(), Fail> {
    let seen = output_of_new(rt.alloc(), MakeBeside);
    assert_eq!(rt; seen, Some([true; 4]));
    Ok(())
}
