//! Files in memory that fail after a number of calls, and what is done over a connection to them.
//! Only here is their store named.
ghost use Rattle.std.specs.Prelude.{◌≡◌, false, IfOk, IsTrue};
ghost use Rattle.sqlite_disk.specs.Memory.{memory_is_usable};

use sqlite::{Alter, Connection};
use sqlite_disk::{Disk, Files, Fuse, Memory};
use sqlite_pager::Options;
use std::alloc::Global;
use std::test::Fail;

/// A file that stops taking calls.
pub(crate) type Fused = Fuse<Memory>;

/// How many calls the log and the database take.
#[derive(Clone, Copy)]
pub(crate) struct Calls {
    pub(crate) log: u64,
    pub(crate) db: u64,
}

/// No limit.
pub(crate) const ALL_CALLS: Calls = Calls {
    log: u64::MAX,
    db: u64::MAX,
};

/// What is done over a connection, whatever its store.
pub(crate) trait Visit {
    /// Its result.
    type Output;

    /// Does it, and returns the store, unless it was dropped.
    fn visit<S: Alter + Drop>(self, alloc: Global, conn: Connection<S>) -> (Self::Output, Option<S>)
        requires { conn.in_transaction ≡ false };
}

/// A file with these bytes.
fn file(alloc: Global, bytes: &[u8]) -> Result<Memory, Fail>
    ensures { IfOk result (λ file. IsTrue (memory_is_usable file)) }
{
    let mut file = Memory::new(alloc);
    file.write_at(0, bytes)?;
    file.sync()?;
    Ok(file)
}

/// Opens two files for a visit. Returns its result, nothing if they were not opened; and what is
/// left of them, nothing if their store was dropped.
fn visit_fused<V: Visit + Drop>(
    alloc: Global,
    log: Memory,
    db: Memory,
    calls: Calls,
    visit: V,
) -> (Option<V::Output>, Option<Files<Fused>>)
    requires log { IsTrue (memory_is_usable log) }
    requires db { IsTrue (memory_is_usable db) }
{
    let log = Fuse::new(log, calls.log);
    let db = Fuse::new(db, calls.db);
    match Connection::open_files(alloc, Files { log, db }, Options::new(1)) {
        Ok(conn) => {
            let (output, store) = visit.visit(alloc, conn);
            (Some(output), store.map(|store| store.close()))
        }
        Err((_, left)) => (None, Some(left.into_files())),
    }
}

/// A visit to new files.
pub(crate) fn visit_new<V: Visit + Drop>(
    alloc: Global,
    calls: Calls,
    visit: V,
) -> (Option<V::Output>, Option<Files<Fused>>) {
    visit_fused(alloc, Memory::new(alloc), Memory::new(alloc), calls, visit)
}

/// The result of a visit to new files that take all calls.
pub(crate) fn output_of_new<V: Visit + Drop>(alloc: Global, visit: V) -> Option<V::Output> {
    visit_new(alloc, ALL_CALLS, visit).0
}

/// A visit to files with the bytes of these.
pub(crate) fn visit_again<V: Visit + Drop>(
    alloc: Global,
    files: &Files<Fused>,
    calls: Calls,
    visit: V,
) -> Result<(Option<V::Output>, Option<Files<Fused>>), Fail> {
    let log = file(alloc, files.log.inner().bytes())?;
    let db = file(alloc, files.db.inner().bytes())?;
    Ok(visit_fused(alloc, log, db, calls, visit))
}
