//! Making and opening.
ghost use Rattle.std.specs.Prelude.{◌≡◌, IfOk, IfErr};
ghost use Rattle.sqlite_wal.specs.Files.{image_at};
ghost use Rattle.sqlite.specs.State.{HasCleanDisk};
ghost use Rattle.sqlite.specs.Files.{file_state, IsNothing};
ghost use Rattle.streetmap_ledger.specs.State.{State, opening_state};
ghost use Rattle.streetmap_store.specs.CallResults.{KeepsState};
ghost use Rattle.streetmap_store.specs.HeldFiles.{HoldsState, HoldsOldState, LeavesRoom};
ghost use Rattle.streetmap_store.specs.Reasons.{IsCleanRest, RefusesToOpen};
ghost use Rattle.streetmap_store.specs.Reasons.{RefusesToCreate};
ghost use Rattle.streetmap_store.specs.Reasons.{OpenBlamesNoFile, CreateBlamesNoFile, StaysAsItWas};
ghost use Rattle.streetmap_store.specs.Reasons.{HoldsStill};
ghost use Rattle.streetmap_store.specs.Reasons.{OpensNothing, CreatesNothing};

use crate::connection::connect;
use crate::fault::{Left, not_made, unopened};
use crate::keeper::TableKeeper;
use sqlite::{Connection, FileFrom, FileStore, Leftover, Start};
use streetmap_tables::{CreateFault, OpenFault};

/// A keeper over the files at a path, which held what `S` says.
pub type FileKeeper<S> = TableKeeper<FileStore<FileFrom<S>>>;

/// What is left of the files at a path, which were refused.
pub type FilesLeft<S> = Left<Leftover<FileFrom<S>>, Connection<FileStore<FileFrom<S>>>>;

/// Makes the four tables in the database at a path, with the opening state, and keeps it there.
///
/// The database and its log are made if they are missing, and leave room for the tables
/// (`laws::new_files_leave_room`); other tables of an existing database stay. After a refusal files
/// that were made stay too, and what is left of the files, returned beside the refusal, holds what
/// they held.
///
/// # Errors
///
/// `NotOurs` if the file is no database, `Taken` if one of the four names is used in it, `Device`
/// if it cannot be opened, is in use or the store fails, and `Memory`. In new files it is one of
/// the last two.
pub fn create<S: Start>(
    rt: &HostRuntime,
    path: &str,
    start: S,
) -> Result<FileKeeper<S>, (CreateFault, FilesLeft<S>)>
    ensures made { IfOk result (λ keeper. HasCleanDisk (file_state keeper.conn)
        → LeavesRoom (image_at S.Start)
        → KeepsState keeper.shut (file_state keeper.conn) keeper.count opening_state) }
    ensures refused { IfErr result (λ refused. IsCleanRest refused.1
        → RefusesToCreate (image_at S.Start) refused.0) }
    ensures new_files { IfErr result (λ refused. IsCleanRest refused.1
        → IsNothing (image_at S.Start) → CreateBlamesNoFile refused.0) }
    ensures unopened { IfErr result (λ refused. refused.1 ≡ Left.Nothing
        → CreatesNothing refused.0) }
    ensures stays { IfErr result (λ refused. IsCleanRest refused.1
        → HoldsStill (image_at S.Start) refused.1) }
{
    let conn = match connect(rt, path, start) {
        Ok(conn) => conn,
        Err((error, left)) => return Err((not_made(error), left)),
    };
    match TableKeeper::make(rt.alloc(), conn) {
        Ok(keeper) => Ok(keeper),
        Err((fault, conn)) => Err((fault, Left::Connection(conn))),
    }
}

/// Opens the tables of the database at a path, and keeps their state. Those of format 1 are
/// migrated to format 2 first, in one transaction: a crash within leaves the state in one format or
/// the other.
///
/// While it is open as many of its pages are kept in memory as it has now and a quarter more, but
/// from 8 to 512 MB.
///
/// A file that is missing is made, and refused as `NotOurs`: check first whether it exists. After a
/// refusal the files hold what they held. What is left of them is returned beside the refusal.
///
/// # Errors
///
/// `NotOurs` if the file is no database or has no format row of this product, `NewFormat` for a
/// format above 2, `Damaged` for format 1 with a row that this product does not write, `Device` if
/// it cannot be opened, is in use or the store fails, and `Memory`. On the tables of a state, of
/// either format, it is one of the last two.
pub fn open<S: Start>(
    rt: &HostRuntime,
    path: &str,
    start: S,
) -> Result<FileKeeper<S>, (OpenFault, FilesLeft<S>)>
    ensures opened { IfOk result (λ keeper. HasCleanDisk (file_state keeper.conn) → (s : State)
        → HoldsState (image_at S.Start) s
        → KeepsState keeper.shut (file_state keeper.conn) keeper.count s) }
    ensures carried { IfOk result (λ keeper. HasCleanDisk (file_state keeper.conn) → (s : State)
        → HoldsOldState (image_at S.Start) s
        → KeepsState keeper.shut (file_state keeper.conn) keeper.count s) }
    ensures refused { IfErr result (λ refused. IsCleanRest refused.1
        → RefusesToOpen (image_at S.Start) refused.0 refused.1) }
    ensures ours { IfErr result (λ refused. IsCleanRest refused.1 → (s : State)
        → HoldsState (image_at S.Start) s → OpenBlamesNoFile refused.0) }
    ensures ours_old { IfErr result (λ refused. IsCleanRest refused.1 → (s : State)
        → HoldsOldState (image_at S.Start) s → OpenBlamesNoFile refused.0) }
    ensures unopened { IfErr result (λ refused. refused.1 ≡ Left.Nothing
        → OpensNothing refused.0) }
    ensures stays { IfErr result (λ refused. IsCleanRest refused.1
        → StaysAsItWas (image_at S.Start) refused.1) }
{
    let conn = match connect(rt, path, start) {
        Ok(conn) => conn,
        Err((error, left)) => return Err((unopened(error), left)),
    };
    match TableKeeper::adopt(rt.alloc(), conn) {
        Ok(keeper) => Ok(keeper),
        Err((fault, conn)) => Err((fault, Left::Connection(conn))),
    }
}
