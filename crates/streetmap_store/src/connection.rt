//! A connection to the files at a path.
ghost use Rattle.std.specs.Prelude.{true, false, ◌≡◌, ◌≤◌, IsTrue, IfOk, IfErr};
ghost use Rattle.sqlite_wal.specs.Files.{image_at};
ghost use Rattle.sqlite_std_file.specs.File.{file_is_usable, IsFresh};
ghost use Rattle.streetmap_store.specs.HeldFiles.{IsJustOpenedOn};
ghost use Rattle.streetmap_store.specs.Reasons.{IsCleanRest, FailsToConnect, IsUnopened};

use crate::fault::Left;
use crate::file::FilesLeft;
use sqlite::{Connection, Error, ErrorCode, FileFrom, FileStore, Files, Options, Start};
use sqlite_std_file::OpenError;
use std::fs::{File, metadata};
use std::hash::{BuildHasher, RandomState};
use std::io::{ErrorKind, Read};

/// How many pages are kept in memory at least: 8 MB.
const FEWEST_PAGES: usize = 2_000;

/// How many pages are kept in memory at most: 512 MB.
const MOST_PAGES: usize = 131_072;

/// The bytes of a page of new files.
const PAGE_SIZE: u16 = 4_096;

/// Whether the header of a file says that its pages have 4,096 bytes (SQLite's file format, section
/// 1.3.2).
fn has_pages_as_new(rt: &HostRuntime, path: &str) -> bool {
    let mut header = [0u8; 18];
    let Ok(mut file) = File::open(rt, path) else {
        return false;
    };
    file.read_exact(&mut header).is_ok()
        && u16::from_be_bytes([header[16], header[17]]) == PAGE_SIZE
}

/// How many pages of the file at a path are kept in memory: as many as it has, and a quarter more
/// for those to come. It is read before it is opened, since a later close would release the locks.
fn pages_to_keep(rt: &HostRuntime, path: &str) -> usize
    ensures fewest { 2000 ≤ result }
    ensures most { result ≤ 131072 }
{
    match metadata(rt, path) {
        Ok(found) if found.is_file() && has_pages_as_new(rt, path) => {
            let pages = usize::try_from(found.len() / u64::from(PAGE_SIZE)).unwrap_or(MOST_PAGES);
            (pages.saturating_add(pages / 4)).clamp(FEWEST_PAGES, MOST_PAGES)
        }
        _ => FEWEST_PAGES,
    }
}

/// The error of files that were not opened.
fn not_opened(refused: &OpenError) -> Error
    ensures { IsUnopened result }
{
    let code = match refused {
        OpenError::OutOfMemory => ErrorCode::OutOfMemory,
        OpenError::Io(error) if error.kind() == ErrorKind::OutOfMemory => ErrorCode::OutOfMemory,
        OpenError::Busy => ErrorCode::DatabaseBusy,
        _ => ErrorCode::CannotOpen,
    };
    Error::SqliteFailure(code)
}

/// The files at a path, which are made if they are missing. What SQLite takes for no path is
/// refused.
fn open_files<S: Start>(rt: &HostRuntime, path: &str, start: S) -> Result<Files<FileFrom<S>>, Error>
    ensures usable { IfOk result (λ files. IsTrue (file_is_usable S.Start files.log)
        × IsTrue (file_is_usable S.Start files.db)) }
    ensures fresh { IfOk result (λ files. IsFresh true files.log × IsFresh false files.db) }
    ensures unopened { IfErr result IsUnopened }
{
    if path == ":memory:" || path.starts_with("file:") {
        return Err(Error::SqliteFailure(ErrorCode::CannotOpen));
    }
    match sqlite_std_file::open(rt, path, start) {
        Ok(files) => Ok(files),
        Err(refused) => Err(not_opened(&refused)),
    }
}

/// What the pages of the file at a path are kept by.
fn options(rt: &HostRuntime, path: &str) -> Result<Options, Error>
    ensures unopened { IfErr result IsUnopened }
{
    match RandomState::new(rt) {
        Ok(random) => {
            let mut options = Options::new(random.hash_one(&0u8));
            options.cache_pages = pages_to_keep(rt, path);
            Ok(options)
        }
        Err(_) => Err(Error::SqliteFailure(ErrorCode::CannotOpen)),
    }
}

/// A connection to the files at a path, which are made if they are missing. It is as
/// `Connection::open_from` makes it, but more pages are kept in memory.
pub(crate) fn connect<S: Start>(
    rt: &HostRuntime,
    path: &str,
    start: S,
) -> Result<Connection<FileStore<FileFrom<S>>>, (Error, FilesLeft<S>)>
    ensures opened { IfOk result (IsJustOpenedOn (image_at S.Start)) }
    ensures refused { IfErr result (λ refused. IsCleanRest refused.1
        → FailsToConnect (image_at S.Start) refused.0 refused.1) }
    ensures unopened { IfErr result (λ refused. refused.1 ≡ Left.Nothing
        → IsUnopened refused.0) }
{
    let options = match options(rt, path) {
        Ok(options) => options,
        Err(error) => return Err((error, Left::Nothing)),
    };
    let files = match open_files(rt, path, start) {
        Ok(files) => files,
        Err(error) => return Err((error, Left::Nothing)),
    };
    match Connection::open_files_with(rt.alloc(), files, options, false) {
        Ok(mut conn) => {
            conn.set_clock(rt);
            Ok(conn)
        }
        Err((error, left)) => Err((error, Left::Files(left))),
    }
}
