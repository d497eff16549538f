//! Why a file is not made or opened, and what is left of it.
ghost use Rattle.std.specs.Prelude.{◌≡◌};
ghost use Rattle.streetmap_store.specs.RefusalCauses.{refused_to_open, refused_to_create};

use sqlite::{Error, ErrorCode};
use streetmap_tables::{CreateFault, OpenFault};

/// What is left of files that were refused. They are locked until it is dropped, and closed then.
#[derive(Drop)]
pub enum Left<F, C> {
    /// Nothing: they were not opened.
    Nothing,
    /// The files, on which no connection was opened.
    Files(F),
    /// The connection to them.
    Connection(C),
}

/// Why files on which no connection was opened were not opened.
pub(crate) fn unopened(error: Error) -> OpenFault
    ensures { result ≡ refused_to_open error }
{
    match error {
        Error::SqliteFailure(ErrorCode::NotADatabase) => OpenFault::NotOurs,
        Error::SqliteFailure(ErrorCode::OutOfMemory) => OpenFault::Memory,
        _ => OpenFault::Device(error),
    }
}

/// Why no tables were made in files on which no connection was opened.
pub(crate) fn not_made(error: Error) -> CreateFault
    ensures { result ≡ refused_to_create error }
{
    match error {
        Error::SqliteFailure(ErrorCode::NotADatabase) => CreateFault::NotOurs,
        Error::SqliteFailure(ErrorCode::OutOfMemory) => CreateFault::Memory,
        _ => CreateFault::Device(error),
    }
}
