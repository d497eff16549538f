//! What the program ends with if its arguments, a file, a text or a stream fails.
ghost use Rattle.std.specs.Prelude.{◌≡◌, ◌≢◌};
ghost use Rattle.std.specs.IoError.{error_kind};
ghost use Rattle.streetmap.specs.Faults.{fault_of_create, fault_of_open, fault_of_check};
ghost use Rattle.streetmap.specs.Faults.{fault_of_text, end_of_stream, end_of_followed};
ghost use Rattle.streetmap.specs.Faults.{fault_of_keeper, fault_of_journal, fault_of_start};
ghost use Rattle.streetmap.specs.Faults.{fault_of_replay};
ghost use Rattle.streetmap.specs.Faults.{fault_of_store, fault_of_file, fault_of_port};

use sqlite::{Error as StoreError, ErrorCode};
use std::io::{Error, ErrorKind};
use streetmap_checking::{Shut, Stop};
use streetmap_faults::ProgramFault;
use streetmap_journal::StartFault;
use streetmap_ledger::Fault;
use streetmap_replay::{Followed, ReplayFault};
use streetmap_store::{CreateFault, OpenFault};
use streetmap_web::End;

/// The fault of arguments that cannot be read: one of them is not UTF-8, or an allocation fails.
pub(crate) fn of_words(error: &Error) -> ProgramFault
    ensures memory { error_kind error.now ≡ ErrorKind.OutOfMemory
        → result ≡ ProgramFault.Memory }
    ensures other { error_kind error.now ≢ ErrorKind.OutOfMemory
        → result ≡ ProgramFault.Usage }
{
    if error.kind() == ErrorKind::OutOfMemory {
        ProgramFault::Memory
    } else {
        ProgramFault::Usage
    }
}

/// The fault of a text that cannot be read: its file does not exist, an allocation fails, or a read
/// fails.
pub(crate) fn of_text(error: &Error) -> ProgramFault
    ensures { result ≡ fault_of_text (error_kind error.now) }
{
    match error.kind() {
        ErrorKind::NotFound => ProgramFault::NoText,
        ErrorKind::OutOfMemory => ProgramFault::Memory,
        _ => ProgramFault::ReadFailed,
    }
}

/// The fault of a journal that cannot be opened: an allocation fails, or the device fails.
pub(crate) fn of_journal(error: &Error) -> ProgramFault
    ensures { result ≡ fault_of_journal (error_kind error.now) }
{
    if error.kind() == ErrorKind::OutOfMemory {
        ProgramFault::Memory
    } else {
        ProgramFault::NoJournal
    }
}

/// The fault of a journal that is not begun.
pub(crate) fn of_start(fault: &StartFault) -> ProgramFault
    ensures { result ≡ fault_of_start fault.now }
{
    match fault {
        StartFault::Ahead => ProgramFault::JournalAhead,
        StartFault::Other(serial) => ProgramFault::NotItsJournal(*serial),
        StartFault::NotOpened(error) => of_journal(error),
        StartFault::NotRead => ProgramFault::ReadFailed,
        StartFault::Stopped(fault) => of_keeper(*fault),
    }
}

/// How the program ends after a stream of requests.
pub(crate) fn of_stream(end: End) -> Result<(), ProgramFault>
    ensures { result ≡ end_of_stream end }
{
    match end {
        End::Ended | End::Truncated => Ok(()),
        End::ReadFailed => Err(ProgramFault::ReadFailed),
        End::WriteFailed | End::FlushFailed => Err(ProgramFault::WriteFailed),
    }
}

/// The fault of a store that is not opened.
fn of_store(error: &StoreError) -> ProgramFault
    ensures { result ≡ fault_of_store error.now }
{
    match error {
        StoreError::SqliteFailure(ErrorCode::DatabaseBusy) => ProgramFault::InUse,
        StoreError::SqliteFailure(ErrorCode::DatabaseCorrupt) => ProgramFault::DamagedDatabase,
        _ => ProgramFault::NotOpened,
    }
}

/// The fault of a file that is not opened, by the error of opening it or its folder.
pub(crate) fn of_file(error: &Error) -> ProgramFault
    ensures { result ≡ fault_of_file (error_kind error.now) }
{
    match error.kind() {
        ErrorKind::NotFound | ErrorKind::NotADirectory => ProgramFault::NoFolder,
        ErrorKind::PermissionDenied | ErrorKind::ReadOnlyFilesystem => ProgramFault::NoRight,
        _ => ProgramFault::NotOpened,
    }
}

/// The fault of a port at which nothing listens.
pub(crate) fn of_port(port: u16, error: &Error) -> ProgramFault
    ensures { result ≡ fault_of_port port (error_kind error.now) }
{
    match error.kind() {
        ErrorKind::AddrInUse => ProgramFault::PortTaken(port),
        ErrorKind::PermissionDenied => ProgramFault::NoRightToPort(port),
        _ => ProgramFault::NotBound(port),
    }
}

/// The fault of a file that is not made.
pub(crate) fn of_create(fault: &CreateFault) -> ProgramFault
    ensures { result ≡ fault_of_create fault.now }
{
    match fault {
        CreateFault::NotOurs => ProgramFault::NotOurs,
        CreateFault::Taken => ProgramFault::Taken,
        CreateFault::Device(error) => of_store(error),
        CreateFault::Memory => ProgramFault::Memory,
    }
}

/// The fault of a file that is not opened.
pub(crate) fn of_open(fault: &OpenFault) -> ProgramFault
    ensures { result ≡ fault_of_open fault.now }
{
    match fault {
        OpenFault::NotOurs => ProgramFault::NotOurs,
        OpenFault::NewFormat => ProgramFault::NewFormat,
        OpenFault::Damaged => ProgramFault::Damaged,
        OpenFault::Device(error) => of_store(error),
        OpenFault::Memory => ProgramFault::Memory,
    }
}

/// The fault of a keeper that does not answer.
pub(crate) fn of_keeper(fault: Fault) -> ProgramFault
    ensures { result ≡ fault_of_keeper fault }
{
    match fault {
        Fault::Memory => ProgramFault::Memory,
        Fault::Damaged => ProgramFault::Damaged,
        Fault::Device | Fault::Reopen => ProgramFault::Device,
    }
}

/// The fault of rows that are not a state's.
pub(crate) fn of_check(stop: Stop) -> ProgramFault
    ensures { result ≡ fault_of_check stop }
{
    match stop {
        Stop::Closed(Shut::Damaged) => ProgramFault::Damaged,
        Stop::Closed(Shut::Device(_)) => ProgramFault::Device,
        Stop::Memory => ProgramFault::Memory,
    }
}

/// The fault of a replay that does not end well.
pub(crate) fn of_replay(fault: &ReplayFault) -> ProgramFault
    ensures { result ≡ fault_of_replay fault.now }
{
    match fault {
        ReplayFault::Kept(fault) | ReplayFault::Fresh(fault) => of_keeper(*fault),
        ReplayFault::Memory => ProgramFault::Memory,
        ReplayFault::Batch(serial) => ProgramFault::NotReplayed(Some(*serial)),
        ReplayFault::Collection(_) => ProgramFault::NotReplayed(None),
    }
}

/// How the program ends after lines of batches were followed.
pub(crate) fn of_followed(followed: Followed) -> Result<(), ProgramFault>
    ensures { result ≡ end_of_followed followed }
{
    match followed.fault {
        None => Ok(()),
        Some(fault) => Err(ProgramFault::Follow(followed.count, fault)),
    }
}
