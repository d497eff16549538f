//! What the commands do with a file: whether it exists, and over which keeper they work.
use crate::exchange::read_batch;
use crate::opened::{
    apply_file, check_file, export_file, import_file, load_file, print_file, replay_file,
};
use crate::same::{parts, refuse_same};
use crate::served::{pipe_file, serve_file};
use crate::{fault, loads};
use sqlite::Unknown;
use std::fs::{OpenOptions, exists, metadata};
use std::io::ErrorKind;
use streetmap_command::{Connections, Import, JournalArguments, LoadArguments};
use streetmap_faults::ProgramFault;
use streetmap_placing::Numbers;
use streetmap_routes::Base;
use streetmap_web::{Guard, Site};

/// Whether a file of that name exists.
fn is_there(rt: &HostRuntime, path: &str) -> Result<bool, ProgramFault> {
    exists(rt, path).map_err(|error| fault::of_file(&error))
}

/// Refuses a file that does not exist.
fn refuse_missing(rt: &HostRuntime, path: &str) -> Result<(), ProgramFault> {
    if is_there(rt, path)? {
        Ok(())
    } else {
        Err(ProgramFault::NoFile)
    }
}

/// Why a file is not opened: the file is examined, or its folder if it does not exist.
fn fault_at(rt: &HostRuntime, path: &str) -> ProgramFault {
    match OpenOptions::new().read(true).write(true).open(rt, path) {
        Ok(_) => ProgramFault::NotOpened,
        Err(error) if error.kind() == ErrorKind::NotFound => match metadata(rt, parts(path).0) {
            Ok(_) => ProgramFault::NoRight,
            Err(error) => fault::of_file(&error),
        },
        Err(error) => fault::of_file(&error),
    }
}

/// The fault of a file that is not opened, with its cause if the store does not know it.
pub(crate) fn with_cause(rt: &HostRuntime, path: &str, fault: ProgramFault) -> ProgramFault {
    match fault {
        ProgramFault::NotOpened => fault_at(rt, path),
        fault => fault,
    }
}

/// Makes an empty file if it does not exist.
fn make(rt: &HostRuntime, path: &str) -> Result<(), ProgramFault> {
    match streetmap_store::create(rt, path, Unknown) {
        Ok(_keeper) => Ok(()),
        Err((refused, _)) => Err(with_cause(rt, path, fault::of_create(&refused))),
    }
}

/// Makes an empty file.
pub(crate) fn create(rt: &HostRuntime, path: &str) -> Result<(), ProgramFault> {
    if is_there(rt, path)? {
        Err(ProgramFault::Exists)
    } else {
        make(rt, path)
    }
}

/// Serves the requests of standard input over a file.
pub(crate) fn pipe(rt: &HostRuntime, path: &str, site: Site) -> Result<(), ProgramFault> {
    refuse_missing(rt, path)?;
    fault::of_stream(pipe_file(rt, path, Unknown, &site)?.end)
}

/// Writes a collection of a file on standard output.
pub(crate) fn export(
    rt: &HostRuntime,
    path: &str,
    collection: &str,
    progress: bool,
) -> Result<(), ProgramFault> {
    refuse_missing(rt, path)?;
    export_file(rt, path, Unknown, collection, progress)?.ended
}

/// Prints the kept batches of a file after a serial.
pub(crate) fn print_batches(rt: &HostRuntime, path: &str, after: u32) -> Result<(), ProgramFault> {
    refuse_missing(rt, path)?;
    print_file(rt, path, Unknown, after)?.ended
}

/// The bytes of a file; 0 if it does not exist.
fn length_of(rt: &HostRuntime, path: &str) -> u64 {
    metadata(rt, path).map_or(0, |found| found.len())
}

/// Reports on standard error which file is opened, and how large it is with the log beside it: a
/// large one takes a while.
fn report_size(rt: &HostRuntime, path: &str) {
    if let Ok(log) = format!(in rt.alloc(); "{path}-wal") {
        let bytes = length_of(rt, path).saturating_add(length_of(rt, log.as_str()));
        let _ = eprintln!(rt; "streetmap: opening {path}, {bytes} bytes");
    }
}

/// Serves the connections of a port over a file.
pub(crate) fn serve(
    rt: &HostRuntime,
    path: &str,
    connections: Connections,
    base: Base,
    guard: Guard,
    journal: Option<JournalArguments<'_>>,
) -> Result<(), ProgramFault> {
    refuse_missing(rt, path)?;
    if let Some(requested) = journal {
        refuse_same(rt, path, requested.path)?;
    }
    report_size(rt, path);
    serve_file(rt, path, Unknown, connections, base, guard, journal)?.ended
}

/// Reads all rows of a file; before that its kept batches are replayed, if that is requested.
pub(crate) fn check(rt: &HostRuntime, path: &str, replay: bool) -> Result<(), ProgramFault> {
    refuse_missing(rt, path)?;
    if replay {
        replay_file(rt, path, Unknown)?.ended?;
        refuse_missing(rt, path)?;
    }
    check_file(rt, path, Unknown)
}

/// Puts the features of a text into a collection of a file. The text is read, and its batch made,
/// before the file is opened: a text that is refused writes nothing.
pub(crate) fn import(
    rt: &HostRuntime,
    path: &str,
    requested: Import<'_>,
) -> Result<(), ProgramFault> {
    refuse_missing(rt, path)?;
    let batch = read_batch(rt, requested)?;
    import_file(rt, path, Unknown, &batch)?.ended
}

/// Puts the features of a text into a collection of a file by batches, or prints these.
pub(crate) fn load(
    rt: &HostRuntime,
    path: &str,
    requested: LoadArguments<'_>,
    numbers: Numbers,
) -> Result<(), ProgramFault> {
    let is_file = is_there(rt, path)?;
    let load = loads::read(rt, requested, numbers)?;
    require_text(rt, path, requested.text)?;
    if requested.print && (requested.opens || !requested.skip) {
        loads::print(rt, load, requested)
    } else if is_file {
        load_file(rt, path, Unknown, load, requested)?.ended
    } else {
        Err(ProgramFault::NoFile)
    }
}

/// Applies the lines of a text, or of standard input, to a file.
pub(crate) fn apply(rt: &HostRuntime, path: &str, text: Option<&str>) -> Result<(), ProgramFault> {
    refuse_missing(rt, path)?;
    require_text(rt, path, text)?;
    apply_file(rt, path, Unknown, text)?.ended
}

/// Checks that a text exists, if one is named, and is not the file.
fn require_text(rt: &HostRuntime, file: &str, text: Option<&str>) -> Result<(), ProgramFault> {
    let Some(path) = text else {
        return Ok(());
    };
    match exists(rt, path) {
        Ok(true) => refuse_same(rt, file, path),
        Ok(false) => Err(ProgramFault::NoText),
        Err(error) => Err(fault::of_text(&error)),
    }
}
