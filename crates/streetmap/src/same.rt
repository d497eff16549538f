//! Whether a path names the file of a command, or the log beside it.
use std::fs::metadata;
use std::os::unix::fs::MetadataExt;
use streetmap_faults::ProgramFault;

/// Whether two paths name one file, by its device and inode.
fn is_one(rt: &HostRuntime, one: &str, other: &str) -> bool {
    match (metadata(rt, one), metadata(rt, other)) {
        (Ok(one), Ok(other)) => one.dev() == other.dev() && one.ino() == other.ino(),
        _ => false,
    }
}

/// The folder of a path, and the name in it.
pub(crate) fn parts(path: &str) -> (&str, &str) {
    match path.rsplit_once('/') {
        Some(("", name)) => ("/", name),
        Some((folder, name)) => (folder, name),
        None => (".", path),
    }
}

/// Refuses a path that names the file, or the log beside it, also if the log does not exist yet:
/// while the file is in use nothing else of the program may open these.
pub(crate) fn refuse_same(rt: &HostRuntime, file: &str, path: &str) -> Result<(), ProgramFault> {
    let log = format!(in rt.alloc(); "{file}-wal")?;
    let ((log_folder, log_name), (folder, name)) = (parts(log.as_str()), parts(path));
    let is_log = log_name == name && is_one(rt, log_folder, folder);
    if is_log || is_one(rt, file, path) || is_one(rt, log.as_str(), path) {
        Err(ProgramFault::SameFile)
    } else {
        Ok(())
    }
}
