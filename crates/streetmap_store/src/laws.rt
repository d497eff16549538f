//! Laws of files.
ghost use Rattle.streetmap_store.specs.Reasons.{NewFilesLeaveRoom};

/// Files that are new, or that an opening left half made, leave room for the tables, so `create`
/// says what it makes of them.
pub fn new_files_leave_room()
    ensures { NewFilesLeaveRoom }
{}
