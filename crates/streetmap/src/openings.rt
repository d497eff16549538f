//! FILE, opened.
ghost use Rattle.std.specs.Prelude.{IfOk};
ghost use Rattle.sqlite_wal.specs.Files.{image_at};
ghost use Rattle.streetmap_ledger.specs.State.{State};
ghost use Rattle.streetmap.specs.Images.{HoldsTables};

use crate::fault;
use crate::files::with_cause;
use sqlite::Start;
use streetmap_faults::ProgramFault;
use streetmap_index::IndexedKeeper;
use streetmap_ledger::Keeper;
use streetmap_store::{FileKeeper, open};

/// A keeper over the tables of files that held what `S` says, with an index in memory.
pub(crate) type ServedFile<S> = IndexedKeeper<FileKeeper<S>>;

/// Opens the tables of the database at a path (`streetmap_store::open`).
pub(crate) fn open_file<S: Start>(
    rt: &HostRuntime,
    path: &str,
    start: S,
) -> Result<FileKeeper<S>, ProgramFault>
    ensures opened { IfOk result (λ keeper. ⟦<FileKeeper<S> as Keeper>⟧.model.is_clean keeper →
        (s : State) → HoldsTables (image_at S.Start) s →
        ⟦<FileKeeper<S> as Keeper>⟧.model.represents keeper s) }
{
    match open(rt, path, start) {
        Ok(keeper) => Ok(keeper),
        Err((refused, _)) => Err(with_cause(rt, path, fault::of_open(&refused))),
    }
}

/// Opens them with an index that has learnt no collection yet.
pub(crate) fn open_indexed<S: Start>(
    rt: &HostRuntime,
    path: &str,
    start: S,
) -> Result<ServedFile<S>, ProgramFault>
    ensures opened { IfOk result (λ keeper. ⟦<ServedFile<S> as Keeper>⟧.model.is_clean keeper →
        (s : State) → HoldsTables (image_at S.Start) s →
        ⟦<ServedFile<S> as Keeper>⟧.model.represents keeper s) }
{
    let keeper = open_file(rt, path, start)?;
    Ok(IndexedKeeper::new(rt.alloc(), keeper))
}
