//! What the commands do to a file that exists, from opening it to the end.
//!
//! Each call ends with the keeper of the file and how the command ended. Of a file that held the
//! tables of a state, its contract says which states a crash may leave then.
ghost use Rattle.std.specs.Prelude.{◌≡◌, ◌||◌, None, IfOk};
ghost use Rattle.sqlite_wal.specs.Files.{image_at};
ghost use Rattle.streetmap_batch.specs.BatchView.{batch_value};
ghost use Rattle.streetmap_ledger.specs.State.{State};
ghost use Rattle.streetmap_loading.specs.Options.{load_value};
ghost use Rattle.streetmap.specs.Changes.{HoldOneOf, Imported, Applied, LoadedUnless};
ghost use Rattle.streetmap.specs.Images.{HoldsTables};

use crate::openings::{ServedFile, open_file, open_indexed};
use crate::{batches, checks, exchange, loads};
use sqlite::Start;
use streetmap_batch::Batch;
use streetmap_command::LoadArguments;
use streetmap_faults::ProgramFault;
use streetmap_ledger::{Durable, Keeper};
use streetmap_loading::{KeeperSink, Load};
use streetmap_store::FileKeeper;

/// A keeper of a file that a command worked over, and how the command ended.
#[derive(Drop)]
pub(crate) struct Worked<K> {
    keeper: K,
    pub(crate) ended: Result<(), ProgramFault>,
}

/// Applies the batch that a text was read into, and prints its reply.
pub(crate) fn import_file<S: Start>(
    rt: &HostRuntime,
    path: &str,
    start: S,
    batch: &Batch,
) -> Result<Worked<FileKeeper<S>>, ProgramFault>
    ensures { IfOk result (λ it. ⟦<FileKeeper<S> as Keeper>⟧.model.is_clean it.keeper →
        (s : State) → HoldsTables (image_at S.Start) s →
        HoldOneOf ⟦<FileKeeper<S> as Durable>⟧.holds
        (⟦<FileKeeper<S> as Durable>⟧.leaves it.keeper)
        (Imported s (batch_value batch.now) it.ended)) }
{
    let mut keeper = open_file(rt, path, start)?;
    let ended = exchange::apply_batch(rt, &mut keeper, batch);
    Ok(Worked { keeper, ended })
}

/// Writes a collection on standard output; with `progress` lines on standard error report how far
/// it is.
pub(crate) fn export_file<S: Start>(
    rt: &HostRuntime,
    path: &str,
    start: S,
    collection: &str,
    progress: bool,
) -> Result<Worked<ServedFile<S>>, ProgramFault>
    ensures { IfOk result (λ it. ⟦<ServedFile<S> as Keeper>⟧.model.is_clean it.keeper →
        (s : State) → HoldsTables (image_at S.Start) s →
        HoldOneOf ⟦<ServedFile<S> as Durable>⟧.holds
        (⟦<ServedFile<S> as Durable>⟧.leaves it.keeper) (λ t. t ≡ s)) }
{
    let mut keeper = open_indexed(rt, path, start)?;
    let ended = exchange::export_collection(rt, &mut keeper, collection, progress);
    Ok(Worked { keeper, ended })
}

/// Puts the features of a text, or of standard input, into a collection by batches; or only reads
/// or prints them, if that is requested.
pub(crate) fn load_file<S: Start>(
    rt: &HostRuntime,
    path: &str,
    start: S,
    load: Load,
    requested: LoadArguments<'_>,
) -> Result<Worked<FileKeeper<S>>, ProgramFault>
    ensures { IfOk result (λ it. ⟦<FileKeeper<S> as Keeper>⟧.model.is_clean it.keeper →
        (s : State) → HoldsTables (image_at S.Start) s →
        HoldOneOf ⟦<FileKeeper<S> as Durable>⟧.holds
        (⟦<FileKeeper<S> as Durable>⟧.leaves it.keeper)
        (LoadedUnless (requested.entry.check || requested.entry.print) s load.each
        (load_value load).key None it.ended)) }
{
    let keeper = open_file(rt, path, start)?;
    let mut sink = KeeperSink { keeper };
    let ended = loads::run(rt, &mut sink, load, requested);
    Ok(Worked {
        keeper: sink.keeper,
        ended,
    })
}

/// Applies the lines of a text, or of standard input, and prints the reply to each.
pub(crate) fn apply_file<S: Start>(
    rt: &HostRuntime,
    path: &str,
    start: S,
    text: Option<&str>,
) -> Result<Worked<FileKeeper<S>>, ProgramFault>
    ensures { IfOk result (λ it. ⟦<FileKeeper<S> as Keeper>⟧.model.is_clean it.keeper →
        (s : State) → HoldsTables (image_at S.Start) s →
        HoldOneOf ⟦<FileKeeper<S> as Durable>⟧.holds
        (⟦<FileKeeper<S> as Durable>⟧.leaves it.keeper) (Applied s None it.ended)) }
{
    let mut keeper = open_file(rt, path, start)?;
    let ended = batches::apply(rt, &mut keeper, text);
    Ok(Worked { keeper, ended })
}

/// Prints the kept batches after a serial.
pub(crate) fn print_file<S: Start>(
    rt: &HostRuntime,
    path: &str,
    start: S,
    after: u32,
) -> Result<Worked<FileKeeper<S>>, ProgramFault>
    ensures { IfOk result (λ it. ⟦<FileKeeper<S> as Keeper>⟧.model.is_clean it.keeper →
        (s : State) → HoldsTables (image_at S.Start) s →
        HoldOneOf ⟦<FileKeeper<S> as Durable>⟧.holds
        (⟦<FileKeeper<S> as Durable>⟧.leaves it.keeper) (λ t. t ≡ s)) }
{
    let mut keeper = open_file(rt, path, start)?;
    let ended = batches::print(rt, &mut keeper, after);
    Ok(Worked { keeper, ended })
}

/// Replays the kept batches, and compares what they give with what the file shows.
pub(crate) fn replay_file<S: Start>(
    rt: &HostRuntime,
    path: &str,
    start: S,
) -> Result<Worked<ServedFile<S>>, ProgramFault>
    ensures { IfOk result (λ it. ⟦<ServedFile<S> as Keeper>⟧.model.is_clean it.keeper →
        (s : State) → HoldsTables (image_at S.Start) s →
        HoldOneOf ⟦<ServedFile<S> as Durable>⟧.holds
        (⟦<ServedFile<S> as Durable>⟧.leaves it.keeper) (λ t. t ≡ s)) }
{
    let mut keeper = open_indexed(rt, path, start)?;
    let ended = checks::replay(rt, &mut keeper);
    Ok(Worked { keeper, ended })
}

/// Reads all rows, and prints how many the file has.
pub(crate) fn check_file<S: Start>(
    rt: &HostRuntime,
    path: &str,
    start: S,
) -> Result<(), ProgramFault> {
    let keeper = open_file(rt, path, start)?;
    checks::check(rt, keeper)
}
