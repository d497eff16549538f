//! Features in and out: an import, and an export.
ghost use Rattle.std.specs.Prelude.{◌≡◌, IfErr};
ghost use Rattle.streetmap_batch.specs.BatchView.{batch_value};
ghost use Rattle.streetmap_ledger.specs.State.{State};
ghost use Rattle.streetmap.specs.Changes.{HoldOneOf, Imported};

use crate::progress::ProgressLines;
use crate::{progress, texts};
use std::io::writer;
use streetmap_batch::Batch;
use streetmap_command::Import;
use streetmap_exchange::{apply_import, export, import_batch};
use streetmap_faults::ProgramFault;
use streetmap_ledger::Durable;

/// Reads a text into the batch that puts its features into a collection.
pub(crate) fn read_batch(rt: &HostRuntime, requested: Import<'_>) -> Result<Batch, ProgramFault> {
    let text = texts::read(rt, requested.text)?;
    let mut lines = ProgressLines {
        output: progress::output(rt, requested.progress, false),
    };
    let batch = import_batch(
        rt.alloc(),
        text.as_slice(),
        requested.key,
        requested.collection,
        requested.replace,
        &mut lines,
    );
    lines.clear();
    batch.map_err(ProgramFault::Import)
}

/// Prints a reply.
fn print_reply(rt: &HostRuntime, reply: &str) -> Result<(), ProgramFault>
    ensures { IfErr result (λ fault. fault ≡ ProgramFault.WriteFailed) }
{
    match println!(rt; "{reply}") {
        Ok(()) => Ok(()),
        Err(_) => Err(ProgramFault::WriteFailed),
    }
}

/// Applies a batch, and prints its reply.
pub(crate) fn apply_batch<K: Durable>(
    rt: &HostRuntime,
    keeper: &mut K,
    batch: &Batch,
) -> Result<(), ProgramFault>
    ensures leaves { K.model.is_clean keeper.new → (s : State) → K.model.represents keeper.old s →
        HoldOneOf K.holds (K.leaves keeper.new) (Imported s (batch_value batch.now) result) }
    ensures began_clean { K.model.is_clean keeper.new → K.model.is_clean keeper.old }
{
    match apply_import(rt.alloc(), keeper, batch) {
        Ok(reply) => print_reply(rt, reply.as_str()),
        Err(fault) => Err(ProgramFault::Import(fault)),
    }
}

/// Writes a collection on standard output.
pub(crate) fn export_collection<K: Durable>(
    rt: &HostRuntime,
    keeper: &mut K,
    collection: &str,
    is_reported: bool,
) -> Result<(), ProgramFault>
    ensures leaves { K.model.is_clean keeper.new → (s : State) → K.model.represents keeper.old s →
        HoldOneOf K.holds (K.leaves keeper.new) (λ t. t ≡ s) }
    ensures began_clean { K.model.is_clean keeper.new → K.model.is_clean keeper.old }
{
    let mut output = writer(rt);
    let mut lines = ProgressLines {
        output: progress::output(rt, is_reported, true),
    };
    let done = export(rt.alloc(), keeper, collection, &mut output, &mut lines);
    lines.clear();
    match done {
        Ok(()) => Ok(()),
        Err(fault) => Err(ProgramFault::Export(fault)),
    }
}
