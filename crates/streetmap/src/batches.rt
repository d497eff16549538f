//! Kept batches out of a file, and batches in from a text.
ghost use Rattle.std.specs.Prelude.{◌≡◌, None};
ghost use Rattle.streetmap_ledger.specs.State.{State};
ghost use Rattle.streetmap.specs.Changes.{HoldOneOf, Applied};

use crate::fault;
use std::fs::File;
use std::io::{BufReader, BufWriter, Read, Write, writer};
use streetmap_exchange::write_batches;
use streetmap_faults::ProgramFault;
use streetmap_ledger::{Durable, KeepsBatches};
use streetmap_replay::{ReplyLines, follow_lines};

/// Prints the kept batches after a serial, one per line.
pub(crate) fn print<K: Durable + KeepsBatches>(
    rt: &HostRuntime,
    keeper: &mut K,
    after: u32,
) -> Result<(), ProgramFault>
    ensures leaves { K.model.is_clean keeper.new → (s : State) → K.model.represents keeper.old s →
        HoldOneOf K.holds (K.leaves keeper.new) (λ t. t ≡ s) }
    ensures began_clean { K.model.is_clean keeper.new → K.model.is_clean keeper.old }
{
    let Ok(mut output) = BufWriter::new(rt.alloc(), writer(rt)) else {
        return Err(ProgramFault::Memory);
    };
    match write_batches(rt.alloc(), keeper, after as u64, &mut output) {
        Ok(_) => output.flush().map_err(|_| ProgramFault::WriteFailed),
        Err(fault) => Err(ProgramFault::Export(fault)),
    }
}

/// Applies the lines of an input, and prints the reply to each.
fn follow<K: Durable + KeepsBatches, R: Read + Drop>(
    rt: &HostRuntime,
    keeper: &mut K,
    input: R,
) -> Result<(), ProgramFault>
    ensures leaves { K.model.is_clean keeper.new → (s : State) → K.model.represents keeper.old s →
        HoldOneOf K.holds (K.leaves keeper.new) (Applied s (R.remaining input) result) }
    ensures began_clean { K.model.is_clean keeper.new → K.model.is_clean keeper.old }
{
    let Ok(mut reader) = BufReader::new(rt.alloc(), input) else {
        return Err(ProgramFault::Memory);
    };
    let Ok(mut replies) = ReplyLines::new(rt.alloc(), writer(rt)) else {
        return Err(ProgramFault::Memory);
    };
    fault::of_followed(follow_lines(rt.alloc(), keeper, &mut reader, &mut replies))
}

/// Applies the lines of a text, or of standard input.
pub(crate) fn apply<K: Durable + KeepsBatches>(
    rt: &HostRuntime,
    keeper: &mut K,
    text: Option<&str>,
) -> Result<(), ProgramFault>
    // The content of the text is not known here.
    ensures leaves { K.model.is_clean keeper.new → (s : State) → K.model.represents keeper.old s →
        HoldOneOf K.holds (K.leaves keeper.new) (Applied s None result) }
    ensures began_clean { K.model.is_clean keeper.new → K.model.is_clean keeper.old }
{
    let Some(path) = text else {
        return follow(rt, keeper, rt.reader());
    };
    match File::open(rt, path) {
        Ok(file) => follow(rt, keeper, file),
        Err(error) => Err(fault::of_text(&error)),
    }
}
