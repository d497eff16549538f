//! The lines of the batches after a serial.
ghost use Rattle.std.specs.Prelude.{IfErr};
ghost use Rattle.streetmap_ledger.specs.State.{State};
ghost use Rattle.streetmap_replay.specs.Calls.{AreReads};
ghost use Rattle.streetmap_exchange.specs.Printed.{WritesLines};
ghost use Rattle.streetmap_exchange.specs.ExportFaults.{IsLinesFault, lines_answer};

use crate::batch_lines::write_lines;
use crate::fault::ExportFault;
use std::alloc::Global;
use std::io::Write;
use streetmap_ledger::KeepsBatches;

/// Memory holds at most this many bytes of texts, and one more text.
const ROOM: usize = 1 << 20;

/// Writes a line for each batch that is kept after a serial, in order of their serials: its serial
/// in decimal, a tab, its text and a line feed. It returns the last serial, or the given one if
/// none is kept after it.
///
/// # Errors
///
/// `Stopped` with the fault of the keeper, or with `Memory` if a buffer of the writer runs out of
/// memory; `WriteFailed` if a write failed. Then a prefix of the lines has been written. After 2^64
/// - 1 rounds it ends as after a failed write.
pub fn write_batches<K: KeepsBatches, W: Write>(
    alloc: Global,
    keeper: &mut K,
    after: u64,
    writer: &mut W,
) -> Result<u64, ExportFault>
    ensures reads { AreReads K.model keeper.old keeper.new (lines_answer result) }
    ensures fault { IfErr result IsLinesFault }
    ensures writes { K.model.is_clean keeper.new → (s : State) → K.model.represents keeper.old s →
        WritesLines s after result (W.contents writer.old) (W.contents writer.new) }
{
    let mut last = after;
    for _turn in 0..u64::MAX {
        let batches = match keeper.batches(alloc, last, ROOM) {
            Ok(batches) => batches,
            Err(fault) => return Err(ExportFault::Stopped(fault)),
        };
        let Some(latest) = batches.last() else {
            return Ok(last);
        };
        last = latest.serial;
        write_lines(writer, batches.as_slice())?;
    }
    Err(ExportFault::WriteFailed)
}
