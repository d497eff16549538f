//! Lines of kept batches, written.
ghost use Rattle.std.specs.Prelude.{OnOk, OnErr, IfErr};
ghost use Rattle.std.specs.Io.KnownBytes.{Appends};
ghost use Rattle.streetmap_ledger.specs.KeptView.{keyed_batch, keyed_batches};
ghost use Rattle.streetmap_text_lines.specs.Written.{AppendsBeginning};
ghost use Rattle.streetmap_exchange.specs.Printed.{line_text, lines_text};
ghost use Rattle.streetmap_exchange.specs.ExportFaults.{IsWriteFault};

use crate::fault::ExportFault;
use crate::part::write_bytes;
use std::io::Write;
use streetmap_ledger::KeptBatch;

/// Writes the line of a batch: its serial in decimal, a tab, its text and a line feed.
fn write_line<W: Write>(writer: &mut W, batch: &KeptBatch) -> Result<(), ExportFault>
    ensures ok { OnOk result (Appends (W.contents writer.old) (W.contents writer.new)
        (line_text (keyed_batch batch.now))) }
    ensures err { OnErr result (AppendsBeginning (W.contents writer.old) (W.contents writer.new)
        (line_text (keyed_batch batch.now))) }
    ensures fault { IfErr result IsWriteFault }
{
    let mut digits = itoa::Buffer::new();
    write_bytes(writer, digits.format(batch.serial).as_bytes())?;
    write_bytes(writer, b"\t")?;
    write_bytes(writer, batch.text.as_slice())?;
    write_bytes(writer, b"\n")
}

/// Writes the lines of batches, in their order.
pub(crate) fn write_lines<W: Write>(
    writer: &mut W,
    batches: &[KeptBatch],
) -> Result<(), ExportFault>
    ensures ok { OnOk result (Appends (W.contents writer.old) (W.contents writer.new)
        (lines_text (keyed_batches batches.now))) }
    ensures err { OnErr result (AppendsBeginning (W.contents writer.old) (W.contents writer.new)
        (lines_text (keyed_batches batches.now))) }
    ensures fault { IfErr result IsWriteFault }
{
    for batch in batches {
        write_line(writer, batch)?;
    }
    Ok(())
}
