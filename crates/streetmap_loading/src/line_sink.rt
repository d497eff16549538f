//! A writer that batches are written to.
use crate::load_fault::LoadFault;
use crate::sink::Sink;
use std::alloc::{AllocError, Global};
use std::io::Write;
use streetmap_batch::Batch;
use streetmap_ledger::Fault;
use streetmap_text_lines::WriteFault;

/// A writer that the texts of batches are written to, one per line.
#[derive(Drop)]
pub struct LineSink<W: Write> {
    pub alloc: Global,
    pub writer: W,
}

impl LoadFault {
    ghost use Rattle.streetmap_loading.specs.Prints.{IsOfWrite};

    /// Why a batch was not written.
    fn of_write(fault: WriteFault) -> LoadFault
        ensures { IsOfWrite result }
    {
        match fault {
            WriteFault::Memory => LoadFault::Stopped(Fault::Memory),
            WriteFault::WriteFailed => LoadFault::WriteFailed,
        }
    }
}

ghost use Rattle.std.specs.Prelude.{OnOk, OnErr, IfErr, IfOk, ◌≡◌, ◌++◌, ◌∷◌, [], string_bytes};
ghost use Rattle.std.specs.Io.KnownBytes.{Appends};
ghost use Rattle.streetmap_batch.specs.BatchText.{batch_text};
ghost use Rattle.streetmap_batch.specs.BatchView.{batch_value};
ghost use Rattle.streetmap_text_lines.specs.Written.{AppendsBeginning};
ghost use Rattle.streetmap_loading.specs.Prints.{IsOfWrite};

/// Writes bytes.
fn write_bytes<W: Write>(writer: &mut W, bytes: &[u8]) -> Result<(), LoadFault>
    ensures ok { OnOk result (Appends (W.contents writer.old) (W.contents writer.new) bytes.now) }
    ensures err { OnErr result
        (AppendsBeginning (W.contents writer.old) (W.contents writer.new) bytes.now) }
    ensures fault { IfErr result IsOfWrite }
{
    match streetmap_text_lines::write_bytes(writer, bytes) {
        Ok(()) => Ok(()),
        Err(stopped) => Err(LoadFault::of_write(stopped.why)),
    }
}

/// Writes a line, and flushes the writer.
fn write_line<W: Write>(writer: &mut W, line: &[u8]) -> Result<(), LoadFault>
    ensures ok { OnOk result (Appends (W.contents writer.old) (W.contents writer.new) line.now) }
    ensures err { OnErr result
        (AppendsBeginning (W.contents writer.old) (W.contents writer.new) line.now) }
    ensures fault { IfErr result IsOfWrite }
{
    write_bytes(writer, line)?;
    match writer.flush() {
        Ok(()) => Ok(()),
        Err(error) => Err(LoadFault::of_write(WriteFault::of_write(&error))),
    }
}

/// The text of a batch, and a line feed.
fn batch_line(alloc: Global, batch: &Batch) -> Result<String, AllocError>
    ensures { IfOk result (λ t. string_bytes t
        ≡ batch_text (batch_value batch.now) ++ 10 ∷ []) }
{
    let mut text = batch.text(alloc)?;
    text.push_str("\n")?;
    Ok(text)
}

impl<W: Write> Sink for LineSink<W> {
    ghost use Rattle.streetmap_loading.specs.Prints.{Prints};

    ghost takes = { λ old b result new.
        Prints b result (W.contents old.writer) (W.contents new.writer) };

    fn take(&mut self, batch: &Batch) -> Result<Option<u64>, LoadFault> {
        let Ok(line) = batch_line(self.alloc, batch) else {
            return Err(LoadFault::Stopped(Fault::Memory));
        };
        write_line(&mut self.writer, line.as_str().as_bytes())?;
        Ok(None)
    }
}
