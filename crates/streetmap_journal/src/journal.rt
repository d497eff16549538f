//! A journal, as it is written.
ghost use Rattle.std.specs.Prelude.{◌≡◌, ◌++◌, ◌∷◌, ℕ, List, [], drop, IfOk, OnOk, IfErr, IsErr};
ghost use Rattle.std.specs.Prelude.{IsOk, Option, None, Some, true, false, ◌≤◌};
ghost use Rattle.std.specs.Io.KnownBytes.{Keeps, Appends};
ghost use Rattle.streetmap_batch.specs.BatchText.{batch_text};
ghost use Rattle.streetmap_batch.specs.BatchView.{batch_value};
ghost use Rattle.streetmap_replay.specs.Lines.{numbered, line_bytes};
ghost use Rattle.streetmap_text_lines.specs.Written.{AppendsFirst};
ghost use Rattle.streetmap_journal.specs.Written.{position_of, PutsLine, KeepsLine, NotesLine};
ghost use Rattle.streetmap_journal.specs.Reports.{WriterIsInformed};

use itoa::Buffer;
use std::alloc::{AllocError, Global};
use std::io::Error;
use streetmap_batch::Batch;
use streetmap_text_lines::NotWritten;

/// The writer of a journal.
///
/// An implementer says by five meanings which bytes it has, what it was informed of last, whether
/// they are kept, and when a call failed. For an arbitrary writer, only its own calls can show that
/// one failed. So a journal cannot be behind if none did.
pub trait JournalWriter {
    /// Its bytes, if they are known.
    ghost contents: { Self → Option (List ℕ) } = { λ _. None };

    /// The serial from which on it was informed that lines are missing: none if it was informed
    /// that no line is.
    ghost reported: { Self → Option ℕ };

    /// The device keeps all that was written, if that was requested.
    ghost is_kept: { Self → Type 0 };

    /// From the first to the second it was called, any number of times.
    ghost goes: { Self → Self → Type 0 };

    /// A write or a synchronising failed between the first and the second.
    ghost fails: { Self → Self → Type 0 };

    /// Writes bytes to its end.
    ///
    /// # Errors
    ///
    /// If a write fails, or takes none of them: a prefix of the bytes was written.
    fn append(&mut self, bytes: &[u8]) -> Result<(), NotWritten>
        ensures written { OnOk result (Appends (contents self.old) (contents self.new) bytes.now) }
        ensures first { IfErr result (λ stopped. AppendsFirst stopped.written
            (contents self.old) (contents self.new) bytes.now) }
        ensures reported { reported self.new ≡ reported self.old }
        ensures goes { goes self.old self.new }
        ensures failed { IsErr result → fails self.old self.new };

    /// Has the device keep what was written, if that was requested.
    ///
    /// # Errors
    ///
    /// If it may not have been kept.
    fn sync(&mut self) -> Result<(), Error>
        ensures bytes { Keeps (contents self.old) (contents self.new) }
        ensures kept { IsOk result → is_kept self.new }
        ensures reported { reported self.new ≡ reported self.old }
        ensures goes { goes self.old self.new }
        ensures failed { IsErr result → fails self.old self.new };

    /// Informs it that from the line with this serial on lines are missing, or were not kept.
    fn behind(&mut self, serial: u64)
        ensures bytes { Keeps (contents self.old) (contents self.new) }
        ensures kept { is_kept self.old → is_kept self.new }
        ensures reported { reported self.new ≡ Some serial }
        ensures goes { goes self.old self.new };

    /// Informs it that no line is missing up to the one with this serial.
    fn whole(&mut self, serial: u64)
        ensures bytes { Keeps (contents self.old) (contents self.new) }
        ensures kept { is_kept self.old → is_kept self.new }
        ensures reported { reported self.new ≡ None }
        ensures goes { goes self.old self.new };

    /// If it is not called, it goes on as it is.
    ghost goes_itself: { (writer : Self) → goes writer writer };

    /// Two stretches of calls are one.
    ghost goes_then: { (first mid last : Self) → goes first mid → goes mid last →
        goes first last };

    /// If it failed in the second of two stretches, it failed in the two together.
    ghost fails_later: { (first mid last : Self) → goes first mid → fails mid last →
        fails first last };

    /// If it failed in the first of two stretches, it failed in the two together.
    ghost fails_still: { (first mid last : Self) → fails first mid → goes mid last →
        fails first last };
}

/// The writer of a journal, and how far the journal is.
#[derive(Drop)]
pub struct Journal<W> {
    /// Where its lines are written.
    pub writer: W,
    /// The serial after which they begin.
    pub after: u64,
    /// The serial of the next line.
    pub next: u64,
    /// How many bytes of that line are written already.
    pub part: usize,
    /// Lines are missing, or were not kept: none is written after them before they are completed.
    pub is_behind: bool,
}

/// A text with its serial as a line, without its line feed.
pub(crate) fn line_with(alloc: Global, serial: u64, text: &[u8]) -> Result<Vec<u8>, AllocError>
    ensures { IfOk result (λ line. line.items ≡ line_bytes (numbered serial text.now)) }
{
    let mut digits = Buffer::new();
    let mut line = Vec::from_slice(alloc, digits.format(serial).as_bytes())?;
    line.extend_from_slice(b"\t")?;
    line.extend_from_slice(text)?;
    Ok(line)
}

/// A text with its serial as a line, with its line feed.
pub(crate) fn whole_line(alloc: Global, serial: u64, text: &[u8]) -> Result<Vec<u8>, AllocError>
    ensures { IfOk result (λ line.
        line.items ≡ line_bytes (numbered serial text.now) ++ 10 ∷ []) }
{
    let mut line = line_with(alloc, serial, text)?;
    line.extend_from_slice(b"\n")?;
    Ok(line)
}

/// The line of a batch with a serial, with its line feed.
pub(crate) fn line_of(alloc: Global, serial: u64, batch: &Batch) -> Result<Vec<u8>, AllocError>
    ensures { IfOk result (λ line. line.items ≡
        line_bytes (numbered serial (batch_text (batch_value batch.now))) ++ 10 ∷ []) }
{
    let text = batch.text(alloc)?;
    whole_line(alloc, serial, text.as_str().as_bytes())
}

/// The missing bytes of a line of which `part` bytes are written.
fn lacking(line: &[u8], part: usize) -> &[u8]
    ensures { result.now ≡ drop part line.now }
{
    if part < line.len() {
        &line[part..]
    } else {
        &[]
    }
}

impl<W: JournalWriter> Journal<W> {
    /// Writes the missing bytes of the next line; returns whether the whole line is written then.
    pub(crate) fn put(&mut self, line: &[u8]) -> bool
        ensures after { self.new.after ≡ self.old.after }
        ensures behind { self.new.is_behind ≡ self.old.is_behind }
        ensures next { self.old.next ≤ self.new.next }
        ensures line { PutsLine result
            (position_of self.old) (position_of self.new)
            (W.contents self.old.writer) (W.contents self.new.writer) line.now }
        ensures reported { W.reported self.new.writer ≡ W.reported self.old.writer }
        ensures goes { W.goes self.old.writer self.new.writer }
        ensures failed { result ≡ false → W.fails self.old.writer self.new.writer }
    {
        match self.writer.append(lacking(line, self.part)) {
            Ok(()) => {
                self.next = self.next.saturating_add(1);
                self.part = 0;
                true
            }
            Err(stopped) => {
                self.part = self.part.saturating_add(stopped.written);
                false
            }
        }
    }

    /// Writes the missing bytes of the next line, and has the line kept; returns whether it is.
    fn put_and_keep(&mut self, line: &[u8]) -> bool
        ensures behind { self.new.is_behind ≡ self.old.is_behind }
        ensures next { self.old.next ≤ self.new.next }
        ensures line { KeepsLine result (position_of self.old) (position_of self.new)
            (W.contents self.old.writer) (W.contents self.new.writer) line.now }
        ensures kept { result ≡ true → W.is_kept self.new.writer }
        ensures reported { W.reported self.new.writer ≡ W.reported self.old.writer }
        ensures goes { W.goes self.old.writer self.new.writer }
        ensures failed { result ≡ false → W.fails self.old.writer self.new.writer }
    {
        if self.put(line) {
            self.writer.sync().is_ok()
        } else {
            false
        }
    }

    /// Writes the next line, and has it kept. If that fails, the writer is informed, and none is
    /// written until the journal is completed.
    pub(crate) fn note(&mut self, line: &[u8])
        ensures line { NotesLine
            (position_of self.old) (position_of self.new)
            (W.contents self.old.writer) (W.contents self.new.writer) line.now }
        ensures reported { WriterIsInformed W.reported W.is_kept self.old →
            WriterIsInformed W.reported W.is_kept self.new }
        ensures goes { W.goes self.old.writer self.new.writer }
        ensures failed { self.old.is_behind ≡ false → self.new.is_behind ≡ true →
            W.fails self.old.writer self.new.writer }
    {
        if self.is_behind {
            return;
        }
        let serial = self.next;
        if self.put_and_keep(line) {
            return;
        }
        self.is_behind = true;
        self.writer.behind(serial);
    }
}
