//! Where a journal is kept.
ghost use Rattle.std.specs.Prelude.{◌≡◌, ℕ, List, Option, None, IfOk, OnErr};
ghost use Rattle.std.specs.Io.KnownBytes.{Keeps};
ghost use Rattle.streetmap_journal.specs.Place.{IsReaderOf, HasFirst};

use crate::journal::JournalWriter;
use std::io::{BufRead, Error};

/// Where a journal is kept: a file, which may not exist yet.
pub trait JournalPlace {
    /// Its reader.
    type Reader: BufRead + Drop;
    /// The writer of its lines.
    type Writer: JournalWriter + Drop;

    /// Its bytes, if they are known: none if no file exists.
    ghost contents: { Self → Option (List ℕ) } = { λ _. None };

    /// Reads it from its first byte, and changes nothing. `None` if no file exists.
    ///
    /// # Errors
    ///
    /// If it cannot be opened.
    fn read(&mut self) -> Result<Option<Self::Reader>, Error>
        ensures kept { Keeps (contents self.old) (contents self.new) }
        ensures whole { IfOk result (IsReaderOf Self.Reader.remaining (contents self.old)) };

    /// Removes all but its first `bytes` bytes, and writes to its end from there on. It is created
    /// if it does not exist.
    ///
    /// # Errors
    ///
    /// If it cannot be opened or cut: it is as before.
    fn write_after(&mut self, bytes: u64) -> Result<Self::Writer, Error>
        ensures cut { IfOk result (λ writer.
            HasFirst (contents self.old) (Self.Writer.contents writer) bytes) }
        ensures kept { OnErr result (Keeps (contents self.old) (contents self.new)) };
}
