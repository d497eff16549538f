//! Writers that keep bytes back until they are flushed.
ghost use Rattle.std.specs.Prelude.{◌≡◌, [], OnOk};
ghost use Rattle.std.specs.Io.KnownBytes.{Keeps};
ghost use Rattle.std.specs.Io.Buffered.{writer_buffer};

use std::alloc::Allocator;
use std::io::{self, BufWriter, Print, Printer, Write};

/// A writer of which is known whether it keeps bytes back.
///
/// Std's `Write` says of a flush that it writes nothing else, and not what it is for.
pub trait Flush: Write {
    /// No byte that was written waits in the writer: all were handed to what lies below it.
    ghost is_flushed: { Self → Type 0 };

    /// Hands on what the writer keeps back.
    ///
    /// # Errors
    ///
    /// If a write or a flush below failed. Then some bytes may still wait.
    fn hand_on(&mut self) -> io::Result<()>
        ensures bytes { Keeps (Self.contents self.old) (Self.contents self.new) }
        ensures flushed { OnOk result (is_flushed self.new) };
}

impl<W: Write + Drop, A: Allocator> Flush for BufWriter<W, A> {
    ghost is_flushed = { λ writer. writer_buffer writer ≡ [] };

    fn hand_on(&mut self) -> io::Result<()> {
        self.flush()
    }
}

/// It keeps nothing back.
impl<P: Print> Flush for Printer<'_, P> {
    ghost is_flushed = { λ _. Unit {0} };

    fn hand_on(&mut self) -> io::Result<()> {
        self.flush()
    }
}
