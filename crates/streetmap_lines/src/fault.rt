//! Why lines are not answered to the end.
ghost use Rattle.std.specs.Prelude.{◌≡◌, ◌≢◌};
ghost use Rattle.streetmap_lines.specs.Faults.{IsLineFault, IsWriteFault, IsFlushFault};

use std::alloc::AllocError;
use streetmap_text_lines::{LineFault, WriteFault};

/// Why the answering of lines ends before the input does.
#[derive(Clone, Copy, PartialEq, Eq)]
pub enum LinesFault {
    /// `line_too_long`: a line of input has more than 8,388,608 bytes, without its line feed.
    LineTooLong,
    /// `read_failed`: the input could not be read.
    ReadFailed,
    /// `write_failed`: an answer could not be written to the end.
    WriteFailed,
    /// `write_failed`: an answer was written, and a flush of the writer failed.
    FlushFailed,
    /// `memory`: memory ran out.
    Memory,
}

impl LinesFault {
    /// The fault of a line that was not read.
    pub(crate) fn of_line(fault: LineFault) -> LinesFault
        ensures fault { IsLineFault result }
        ensures too_long { result ≡ LinesFault.LineTooLong → fault ≡ LineFault.LineTooLong }
    {
        match fault {
            LineFault::LineTooLong => LinesFault::LineTooLong,
            LineFault::ReadFailed => LinesFault::ReadFailed,
            LineFault::Memory => LinesFault::Memory,
        }
    }

    /// The fault of bytes that were not written.
    pub(crate) fn of_write(fault: WriteFault) -> LinesFault
        ensures memory { fault ≡ WriteFault.Memory → result ≡ LinesFault.Memory }
        ensures other { fault ≢ WriteFault.Memory → result ≡ LinesFault.WriteFailed }
        ensures fault { IsWriteFault result }
    {
        match fault {
            WriteFault::Memory => LinesFault::Memory,
            WriteFault::WriteFailed => LinesFault::WriteFailed,
        }
    }

    /// The fault of a flush that failed.
    pub(crate) fn of_flush(fault: WriteFault) -> LinesFault
        ensures { IsFlushFault result }
    {
        match fault {
            WriteFault::Memory => LinesFault::Memory,
            WriteFault::WriteFailed => LinesFault::FlushFailed,
        }
    }
}

impl From<AllocError> for LinesFault {
    ghost use Rattle.streetmap_lines.specs.declared.fault.LinesFault.TheVariants.{Memory};

    ghost from_gives = { λ _ fault. fault ≡ Memory };

    fn from(_: AllocError) -> LinesFault {
        LinesFault::Memory
    }
}
