//! Why a line is not read, and why bytes are not written.
ghost use Rattle.std.specs.Prelude.{◌≡◌, ◌≢◌};
ghost use Rattle.std.specs.IoError.{error_kind};

use std::alloc::AllocError;
use std::io::{Error, ErrorKind};

/// Why a line is not read.
#[derive(Clone, Copy, PartialEq, Eq)]
pub enum LineFault {
    /// It has more bytes than allowed, its line feed not counted.
    LineTooLong,
    /// The input could not be read.
    ReadFailed,
    /// Out of memory.
    Memory,
}

impl LineFault {
    /// The fault of a read that failed. A buffer that runs out of memory fails in this way too.
    pub fn of_read(error: &Error) -> LineFault
        ensures memory { error_kind error.now ≡ ErrorKind.OutOfMemory →
            result ≡ LineFault.Memory }
        ensures other { error_kind error.now ≢ ErrorKind.OutOfMemory →
            result ≡ LineFault.ReadFailed }
        ensures short { result ≢ LineFault.LineTooLong }
    {
        if error.kind() == ErrorKind::OutOfMemory {
            LineFault::Memory
        } else {
            LineFault::ReadFailed
        }
    }
}

impl From<AllocError> for LineFault {
    ghost use Rattle.streetmap_text_lines.specs.declared.fault.LineFault.TheVariants.{Memory};

    ghost from_gives = { λ _ fault. fault ≡ Memory };

    fn from(_: AllocError) -> LineFault {
        LineFault::Memory
    }
}

/// Why bytes are not written.
#[derive(Clone, Copy)]
pub enum WriteFault {
    /// They could not be written.
    WriteFailed,
    /// Out of memory.
    Memory,
}

impl WriteFault {
    /// The fault of a write or a flush that failed. A buffer that runs out of memory fails in this
    /// way too.
    pub fn of_write(error: &Error) -> WriteFault
        ensures memory { error_kind error.now ≡ ErrorKind.OutOfMemory →
            result ≡ WriteFault.Memory }
        ensures other { error_kind error.now ≢ ErrorKind.OutOfMemory →
            result ≡ WriteFault.WriteFailed }
    {
        if error.kind() == ErrorKind::OutOfMemory {
            WriteFault::Memory
        } else {
            WriteFault::WriteFailed
        }
    }
}
