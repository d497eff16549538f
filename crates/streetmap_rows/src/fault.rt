//! Why a read of the tables gave up.
ghost use Rattle.std.specs.Prelude.{◌≡◌, if◌then◌else◌};
ghost use Rattle.streetmap_rows.specs.Failures as failing;

use crate::failures::is_memory;
use sqlite::Error;
use std::alloc::{AllocError, AllocFailed};

/// Why a read of the tables gave up.
#[derive(Drop)]
pub enum ReadFault {
    /// Memory ran out while a row was read, or a count of rows had no number left.
    Memory,
    /// A statement failed.
    Store(Error),
    /// A row is not one that this product writes.
    Unread,
}

impl From<AllocError> for ReadFault {
    ghost use Rattle.streetmap_rows.specs.declared.fault.ReadFault.TheVariants.{Memory};

    ghost from_gives = { λ _ e. e ≡ Memory };

    fn from(_: AllocError) -> ReadFault {
        ReadFault::Memory
    }
}

impl<T: Drop> From<AllocFailed<T>> for ReadFault {
    ghost use Rattle.streetmap_rows.specs.declared.fault.ReadFault.TheVariants.{Memory};

    ghost from_gives = { λ _ e. e ≡ Memory };

    fn from(_: AllocFailed<T>) -> ReadFault {
        ReadFault::Memory
    }
}

/// Why a cell of a row was not read: memory ran out, or this product does not write such a cell.
pub fn unread(error: Error) -> ReadFault
    ensures { result ≡ (if failing.is_memory error then ReadFault.Memory else ReadFault.Unread) }
{
    if is_memory(error) {
        ReadFault::Memory
    } else {
        ReadFault::Unread
    }
}
