//! Why a text is not imported, and why a collection or kept batches are not written.
ghost use Rattle.std.specs.Prelude.{◌≡◌};

use std::alloc::{AllocError, AllocFailed};
use streetmap_batch::BatchFault;
use streetmap_geojson::Fault;
use streetmap_ledger::{Fault as KeeperFault, Refusal};
use streetmap_text_lines::WriteFault;

/// Why a text is not read into a batch, or its batch is not applied.
#[derive(Clone, Copy, PartialEq, Drop)]
pub enum ImportFault {
    /// The key is not valid.
    BadKey,
    /// The id of the collection is not valid.
    BadBatch,
    /// The text has more than 8,388,608 bytes.
    TextTooLarge,
    /// The text is not JSON.
    NotJson,
    /// The text is not a FeatureCollection (RFC 7946, section 3.3).
    WrongType,
    /// The feature of that place, counted from 1, cannot be read.
    BadFeature { place: u64, cause: Fault },
    /// The text has more than 10,000 features.
    TooManyEdits,
    /// Out of memory: the keeper received no request. The caller may try again.
    Memory,
    /// The batch is refused, and nothing changed; with the place of the feature at fault, counted
    /// from 1, if any.
    Refused(Refusal, Option<u64>),
    /// The keeper gave no reply.
    Stopped(KeeperFault),
}

impl ImportFault {
    ghost use Rattle.streetmap_exchange.specs.ImportFaults.{of_batch};

    /// The refusal of the batch, as a refusal of the text that it is made of.
    pub(crate) fn of_batch(fault: BatchFault) -> ImportFault
        ensures { result ≡ of_batch fault }
    {
        match fault {
            BatchFault::BadBatch { place: _ } => ImportFault::BadBatch,
            BatchFault::BadKey => ImportFault::BadKey,
            BatchFault::TooManyEdits => ImportFault::TooManyEdits,
            BatchFault::BadFeature { place, cause } => ImportFault::BadFeature { place, cause },
            BatchFault::Memory => ImportFault::Memory,
        }
    }
}

impl From<AllocError> for ImportFault {
    ghost use Rattle.streetmap_exchange.specs.declared.fault.ImportFault.TheVariants.{Memory};

    ghost from_gives = { λ _ e. e ≡ Memory };

    fn from(_: AllocError) -> ImportFault {
        ImportFault::Memory
    }
}

impl<T: Drop> From<AllocFailed<T>> for ImportFault {
    ghost use Rattle.streetmap_exchange.specs.declared.fault.ImportFault.TheVariants.{Memory};

    ghost from_gives = { λ _ e. e ≡ Memory };

    fn from(_: AllocFailed<T>) -> ImportFault {
        ImportFault::Memory
    }
}

/// Why a collection, or the lines of kept batches, are not written to the end.
#[derive(Clone, Copy, PartialEq, Drop)]
pub enum ExportFault {
    /// The collection does not exist.
    NoCollection,
    /// The keeper gave no reply, or memory ran out.
    Stopped(KeeperFault),
    /// The text, or a line, could not be written to its end.
    WriteFailed,
    /// The text was written, and a flush of the writer failed.
    FlushFailed,
}

impl ExportFault {
    ghost use Rattle.streetmap_exchange.specs.ExportFaults.{IsWriteFault, IsFlushFault};

    /// The fault of bytes that were not written.
    pub(crate) fn of_write(fault: WriteFault) -> ExportFault
        ensures { IsWriteFault result }
    {
        match fault {
            WriteFault::Memory => ExportFault::Stopped(KeeperFault::Memory),
            WriteFault::WriteFailed => ExportFault::WriteFailed,
        }
    }

    /// The fault of a flush that failed.
    pub(crate) fn of_flush(fault: WriteFault) -> ExportFault
        ensures { IsFlushFault result }
    {
        match fault {
            WriteFault::Memory => ExportFault::Stopped(KeeperFault::Memory),
            WriteFault::WriteFailed => ExportFault::FlushFailed,
        }
    }
}

impl From<AllocError> for ExportFault {
    ghost use Rattle.streetmap_ledger.specs.declared.reply.Fault.TheVariants.{Memory};
    ghost use Rattle.streetmap_exchange.specs.declared.fault.ExportFault.TheVariants.{Stopped};

    ghost from_gives = { λ _ e. e ≡ Stopped Memory };

    fn from(_: AllocError) -> ExportFault {
        ExportFault::Stopped(KeeperFault::Memory)
    }
}
