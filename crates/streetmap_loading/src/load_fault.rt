//! Why a load does not begin, or ends before its text does.
ghost use Rattle.std.specs.Prelude.{◌≡◌};
ghost use Rattle.streetmap_loading.specs.Places.{text_place};

use crate::text_fault::TextFault;
use std::alloc::{AllocError, AllocFailed};
use streetmap_ledger::{Fault, Refusal};

/// Why a load does not begin, or ends before its text does.
#[derive(Clone, Copy, PartialEq, Eq, Drop)]
pub enum LoadFault {
    /// The key is not valid, or has more than 44 bytes.
    BadKey,
    /// The batches are to have no edit, or more than 10,000.
    BadCount,
    /// The id, the title or the time property of the collection is not valid.
    BadBatch,
    /// The part of the text for the next edit is at fault.
    AtFault(TextFault),
    /// A read of the text failed.
    ReadFailed,
    /// Out of memory.
    Memory,
    /// The next batch was refused; with the place of the feature at fault, counted from 1, if a
    /// feature is: in the batch, and in the result of a load in the text.
    Refused(Refusal, Option<u64>),
    /// The keeper gave no reply to the next batch.
    Stopped(Fault),
    /// The next batch could not be written.
    WriteFailed,
}

impl From<AllocError> for LoadFault {
    ghost use Rattle.std.specs.Prelude.{◌≡◌};
    ghost use Rattle.streetmap_loading.specs.declared.load_fault.LoadFault.TheVariants.{Memory};

    ghost from_gives = { λ _ e. e ≡ Memory };

    fn from(_: AllocError) -> LoadFault {
        LoadFault::Memory
    }
}

impl<T: Drop> From<AllocFailed<T>> for LoadFault {
    ghost use Rattle.std.specs.Prelude.{◌≡◌};
    ghost use Rattle.streetmap_loading.specs.declared.load_fault.LoadFault.TheVariants.{Memory};

    ghost from_gives = { λ _ e. e ≡ Memory };

    fn from(_: AllocFailed<T>) -> LoadFault {
        LoadFault::Memory
    }
}

impl LoadFault {
    ghost use Rattle.std.specs.Prelude.{◌≡◌};
    ghost use Rattle.streetmap_loading.specs.Ends.{placed_fault};

    /// The fault of a batch whose edits have these places in the text.
    pub(crate) fn placed(self, places: &[Option<u64>]) -> LoadFault
        ensures { result ≡ placed_fault places.now self }
    {
        match self {
            LoadFault::Refused(why, place) => LoadFault::Refused(why, text_place(places, place)),
            fault => fault,
        }
    }
}

/// The place in the text of the edit at this place in a batch, whose edits have these places.
fn text_place(places: &[Option<u64>], place: Option<u64>) -> Option<u64>
    ensures { result ≡ text_place places.now place }
{
    match place {
        Some(place) => match places.get(place.saturating_sub(1) as usize) {
            Some(found) => *found,
            None => None,
        },
        None => None,
    }
}
