//! Why a batch is refused.
ghost use Rattle.std.specs.Prelude.{◌≡◌};

use std::alloc::{AllocError, AllocFailed};
use streetmap_geojson::Fault;

/// Why a batch is refused. Places are counted from 1.
#[derive(Clone, Copy, Debug, PartialEq, Drop)]
pub enum BatchFault {
    /// The whole does not have the form of a batch, or the edit of that place does not have the
    /// form of an edit.
    BadBatch { place: Option<u64> },
    /// The key is not valid.
    BadKey,
    /// The batch has more than 10,000 edits.
    TooManyEdits,
    /// The feature of the edit of that place cannot be read.
    BadFeature { place: u64, cause: Fault },
    /// Out of memory. The caller may try again.
    Memory,
}

impl BatchFault {
    ghost use Rattle.streetmap_batch.specs.BatchFaults.{code_of, description_of, place_of};
    ghost use Rattle.streetmap_batch.specs.BatchFaults.{cause_of};

    /// The name of the refusal.
    #[tactic(auto, unfolding(crate::specs::BatchFaults::code_of))]
    pub fn code(&self) -> &'static str
        ensures { result.now ≡ code_of self.now }
    {
        match self {
            BatchFault::BadBatch { place: _ } => "bad_batch",
            BatchFault::BadKey => "bad_key",
            BatchFault::TooManyEdits => "too_many_edits",
            BatchFault::BadFeature { place: _, cause: _ } => "bad_feature",
            BatchFault::Memory => "memory",
        }
    }

    /// The sentence of the refusal.
    #[tactic(auto, unfolding(crate::specs::BatchFaults::description_of))]
    pub fn description(&self) -> &'static str
        ensures { result.now ≡ description_of self.now }
    {
        match self {
            BatchFault::BadBatch { place: _ } => "The batch cannot be read.",
            BatchFault::BadKey => "The key of the batch cannot be read.",
            BatchFault::TooManyEdits => "The batch has more than 10000 edits.",
            BatchFault::BadFeature { place: _, cause: _ } =>
                "A feature of the batch cannot be read.",
            BatchFault::Memory => "Memory was refused; the call may be made again.",
        }
    }

    /// The place of the edit at fault, counted from 1.
    pub fn place(&self) -> Option<u64>
        ensures { result ≡ place_of self.now }
    {
        match self {
            BatchFault::BadBatch { place } => *place,
            BatchFault::BadFeature { place, cause: _ } => Some(*place),
            _ => None,
        }
    }

    /// What is wrong with the feature of that edit.
    pub fn cause(&self) -> Option<Fault>
        ensures { result ≡ cause_of self.now }
    {
        match self {
            BatchFault::BadFeature { place: _, cause } => Some(*cause),
            _ => None,
        }
    }
}

impl From<AllocError> for BatchFault {
    ghost use Rattle.streetmap_batch.specs.declared.batch_fault.BatchFault.TheVariants.{Memory};

    ghost from_gives = { λ _ e. e ≡ Memory };

    fn from(_: AllocError) -> BatchFault {
        BatchFault::Memory
    }
}

impl<T: Drop> From<AllocFailed<T>> for BatchFault {
    ghost use Rattle.streetmap_batch.specs.declared.batch_fault.BatchFault.TheVariants.{Memory};

    ghost from_gives = { λ _ e. e ≡ Memory };

    fn from(_: AllocFailed<T>) -> BatchFault {
        BatchFault::Memory
    }
}
