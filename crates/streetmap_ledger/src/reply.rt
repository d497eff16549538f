//! Replies and faults.
use streetmap_batch::Edit;

/// How many edits of each kind a batch has.
#[derive(Clone, Copy, PartialEq, Eq)]
pub struct Counts {
    pub opened: u64,
    pub inserted: u64,
    pub replaced: u64,
    pub deleted: u64,
}

/// Why a batch is refused.
#[derive(Clone, Copy, PartialEq, Eq)]
pub enum Refusal {
    /// The collection of an edit does not exist.
    NoCollection,
    /// The collection to be opened exists already.
    CollectionExists,
    /// The feature to be inserted exists already.
    FeatureExists,
    /// The feature to be replaced or deleted does not exist.
    NoFeature,
    /// The time property of a feature cannot be read.
    BadTime,
    /// The key was used for a batch with another text.
    KeyUsed,
    /// 2^63 - 1 batches were accepted.
    Full,
}

/// The result of a batch.
#[derive(Clone, Copy, PartialEq, Eq)]
pub enum Reply {
    /// It was accepted: how many edits of each kind it had, and its serial, from 1.
    Accepted(Counts, u64),
    /// It was accepted before: the reply that was given then.
    Repeated(Counts, u64),
    /// It was refused, and nothing changed; with the place of the edit at fault, counted from 1, if
    /// an edit was at fault.
    Refused(Refusal, Option<u64>),
}

/// What shut a keeper.
#[derive(Clone, Copy, PartialEq, Eq)]
pub enum Cause {
    /// The device failed, or its size was reached.
    Device,
    /// The store holds what no keeper writes.
    Damaged,
}

/// Why a call was not answered.
#[derive(Clone, Copy, Debug, PartialEq, Eq)]
pub enum Fault {
    /// Memory ran out; nothing changed, and the call may be made again.
    Memory,
    /// The device failed; the keeper is shut.
    Device,
    /// The store holds what no keeper writes; the keeper is shut.
    Damaged,
    /// The keeper was shut before.
    Reopen,
}

/// The replies of a run, and the fault that ended it.
#[derive(Drop)]
pub struct Run {
    /// The replies of the calls made, in order.
    pub replies: Vec<Reply>,
    /// The fault that ended the run before all batches were answered.
    pub fault: Option<Fault>,
}

impl Counts {
    ghost use Rattle.std.specs.Prelude.{◌≡◌, ◌≤◌, length, map};
    ghost use Rattle.streetmap_batch.specs.BatchView.{edit_value};
    ghost use Rattle.streetmap_ledger.specs.Batches.{counts_of};

    /// How many of the edits are of each kind.
    pub fn of(edits: &[Edit]) -> Counts
        ensures value { result ≡ counts_of (map edit_value edits.now) }
        ensures opened { result.opened ≤ length edits.now }
        ensures inserted { result.inserted ≤ length edits.now }
        ensures replaced { result.replaced ≤ length edits.now }
        ensures deleted { result.deleted ≤ length edits.now }
    {
        let mut counts = Counts {
            opened: 0,
            inserted: 0,
            replaced: 0,
            deleted: 0,
        };
        for edit in edits {
            match edit {
                Edit::Open { .. } => counts.opened += 1,
                Edit::Insert { .. } => counts.inserted += 1,
                Edit::Replace { .. } => counts.replaced += 1,
                Edit::Delete { .. } => counts.deleted += 1,
            }
        }
        counts
    }
}

impl Refusal {
    ghost use Rattle.std.specs.Prelude.{◌≡◌};
    ghost use Rattle.streetmap_ledger.specs.Refusals.{code_of, description_of};

    /// The name of the refusal in answers.
    #[tactic(auto, unfolding(crate::specs::Refusals::code_of))]
    pub fn code(&self) -> &'static str
        ensures { result.now ≡ code_of self.now }
    {
        match self {
            Refusal::NoCollection => "no_collection",
            Refusal::CollectionExists => "collection_exists",
            Refusal::FeatureExists => "feature_exists",
            Refusal::NoFeature => "no_feature",
            Refusal::BadTime => "bad_time",
            Refusal::KeyUsed => "key_used",
            Refusal::Full => "full",
        }
    }

    /// The sentence of the refusal in answers.
    #[tactic(auto, unfolding(crate::specs::Refusals::description_of))]
    pub fn description(&self) -> &'static str
        ensures { result.now ≡ description_of self.now }
    {
        match self {
            Refusal::NoCollection => "The collection is not there.",
            Refusal::CollectionExists => "The collection is there already.",
            Refusal::FeatureExists => "The feature is there already.",
            Refusal::NoFeature => "The feature is not there.",
            Refusal::BadTime => "The time property of the feature cannot be read.",
            Refusal::KeyUsed => "The key was used for another batch.",
            Refusal::Full => "No further batch can be taken.",
        }
    }
}

impl Fault {
    ghost use Rattle.std.specs.Prelude.{◌≡◌};
    ghost use Rattle.streetmap_ledger.specs.Refusals.{fault_code, fault_description};

    /// The name of the fault in answers.
    #[tactic(auto, unfolding(crate::specs::Refusals::fault_code))]
    pub fn code(&self) -> &'static str
        ensures { result.now ≡ fault_code self.now }
    {
        match self {
            Fault::Memory => "memory",
            Fault::Device => "device",
            Fault::Damaged => "damaged",
            Fault::Reopen => "reopen",
        }
    }

    /// The sentence of the fault in answers.
    #[tactic(auto, unfolding(crate::specs::Refusals::fault_description))]
    pub fn description(&self) -> &'static str
        ensures { result.now ≡ fault_description self.now }
    {
        match self {
            Fault::Memory => "Memory was refused; the call may be made again.",
            Fault::Device => "The store failed and must be opened again.",
            Fault::Damaged => "The store holds a row that cannot be read.",
            Fault::Reopen => "The store is shut and must be opened again.",
        }
    }
}
