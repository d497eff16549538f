//! The result of a load.
use crate::load_fault::LoadFault;

/// The result of a load.
#[derive(Clone, Copy, Drop)]
pub struct Loaded {
    /// How many edits were read.
    pub edits: u64,
    /// How many batches were taken.
    pub batches: u64,
    /// How many edits these have.
    pub taken: u64,
    /// The serial of the last of them, if it has one.
    pub serial: Option<u64>,
    /// How many features at fault were skipped.
    pub skipped: u64,
    /// What ended it; none if all edits were read, and all their batches taken.
    pub fault: Option<LoadFault>,
}
