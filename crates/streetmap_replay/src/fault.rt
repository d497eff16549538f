//! Why a replay does not complete, or differs.
use streetmap_ledger::Fault;

/// Why a state is not found to be the result of its own replay.
#[derive(Drop)]
pub enum ReplayFault {
    /// The keeper whose batches are replayed answered with a fault.
    Kept(Fault),
    /// The keeper in which they are replayed answered with a fault.
    Fresh(Fault),
    /// Memory ran out while batches were read or compared.
    Memory,
    /// The first batch that its text does not reproduce: the text is not a batch, or its batch is
    /// not accepted, or has another key, serial, text or other counts.
    Batch(u64),
    /// The first collection that differs in the replay.
    Collection(String),
}
