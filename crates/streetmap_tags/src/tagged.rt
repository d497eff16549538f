//! A keeper whose state has a tag.
ghost use Rattle.streetmap_ledger.specs.Keep.{IsRead, IsBatchCount, IsBatchOf};
ghost use Rattle.streetmap_tags.specs.Keys.{IsKeyUsed};

use streetmap_ledger::{Fault, Keeper, KeptBatch};

/// A keeper whose state has a tag, and which returns the batches that it has accepted.
pub trait Tagged: Keeper {
    /// The tag of the state: how many batches it has accepted.
    fn tag(&mut self) -> Result<u64, Fault>
        ensures { IsRead Self.model self.old self.new result IsBatchCount };

    /// Whether a batch was accepted under a key.
    fn has_key(&mut self, key: &str) -> Result<bool, Fault>
        ensures { IsRead Self.model self.old self.new result (IsKeyUsed key.now) };

    /// The batch that was accepted with a serial; none if no batch has it.
    fn accepted(&mut self, serial: u64) -> Result<Option<KeptBatch>, Fault>
        ensures { IsRead Self.model self.old self.new result (IsBatchOf serial) };
}
