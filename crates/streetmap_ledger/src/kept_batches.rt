//! A keeper that returns the batches that it keeps.
ghost use Rattle.streetmap_ledger.specs.Keep.{IsRead, IsBatchCount, IsBatchOf, AreNextOf};

use crate::keeper::Keeper;
use crate::kept_batch::KeptBatch;
use crate::reply::Fault;
use std::alloc::Global;

/// A keeper that returns the batches that it keeps.
pub trait KeepsBatches: Keeper {
    /// How many batches are kept. They have the serials from 1 to that number, one each.
    fn batch_count(&mut self) -> Result<u64, Fault>
        ensures { IsRead Self.model self.old self.new result IsBatchCount };

    /// The batch that is kept with a serial; none if no batch has it.
    fn batch(&mut self, serial: u64) -> Result<Option<KeptBatch>, Fault>
        ensures { IsRead Self.model self.old self.new result (IsBatchOf serial) };

    /// The batches with the next serials after one, in order: at least one, if one is kept, and
    /// further ones while the texts of those before have at most `room` bytes.
    fn batches(&mut self, alloc: Global, after: u64, room: usize) -> Result<Vec<KeptBatch>, Fault>
        ensures { IsRead Self.model self.old self.new result (AreNextOf after room) };
}
