//! A keeper that batches are applied to.
use crate::load_fault::LoadFault;
use crate::sink::Sink;
use streetmap_batch::Batch;
use streetmap_ledger::{Keeper, Reply};

/// A keeper that batches are applied to.
#[derive(Drop)]
pub struct KeeperSink<K: Keeper> {
    pub keeper: K,
}

impl<K: Keeper> Sink for KeeperSink<K> {
    ghost use Rattle.streetmap_loading.specs.AppliedBatches.{Applies};

    ghost takes = { λ old b result new. Applies K.model old.keeper b result new.keeper };

    fn take(&mut self, batch: &Batch) -> Result<Option<u64>, LoadFault> {
        match self.keeper.apply(batch) {
            Ok(Reply::Accepted(_, serial)) | Ok(Reply::Repeated(_, serial)) => Ok(Some(serial)),
            Ok(Reply::Refused(why, place)) => Err(LoadFault::Refused(why, place)),
            Err(fault) => Err(LoadFault::Stopped(fault)),
        }
    }
}
