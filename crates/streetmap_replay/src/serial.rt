//! Which serial a journal's line may have.
ghost use Rattle.std.specs.Prelude.{◌≡◌};
ghost use Rattle.std.specs.FinMap.{get};
ghost use Rattle.streetmap_batch.specs.BatchView.{batch_value};
ghost use Rattle.streetmap_ledger.specs.Keep.{IsRead};
ghost use Rattle.streetmap_replay.specs.FollowedLines.{is_under, is_next as is_next_in};

use streetmap_batch::Batch;
use streetmap_ledger::{Fault, KeepsBatches};

/// Whether a batch with the key of this one is kept with a serial.
fn is_there<K: KeepsBatches>(keeper: &mut K, serial: u64, batch: &Batch) -> Result<bool, Fault>
    ensures { IsRead K.model keeper.old keeper.new result
        (λ s there. there ≡ is_under serial (get s.keys (batch_value batch.now).key)) }
{
    match keeper.batch(serial) {
        Ok(Some(kept)) => Ok(kept.key.as_str() == batch.key()),
        Ok(None) => Ok(false),
        Err(fault) => Err(fault),
    }
}

/// Whether a serial is the next one, or a batch with the key of this one is kept with it.
pub(crate) fn is_next<K: KeepsBatches>(
    keeper: &mut K,
    serial: u64,
    batch: &Batch,
) -> Result<bool, Fault>
    ensures { IsRead K.model keeper.old keeper.new result
        (λ s next. next ≡ is_next_in s serial (batch_value batch.now)) }
{
    match keeper.batch_count() {
        Ok(count) => {
            if serial > 0 && serial - 1 == count {
                Ok(true)
            } else {
                is_there(keeper, serial, batch)
            }
        }
        Err(fault) => Err(fault),
    }
}
