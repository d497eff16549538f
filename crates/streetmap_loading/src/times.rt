//! The time property of a collection, read from a keeper.
ghost use Rattle.std.specs.Prelude.{◌≡◌};
ghost use Rattle.streetmap_ledger.specs.Keep.{IsRead};
ghost use Rattle.streetmap_loading.specs.Times.{times_in};
ghost use Rattle.streetmap_loading.specs.TextView.{property_of};

use crate::keeper_sink::KeeperSink;
use crate::rules::HeldTimes;
use streetmap_ledger::{Fault, Keeper};

/// The property that the times of a collection's features are read from: none if it has none, or
/// does not exist.
pub fn read_times<K: Keeper>(sink: &mut KeeperSink<K>, collection: &str) -> Result<HeldTimes, Fault>
    ensures { IsRead K.model sink.old.keeper sink.new.keeper result
        (λ s times. property_of times ≡ times_in s collection.now) }
{
    match sink.keeper.collection(collection) {
        Ok(Some(summary)) => Ok(HeldTimes {
            property: summary.time,
        }),
        Ok(None) => Ok(HeldTimes { property: None }),
        Err(fault) => Err(fault),
    }
}
