//! A keeper's state, compared with what its kept texts give.
ghost use Rattle.streetmap_ledger.specs.State.{State, opening_state};
ghost use Rattle.streetmap_replay.specs.Calls.{AreCalls, AreReads};
ghost use Rattle.streetmap_replay.specs.Checked.{Checks};
ghost use Rattle.streetmap_replay.specs.Stops.{kept_end, fresh_end};

use crate::batches::replay;
use crate::collections::compare_collections;
use crate::fault::ReplayFault;
use std::alloc::Global;
use streetmap_ledger::{Keeper, KeepsBatches};

/// Replays the batches that a keeper keeps, by their texts and in order of their serials, in a
/// second keeper that represents the opening state, and compares what both show. It succeeds
/// exactly if the replay is the state: each batch with its key, serial, text and counts, and each
/// collection with its title, time property and features.
///
/// # Errors
///
/// `Batch` with the first serial whose text is not a batch, or whose batch is not accepted or is
/// another than the kept one; `Collection` with the id of the first collection that differs;
/// `Stopped` with the fault of a keeper, or with `Memory`. Nothing changes in the first keeper.
/// After 2^64 - 1 batches, or as many pages of a collection, it ends as if memory had run out.
pub fn check_replay<K: KeepsBatches, L: Keeper>(
    alloc: Global,
    keeper: &mut K,
    fresh: &mut L,
) -> Result<(), ReplayFault>
    ensures kept { AreReads K.model keeper.old keeper.new (kept_end result) }
    ensures fresh { AreCalls L.model fresh.old fresh.new (fresh_end result) }
    ensures checks { K.model.is_clean keeper.new → L.model.is_clean fresh.new → (s : State) →
        K.model.represents keeper.old s → L.model.represents fresh.old opening_state →
        Checks s result (L.model.represents fresh.new) }
{
    match replay(alloc, keeper, fresh) {
        Ok(()) => compare_collections(alloc, keeper, fresh),
        Err(fault) => Err(fault),
    }
}
