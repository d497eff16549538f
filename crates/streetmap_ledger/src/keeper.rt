//! A keeper of a state, and a run of batches over it.
ghost use Rattle.std.specs.Prelude.{◌≡◌, ◌≤◌, ◌<◌, ◌+◌, ℕ, Some, IsNone, IsSome};
ghost use Rattle.std.specs.Prelude.{is_none, length, take, map};
ghost use Rattle.streetmap_ledger.specs.State.{State};
ghost use Rattle.streetmap_ledger.specs.Batches.{replies_of};
ghost use Rattle.streetmap_batch.specs.BatchView.{batch_value};
ghost use Rattle.streetmap_ledger.specs.Model.{Model};
ghost use Rattle.streetmap_ledger.specs.Keep.{IsWrite, IsRead, IsPageOf, IsFeatureOf, IsSummaryOf};
ghost use Rattle.streetmap_ledger.specs.Keep.{AreSummaries, RunEnds, RunShuts};

use crate::{Fault, Page, Reply, Run, Summary};
use std::alloc::Global;
use streetmap_batch::Batch;
use streetmap_feature_text::PackedFeature;
use streetmap_query::Query;

/// Represents a state, answers reads of it, and acts on it by batches.
///
/// An implementer gives its model: which states it represents, what a crash may leave, what shut
/// it, whether its store is clean, and the laws that it must satisfy. If its store is clean when a
/// call ends, the call returned what the definitions give for the state before, and the keeper
/// represents the state that they give after it. `Memory` changes nothing, and the call may be made
/// again. `Device` and `Damaged` shut the keeper; a shut keeper answers `Reopen`, changing nothing.
/// A crash of a keeper that represents a state leaves exactly that state. After `Device` a crash
/// leaves the state before the call or, for a batch, the state after it. Each call keeps everything
/// else in its store, and returns `Device` only if the store failed in that call; the model says
/// what both mean for its store.
pub trait Keeper {
    /// Which states it represents, and what it owes.
    ghost model: { Model Self };

    /// Whether it is open, so that the next call is made.
    fn is_open(&self) -> bool
        ensures { result ≡ is_none (model.cause self.now) };

    /// Acts on one batch.
    fn apply(&mut self, batch: &Batch) -> Result<Reply, Fault>
        ensures { IsWrite model self.old self.new (batch_value batch.now) result };

    /// A page of a collection; none if the collection does not exist.
    fn page(&mut self, collection: &str, query: &Query) -> Result<Option<Page>, Fault>
        ensures { IsRead model self.old self.new result (IsPageOf collection.now query.now) };

    /// A feature; none if the collection does not exist, or has no such feature.
    fn feature(&mut self, collection: &str, id: &str) -> Result<Option<PackedFeature>, Fault>
        ensures { IsRead model self.old self.new result (IsFeatureOf collection.now id.now) };

    /// The summary of a collection; none if the collection does not exist.
    fn collection(&mut self, id: &str) -> Result<Option<Summary>, Fault>
        ensures { IsRead model self.old self.new result (IsSummaryOf id.now) };

    /// The summaries of all collections, in byte order of ids.
    fn collections(&mut self) -> Result<Vec<Summary>, Fault>
        ensures { IsRead model self.old self.new result AreSummaries };
}

/// Applies the batches in order, up to the first fault. If memory for the replies cannot be
/// allocated, no call is made.
pub fn run<K: Keeper>(alloc: Global, keeper: &mut K, batches: &[Batch]) -> Run
    ensures count { length result.replies.items ≤ length batches.now }
    ensures all { IsNone result.fault → length result.replies.items ≡ length batches.now }
    ensures some { IsSome result.fault → length result.replies.items < length batches.now }
    ensures preserved { K.model.preserves keeper.old keeper.new }
    ensures began_clean { K.model.is_clean keeper.new → K.model.is_clean keeper.old }
    ensures faults { RunShuts result.fault (K.model.cause keeper.old) (K.model.cause keeper.new) }
    ensures replies { K.model.is_clean keeper.new → (s : State) →
        K.model.represents keeper.old s → result.replies.items ≡
        replies_of s (take (length result.replies.items) (map batch_value batches.now)) }
    ensures ends { K.model.is_clean keeper.new → (s : State) → K.model.represents keeper.old s →
        RunEnds K.model keeper.old keeper.new s (map batch_value batches.now)
        (length result.replies.items) result.fault }
{
    if batches.is_empty() {
        return Run {
            replies: Vec::new(alloc),
            fault: None,
        };
    }
    let Ok(mut replies) = Vec::with_capacity(alloc, batches.len()) else {
        return Run {
            replies: Vec::new(alloc),
            fault: Some(Fault::Memory),
        };
    };
    let mut fault = None;
    for batch in batches {
        match keeper.apply(batch) {
            Ok(reply) => replies.push_reserved(reply),
            Err(stopped) => {
                fault = Some(stopped);
                break;
            }
        }
    }
    Run { replies, fault }
}
