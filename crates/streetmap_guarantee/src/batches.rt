//! Batches in order.
ghost use Rattle.std.specs.Prelude.{◌≡◌, Some, map};
ghost use Rattle.streetmap_batch.specs.BatchView.{batch_value};
ghost use Rattle.streetmap_ledger.specs.State.{State};
ghost use Rattle.streetmap_ledger.specs.declared.reply.Fault.{Fault};
ghost use Rattle.streetmap_web.specs.Conditions.{ByCalls};
ghost use Rattle.streetmap_guarantee.specs.Runs.{GuaranteeOfRun};

use std::alloc::Global;
use streetmap_ledger::{Batch, Durable, Run, run};

/// Applies batches over a keeper, in order, up to the first fault (`streetmap_ledger::run`).
pub fn run_batches<K: Durable>(alloc: Global, keeper: &mut K, batches: &[Batch]) -> Run
    ensures guarantee { K.model.is_clean keeper.new → (s : State) →
        K.model.represents keeper.old s →
        GuaranteeOfRun K.holds (K.leaves keeper.new) s (map batch_value batches.now)
        result.replies.items result.fault }
    ensures failed { K.model.is_clean keeper.new → (s : State) → K.model.represents keeper.old s →
        result.fault ≡ Some Fault.Device → K.model.fails keeper.old keeper.new }
    ensures calls { ByCalls K.model keeper.old keeper.new }
{
    run(alloc, keeper, batches)
}
