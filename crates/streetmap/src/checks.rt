//! Checks that read all rows of a file.
ghost use Rattle.std.specs.Prelude.{◌≡◌};
ghost use Rattle.streetmap_ledger.specs.State.{State};
ghost use Rattle.streetmap.specs.Changes.{HoldOneOf};

use crate::fault;
use sqlite::Alter;
use streetmap_checking::check_tables;
use streetmap_faults::ProgramFault;
use streetmap_index::IndexedKeeper;
use streetmap_ledger::{Durable, KeepsBatches};
use streetmap_memory::PlainKeeper;
use streetmap_replay::{ReplayFault, check_replay};
use streetmap_store::TableKeeper;

/// Prints the number of collections, features and batches, if the rows are those of a state.
pub(crate) fn check<S: Alter + Drop>(
    rt: &HostRuntime,
    keeper: TableKeeper<S>,
) -> Result<(), ProgramFault> {
    let totals = check_tables(rt.alloc(), &mut keeper.release()).map_err(fault::of_check)?;
    println!(rt;
        "ok {} {} {}",
        totals.collections, totals.features, totals.batches
    )
    .map_err(|_| ProgramFault::WriteFailed)
}

/// Reports which collection differs in a replay, if one does. A line that cannot be written is left
/// out.
fn report_collection(rt: &HostRuntime, fault: &ReplayFault) {
    if let ReplayFault::Collection(name) = fault {
        let name = name.as_str();
        let _ = eprintln!(rt; "streetmap: not_replayed {name}");
    }
}

/// Replays the kept batches in memory, and compares what they give with what the keeper shows.
pub(crate) fn replay<K: Durable + KeepsBatches>(
    rt: &HostRuntime,
    keeper: &mut K,
) -> Result<(), ProgramFault>
    ensures leaves { K.model.is_clean keeper.new → (s : State) → K.model.represents keeper.old s →
        HoldOneOf K.holds (K.leaves keeper.new) (λ t. t ≡ s) }
    ensures began_clean { K.model.is_clean keeper.new → K.model.is_clean keeper.old }
{
    let mut fresh = IndexedKeeper::new(rt.alloc(), PlainKeeper::new(rt.alloc()));
    match check_replay(rt.alloc(), keeper, &mut fresh) {
        Ok(()) => Ok(()),
        Err(refused) => {
            report_collection(rt, &refused);
            Err(fault::of_replay(&refused))
        }
    }
}
