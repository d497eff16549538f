//! The index, learnt before the first request.
ghost use Rattle.streetmap_ledger.specs.Keep.{IsRead};

use streetmap_ledger::{Fault, Keeper};

/// Requests each of a keeper's collections, one by one: a keeper with an index learns it then,
/// and the first client does not wait for it. The keeper represents the same state afterwards.
///
/// # Errors
///
/// The first fault of the keeper.
pub fn warm<K: Keeper>(keeper: &mut K) -> Result<(), Fault>
    ensures { IsRead K.model keeper.old keeper.new result (λ _ _. Unit {0}) }
{
    let summaries = keeper.collections()?;
    for summary in summaries.iter() {
        keeper.collection(summary.id.as_str())?;
    }
    Ok(())
}
