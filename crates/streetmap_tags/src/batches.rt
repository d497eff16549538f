//! The changes after a serial.
ghost use Rattle.std.specs.Prelude.{◌≡◌};
ghost use Rattle.streetmap_ledger.specs.Keep.{IsRead};
ghost use Rattle.streetmap_ledger.specs.KeptView.{keyed_batches};
ghost use Rattle.streetmap_tags.specs.Changes.{changes_in, ChangesGoOn};

use crate::tagged::Tagged;
use std::alloc::Global;
use streetmap_ledger::{Fault, KeptBatch};

/// How many bytes the texts of changes may have before a further one.
const MOST_BYTES: usize = 8 << 20;

/// The batches that were accepted after a serial, in order of their serials: at most `limit`; and
/// further ones after the first only while the texts of those before have at most 8 MiB.
///
/// # Errors
///
/// The first fault of the keeper, and `Memory` if memory runs out.
pub fn changes<K: Tagged>(
    alloc: Global,
    keeper: &mut K,
    after: u64,
    limit: u32,
) -> Result<Vec<KeptBatch>, Fault>
    ensures { IsRead K.model keeper.old keeper.new result (λ s found.
        keyed_batches found.items ≡ changes_in s after limit) }
{
    let count = match keeper.tag() {
        Ok(count) => count,
        Err(fault) => return Err(fault),
    };
    let last = count.min(after.saturating_add(limit as u64));
    let mut found = Vec::new(alloc);
    let mut room = MOST_BYTES;
    for before in after..last {
        let kept = match keeper.accepted(before + 1) {
            Ok(Some(kept)) => kept,
            // No serial up to the count is missing.
            Ok(None) => return Ok(found),
            Err(fault) => return Err(fault),
        };
        let bytes = kept.text.len();
        if found.push(kept).is_err() {
            return Err(Fault::Memory);
        }
        if bytes > room {
            return Ok(found);
        }
        room -= bytes;
    }
    Ok(found)
}

/// Of the changes of a well-formed state none is left out: who goes on after the last serial that
/// it has got reads all.
pub fn changes_go_on()
    ensures { ChangesGoOn }
{}
