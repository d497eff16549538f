//! Accepted batches by their serials.
ghost use Rattle.std.specs.Prelude.{◌≡◌, IfOk, find};
ghost use Rattle.std.specs.BTreeMap.{IsOrdered};
ghost use Rattle.std.specs.Option.{option_map};
ghost use Rattle.std.specs.String.{string_cmp};
ghost use Rattle.streetmap_ledger.specs.Kept.{has_serial};
ghost use Rattle.streetmap_ledger.specs.KeptView.{keyed_batch};
ghost use Rattle.streetmap_memory.specs.Slots.{by_text};

use crate::kept;
use std::alloc::{AllocError, Global};
use std::collections::BTreeMap;
use streetmap_ledger::KeptBatch;

/// What is kept under a key, in memory of its own.
fn copy_of(alloc: Global, key: &str, kept: &kept::KeptBatch) -> Result<KeptBatch, AllocError>
    ensures { IfOk result (λ batch. keyed_batch batch ≡ (key.now, kept.now)) }
{
    Ok(KeptBatch {
        key: String::from_str(alloc, key)?,
        text: Vec::from_slice(alloc, kept.text())?,
        counts: kept.counts(),
        serial: kept.serial(),
    })
}

/// The batch that was accepted with a serial; none if no batch was.
pub(crate) fn batch_with(
    alloc: Global,
    keys: &BTreeMap<String, kept::KeptBatch>,
    serial: u64,
) -> Result<Option<KeptBatch>, AllocError>
    ensures finds { IfOk result (λ batch. option_map keyed_batch batch ≡
        find (has_serial serial) (by_text keys.now.entries)) }
    ensures ordered { IsOrdered string_cmp keys.now }
{
    for (key, kept) in keys.iter() {
        if kept.serial() == serial {
            return Ok(Some(copy_of(alloc, key.as_str(), kept)?));
        }
    }
    Ok(None)
}
