//! Kept batches, reproduced from their texts.
ghost use Rattle.std.specs.Prelude.{◌≡◌, ◌+◌, ℕ, None, IfOk, option_map, length};
ghost use Rattle.std.specs.Bool.{Decides};
ghost use Rattle.streetmap_batch.specs.BatchText.{batch_text};
ghost use Rattle.streetmap_batch.specs.BatchView.{batch_value};
ghost use Rattle.streetmap_ledger.specs.Kept.{batches_next};
ghost use Rattle.streetmap_ledger.specs.KeptView.{keyed_batch, keyed_batches};
ghost use Rattle.streetmap_ledger.specs.State.{State, opening_state};
ghost use Rattle.streetmap_ledger.specs.WellFormed.{IsState};
ghost use Rattle.streetmap_replay.specs.Checked.{GivesBatches};
ghost use Rattle.streetmap_replay.specs.Given.{GivesFirst, GivesRow, GivesPart, read_of};
ghost use Rattle.streetmap_replay.specs.Calls.{AreCalls, AreReads};
ghost use Rattle.streetmap_replay.specs.Stops.{kept_end, fresh_end};

use crate::fault::ReplayFault;
use std::alloc::{AllocError, Global};
use streetmap_batch::{Batch, BatchFault, read_batch};
use streetmap_ledger::{Counts, Keeper, KeepsBatches, KeptBatch, Reply};

/// At most this many bytes of texts, and one more text, are in memory besides both keepers.
const ROOM: usize = 1 << 20;

/// Whether two counts of edits are the same.
fn is_same_counts(ours: Counts, theirs: Counts) -> bool
    ensures { Decides result (ours ≡ theirs) }
{
    ours.opened == theirs.opened
        && ours.inserted == theirs.inserted
        && ours.replaced == theirs.replaced
        && ours.deleted == theirs.deleted
}

/// Whether a batch that was accepted with these counts and this serial is the kept one: by its
/// serial, its counts, its key and its text.
fn is_kept(
    alloc: Global,
    kept: &KeptBatch,
    batch: &Batch,
    counts: Counts,
    serial: u64,
) -> Result<bool, AllocError>
    ensures { IfOk result (λ is. Decides is (keyed_batch kept.now ≡ (
      (batch_value batch.now).key,
      record {
        text = batch_text (batch_value batch.now);
        counts = counts;
        serial = serial;
      },
    ))) }
{
    if kept.serial != serial {
        return Ok(false);
    }
    if !is_same_counts(kept.counts, counts) {
        return Ok(false);
    }
    if kept.key.as_str() != batch.key() {
        return Ok(false);
    }
    let text = batch.text(alloc)?;
    Ok(kept.text.as_slice() == text.as_str().as_bytes())
}

/// The batch that a text is; none if it is not one.
fn read_kept(alloc: Global, text: &[u8]) -> Result<Option<Batch>, ReplayFault>
    ensures { IfOk result (λ found. option_map batch_value found ≡ read_of text.now) }
{
    match read_batch(alloc, text) {
        Ok(batch) => Ok(Some(batch)),
        Err(BatchFault::BadBatch { place: _ }) => Ok(None),
        Err(BatchFault::BadKey) => Ok(None),
        Err(BatchFault::TooManyEdits) => Ok(None),
        Err(BatchFault::BadFeature { place: _, cause: _ }) => Ok(None),
        Err(BatchFault::Memory) => Err(ReplayFault::Memory),
    }
}

/// Applies the text of a kept batch, and returns whether it reproduces that batch.
fn give_again<L: Keeper>(
    alloc: Global,
    fresh: &mut L,
    kept: &KeptBatch,
) -> Result<bool, ReplayFault>
    ensures calls { AreCalls L.model fresh.old fresh.new (fresh_end result) }
    ensures stop { kept_end result ≡ None }
    ensures gives { L.model.is_clean fresh.new → (t : State) → L.model.represents fresh.old t →
        GivesRow t (keyed_batch kept.now) result (L.model.represents fresh.new) }
{
    let batch = match read_kept(alloc, kept.text.as_slice()) {
        Ok(Some(batch)) => batch,
        Ok(None) => return Ok(false),
        Err(_) => return Err(ReplayFault::Memory),
    };
    match fresh.apply(&batch) {
        Ok(Reply::Accepted(counts, serial)) => {
            match is_kept(alloc, kept, &batch, counts, serial) {
                Ok(is) => Ok(is),
                Err(_) => Err(ReplayFault::Memory),
            }
        }
        Ok(Reply::Repeated(_, _)) => Ok(false),
        Ok(Reply::Refused(_, _)) => Ok(false),
        Err(fault) => Err(ReplayFault::Fresh(fault)),
    }
}

/// Applies the texts of kept batches, in order, up to the first that does not reproduce its batch.
fn give_each<L: Keeper>(alloc: Global, fresh: &mut L, part: &[KeptBatch]) -> Result<(), ReplayFault>
    ensures calls { AreCalls L.model fresh.old fresh.new (fresh_end result) }
    ensures stop { kept_end result ≡ None }
    ensures gives { L.model.is_clean fresh.new → (s : State) (n : ℕ) (t : State) → IsState s →
        GivesFirst s n t → L.model.represents fresh.old t →
        keyed_batches part.now ≡ batches_next s n (length part.now) →
        GivesPart s (n + length part.now) result (L.model.represents fresh.new) }
{
    for batch in part {
        match give_again(alloc, fresh, batch) {
            Ok(true) => {}
            Ok(false) => return Err(ReplayFault::Batch(batch.serial)),
            Err(fault) => return Err(fault),
        }
    }
    Ok(())
}

/// Replays the batches that a keeper keeps, in order of their serials, in a keeper that represents
/// the opening state, up to the first that its text does not reproduce.
pub fn replay<K: KeepsBatches, L: Keeper>(
    alloc: Global,
    keeper: &mut K,
    fresh: &mut L,
) -> Result<(), ReplayFault>
    ensures kept { AreReads K.model keeper.old keeper.new (kept_end result) }
    ensures fresh { AreCalls L.model fresh.old fresh.new (fresh_end result) }
    ensures gives { K.model.is_clean keeper.new → L.model.is_clean fresh.new → (s : State) →
        K.model.represents keeper.old s → L.model.represents fresh.old opening_state →
        GivesBatches s result (L.model.represents fresh.new) }
{
    let mut last = 0u64;
    for _turn in 0..u64::MAX {
        let part = match keeper.batches(alloc, last, ROOM) {
            Ok(part) => part,
            Err(fault) => return Err(ReplayFault::Kept(fault)),
        };
        let Some(latest) = part.last() else {
            return Ok(());
        };
        last = latest.serial;
        match give_each(alloc, fresh, part.as_slice()) {
            Ok(()) => {}
            Err(fault) => return Err(fault),
        }
    }
    Err(ReplayFault::Memory)
}
