//! The rows of accepted batches.
ghost use Rattle.std.specs.Prelude.{◌≡◌, ◌<◌, ◌↔◌, ℕ, pos, length, IsTrue, IfOk};
ghost use Rattle.std.specs.Prelude.{MatchOption, MatchResult, string_bytes};
ghost use Rattle.sqlite.specs.Order.{column};
ghost use Rattle.sqlite.specs.declared.types.Value.TheVariants.{Int};
ghost use Rattle.streetmap_batch.specs.Text.{Text};
ghost use Rattle.streetmap_batch.specs.ParsedBatches.{most_edits};
ghost use Rattle.streetmap_ledger.specs.State.{AcceptedBatch};
ghost use Rattle.streetmap_rows.specs.Rows.{batch_cells};
ghost use Rattle.streetmap_reading.specs.FoldEffects.{Refuses};
ghost use Rattle.streetmap_checking.specs.Good.{HasNumber, HasBatch, IsAccepted, AreSerials};

use crate::cells::{follows, has_text};
use sqlite::Row;
use sqlite::types::ValueRef;
use std::alloc::{AllocError, Global};
use streetmap_batch::is_key;
use streetmap_reading::{RowFold, text_at};
use streetmap_rows::ReadFault;

/// The most batches that a ledger accepts.
const MOST_BATCHES: u64 = 9_223_372_036_854_775_807;

/// What is known of the batches whose rows were read.
#[derive(Drop)]
pub struct BatchRows {
    /// The key of the last.
    pub last: Option<String>,
    /// The serials of all.
    pub serials: Vec<u64>,
}

/// A batch by its key and its serial.
#[derive(Drop)]
struct KeptBatch {
    key: String,
    serial: u64,
}

/// The number in a cell, if it is one from 0.
fn number_at(row: &Row, at: usize) -> Option<u64>
    ensures { MatchOption result
        (at < length row.now → (n : ℕ) → column row.now at ≡ Int (pos n) → ⊥)
        (λ n. (at < length row.now) × (column row.now at ≡ Int (pos n))) }
{
    match row.get_ref(at) {
        Ok(ValueRef::Int(number)) => u64::try_from(number).ok(),
        _ => None,
    }
}

/// Whether a cell has a number of edits that a batch can have.
fn is_count(row: &Row, at: usize) -> bool
    ensures { IsTrue result ↔ (at < length row.now) × HasNumber most_edits row.now at }
{
    match number_at(row, at) {
        Some(count) => count <= 10_000,
        None => false,
    }
}

/// Whether a row of seven cells has a text and the counts of a batch.
fn has_batch(row: &Row) -> bool
    ensures { length row.now ≡ 7 → (IsTrue result ↔ HasBatch row.now) }
{
    has_text(row, 1) && is_count(row, 2) && is_count(row, 3) && is_count(row, 4) && is_count(row, 5)
}

/// What is kept of a batch, from its row.
fn batch_in(row: &Row) -> Result<KeptBatch, ReadFault>
    ensures { MatchResult result (λ b. (k : AcceptedBatch)
        × (row.now ≡ batch_cells (string_bytes b.key) k) × (b.serial ≡ k.serial)
        × IsAccepted (string_bytes b.key) k) (Refuses ((key : Text) (k : AcceptedBatch)
        → row.now ≡ batch_cells key k → IsAccepted key k → ⊥)) }
{
    if row.column_count() != 7 {
        return Err(ReadFault::Unread);
    }
    if !has_batch(row) {
        return Err(ReadFault::Unread);
    }
    let key = text_at(row, 0)?;
    match number_at(row, 6) {
        Some(serial) if is_key(key.as_str()) => Ok(KeptBatch { key, serial }),
        _ => Err(ReadFault::Unread),
    }
}

impl RowFold for BatchRows {
    ghost use Rattle.streetmap_checking.specs.Held.{HoldsBatchRows, IsGoodBatches};

    ghost holds = { HoldsBatchRows };

    ghost is_good = { IsGoodBatches };

    fn take(&mut self, row: &Row) -> Result<(), ReadFault> {
        let batch = batch_in(row)?;
        if !follows(self.last.as_deref(), batch.key.as_str()) {
            return Err(ReadFault::Unread);
        }
        self.serials.push(batch.serial)?;
        self.last = Some(batch.key);
        Ok(())
    }
}

/// Whether N serials are the numbers from 1 to N, each once.
pub(crate) fn are_serials(alloc: Global, serials: &[u64]) -> Result<bool, AllocError>
    ensures { IfOk result (λ are. IsTrue are ↔ AreSerials serials.now) }
{
    if serials.len() as u64 > MOST_BATCHES {
        return Ok(false);
    }
    let mut seen = Vec::new(alloc);
    seen.resize(serials.len(), false)?;
    for serial in serials {
        if *serial == 0 || *serial > serials.len() as u64 {
            return Ok(false);
        }
        let at = (*serial - 1) as usize;
        if seen[at] {
            return Ok(false);
        }
        seen[at] = true;
    }
    Ok(true)
}
