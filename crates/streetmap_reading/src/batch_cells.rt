//! A batch, from its row.
ghost use Rattle.std.specs.Prelude.{◌≡◌, ◌<◌, ℕ, pos, Ok, length, MatchResult, IsUtf8};
ghost use Rattle.std.specs.Prelude.{vec_items};
ghost use Rattle.sqlite.specs.Order.{column};
ghost use Rattle.sqlite.specs.declared.types.Value.TheVariants.{Int, Text as Words};
ghost use Rattle.streetmap_batch.specs.Text.{Text};
ghost use Rattle.streetmap_ledger.specs.State.{AcceptedBatch};
ghost use Rattle.streetmap_ledger.specs.KeptView.{keyed_batch};
ghost use Rattle.streetmap_reading.specs.FoldEffects.{IsForMemory};
ghost use Rattle.streetmap_rows.specs.Rows.{batch_cells};

use crate::cells::text_at;
use sqlite::Row;
use sqlite::types::ValueRef;
use std::alloc::Global;
use streetmap_ledger::{Counts, KeptBatch};
use streetmap_rows::ReadFault;

/// The bytes of the text in a cell.
fn bytes_at(alloc: Global, row: &Row, at: usize) -> Result<Vec<u8>, ReadFault>
    ensures { (text : Text) → at < length row.now → column row.now at ≡ Words text →
        MatchResult result (λ bytes. vec_items bytes ≡ text) IsForMemory }
{
    match row.get_ref(at) {
        Ok(ValueRef::Text(found)) => Ok(Vec::from_slice(alloc, found)?),
        _ => Err(ReadFault::Unread),
    }
}

/// The number in a cell, which is one from 0.
fn number_at(row: &Row, at: usize) -> Result<u64, ReadFault>
    ensures { (n : ℕ) → at < length row.now → column row.now at ≡ Int (pos n)
        → result ≡ Ok n }
{
    match row.get_ref(at) {
        Ok(ValueRef::Int(number)) if number >= 0 => Ok(number as u64),
        _ => Err(ReadFault::Unread),
    }
}

/// How many edits of each kind a batch had.
fn counts_in(row: &Row) -> Result<Counts, ReadFault>
    ensures { (key : Text) (kept : AcceptedBatch) → row.now ≡ batch_cells key kept →
        result ≡ Ok kept.counts }
{
    Ok(Counts {
        opened: number_at(row, 2)?,
        inserted: number_at(row, 3)?,
        replaced: number_at(row, 4)?,
        deleted: number_at(row, 5)?,
    })
}

/// The batch of a row. If the row is a batch's, it gives up only if memory runs out.
pub fn batch_in(alloc: Global, row: &Row) -> Result<KeptBatch, ReadFault>
    ensures { (key : Text) (kept : AcceptedBatch) → row.now ≡ batch_cells key kept
        → IsUtf8 key →
        MatchResult result (λ batch. keyed_batch batch ≡ (key, kept)) IsForMemory }
{
    let key = text_at(row, 0)?;
    let text = bytes_at(alloc, row, 1)?;
    let counts = counts_in(row)?;
    let serial = number_at(row, 6)?;
    Ok(KeptBatch {
        key,
        text,
        counts,
        serial,
    })
}
