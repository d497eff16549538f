//! Batches of a key by their numbers.
ghost use Rattle.std.specs.Prelude.{◌≡◌, ◌≤◌, ◌<◌, ◌+◌, ◌^◌, [], IfOk, IsTrue, length, nat_le};
ghost use Rattle.std.specs.Prelude.{string_bytes};
ghost use Rattle.streetmap_batch.specs.BatchText.{batch_text};
ghost use Rattle.streetmap_batch.specs.BatchView.{batch_value, edit_values};
ghost use Rattle.streetmap_batch.specs.Names.{is_key};
ghost use Rattle.streetmap_packing.specs.Packs.{numbered, numbered_key, most_bytes};
ghost use Rattle.streetmap_packing.specs.PackingState.{comma_after};

use std::alloc::{AllocError, Global};
use streetmap_batch::{Batch, BatchFault, Edit};

/// The most bytes of a batch text that can be posted.
pub const MAX_TEXT: usize = 8_388_608;

/// Whether a text of `bytes` bytes has room for a comma of `comma` bytes and an edit of `size`
/// bytes.
pub(crate) fn has_room(bytes: usize, comma: usize, size: usize) -> bool
    ensures { result ≡ nat_le (bytes + (comma + size)) most_bytes }
{
    if bytes > MAX_TEXT || comma > MAX_TEXT || size > MAX_TEXT {
        return false;
    }
    bytes + (comma + size) <= MAX_TEXT
}

/// How many bytes the comma after the edits has: 0 without edits.
pub(crate) fn comma_len(edits: &[Edit]) -> usize
    ensures value { result ≡ length (comma_after (edit_values edits.now)) }
    ensures short { result ≤ 1 }
{
    match edits {
        [] => 0,
        [_, ..] => 1,
    }
}

/// The key of the batch of this number.
#[tactic(auto, using(crate::proofs::KeyLemmas::keys_have_room))]
fn numbered_key(alloc: Global, key: &str, number: u64) -> Result<String, AllocError>
    requires named { IsTrue (is_key key.now) }
    requires short { length key.now ≤ 44 }
    requires few { number < 2 ^ 63 }
    ensures value { IfOk result (λ text. string_bytes text ≡ numbered_key key.now number) }
    ensures named { IfOk result (λ text. IsTrue (is_key (string_bytes text))) }
{
    format!(in alloc; "{key}.{number}")
}

/// The batch of a key and edits.
fn keyed_batch(key: String, edits: Vec<Edit>) -> Result<Batch, AllocError>
    requires named { IsTrue (is_key (string_bytes key)) }
    requires few { length edits.items ≤ 10000 }
    ensures { IfOk result (λ batch. batch_value batch ≡
        record { key = string_bytes key; edits = edit_values edits.items }) }
{
    match Batch::new(key, edits) {
        Ok(batch) => Ok(batch),
        Err(BatchFault::Memory) => Err(AllocError),
        Err(_) => unreachable!(),
    }
}

/// The batch of this number.
pub(crate) fn numbered_batch(
    alloc: Global,
    key: &str,
    number: u64,
    edits: Vec<Edit>,
) -> Result<Batch, AllocError>
    requires named { IsTrue (is_key key.now) }
    requires short { length key.now ≤ 44 }
    requires numbers { number < 2 ^ 63 }
    requires few { length edits.items ≤ 10000 }
    ensures { IfOk result (λ batch. batch_value batch ≡
        numbered key.now number (edit_values edits.items)) }
{
    let key = numbered_key(alloc, key, number)?;
    keyed_batch(key, edits)
}

/// How many bytes the text of the batch of this number has while it has no edit.
pub(crate) fn empty_bytes(alloc: Global, key: &str, number: u64) -> Result<usize, AllocError>
    requires named { IsTrue (is_key key.now) }
    requires short { length key.now ≤ 44 }
    requires numbers { number < 2 ^ 63 }
    ensures { IfOk result (λ bytes. bytes ≡ length (batch_text (numbered key.now number []))) }
{
    let batch = numbered_batch(alloc, key, number, Vec::new(alloc))?;
    let text = batch.text(alloc)?;
    Ok(text.len())
}
