//! Batches from JSON.
ghost use Rattle.std.specs.Prelude.{◌≡◌, ◌<◌, Ok, IfOk, OnOk, List, length};
ghost use Rattle.std.specs.Prelude.{option_map};
ghost use Rattle.json.specs.Json.{value};
ghost use Rattle.serde_json.specs.Data.{Data, Members, no_members, object, put};
ghost use Rattle.serde_json.specs.Read.{read};
ghost use Rattle.streetmap_json.specs.Values.{value_at, members_at, whole};
ghost use Rattle.streetmap_json.specs.JsonText.{utf8_value};
ghost use Rattle.streetmap_batch.specs.BatchFaults.{Gives};
ghost use Rattle.streetmap_batch.specs.BatchMeaning.{IsBatchText};
ghost use Rattle.streetmap_batch.specs.ParsedBatches.{batch, batch_of, keyed};
ghost use Rattle.streetmap_batch.specs.BatchTokens.{Takes, edits_view, AreRead, IsWholeRead};
ghost use Rattle.streetmap_batch.specs.BatchTokens.{batch_in, few_edits};
ghost use Rattle.streetmap_batch.specs.BatchValue.{BatchValue};
ghost use Rattle.streetmap_batch.specs.BatchView.{batch_value};

use crate::batch::Batch;
use crate::batch_fault::BatchFault;
use crate::edit_tokens::{Edits, read_array};
use crate::names::is_key;
use crate::opening::opens_object;
use json::{Reader, Scratch};
use serde_json::Value;
use std::alloc::Global;
use streetmap_json::{ParseFault, read_value, with_whole_numbers};

/// How deep the members of a whole text may nest.
const MEMBER_DEPTH: usize = 126;

/// What was read of the members of a batch.
#[derive(Drop)]
struct Parts {
    /// Whether no other member was found.
    only: bool,
    key: Option<Value>,
    /// The edits, if they are an array.
    edits: Option<Edits>,
}

impl Parts {
    fn new() -> Parts
        ensures { AreRead no_members result }
    {
        Parts {
            only: true,
            key: None,
            edits: None,
        }
    }

    /// Reads the value of the member of that name.
    fn read_member(
        &mut self,
        alloc: Global,
        name: &str,
        reader: &mut Reader<'_>,
    ) -> Result<(), ParseFault>
        ensures takes { (ms : Members) → AreRead ms self.old
            → Takes (λ d u. AreRead (put name.now d ms) self.new) result reader.new
            (value_at 126 reader.old) }
        ensures shorter { OnOk result (length reader.new < length reader.old) }
    {
        if name == "edits" {
            self.edits = read_array(alloc, reader, MEMBER_DEPTH)?;
        } else if name == "key" {
            self.key = Some(read_value(alloc, reader, MEMBER_DEPTH)?);
        } else {
            drop(read_value(alloc, reader, MEMBER_DEPTH)?);
            self.only = false;
        }
        Ok(())
    }
}

/// The members of an object whose opening brace was read.
fn read_members(alloc: Global, reader: &mut Reader<'_>) -> Result<Parts, ParseFault>
    ensures { Takes AreRead result reader.new (members_at 126 reader.old) }
{
    let mut parts = Parts::new();
    'members: while let Some(name) = reader.next_key()? {
        parts.read_member(alloc, name, reader)?;
    }
    Ok(parts)
}

/// The members of the object that the tokens are.
fn read_whole(alloc: Global, reader: &mut Reader<'_>) -> Result<Parts, ParseFault>
    ensures { IsWholeRead (whole (value 127 reader.old)) result }
{
    let Some(token) = reader.next() else {
        return Err(ParseFault::NotJson);
    };
    if !opens_object(&token) {
        return Err(ParseFault::NotJson);
    }
    let parts = read_members(alloc, reader)?;
    match reader.next() {
        Some(_) => Err(ParseFault::NotJson),
        None => Ok(parts),
    }
}

/// The batch of a key and edits: the key is judged first, then the edits.
#[tactic(auto, unfolding(crate::specs::ParsedBatches::keyed))]
fn keyed(alloc: Global, stated: Option<&str>, edits: Edits) -> Result<Batch, BatchFault>
    ensures { (ds : List Data) → Gives edits_view edits (few_edits ds)
        → Gives batch_value result (keyed (option_map (λ t. t.now) stated.entry) ds) }
{
    let Some(key) = stated else {
        return Err(BatchFault::BadKey);
    };
    if !is_key(key) {
        return Err(BatchFault::BadKey);
    }
    let key = String::from_str(alloc, key)?;
    let mut edits = edits?;
    edits.shrink_to_fit();
    Batch::new(key, edits)
}

/// The batch of the members read.
#[tactic(auto, unfolding(crate::specs::ParsedBatches::batch, crate::specs::ParsedBatches::has_only))]
fn batch_of_parts(alloc: Global, parts: Parts) -> Result<Batch, BatchFault>
    ensures { (ms : Members) → AreRead ms parts → Gives batch_value result (batch (object ms)) }
{
    let Parts { only, key, edits } = parts;
    match (key, edits) {
        (Some(key), Some(edits)) if only => keyed(alloc, key.as_str(), edits),
        _ => Err(BatchFault::BadBatch { place: None }),
    }
}

fn read_text(alloc: Global, text: &str) -> Result<Batch, BatchFault>
    ensures { Gives batch_value result (batch_in (read text.now)) }
{
    let mut scratch = Scratch::new(alloc);
    let mut reader = Reader::new(text, &mut scratch)?;
    match read_whole(alloc, &mut reader) {
        Ok(parts) => batch_of_parts(alloc, parts),
        Err(ParseFault::Memory) => Err(BatchFault::Memory),
        Err(ParseFault::NotJson) => Err(BatchFault::BadBatch { place: None }),
    }
}

/// The batch of bytes whose numbers are as they are read.
fn read_plain(alloc: Global, bytes: &[u8]) -> Result<Batch, BatchFault>
    ensures { Gives batch_value result (batch_in (utf8_value bytes.now)) }
{
    match std::str::from_utf8(bytes) {
        Ok(text) => read_text(alloc, text),
        Err(_) => Err(BatchFault::BadBatch { place: None }),
    }
}

fn read_bytes(alloc: Global, bytes: &[u8]) -> Result<Batch, BatchFault>
    ensures { Gives batch_value result (batch_of bytes.now) }
{
    match with_whole_numbers(alloc, bytes)? {
        Some(plain) => read_plain(alloc, &plain),
        None => read_plain(alloc, bytes),
    }
}

/// The batch that JSON bytes are. It returns the first refusal in this order:
///
/// 1. `BadBatch` without a place, if the bytes are not JSON, are not an object with exactly the
///    members `key` and `edits`, or `edits` is not an array;
/// 2. `BadKey`, if the key is not valid;
/// 3. `TooManyEdits`, if the batch has more than 10,000;
/// 4. of the edits from left to right, `BadBatch` with the edit's place if it does not have the
///    form of an edit, apart from what `feature` contains, and then `BadFeature` with the place and
///    the cause if its feature cannot be read. Features are read without a time: it is set when the
///    edit acts.
///
/// Only one edit at a time is in memory as JSON values, and a feature with the members that a
/// feature usually has is never one value.
pub fn read_batch(alloc: Global, bytes: &[u8]) -> Result<Batch, BatchFault>
    // What is read is the batch that the bytes are.
    ensures found { IfOk result (λ b. IsBatchText bytes.now (batch_value b)) }
    // The batch that the bytes are is read, unless memory runs out.
    ensures only { (b : BatchValue) → IsBatchText bytes.now b
        → Gives batch_value result (Ok b) }
    // Which refusal it is.
    ensures exact { Gives batch_value result (batch_of bytes.now) }
{
    read_bytes(alloc, bytes)
}
