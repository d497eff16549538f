//! Batches of edits.
ghost use Rattle.std.specs.Prelude.{◌≡◌, ◌≤◌, IsTrue, IfOk, length, string_bytes};
ghost use Rattle.streetmap_batch.specs.Names.{is_key};

use crate::batch_fault::BatchFault;
use crate::batch_text::write_batch;
use crate::edit::{Edit, facts_of_each};
use crate::names::is_key;
use std::alloc::{AllocError, Global};

/// A key, and at most 10,000 edits that act together or not at all, in their order.
#[derive(Drop)]
pub struct Batch {
    pub(crate) key: String,
    pub(crate) edits: Vec<Edit>,
    pub ghost named: { IsTrue (is_key (string_bytes key)) },
    pub ghost few: { length edits.items ≤ 10000 },
}

impl Batch {
    ghost use Rattle.streetmap_batch.specs.BatchFacts.{IsSoundBatch};
    ghost use Rattle.streetmap_batch.specs.BatchView.{batch_value, edit_values};
    ghost use Rattle.streetmap_batch.specs.BatchFaults.{Gives};
    ghost use Rattle.streetmap_batch.specs.ParsedBatches.{batch_from};
    ghost use Rattle.streetmap_batch.specs.BatchText.{batch_text};

    /// The batch of a key and edits. It is refused as `BadKey`, then as `TooManyEdits`.
    pub fn new(key: String, edits: Vec<Edit>) -> Result<Batch, BatchFault>
        ensures { Gives batch_value result
            (batch_from (string_bytes key) (edit_values edits.items)) }
    {
        if !is_key(key.as_str()) {
            return Err(BatchFault::BadKey);
        }
        if edits.len() > 10000 {
            return Err(BatchFault::TooManyEdits);
        }
        Ok(Batch { key, edits })
    }

    /// What is true of every batch.
    pub fn facts(&self)
        ensures { IsSoundBatch (batch_value self.now) }
    {
        facts_of_each(&self.edits);
    }

    /// The key.
    pub fn key(&self) -> &str
        ensures value { result.now ≡ (batch_value self.now).key }
        ensures named { IsTrue (is_key result.now) }
    {
        &self.key
    }

    /// The edits in their order.
    pub fn edits(&self) -> &[Edit]
        ensures value { edit_values result.now ≡ (batch_value self.now).edits }
        ensures few { length result.now ≤ 10000 }
    {
        &self.edits
    }

    /// The batch text: equal batches have equal texts, whatever JSON they were read from.
    pub fn text(&self, alloc: Global) -> Result<String, AllocError>
        ensures { IfOk result (λ text. string_bytes text ≡ batch_text (batch_value self.now)) }
    {
        write_batch(alloc, self.key.as_str(), self.edits.as_slice())
    }
}
