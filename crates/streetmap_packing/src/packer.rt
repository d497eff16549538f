//! Edits that are being packed into batches.
ghost use Rattle.std.specs.Prelude.{◌≡◌, ◌≤◌, IsTrue, length, string_bytes};
ghost use Rattle.streetmap_batch.specs.BatchText.{batch_text};
ghost use Rattle.streetmap_batch.specs.BatchView.{edit_values};
ghost use Rattle.streetmap_batch.specs.Names.{is_key};
ghost use Rattle.streetmap_packing.specs.Packs.{numbered};

use crate::numbers::{comma_len, empty_bytes, has_room, numbered_batch};
use std::alloc::{AllocError, Global};
use std::mem;
use streetmap_batch::{Batch, Edit};

/// The most bytes of the text of an edit. An edit of at most this size has room in a batch of its
/// own.
pub const MAX_EDIT: usize = 8_388_480;

/// Edits that are being packed into batches K.1, K.2, .. of a key K: those of the current batch,
/// and its number.
#[derive(Drop)]
pub struct Packer {
    pub(crate) key: String,
    pub(crate) each: usize,
    pub(crate) number: u64,
    pub(crate) edits: Vec<Edit>,
    /// How many bytes the text of the current batch has.
    pub(crate) bytes: usize,
    pub ghost named: { IsTrue (is_key (string_bytes key)) },
    pub ghost short: { length (string_bytes key) ≤ 44 },
    pub ghost some: { 1 ≤ each },
    pub ghost most: { each ≤ 10000 },
    pub ghost few: { length edits.items ≤ each },
    pub ghost measured: { bytes ≡
        length (batch_text (numbered (string_bytes key) number (edit_values edits.items))) },
}

impl Packer {
    ghost use Rattle.std.specs.Prelude.{◌<◌, ◌+◌, ◌^◌, ◌++◌, ◌∷◌, [], true, IfOk, OnOk, Ok};
    ghost use Rattle.serde_json.specs.Written.{compact_text};
    ghost use Rattle.streetmap_batch.specs.BatchText.{edit_data};
    ghost use Rattle.streetmap_batch.specs.BatchValue.{EditValue};
    ghost use Rattle.streetmap_batch.specs.BatchView.{edit_value};
    ghost use Rattle.streetmap_packing.specs.PackingState.{is_passing, with_edit, under_way, next};
    ghost use Rattle.streetmap_packing.specs.PackerView.{packing, begun, GivesOut, Adds, Fills};
    ghost use Rattle.streetmap_packing.specs.PackerView.{Finishes};

    /// A packer of a key of at most 44 bytes, with at most `each` edits in a batch.
    pub fn new(alloc: Global, key: String, each: usize) -> Result<Packer, AllocError>
        requires named { IsTrue (is_key (string_bytes key)) }
        requires short { length (string_bytes key) ≤ 44 }
        requires some { 1 ≤ each }
        requires most { each ≤ 10000 }
        ensures { IfOk result (λ p. packing p ≡ begun (string_bytes key) each) }
    {
        let bytes = empty_bytes(alloc, key.as_str(), 1)?;
        Ok(Packer {
            key,
            each,
            number: 1,
            edits: Vec::new(alloc),
            bytes,
        })
    }

    /// Whether the current batch has room for an edit whose text has `size` bytes.
    fn takes(&self, size: usize) -> bool
        ensures { (e : EditValue) → length (compact_text (edit_data e)) ≡ size →
            result ≡ is_passing (with_edit (packing self.now) e) }
    {
        let comma = comma_len(&self.edits);
        self.edits.len() < self.each && has_room(self.bytes, comma, size)
    }

    /// Adds an edit to the current batch, which has room for it.
    fn push(&mut self, edit: Edit, size: usize) -> Result<(), AllocError>
        requires sized { length (compact_text (edit_data (edit_value edit))) ≡ size }
        requires passes { is_passing (with_edit (packing self.old) (edit_value edit)) ≡ true }
        ensures { OnOk result (packing self.new
            ≡ with_edit (packing self.old) (edit_value edit)) }
    {
        let comma = comma_len(&self.edits);
        self.edits.push(edit)?;
        self.bytes += comma + size;
        Ok(())
    }

    /// Returns the current batch, and begins the next, whose text has `bytes` bytes.
    fn take(&mut self, alloc: Global, bytes: usize) -> Result<Batch, AllocError>
        requires room { (packing self.old).number + 1 < 2 ^ 63 }
        requires measured { bytes ≡ length (batch_text (under_way (next (packing self.old)))) }
        ensures { GivesOut (packing self.old) result (packing self.new) }
    {
        let edits = mem::replace(&mut self.edits, Vec::new(alloc));
        let number = self.number;
        self.number = number + 1;
        self.bytes = bytes;
        numbered_batch(alloc, self.key.as_str(), number, edits)
    }

    /// Adds an edit whose text has `size` bytes. If the current batch has no room for it, that
    /// batch is returned, and the edit is the first of the next.
    ///
    /// # Errors
    ///
    /// Out of memory; the packer can then not be used any more.
    pub fn add(
        &mut self,
        alloc: Global,
        edit: Edit,
        size: usize,
    ) -> Result<Option<Batch>, AllocError>
        requires room { (packing self.old).number + 1 < 2 ^ 63 }
        requires sized { length (compact_text (edit_data (edit_value edit))) ≡ size }
        requires small { size ≤ MAX_EDIT }
        ensures { Adds (packing self.old) (edit_value edit) result (packing self.new) }
    {
        if self.takes(size) {
            self.push(edit, size)?;
            return Ok(None);
        }
        let bytes = empty_bytes(alloc, self.key.as_str(), self.number + 1)?;
        let batch = self.take(alloc, bytes)?;
        self.push(edit, size)?;
        Ok(Some(batch))
    }

    /// Returns the current batch if it has as many edits as a batch may have.
    ///
    /// # Errors
    ///
    /// Out of memory; the packer can then not be used any more.
    pub fn fill(&mut self, alloc: Global) -> Result<Option<Batch>, AllocError>
        requires { (packing self.old).number + 1 < 2 ^ 63 }
        ensures { Fills (packing self.old) result (packing self.new) }
    {
        if self.edits.len() < self.each {
            return Ok(None);
        }
        let bytes = empty_bytes(alloc, self.key.as_str(), self.number + 1)?;
        Ok(Some(self.take(alloc, bytes)?))
    }

    /// Returns the last batch, if it has an edit.
    ///
    /// # Errors
    ///
    /// Out of memory.
    pub fn finish(self, alloc: Global) -> Result<Option<Batch>, AllocError>
        requires { (packing self).number < 2 ^ 63 }
        ensures { Finishes (packing self) result }
    {
        if self.edits.is_empty() {
            return Ok(None);
        }
        let Packer {
            key,
            each: _,
            number,
            edits,
            bytes: _,
        } = self;
        let last = numbered_batch(alloc, key.as_str(), number, edits)?;
        Ok(Some(last))
    }
}
