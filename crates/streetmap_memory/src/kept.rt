//! What is kept for an accepted key.
ghost use Rattle.std.specs.Prelude.{◌≡◌};

use bytes::Bytes;
use std::marker::Model;
use streetmap_ledger::Counts;

/// The batch text, the counts and the serial of an accepted batch.
#[derive(Drop)]
pub struct KeptBatch {
    text: Bytes,
    counts: Counts,
    serial: u64,
}

impl Model for KeptBatch {
    ghost use Rattle.streetmap_ledger.specs.State.{AcceptedBatch};

    ghost Value = { AcceptedBatch };

    ghost view = { λ k. record { text = k.text; counts = k.counts; serial = k.serial } };
}

impl KeptBatch {
    pub fn new(text: Bytes, counts: Counts, serial: u64) -> Self
        ensures { result ≡ record { text = text; counts = counts; serial = serial } }
    {
        KeptBatch {
            text,
            counts,
            serial,
        }
    }

    pub fn text(&self) -> &[u8]
        ensures { result.now ≡ self.now.text }
    {
        self.text.as_slice()
    }

    pub fn counts(&self) -> Counts
        ensures { result ≡ self.now.counts }
    {
        self.counts
    }

    pub fn serial(&self) -> u64
        ensures { result ≡ self.now.serial }
    {
        self.serial
    }
}
