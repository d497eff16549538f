//! A load in progress.
ghost use Rattle.std.specs.Prelude.{◌≡◌, ◌<◌, ◌≤◌, ◌+◌, ◌^◌, ◌∷◌, [], ℕ, List, OnOk};
ghost use Rattle.std.specs.Prelude.{Ok, Err, IfOk, IsTrue, length, string_bytes, None, Some};
ghost use Rattle.streetmap_batch.specs.BatchView.{batch_value};
ghost use Rattle.streetmap_batch.specs.Names.{is_key};
ghost use Rattle.streetmap_batch.specs.Text.{Text};
ghost use Rattle.streetmap_loading.specs.Places.{PlacedValue};
ghost use Rattle.streetmap_loading.specs.Sources.{placed_value};
ghost use Rattle.streetmap_loading.specs.LoadProgress.{Begins, IsSending, Sends, SendsWhenFull};
ghost use Rattle.streetmap_loading.specs.LoadProgress.{TakesEdit, SendsTheRest};
ghost use Rattle.streetmap_loading.specs.LoadProgress.{HasNumbersLeft, FewMore};

use crate::load_fault::LoadFault;
use crate::loaded::Loaded;
use crate::sink::Sink;
use crate::source::PlacedEdit;
use std::alloc::{AllocError, Global};
use std::mem;
use streetmap_batch::Batch;
use streetmap_packing::Packer;

/// A load in progress: the packer of the edits that were read, the places of those that remain in
/// it, how many batches were taken, how many edits these have, and the serial of the last.
#[derive(Drop)]
pub(crate) struct Sending {
    pub(crate) packer: Packer,
    pub(crate) places: Vec<Option<u64>>,
    pub(crate) batches: u64,
    pub(crate) taken: u64,
    pub(crate) serial: Option<u64>,
}

/// The places of one edit.
fn one_place(alloc: Global, place: Option<u64>) -> Result<Vec<Option<u64>>, AllocError>
    ensures { IfOk result (λ places. places.items ≡ place ∷ []) }
{
    let mut places = Vec::new(alloc);
    places.push(place)?;
    Ok(places)
}

impl Sending {
    /// A load that begins.
    pub(crate) fn new(alloc: Global, key: String, each: usize) -> Result<Sending, AllocError>
        requires named { IsTrue (is_key (string_bytes key)) }
        requires short { length (string_bytes key) ≤ 44 }
        requires some { 1 ≤ each }
        requires most { each ≤ 10000 }
        ensures { IfOk result (Begins each (string_bytes key)) }
    {
        let packer = Packer::new(alloc, key, each)?;
        Ok(Sending {
            packer,
            places: Vec::new(alloc),
            batches: 0,
            taken: 0,
            serial: None,
        })
    }

    /// Sends a batch whose edits have these places in the text, and counts it if it is taken.
    fn send<S: Sink>(
        &mut self,
        sink: &mut S,
        batch: &Batch,
        places: &[Option<u64>],
    ) -> Result<(), LoadFault>
        requires batches { self.old.batches + 1 < 2 ^ 64 }
        requires taken { self.old.taken + 10000 < 2 ^ 64 }
        ensures few { length (batch_value batch.now).edits ≤ 10000 }
        ensures sends { Sends S.takes self.old sink.old (batch_value batch.now) places.now
            result self.new sink.new }
    {
        match sink.take(batch) {
            Ok(serial) => {
                self.batches += 1;
                self.taken += batch.edits().len() as u64;
                self.serial = serial;
                Ok(())
            }
            Err(fault) => Err(fault.placed(places)),
        }
    }

    /// Sends the current batch if it has as many edits as a batch may have.
    pub(crate) fn fill<S: Sink>(&mut self, alloc: Global, sink: &mut S) -> Result<(), LoadFault>
        requires { HasNumbersLeft self.old }
        ensures few { OnOk result (FewMore self.old self.new) }
        ensures fills { (each : ℕ) (key : Text) (first : S) (read : List PlacedValue) →
            IsSending S.takes each key first read self.old sink.old →
            SendsWhenFull S.takes each key first read result self.new sink.new }
    {
        match self.packer.fill(alloc)? {
            None => Ok(()),
            Some(batch) => {
                let places = mem::replace(&mut self.places, Vec::new(alloc));
                self.send(sink, &batch, &places)
            }
        }
    }

    /// Adds an edit to the current batch. If that has no room for it, the batch is sent, and the
    /// edit begins the next.
    pub(crate) fn put<S: Sink>(
        &mut self,
        alloc: Global,
        sink: &mut S,
        placed: PlacedEdit,
    ) -> Result<(), LoadFault>
        requires { HasNumbersLeft self.old }
        ensures few { OnOk result (FewMore self.old self.new) }
        ensures puts { (each : ℕ) (key : Text) (first : S) (read : List PlacedValue) →
            IsSending S.takes each key first read self.old sink.old →
            TakesEdit S.takes each key first read (placed_value placed) result self.new sink.new }
    {
        let PlacedEdit { place, edit, size } = placed;
        match self.packer.add(alloc, edit, size)? {
            None => {
                self.places.push(place)?;
                Ok(())
            }
            Some(batch) => {
                let next = one_place(alloc, place)?;
                let places = mem::replace(&mut self.places, next);
                self.send(sink, &batch, &places)
            }
        }
    }

    /// Sends the last batch, if an edit remains.
    pub(crate) fn finish<S: Sink>(
        self,
        alloc: Global,
        sink: &mut S,
        edits: u64,
        skipped: u64,
    ) -> Loaded
        requires { HasNumbersLeft self }
        ensures edits { result.edits ≡ edits }
        ensures skipped { result.skipped ≡ skipped }
        ensures finishes { (each : ℕ) (key : Text) (first : S) (read : List PlacedValue) →
            IsSending S.takes each key first read self sink.old →
            SendsTheRest S.takes each key first read result sink.new }
    {
        let Sending {
            packer,
            places,
            batches,
            taken,
            serial,
        } = self;
        match packer.finish(alloc) {
            Ok(None) => Loaded {
                edits,
                batches,
                taken,
                serial,
                skipped,
                fault: None,
            },
            Ok(Some(batch)) => match sink.take(&batch) {
                Ok(last) => Loaded {
                    edits,
                    batches: batches + 1,
                    taken: taken + batch.edits().len() as u64,
                    serial: last,
                    skipped,
                    fault: None,
                },
                Err(fault) => Loaded {
                    edits,
                    batches,
                    taken,
                    serial,
                    skipped,
                    fault: Some(fault.placed(&places)),
                },
            },
            Err(_) => Loaded {
                edits,
                batches,
                taken,
                serial,
                skipped,
                fault: Some(LoadFault::Memory),
            },
        }
    }

    /// The result of a load that ended by this fault.
    pub(crate) fn ended(&self, edits: u64, skipped: u64, fault: LoadFault) -> Loaded
        ensures { result ≡ record {
          edits = edits;
          batches = self.now.batches;
          taken = self.now.taken;
          serial = self.now.serial;
          skipped = skipped;
          fault = Some fault;
        } }
    {
        Loaded {
            edits,
            batches: self.batches,
            taken: self.taken,
            serial: self.serial,
            skipped,
            fault: Some(fault),
        }
    }
}
