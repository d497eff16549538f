//! A keeper in memory.
ghost use Rattle.std.specs.Prelude.{◌≡◌, ◌+◌, ℕ, Option, Some, None, Vec, IfOk, OnOk, OnErr};
ghost use Rattle.std.specs.FinMap.{get, insert};
ghost use Rattle.std.specs.Option.{option_map};
ghost use Rattle.std.specs.declared.alloc.Global.{Global};
ghost use Rattle.streetmap_query.specs.Views.{query_value};
ghost use Rattle.streetmap_ledger.specs.State.{opening_state};
ghost use Rattle.streetmap_ledger.specs.WellFormed.{IsState};
ghost use Rattle.streetmap_ledger.specs.Batches.{act};
ghost use Rattle.streetmap_batch.specs.BatchText.{batch_text};
ghost use Rattle.streetmap_batch.specs.BatchView.{batch_value};
ghost use Rattle.streetmap_ledger.specs.Kept.{batch_count, batch_in, AreNext};
ghost use Rattle.streetmap_ledger.specs.KeptView.{keyed_batch, keyed_batches};
ghost use Rattle.streetmap_tags.specs.Keys.{is_used};
ghost use Rattle.streetmap_memory.specs.Slots.{map_of};
ghost use Rattle.streetmap_geojson.specs.FeatureValue.{FeatureValue};
ghost use Rattle.streetmap_ledger.specs.Pages.{page_in, feature_in, run_in};
ghost use Rattle.streetmap_ledger.specs.PageView.{page_value};
ghost use Rattle.streetmap_ledger.specs.Outlines.{outlines_in};
ghost use Rattle.streetmap_ledger.specs.OutlineView.{feature_outline_values};
ghost use Rattle.streetmap_ledger.specs.declared.outline.FeatureOutline.{FeatureOutline};
ghost use Rattle.streetmap_ledger.specs.Summaries.{summary_in, summaries_in};
ghost use Rattle.streetmap_ledger.specs.SummaryView.{summary_value, summary_values};
ghost use Rattle.streetmap_memory.specs.Plain.{plain_state, outcome_of, IsOutcome, IsPlainState};
ghost use Rattle.streetmap_ledger.specs.declared.reply.Fault.TheVariants.{Memory};

use crate::batches::batch_with;
use crate::collection::PlainCollection;
use crate::collections::summaries;
use crate::edits::act_all;
use crate::kept::KeptBatch;
use bytes::Bytes;
use std::alloc::{AllocError, Global};
use std::collections::BTreeMap;
use streetmap_batch::Batch;
use streetmap_feature_text::PackedFeature;
use streetmap_ledger::{
    Counts, Fault, FeatureOutline, Keeper, KeepsBatches, Outlined, Page, Refusal, Reply, Summary,
};
use streetmap_query::Query;
use streetmap_tags::Tagged;

/// How many batches may be accepted.
const MOST_BATCHES: usize = (1 << 63) - 1;

/// A keeper whose state is in memory. It is never shut, and its only fault is `Memory`.
#[derive(Drop)]
pub struct PlainKeeper {
    alloc: Global,
    collections: BTreeMap<String, PlainCollection>,
    keys: BTreeMap<String, KeptBatch>,
}

/// The text of a batch, in no more memory than it needs.
fn text_of(alloc: Global, batch: &Batch) -> Result<Bytes, AllocError>
    ensures { IfOk result (λ text. text ≡ batch_text (batch_value batch.now)) }
{
    let mut text = batch.text(alloc)?;
    text.shrink_to_fit();
    Bytes::from_string(text)
}

/// Keeps a batch under a new key.
fn keep(
    alloc: Global,
    keys: &mut BTreeMap<String, KeptBatch>,
    key: &str,
    text: &Bytes,
    counts: Counts,
    serial: u64,
) -> Result<(), AllocError>
    ensures ok { OnOk result (map_of keys.new.entries
        ≡ insert (map_of keys.old.entries) key.now
        (record { text = text.now; counts = counts; serial = serial })) }
    ensures err { OnErr result (map_of keys.new.entries ≡ map_of keys.old.entries) }
{
    let own_key = String::from_str(alloc, key)?;
    let own_text = text.clone()?;
    let kept = KeptBatch::new(own_text, counts, serial);
    keys.insert(own_key, kept)?;
    Ok(())
}

/// Acts on a batch with a new key.
fn accept(
    alloc: Global,
    collections: &mut BTreeMap<String, PlainCollection>,
    keys: &mut BTreeMap<String, KeptBatch>,
    batch: &Batch,
    text: &Bytes,
    serial: u64,
) -> Result<Reply, AllocError>
    requires new { get (map_of keys.old.entries) (batch_value batch.now).key ≡ None }
    requires its_text { text.now ≡ batch_text (batch_value batch.now) }
    ensures ok { IfOk result (λ reply.
        IsOutcome (outcome_of collections.old keys.old (batch_value batch.now) serial) reply
        collections.new keys.new) }
    ensures err_collections { OnErr result (map_of collections.new.entries
        ≡ map_of collections.old.entries) }
    ensures err_keys { OnErr result (map_of keys.new.entries ≡ map_of keys.old.entries) }
{
    let counts = Counts::of(batch.edits());
    keep(alloc, keys, batch.key(), text, counts, serial)?;
    match act_all(alloc, collections, batch.edits(), text) {
        Ok(None) => Ok(Reply::Accepted(counts, serial)),
        Ok(Some((place, why))) => {
            let _ = keys.remove(batch.key());
            Ok(Reply::Refused(why, Some(place)))
        }
        Err(e) => {
            let _ = keys.remove(batch.key());
            Err(e)
        }
    }
}

impl PlainKeeper {
    /// A keeper that represents the opening state.
    pub fn new(alloc: Global) -> Self
        ensures { IsPlainState result opening_state }
    {
        PlainKeeper {
            alloc,
            collections: BTreeMap::new(alloc),
            keys: BTreeMap::new(alloc),
        }
    }

    fn page_of(&self, collection: &str, query: &Query) -> Result<Option<Page>, AllocError>
        ensures { IfOk result (λ page. option_map page_value page
            ≡ page_in (plain_state self.now) collection.now (query_value query.now)) }
    {
        match self.collections.get(collection) {
            Some(collection) => Ok(Some(collection.page(self.alloc, query)?)),
            None => Ok(None),
        }
    }

    fn feature_of(&self, collection: &str, id: &str) -> Result<Option<PackedFeature>, AllocError>
        ensures { IfOk result (λ found. found
            ≡ feature_in (plain_state self.now) collection.now id.now) }
    {
        match self.collections.get(collection) {
            Some(collection) => match collection.get(id) {
                Some(feature) => Ok(Some(feature.copy(self.alloc)?)),
                None => Ok(None),
            },
            None => Ok(None),
        }
    }

    fn features_of(
        &self,
        collection: &str,
        first: &str,
        last: &str,
    ) -> Result<Option<Vec<PackedFeature>>, AllocError>
        ensures { IsState (plain_state self.now) → IfOk result (λ found.
            option_map (λ (fs : Vec FeatureValue Global). fs.items) found
            ≡ run_in (plain_state self.now) collection.now first.now last.now) }
    {
        match self.collections.get(collection) {
            Some(collection) => Ok(Some(collection.features(self.alloc, first, last)?)),
            None => Ok(None),
        }
    }

    fn summary_of(&self, id: &str) -> Result<Option<Summary>, AllocError>
        ensures { IfOk result (λ reported. option_map summary_value reported
            ≡ summary_in (plain_state self.now) id.now) }
    {
        match self.collections.get(id) {
            Some(collection) => Ok(Some(collection.summary(self.alloc, id)?)),
            None => Ok(None),
        }
    }

    fn outlines_of(&self, collection: &str) -> Result<Option<Vec<FeatureOutline>>, AllocError>
        ensures { IfOk result (λ found.
            option_map (λ (os : Vec FeatureOutline Global). feature_outline_values os.items) found
            ≡ outlines_in (plain_state self.now) collection.now) }
    {
        match self.collections.get(collection) {
            Some(collection) => Ok(Some(collection.outlines(self.alloc)?)),
            None => Ok(None),
        }
    }

    fn summaries_of(&self) -> Result<Vec<Summary>, AllocError>
        ensures { IfOk result (λ reported. summary_values reported.items
            ≡ summaries_in (plain_state self.now)) }
    {
        summaries(self.alloc, &self.collections)
    }

    fn count_of(&self) -> u64
        ensures { result ≡ batch_count (plain_state self.now) }
    {
        self.keys.len() as u64
    }

    fn has_key_of(&self, key: &str) -> bool
        ensures { result ≡ is_used (plain_state self.now) key.now }
    {
        self.keys.get(key).is_some()
    }

    fn batch_of(&self, serial: u64) -> Result<Option<streetmap_ledger::KeptBatch>, AllocError>
        ensures { IfOk result (λ batch.
            option_map keyed_batch batch ≡ batch_in (plain_state self.now) serial) }
    {
        batch_with(self.alloc, &self.keys, serial)
    }

    fn batches_of(
        &self,
        alloc: Global,
        after: u64,
    ) -> Result<Vec<streetmap_ledger::KeptBatch>, AllocError>
        ensures { IsState (plain_state self.now) → IfOk result (λ found. (room : ℕ) →
            AreNext (plain_state self.now) after room (keyed_batches found.items)) }
    {
        let mut found = Vec::new(alloc);
        if let Some(batch) = self.batch_of(after.saturating_add(1))? {
            found.push(batch)?;
        }
        Ok(found)
    }

    fn apply_batch(&mut self, batch: &Batch) -> Result<Reply, AllocError>
        ensures reply { IfOk result (λ reply. reply
            ≡ (act (plain_state self.old) (batch_value batch.now)).reply) }
        ensures state { OnOk result (plain_state self.new
            ≡ (act (plain_state self.old) (batch_value batch.now)).state) }
        ensures err { OnErr result (plain_state self.new ≡ plain_state self.old) }
    {
        let text = text_of(self.alloc, batch)?;
        if let Some(kept) = self.keys.get(batch.key()) {
            if kept.text() == text.as_slice() {
                return Ok(Reply::Repeated(kept.counts(), kept.serial()));
            }
            return Ok(Reply::Refused(Refusal::KeyUsed, None));
        }
        let count = self.keys.len();
        if count >= MOST_BATCHES {
            return Ok(Reply::Refused(Refusal::Full, None));
        }
        Ok(accept(
            self.alloc,
            &mut self.collections,
            &mut self.keys,
            batch,
            &text,
            count as u64 + 1,
        )?)
    }
}

impl Keeper for PlainKeeper {
    ghost use Rattle.streetmap_memory.specs.Plain.{plain_model};

    ghost model = { plain_model };

    fn is_open(&self) -> bool {
        true
    }

    fn apply(&mut self, batch: &Batch) -> Result<Reply, Fault> {
        batch.facts();
        match self.apply_batch(batch) {
            Ok(reply) => Ok(reply),
            Err(_) => Err(Fault::Memory),
        }
    }

    fn page(&mut self, collection: &str, query: &Query) -> Result<Option<Page>, Fault> {
        match self.page_of(collection, query) {
            Ok(page) => Ok(page),
            Err(_) => Err(Fault::Memory),
        }
    }

    fn feature(&mut self, collection: &str, id: &str) -> Result<Option<PackedFeature>, Fault> {
        match self.feature_of(collection, id) {
            Ok(feature) => Ok(feature),
            Err(_) => Err(Fault::Memory),
        }
    }

    fn collection(&mut self, id: &str) -> Result<Option<Summary>, Fault> {
        match self.summary_of(id) {
            Ok(summary) => Ok(summary),
            Err(_) => Err(Fault::Memory),
        }
    }

    fn collections(&mut self) -> Result<Vec<Summary>, Fault> {
        match self.summaries_of() {
            Ok(summaries) => Ok(summaries),
            Err(_) => Err(Fault::Memory),
        }
    }
}

impl Outlined for PlainKeeper {
    fn features(
        &mut self,
        collection: &str,
        first: &str,
        last: &str,
    ) -> Result<Option<Vec<PackedFeature>>, Fault> {
        match self.features_of(collection, first, last) {
            Ok(features) => Ok(features),
            Err(_) => Err(Fault::Memory),
        }
    }

    fn outlines(&mut self, collection: &str) -> Result<Option<Vec<FeatureOutline>>, Fault> {
        match self.outlines_of(collection) {
            Ok(outlines) => Ok(outlines),
            Err(_) => Err(Fault::Memory),
        }
    }
}

impl Tagged for PlainKeeper {
    fn tag(&mut self) -> Result<u64, Fault> {
        Ok(self.count_of())
    }

    fn has_key(&mut self, key: &str) -> Result<bool, Fault> {
        Ok(self.has_key_of(key))
    }

    fn accepted(&mut self, serial: u64) -> Result<Option<streetmap_ledger::KeptBatch>, Fault> {
        match self.batch_of(serial) {
            Ok(batch) => Ok(batch),
            Err(_) => Err(Fault::Memory),
        }
    }
}

impl KeepsBatches for PlainKeeper {
    fn batch_count(&mut self) -> Result<u64, Fault> {
        Ok(self.count_of())
    }

    fn batch(&mut self, serial: u64) -> Result<Option<streetmap_ledger::KeptBatch>, Fault> {
        match self.batch_of(serial) {
            Ok(batch) => Ok(batch),
            Err(_) => Err(Fault::Memory),
        }
    }

    fn batches(
        &mut self,
        alloc: Global,
        after: u64,
        _room: usize,
    ) -> Result<Vec<streetmap_ledger::KeptBatch>, Fault> {
        match self.batches_of(alloc, after) {
            Ok(batches) => Ok(batches),
            Err(_) => Err(Fault::Memory),
        }
    }
}
