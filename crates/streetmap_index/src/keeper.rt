//! A keeper with an index.
ghost use Rattle.std.specs.Prelude.{◌≡◌};
ghost use Rattle.streetmap_ledger.specs.State.{State};
ghost use Rattle.streetmap_ledger.specs.Keep.{IsRead, IsPageOf, IsSummaryOf, AreSummaries};
ghost use Rattle.streetmap_index.specs.Index.{IsIndexOf, IsNoted};
ghost use Rattle.streetmap_index.specs.Indexed.{indexed};

use crate::index::Index;
use crate::knowledge::learn;
use crate::page::page_with;
use crate::summaries::{collection_with, collections_with};
use std::alloc::Global;
use streetmap_feature_text::PackedFeature;
use streetmap_ledger::{
    Batch, Durable, Fault, Keeper, KeepsBatches, KeptBatch, Outlined, Page, Reply, Summary,
};
use streetmap_query::Query;
use streetmap_tags::Tagged;

/// A keeper that answers pages and summaries of collections of another one by what it knows of the
/// features, and reads few of them. It learns a collection when it is first read, and keeps what it
/// knows right at each batch. If memory runs out for that, the other keeper answers, and the next
/// reads learn nothing.
#[derive(Drop)]
pub struct IndexedKeeper<K> {
    alloc: Global,
    keeper: K,
    index: Index,
}

impl<K: Outlined> IndexedKeeper<K> {
    /// A keeper over this one, which knows of no collection yet.
    pub fn new(alloc: Global, keeper: K) -> Self
        ensures keeper { result.keeper ≡ keeper }
        ensures index { (s : State) → IsIndexOf result.index s }
    {
        IndexedKeeper {
            alloc,
            keeper,
            index: Index::new(alloc),
        }
    }

    /// Forgets all, if a fault shut the keeper.
    fn note_fault(&mut self, fault: Fault)
        ensures keeper { self.new.keeper ≡ self.old.keeper }
        ensures noted { IsNoted fault self.old.index self.new.index }
    {
        match fault {
            Fault::Memory => {}
            _ => self.index = Index::new(self.alloc),
        }
    }

    /// Learns a collection that is not known, if memory allows.
    fn learn(&mut self, collection: &str) -> Result<(), Fault>
        ensures { IsRead (indexed K.model) self.old self.new result (λ _ _. Unit {0}) }
    {
        match learn(self.alloc, &mut self.keeper, collection) {
            Ok(Some(outlined)) => {
                self.index.keep(self.alloc, collection, outlined);
                Ok(())
            }
            Ok(None) => Ok(()),
            Err(Fault::Memory) => {
                self.index.give_up(self.alloc);
                Ok(())
            }
            Err(fault) => Err(fault),
        }
    }

    /// The page of a collection by what is known of it, or else the keeper's own.
    fn page_known(&mut self, collection: &str, query: &Query) -> Result<Option<Page>, Fault>
        ensures { IsRead (indexed K.model) self.old self.new result
            (IsPageOf collection.now query.now) }
    {
        match self.index.known.get(collection) {
            Some(outlined) => page_with(self.alloc, &mut self.keeper, collection, outlined, query),
            None => self.keeper.page(collection, query),
        }
    }

    /// The page of a collection, which is learnt before that if it is due.
    fn page_learnt(&mut self, collection: &str, query: &Query) -> Result<Option<Page>, Fault>
        ensures { IsRead (indexed K.model) self.old self.new result
            (IsPageOf collection.now query.now) }
    {
        if !self.index.is_due(collection) {
            return self.page_known(collection, query);
        }
        match self.learn(collection) {
            Ok(()) => self.page_known(collection, query),
            Err(fault) => Err(fault),
        }
    }

    /// The summary of a collection by what is known of it, or else the keeper's own.
    fn collection_known(&mut self, id: &str) -> Result<Option<Summary>, Fault>
        ensures { IsRead (indexed K.model) self.old self.new result (IsSummaryOf id.now) }
    {
        match self.index.known.get(id) {
            Some(outlined) => collection_with(self.alloc, &self.keeper, id, outlined),
            None => self.keeper.collection(id),
        }
    }

    /// The summary of a collection, which is learnt before that if it is due.
    fn collection_learnt(&mut self, id: &str) -> Result<Option<Summary>, Fault>
        ensures { IsRead (indexed K.model) self.old self.new result (IsSummaryOf id.now) }
    {
        if !self.index.is_due(id) {
            return self.collection_known(id);
        }
        match self.learn(id) {
            Ok(()) => self.collection_known(id),
            Err(fault) => Err(fault),
        }
    }

    /// The summaries of all collections: by what is known of them, if all are known.
    fn collections_known(&mut self) -> Result<Vec<Summary>, Fault>
        ensures { IsRead (indexed K.model) self.old self.new result AreSummaries }
    {
        if self.index.is_whole {
            return collections_with(self.alloc, &self.keeper, &self.index.known);
        }
        match self.keeper.collections() {
            Ok(summaries) => {
                self.index.note(summaries.as_slice());
                Ok(summaries)
            }
            Err(fault) => Err(fault),
        }
    }
}

impl<K: Outlined> Keeper for IndexedKeeper<K> {
    ghost use Rattle.streetmap_index.specs.Indexed.{indexed};

    ghost model = { indexed K.model };

    fn is_open(&self) -> bool {
        self.keeper.is_open()
    }

    fn apply(&mut self, batch: &Batch) -> Result<Reply, Fault> {
        match self.keeper.apply(batch) {
            Ok(Reply::Accepted(counts, serial)) => {
                self.index.follow(self.alloc, batch.edits());
                Ok(Reply::Accepted(counts, serial))
            }
            Ok(reply) => Ok(reply),
            Err(fault) => {
                self.note_fault(fault);
                Err(fault)
            }
        }
    }

    fn page(&mut self, collection: &str, query: &Query) -> Result<Option<Page>, Fault> {
        match self.page_learnt(collection, query) {
            Ok(page) => Ok(page),
            Err(fault) => {
                self.note_fault(fault);
                Err(fault)
            }
        }
    }

    fn feature(&mut self, collection: &str, id: &str) -> Result<Option<PackedFeature>, Fault> {
        match self.keeper.feature(collection, id) {
            Ok(found) => Ok(found),
            Err(fault) => {
                self.note_fault(fault);
                Err(fault)
            }
        }
    }

    fn collection(&mut self, id: &str) -> Result<Option<Summary>, Fault> {
        match self.collection_learnt(id) {
            Ok(summary) => Ok(summary),
            Err(fault) => {
                self.note_fault(fault);
                Err(fault)
            }
        }
    }

    fn collections(&mut self) -> Result<Vec<Summary>, Fault> {
        match self.collections_known() {
            Ok(summaries) => Ok(summaries),
            Err(fault) => {
                self.note_fault(fault);
                Err(fault)
            }
        }
    }
}

impl<K: Outlined + Tagged> Tagged for IndexedKeeper<K> {
    fn tag(&mut self) -> Result<u64, Fault> {
        match self.keeper.tag() {
            Ok(tag) => Ok(tag),
            Err(fault) => {
                self.note_fault(fault);
                Err(fault)
            }
        }
    }

    fn has_key(&mut self, key: &str) -> Result<bool, Fault> {
        match self.keeper.has_key(key) {
            Ok(used) => Ok(used),
            Err(fault) => {
                self.note_fault(fault);
                Err(fault)
            }
        }
    }

    fn accepted(&mut self, serial: u64) -> Result<Option<KeptBatch>, Fault> {
        match self.keeper.accepted(serial) {
            Ok(batch) => Ok(batch),
            Err(fault) => {
                self.note_fault(fault);
                Err(fault)
            }
        }
    }
}

impl<K: Outlined + KeepsBatches> KeepsBatches for IndexedKeeper<K> {
    fn batch_count(&mut self) -> Result<u64, Fault> {
        match self.keeper.batch_count() {
            Ok(count) => Ok(count),
            Err(fault) => {
                self.note_fault(fault);
                Err(fault)
            }
        }
    }

    fn batch(&mut self, serial: u64) -> Result<Option<KeptBatch>, Fault> {
        match self.keeper.batch(serial) {
            Ok(batch) => Ok(batch),
            Err(fault) => {
                self.note_fault(fault);
                Err(fault)
            }
        }
    }

    fn batches(&mut self, alloc: Global, after: u64, room: usize) -> Result<Vec<KeptBatch>, Fault> {
        match self.keeper.batches(alloc, after, room) {
            Ok(batches) => Ok(batches),
            Err(fault) => {
                self.note_fault(fault);
                Err(fault)
            }
        }
    }
}

impl<K: Outlined + Durable> Durable for IndexedKeeper<K> {
    ghost image = { K.image };

    ghost leaves = { λ k image. K.leaves k.keeper image };

    ghost holds = { K.holds };

    ghost images_hold_states = { λ first last s image is preserved clean left.
        K.images_hold_states first.keeper last.keeper s image is.0 preserved clean left };
}
