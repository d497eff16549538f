//! What is known of some collections.
ghost use Rattle.std.specs.Prelude.{◌≡◌, ◌-◌, ℕ, [], Ok, None, nat_eq, OnOk};
ghost use Rattle.std.specs.FinMap.{get};
ghost use Rattle.streetmap_batch.specs.BatchView.{edit_value, edit_values};
ghost use Rattle.streetmap_ledger.specs.State.{State, step};
ghost use Rattle.streetmap_ledger.specs.Batches.{edited};
ghost use Rattle.streetmap_ledger.specs.Summaries.{summaries_in};
ghost use Rattle.streetmap_ledger.specs.SummaryView.{summary_values};
ghost use Rattle.streetmap_index.specs.Index.{IsIndexOf, IsOutlinedIf, known_under};
ghost use Rattle.streetmap_index.specs.Index.{collection_of as collection_of_value};

use crate::outlined::OutlinedCollection;
use std::alloc::{AllocError, Global};
use std::collections::BTreeMap;
use streetmap_batch::Edit;
use streetmap_ledger::Summary;

/// At how many reads nothing is learnt after memory ran out.
const READS_OFF: u8 = 63;

/// What is known of some collections.
#[derive(Drop)]
pub struct Index {
    /// What is known of each of them, by its id.
    pub known: BTreeMap<String, OutlinedCollection>,
    /// Whether these are all collections that exist; `false` if that is not known.
    pub is_whole: bool,
    /// At how many further reads nothing is learnt, since memory ran out.
    pub reads_off: u8,
}

/// The id of the collection that an edit changes.
fn collection_of(edit: &Edit) -> &str
    ensures { result.now ≡ collection_of_value (edit_value edit.now) }
{
    match edit {
        Edit::Open { collection, .. } => collection.as_str(),
        Edit::Insert { collection, .. } => collection.as_str(),
        Edit::Replace { collection, .. } => collection.as_str(),
        Edit::Delete { collection, .. } => collection.as_str(),
    }
}

impl Index {
    /// No collection is known.
    pub fn new(alloc: Global) -> Self
        ensures index { (s : State) → IsIndexOf result s }
        ensures none { result.known.entries ≡ [] }
    {
        Index {
            known: BTreeMap::new(alloc),
            is_whole: false,
            reads_off: 0,
        }
    }

    /// Forgets all, since memory ran out, and learns nothing at the next reads.
    pub fn give_up(&mut self, alloc: Global)
        ensures index { (s : State) → IsIndexOf self.new s }
        ensures off { self.new.reads_off ≡ 63 }
    {
        *self = Index::new(alloc);
        self.reads_off = READS_OFF;
    }

    /// Whether a collection is to be learnt at this read: it is not known, and learning is not put
    /// off. While learning is put off, reads of collections that are not known are counted down.
    pub(crate) fn is_due(&mut self, name: &str) -> bool
        ensures index { (s : State) → IsIndexOf self.old s → IsIndexOf self.new s }
        ensures due { known_under name.now self.old.known.entries ≡ None
            → result ≡ nat_eq self.old.reads_off 0 }
        ensures counted { known_under name.now self.old.known.entries ≡ None
            → self.new.reads_off ≡ self.old.reads_off - 1 }
    {
        if self.known.contains_key(name) {
            return false;
        }
        if self.reads_off == 0 {
            return true;
        }
        self.reads_off -= 1;
        false
    }

    /// Keeps what is known of a collection. If memory for it runs out, all is forgotten.
    pub fn keep(&mut self, alloc: Global, name: &str, outlined: OutlinedCollection)
        ensures { (s : State) → IsIndexOf self.old s
            → IsOutlinedIf outlined (get s.collections name.now) → IsIndexOf self.new s }
    {
        let Ok(key) = String::from_str(alloc, name) else {
            self.give_up(alloc);
            return;
        };
        match self.known.insert(key, outlined) {
            Ok(_) => {}
            Err(failed) => {
                drop(failed);
                self.give_up(alloc);
            }
        }
    }

    /// Records whether these collections, which are all that exist, are known.
    pub fn note(&mut self, summaries: &[Summary])
        ensures { (s : State) → summary_values summaries.now ≡ summaries_in s
            → IsIndexOf self.old s
            → IsIndexOf self.new s }
    {
        for summary in summaries {
            if !self.known.contains_key(summary.id.as_str()) {
                return;
            }
        }
        self.is_whole = true;
    }

    /// Follows an edit that was done. After an error, what is known may be wrong.
    fn follow_edit(&mut self, alloc: Global, edit: &Edit) -> Result<(), AllocError>
        ensures { (s t : State) → step s (edit_value edit.now) ≡ Ok t → IsIndexOf self.old s
            → OnOk result (IsIndexOf self.new t) }
    {
        match self.known.get_mut(collection_of(edit)) {
            Some(outlined) => outlined.follow(alloc, edit),
            None => {
                self.is_whole = false;
                Ok(())
            }
        }
    }

    /// Follows edits that were done. If memory for that runs out, all is forgotten.
    pub fn follow(&mut self, alloc: Global, edits: &[Edit])
        ensures { (s t : State) (place : ℕ) → edited place s (edit_values edits.now) ≡ Ok t
            → IsIndexOf self.old s → IsIndexOf self.new t }
    {
        for edit in edits {
            if self.follow_edit(alloc, edit).is_err() {
                self.give_up(alloc);
                return;
            }
        }
    }
}
