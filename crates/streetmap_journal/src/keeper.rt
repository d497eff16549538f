//! A keeper with a journal.
ghost use Rattle.std.specs.Prelude.{◌≡◌, IsErr, IfOk, true, false};
ghost use Rattle.streetmap_batch.specs.BatchView.{batch_value};
ghost use Rattle.streetmap_ledger.specs.Batches.{act};
ghost use Rattle.streetmap_ledger.specs.Keep.{IsCall, Writes};
ghost use Rattle.streetmap_ledger.specs.State.{State};
ghost use Rattle.streetmap_journal.specs.Reports.{IsFor};
ghost use Rattle.streetmap_journal.specs.Written.{OfReply};

use crate::completion::{complete, refuse};
use crate::journal::{Journal, JournalWriter, line_of};
use std::alloc::Global;
use streetmap_feature_text::PackedFeature;
use streetmap_ledger::{
    Batch, Durable, Fault, Keeper, KeepsBatches, KeptBatch, Page, Reply, Summary,
};
use streetmap_query::Query;
use streetmap_tags::Tagged;

/// A keeper that writes each batch that it accepts as a line of a journal, if any, after
/// its commit and before its answer.
#[derive(Drop)]
pub struct JournaledKeeper<K, W> {
    pub alloc: Global,
    pub keeper: K,
    pub journal: Option<Journal<W>>,
}

/// Applies a batch, and writes its line if it is accepted: memory for the line is allocated before.
fn apply_and_note<K: KeepsBatches, W: JournalWriter>(
    alloc: Global,
    keeper: &mut K,
    journal: &mut Journal<W>,
    batch: &Batch,
) -> Result<Reply, Fault>
    ensures applied { OfReply (λ r.
        K.model.applies keeper.old (batch_value batch.now) r keeper.new) result }
    ensures call { IsCall K.model keeper.old keeper.new result }
    ensures writes { K.model.is_clean keeper.new → (s : State) → K.model.represents keeper.old s →
        Writes K.model keeper.old keeper.new s (batch_value batch.now) result }
    // No line is written of a batch that was not answered.
    ensures untouched { IsErr result → journal.new ≡ journal.old }
    ensures noted { K.model.is_clean keeper.new → (s : State) → K.model.represents keeper.old s →
        IsFor W.contents W.reported W.is_kept journal.old s → IfOk result (λ _.
        IsFor W.contents W.reported W.is_kept journal.new (act s (batch_value batch.now)).state) }
    ensures goes { W.goes journal.old.writer journal.new.writer }
    ensures failed { journal.old.is_behind ≡ false → journal.new.is_behind ≡ true →
        W.fails journal.old.writer journal.new.writer }
{
    let Ok(line) = line_of(alloc, journal.next, batch) else {
        return Err(refuse(keeper));
    };
    match keeper.apply(batch) {
        Ok(Reply::Accepted(counts, serial)) => {
            journal.note(line.as_slice());
            Ok(Reply::Accepted(counts, serial))
        }
        Ok(Reply::Repeated(counts, serial)) => Ok(Reply::Repeated(counts, serial)),
        Ok(Reply::Refused(why, place)) => Ok(Reply::Refused(why, place)),
        Err(fault) => Err(fault),
    }
}

impl<K: KeepsBatches, W: JournalWriter> Keeper for JournaledKeeper<K, W> {
    ghost use Rattle.streetmap_journal.specs.Journaled.{journaled};

    ghost model = { journaled K.model W.contents W.reported W.is_kept W.fails };

    fn is_open(&self) -> bool {
        self.keeper.is_open()
    }

    fn apply(&mut self, batch: &Batch) -> Result<Reply, Fault> {
        match &mut self.journal {
            Some(journal) => {
                match complete(self.alloc, &mut self.keeper, journal) {
                    Ok(()) => apply_and_note(self.alloc, &mut self.keeper, journal, batch),
                    Err(fault) => Err(fault),
                }
            }
            None => self.keeper.apply(batch),
        }
    }

    fn page(&mut self, collection: &str, query: &Query) -> Result<Option<Page>, Fault> {
        self.keeper.page(collection, query)
    }

    fn feature(&mut self, collection: &str, id: &str) -> Result<Option<PackedFeature>, Fault> {
        self.keeper.feature(collection, id)
    }

    fn collection(&mut self, id: &str) -> Result<Option<Summary>, Fault> {
        self.keeper.collection(id)
    }

    fn collections(&mut self) -> Result<Vec<Summary>, Fault> {
        self.keeper.collections()
    }
}

impl<K: KeepsBatches + Tagged, W: JournalWriter> Tagged for JournaledKeeper<K, W> {
    fn tag(&mut self) -> Result<u64, Fault> {
        self.keeper.tag()
    }

    fn has_key(&mut self, key: &str) -> Result<bool, Fault> {
        self.keeper.has_key(key)
    }

    fn accepted(&mut self, serial: u64) -> Result<Option<KeptBatch>, Fault> {
        self.keeper.accepted(serial)
    }
}

impl<K: Durable + KeepsBatches, W: JournalWriter> Durable for JournaledKeeper<K, W> {
    ghost image = { K.image };

    ghost leaves = { λ k image. K.leaves k.keeper image };

    ghost holds = { K.holds };

    ghost images_hold_states = { λ first last s image is preserved clean left.
        K.images_hold_states first.keeper last.keeper s image is.0 preserved clean left };
}
