//! A journal that lacks lines, completed from the batches that a keeper keeps.
ghost use Rattle.std.specs.Prelude.{◌≡◌, IsOk, true, false};
ghost use Rattle.std.specs.Option.{option_map};
ghost use Rattle.std.specs.Io.KnownBytes.{Keeps};
ghost use Rattle.streetmap_ledger.specs.State.{State};
ghost use Rattle.streetmap_ledger.specs.Keep.{IsRead};
ghost use Rattle.streetmap_journal.specs.Completion.{IsKeptLine};
ghost use Rattle.streetmap_journal.specs.Reports.{WriterIsInformed};
ghost use Rattle.streetmap_journal.specs.Written.{position_of, HoldsIn};
ghost use Rattle.streetmap_replay.specs.Calls.{AreReads, fails_by, fault_in};

use crate::journal::{Journal, JournalWriter, whole_line};
use std::alloc::Global;
use streetmap_ledger::{Fault, KeepsBatches};

/// The line of the batch with a serial, with its line feed; none if no batch has the serial.
fn kept_line<K: KeepsBatches>(
    alloc: Global,
    keeper: &mut K,
    serial: u64,
) -> Result<Option<Vec<u8>>, Fault>
    ensures { IsRead K.model keeper.old keeper.new result
        (λ s line. IsKeptLine s serial (option_map (λ bytes. bytes.items) line)) }
{
    match keeper.batch(serial) {
        Ok(Some(kept)) => match whole_line(alloc, serial, kept.text.as_slice()) {
            Ok(line) => Ok(Some(line)),
            Err(_) => Err(Fault::Memory),
        },
        Ok(None) => Ok(None),
        Err(fault) => Err(fault),
    }
}

/// The fault if no batch was requested because memory ran out: a shut keeper answers as always.
pub(crate) fn refuse<K: KeepsBatches>(keeper: &mut K) -> Fault
    ensures { AreReads K.model keeper.old keeper.new (fails_by result) }
{
    match keeper.batch_count() {
        Ok(_) => Fault::Memory,
        Err(fault) => fault,
    }
}

impl<W: JournalWriter> Journal<W> {
    /// Has all lines kept if none is missing: then the journal is no longer behind, and the writer
    /// is informed.
    fn settle(&mut self)
        ensures position { (self.new.after ≡ self.old.after) × (self.new.next ≡ self.old.next)
            × (self.new.part ≡ self.old.part) }
        ensures bytes { Keeps (W.contents self.old.writer) (W.contents self.new.writer) }
        ensures reported { self.old.is_behind ≡ true →
            WriterIsInformed W.reported W.is_kept self.old
            → WriterIsInformed W.reported W.is_kept self.new }
        ensures whole { self.old.is_behind ≡ true → self.new.is_behind ≡ false →
            WriterIsInformed W.reported W.is_kept self.new }
        ensures goes { W.goes self.old.writer self.new.writer }
        ensures failed { self.new.is_behind ≡ true → W.fails self.old.writer self.new.writer }
    {
        if self.writer.sync().is_ok() {
            self.is_behind = false;
            self.writer.whole(self.next.saturating_sub(1));
        }
    }

    /// Informs the writer from where on lines are missing.
    pub(crate) fn report_missing(&mut self)
        ensures position { position_of self.new ≡ position_of self.old }
        ensures bytes { Keeps (W.contents self.old.writer) (W.contents self.new.writer) }
        ensures reported { (self.old.is_behind ≡ false
            → WriterIsInformed W.reported W.is_kept self.old) →
            WriterIsInformed W.reported W.is_kept self.new }
        ensures goes { W.goes self.old.writer self.new.writer }
    {
        if self.is_behind {
            self.writer.behind(self.next);
        }
    }
}

/// Writes the lines that a journal lacks, in order of their serials: if a write fails, it stays
/// behind.
///
/// # Errors
///
/// Those of the keeper, as a read of it returns them, and `Memory` if memory runs out for a line.
pub(crate) fn complete<K: KeepsBatches, W: JournalWriter>(
    alloc: Global,
    keeper: &mut K,
    journal: &mut Journal<W>,
) -> Result<(), Fault>
    ensures reads { AreReads K.model keeper.old keeper.new (fault_in result) }
    ensures after { journal.new.after ≡ journal.old.after }
    ensures reported { WriterIsInformed W.reported W.is_kept journal.old →
        WriterIsInformed W.reported W.is_kept journal.new }
    ensures whole { journal.old.is_behind ≡ true → journal.new.is_behind ≡ false →
        WriterIsInformed W.reported W.is_kept journal.new }
    ensures goes { W.goes journal.old.writer journal.new.writer }
    ensures failed { IsOk result → journal.new.is_behind ≡ true →
        W.fails journal.old.writer journal.new.writer }
    ensures holds { K.model.is_clean keeper.new → (s : State) → K.model.represents keeper.old s →
        HoldsIn W.contents journal.old s → HoldsIn W.contents journal.new s }
{
    for _turn in 0..u64::MAX {
        if !journal.is_behind {
            return Ok(());
        }
        match kept_line(alloc, keeper, journal.next) {
            Ok(Some(line)) => {
                if !journal.put(line.as_slice()) {
                    return Ok(());
                }
            }
            Ok(None) => {
                journal.settle();
                return Ok(());
            }
            Err(fault) => return Err(fault),
        }
    }
    // No keeper keeps this many batches.
    Err(refuse(keeper))
}
