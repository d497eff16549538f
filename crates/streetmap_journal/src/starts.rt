//! A journal, begun where it is kept.
ghost use Rattle.std.specs.Prelude.{◌≡◌, ◌+◌, ◌^◌, ◌-◌, true, IfErr, IfOk, IfSome, take};
ghost use Rattle.std.specs.Io.KnownBytes.{Keeps};
ghost use Rattle.streetmap_ledger.specs.State.{State};
ghost use Rattle.streetmap_replay.specs.Calls.{AreReads, fault_in};
ghost use Rattle.streetmap_journal.specs.Starts.{BeginsBy, StartsBy, compared_answer};
ghost use Rattle.streetmap_journal.specs.Starts.{BeginsAfter, HasFirstSerial, IsRefused};
ghost use Rattle.streetmap_journal.specs.Starts.{ChecksEnd, HasFailedSince, IsOwnFault};
ghost use Rattle.streetmap_journal.specs.Starts.{start_answer};
ghost use Rattle.streetmap_journal.specs.Comparison.{Matches, serial_following};
ghost use Rattle.streetmap_journal.specs.Reports.{WriterIsInformed, IsWholeUnless};

use crate::comparison::{MatchEnd, Matched, match_lines};
use crate::completion::complete;
use crate::journal::{Journal, JournalWriter};
use crate::place::JournalPlace;
use std::alloc::Global;
use std::io::{BufRead, Error, ErrorKind, Read};
use streetmap_ledger::{Fault, KeepsBatches};
use streetmap_replay::read_line;

/// The most bytes of a serial and the tab after it.
const MOST_HEAD: u64 = 21;

/// Why a journal is not begun.
#[derive(Drop)]
pub enum StartFault {
    /// It has serials that the keeper lacks.
    Ahead,
    /// It is not a journal of the keeper's batches: the line with this serial is another, and is
    /// not what a crash leaves of it.
    Other(u64),
    /// It could not be opened or cut.
    NotOpened(Error),
    /// It could not be read.
    NotRead,
    /// The keeper answered with a fault, or memory ran out.
    Stopped(Fault),
}

impl From<Error> for StartFault {
    ghost use Rattle.streetmap_journal.specs.declared.starts.StartFault.TheVariants.{NotOpened};

    ghost from_gives = { λ error fault. fault ≡ NotOpened error };

    fn from(error: Error) -> StartFault {
        StartFault::NotOpened(error)
    }
}

/// The first bytes of an input, as many as a serial and its tab may have.
fn first_bytes<R: BufRead + Drop>(alloc: Global, reader: R) -> Result<Vec<u8>, Error>
    ensures { IfOk result (λ head. IfSome (R.remaining reader) (λ bytes.
        head.items ≡ take MOST_HEAD bytes)) }
{
    let mut head = Vec::new(alloc);
    reader.take(MOST_HEAD).read_to_end(&mut head)?;
    Ok(head)
}

/// The serial of the first line, if the input begins with one and a tab.
fn first_serial<R: BufRead + Drop>(alloc: Global, reader: R) -> Result<Option<u64>, Error>
    ensures { IfOk result (λ serial. IfSome (R.remaining reader) (λ bytes.
        HasFirstSerial bytes serial)) }
{
    let head = first_bytes(alloc, reader)?;
    let line = read_line(head.as_slice());
    Ok(line.serial)
}

/// Why a journal whose first bytes were not read is not begun.
fn unread(error: &Error) -> StartFault
    ensures { IsOwnFault result }
{
    match error.kind() {
        ErrorKind::OutOfMemory => StartFault::Stopped(Fault::Memory),
        _ => StartFault::NotRead,
    }
}

/// The serial after which a journal begins: the one before that of its first line, or the requested
/// one if it has no line.
fn serial_before<P: JournalPlace>(
    alloc: Global,
    place: &mut P,
    requested: u64,
) -> Result<u64, StartFault>
    ensures after { IfOk result (λ after. IfSome (P.contents place.old) (λ bytes.
        BeginsAfter bytes requested after)) }
    ensures own { IfErr result IsOwnFault }
    ensures kept { Keeps (P.contents place.old) (P.contents place.new) }
{
    let Some(reader) = place.read()? else {
        return Ok(requested);
    };
    match first_serial(alloc, reader) {
        Ok(Some(serial)) if serial > 0 => Ok(serial - 1),
        Ok(_) => Ok(requested),
        Err(error) => Err(unread(&error)),
    }
}

/// The result for a journal that does not exist.
fn nothing() -> Matched
    ensures { result ≡ record { count = 0; bytes = 0; end = MatchEnd.All } }
{
    Matched {
        count: 0,
        bytes: 0,
        end: MatchEnd::All,
    }
}

/// Compares the lines of a journal with the batches that a keeper keeps after a serial.
fn match_place<K: KeepsBatches, P: JournalPlace>(
    alloc: Global,
    keeper: &mut K,
    after: u64,
    place: &mut P,
) -> Result<Matched, Error>
    ensures reads { AreReads K.model keeper.old keeper.new (compared_answer result) }
    ensures compares { K.model.is_clean keeper.new → (s : State) → K.model.represents keeper.old s →
        IfOk result (Matches s after (P.contents place.old)) }
    ensures kept { Keeps (P.contents place.old) (P.contents place.new) }
{
    match place.read()? {
        Some(mut reader) => Ok(match_lines(alloc, keeper, after, &mut reader)),
        None => Ok(nothing()),
    }
}

/// Why a journal whose lines were compared is not begun.
fn check_end(after: u64, matched: Matched) -> Result<(), StartFault>
    ensures { ChecksEnd after matched result }
{
    match matched.end {
        MatchEnd::All | MatchEnd::Cut => Ok(()),
        MatchEnd::Other => Err(StartFault::Other(
            after.saturating_add(matched.count).saturating_add(1),
        )),
        MatchEnd::Ahead => Err(StartFault::Ahead),
        MatchEnd::NotRead => Err(StartFault::NotRead),
        MatchEnd::Stopped(fault) => Err(StartFault::Stopped(fault)),
    }
}

/// A journal whose first `count` lines after a serial are written, and which may lack others.
fn resumed<W>(after: u64, count: u64, writer: W) -> Journal<W>
    ensures { (result.writer ≡ writer) × (result.after ≡ after) × (result.part ≡ 0)
        × (result.next ≡ serial_following after count) × (result.is_behind ≡ true) }
{
    Journal {
        writer,
        after,
        next: after.saturating_add(count).saturating_add(1),
        part: 0,
        is_behind: true,
    }
}

/// Writes the lines that a journal lacks. If not all of them could be written, its writer is
/// informed.
fn begin<K: KeepsBatches, W: JournalWriter + Drop>(
    alloc: Global,
    keeper: &mut K,
    journal: Journal<W>,
) -> Result<Journal<W>, Fault>
    ensures reads { AreReads K.model keeper.old keeper.new (fault_in result) }
    ensures begins { K.model.is_clean keeper.new → (s : State) → K.model.represents keeper.old s →
        IfOk result (BeginsBy s W.contents journal) }
    ensures reported { journal.is_behind ≡ true → IfOk result (λ begun.
        WriterIsInformed W.reported W.is_kept begun × IsWholeUnless W.fails journal begun) }
{
    let mut journal = journal;
    match complete(alloc, keeper, &mut journal) {
        Ok(()) => {
            journal.report_missing();
            Ok(journal)
        }
        Err(fault) => Err(fault),
    }
}

/// Begins a journal where it is kept. It must have the lines of the batches that a keeper keeps
/// after the serial before its first line, or after the requested one if it has none. What a crash
/// left of its last line is taken off, and the lines that it lacks are written. If not all of them
/// could be written, its writer is informed.
///
/// # Errors
///
/// `Ahead` if the keeper keeps fewer batches, and `Other` if a line is another: nothing is written.
/// `NotOpened` and `NotRead` if the place fails: nothing is written. `Stopped` with the fault of
/// the keeper, or with `Memory` if memory runs out for a line.
pub fn start_journal<K: KeepsBatches, P: JournalPlace>(
    alloc: Global,
    keeper: &mut K,
    requested: u64,
    place: &mut P,
) -> Result<Journal<P::Writer>, StartFault>
    ensures reads { AreReads K.model keeper.old keeper.new (start_answer result) }
    // The bytes found are the journal of the state up to a cut line, and it has all of it then; or
    // why it is not begun.
    ensures starts { K.model.is_clean keeper.new → (s : State) → K.model.represents keeper.old s →
        StartsBy s requested (P.contents place.old) P.Writer.contents result }
    // A journal that is refused is as it was.
    ensures refused { IsRefused result → Keeps (P.contents place.old) (P.contents place.new) }
    // The writer knows what is missing; and if something is, it failed.
    ensures reported { IfOk result (λ journal.
        WriterIsInformed P.Writer.reported P.Writer.is_kept journal
        × (journal.is_behind ≡ true → HasFailedSince P.Writer.fails journal.writer)) }
{
    let count = match keeper.batch_count() {
        Ok(count) => count,
        Err(fault) => return Err(StartFault::Stopped(fault)),
    };
    let after = serial_before(alloc, place, requested)?;
    if count < after {
        return Err(StartFault::Ahead);
    }
    let matched = match_place(alloc, keeper, after, place)?;
    check_end(after, matched)?;
    let writer = place.write_after(matched.bytes)?;
    match begin(alloc, keeper, resumed(after, matched.count, writer)) {
        Ok(journal) => Ok(journal),
        Err(fault) => Err(StartFault::Stopped(fault)),
    }
}
