//! Lines of a journal, compared with the batches that a keeper keeps.
ghost use Rattle.std.specs.Prelude.{◌≡◌, ◌≢◌, IfErr, IfSome, OnOk};
ghost use Rattle.std.specs.Io.KnownBytes.{Consumes};
ghost use Rattle.streetmap_ledger.specs.State.{State};
ghost use Rattle.streetmap_journal.specs.Comparison.{ends_of, EndsWithin, EndsAfterLast, IsOwn};
ghost use Rattle.streetmap_journal.specs.Comparison.{IsUnread, MatchesLine, Matches};
ghost use Rattle.streetmap_journal.specs.Comparison.{line_answer, end_answer};
ghost use Rattle.streetmap_replay.specs.Calls.{AreReads};

use crate::front::{Left, left_of, take_front};
use crate::journal::{line_with, whole_line};
use std::alloc::Global;
use std::io::BufRead;
use streetmap_ledger::{Fault, KeepsBatches};
use streetmap_text_lines::LineFault;

/// How the matching of lines ended.
#[derive(Clone, Copy, Drop)]
pub enum MatchEnd {
    /// All lines are those of the batches with their serials.
    All,
    /// The rest is a prefix of the next line and then only zero bytes: what a crash leaves of a
    /// line that was being written.
    Cut,
    /// The rest begins with another line, and is not what a crash leaves of one.
    Other,
    /// The rest begins with a serial that no batch has yet.
    Ahead,
    /// The rest was not read.
    NotRead,
    /// The keeper answered with a fault, or memory ran out.
    Stopped(Fault),
}

/// How many of the first lines are those of the batches, how many bytes they have with their line
/// feeds, and how it ended. More bytes than a number of 64 bits can count are not read.
#[derive(Clone, Copy, Drop)]
pub struct Matched {
    pub count: u64,
    pub bytes: u64,
    pub end: MatchEnd,
}

/// The end if a reader fails.
fn not_read(fault: LineFault) -> MatchEnd
    ensures { IsUnread result }
{
    match fault {
        LineFault::Memory => MatchEnd::Stopped(Fault::Memory),
        LineFault::ReadFailed | LineFault::LineTooLong => MatchEnd::NotRead,
    }
}

/// The end by what is left of an input, after `count` bytes of the line that is next.
fn end_by(left: Left, count: usize) -> MatchEnd
    ensures { result ≡ ends_of left count }
{
    match left {
        Left::Nothing if count == 0 => MatchEnd::All,
        Left::Nothing | Left::Zeros => MatchEnd::Cut,
        Left::Other => MatchEnd::Other,
    }
}

/// Takes a line off a reader if it is next, and else returns what is.
fn take_line<R: BufRead>(reader: &mut R, line: &[u8]) -> Result<(), MatchEnd>
    ensures taken { OnOk result
        (Consumes (R.remaining reader.old) (R.remaining reader.new) line.now) }
    ensures ends { IfErr result (λ end. IfSome (R.remaining reader.old)
        (λ rest. EndsWithin line.now rest end)) }
    ensures due { IfErr result (λ end. end ≢ MatchEnd.Ahead) }
    ensures own { IfErr result IsOwn }
{
    let count = match take_front(reader, line) {
        Ok(count) => count,
        Err(fault) => return Err(not_read(fault)),
    };
    if count == line.len() {
        return Ok(());
    }
    match left_of(reader) {
        Ok(left) => Err(end_by(left, count)),
        Err(fault) => Err(not_read(fault)),
    }
}

/// What is next in a reader after the line of the last batch, if the next would have this serial.
fn end_after_last<R: BufRead>(alloc: Global, serial: u64, reader: &mut R) -> MatchEnd
    ensures ends { IfSome (R.remaining reader.old) (λ rest. EndsAfterLast serial rest result) }
    ensures own { IsOwn result }
{
    let Ok(head) = line_with(alloc, serial, b"") else {
        return MatchEnd::Stopped(Fault::Memory);
    };
    match take_front(reader, head.as_slice()) {
        Ok(0) => match left_of(reader) {
            Ok(left) => end_by(left, 0),
            Err(fault) => not_read(fault),
        },
        Ok(count) if count == head.len() => MatchEnd::Ahead,
        Ok(_) => MatchEnd::Other,
        Err(fault) => not_read(fault),
    }
}

/// Takes the line of the batch with a serial off a reader if it is next, and returns how many bytes
/// were taken off with it.
fn match_line<K: KeepsBatches, R: BufRead>(
    alloc: Global,
    keeper: &mut K,
    serial: u64,
    bytes: u64,
    reader: &mut R,
) -> Result<u64, MatchEnd>
    ensures reads { AreReads K.model keeper.old keeper.new (line_answer result) }
    ensures matches { K.model.is_clean keeper.new → (s : State) → K.model.represents keeper.old s →
        MatchesLine s serial bytes (R.remaining reader.old) (R.remaining reader.new) result }
{
    match keeper.batch(serial) {
        Ok(Some(kept)) => match whole_line(alloc, serial, kept.text.as_slice()) {
            Ok(line) => {
                take_line(reader, line.as_slice())?;
                bytes
                    .checked_add(line.len() as u64)
                    .ok_or(MatchEnd::NotRead)
            }
            Err(_) => Err(MatchEnd::Stopped(Fault::Memory)),
        },
        Ok(None) => Err(end_after_last(alloc, serial, reader)),
        Err(fault) => Err(MatchEnd::Stopped(fault)),
    }
}

/// Reads lines as long as they are those of the batches that a keeper keeps after a serial, in
/// order.
pub fn match_lines<K: KeepsBatches, R: BufRead>(
    alloc: Global,
    keeper: &mut K,
    after: u64,
    reader: &mut R,
) -> Matched
    ensures reads { AreReads K.model keeper.old keeper.new (end_answer result.end) }
    ensures matches { K.model.is_clean keeper.new → (s : State) → K.model.represents keeper.old s →
        Matches s after (R.remaining reader.old) result }
{
    let mut bytes: u64 = 0;
    for turn in 0..u64::MAX {
        let serial = after.saturating_add(turn).saturating_add(1);
        match match_line(alloc, keeper, serial, bytes, reader) {
            Ok(more) => bytes = more,
            Err(end) => {
                return Matched {
                    count: turn,
                    bytes,
                    end,
                };
            }
        }
    }
    Matched {
        count: u64::MAX,
        bytes,
        end: MatchEnd::NotRead,
    }
}
