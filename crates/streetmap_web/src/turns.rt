//! A stream of requests, answered in order: a turn reads one and answers it.
ghost use Rattle.std.specs.Prelude.{◌≡◌, ◌<◌, ◌+◌, ◌-◌, ◌^◌, Option, IfOk, if◌then◌else◌};
ghost use Rattle.std.specs.Prelude.{length, true};
ghost use Rattle.std.specs.Io.KnownBytes.{Consumes, Keeps};
ghost use Rattle.streetmap_http.specs.Head.{IsHead};
ghost use Rattle.streetmap_http.specs.Framing.{Frames, sized};
ghost use Rattle.streetmap_http.specs.FramingView.{head_value};
ghost use Rattle.streetmap_batch.specs.Text.{Text};
ghost use Rattle.streetmap_web.specs.Site.{site_value};
ghost use Rattle.streetmap_connections.specs.Answers.{answer_text};
ghost use Rattle.streetmap_web.specs.Conditions.{Condition, IsInCondition, ByCalls};
ghost use Rattle.streetmap_web.specs.ServedStream.{around, TurnComes, ServesExchanges};
ghost use Rattle.streetmap_web.specs.Turns.{turn_after, end_of, begun_in, FillSays, RefuseSays};
ghost use Rattle.streetmap_web.specs.Turns.{WriteSays, HandsOn, IsHandedOn};

use crate::answer::{answer_to, fixed, refused};
use crate::site::Site;
use httparse::spans::EMPTY_HEADER_SPAN;
use std::alloc::{AllocError, Global};
use std::io::{BufRead, Read};
use streetmap_connections::Answer;
use streetmap_http::{
    BodyEnd, FIELD_LIMIT, Framed, FramingFault, HEAD_LIMIT, HeadEnd, RequestHead, Sent, frame_of,
    is_bare, read_body, read_head, send,
};
use streetmap_ledger::Fault;
use streetmap_tags::Tagged;
use streetmap_text_lines::Flush;

/// What one turn of the loop did.
#[derive(Clone, Copy, PartialEq, Eq)]
enum Turn {
    /// An answer was written, and the connection stays open.
    Open,
    /// An answer was written, and the connection closes.
    Closed,
    /// The input ended after a whole request, apart from empty lines.
    Ended,
    /// The input ended within a request.
    Truncated,
    /// A read failed.
    ReadFailed,
    /// A write failed or took no byte; whether a byte of the answer was written.
    WriteFailed(bool),
    /// An answer was written, and the flush after it failed.
    FlushFailed,
}

/// How serving ended.
#[derive(Clone, Copy, PartialEq, Eq)]
pub enum End {
    /// The connection closed after an answer, or the input ended after a whole request.
    Ended,
    /// The input ended within a request.
    Truncated,
    /// A read failed.
    ReadFailed,
    /// A write failed or took no byte.
    WriteFailed,
    /// The flush after an answer failed: the writer took the whole answer, and may keep some of it
    /// back.
    FlushFailed,
}

/// What was served.
#[derive(Clone, Copy, PartialEq, Eq)]
pub struct Served {
    /// How many answers were begun: a byte of each was written.
    pub answers: u64,
    pub end: End,
}

/// The turn of an answer that was sent so, and flushed or not.
fn turn_after(sent: Sent, flushed: bool, closes: bool) -> Turn
    ensures { result ≡ turn_after sent flushed closes }
{
    match (sent, flushed) {
        (Sent::Part(begun), _) => Turn::WriteFailed(begun),
        (Sent::Whole, false) => Turn::FlushFailed,
        (Sent::Whole, true) => { if closes { Turn::Closed } else { Turn::Open } }
    }
}

/// How serving ends with a turn.
fn end_of(turn: Turn) -> End
    ensures { result ≡ end_of turn }
{
    match turn {
        Turn::Open | Turn::Closed | Turn::Ended => End::Ended,
        Turn::Truncated => End::Truncated,
        Turn::ReadFailed => End::ReadFailed,
        Turn::WriteFailed(_) => End::WriteFailed,
        Turn::FlushFailed => End::FlushFailed,
    }
}

/// Whether an answer of the turn was begun.
fn is_begun(turn: Turn) -> bool
    ensures { result ≡ begun_in turn }
{
    match turn {
        Turn::Open | Turn::Closed | Turn::FlushFailed => true,
        Turn::WriteFailed(begun) => begun,
        _ => false,
    }
}

/// How many answers are begun, if `answers` were before the last turn.
fn count_after(answers: u64, turn: Turn) -> u64
    requires { answers < 2 ^ 64 - 1 }
    ensures { result ≡ (if begun_in turn then answers + 1 else answers) }
{
    if is_begun(turn) { answers + 1 } else { answers }
}

/// Flushes a writer. Returns whether that succeeded.
fn flush<W: Flush>(writer: &mut W) -> bool
    ensures bytes { Keeps (W.contents writer.old) (W.contents writer.new) }
    ensures flushed { result ≡ true → W.is_flushed writer.new }
{
    writer.hand_on().is_ok()
}

/// Writes an answer, and flushes the writer. Returns how that ended, for an answer that closes the
/// connection or not.
fn write_answer<W: Flush>(writer: &mut W, answer: &Answer, closes: bool) -> Turn
    ensures says { WriteSays result (answer_text answer.now) closes
        (W.contents writer.old) (W.contents writer.new) }
    ensures flushed { HandsOn result (W.is_flushed writer.old) (W.is_flushed writer.new) }
{
    let sent = send(writer, answer.head(), answer.body());
    let flushed = flush(writer);
    turn_after(sent, flushed, closes)
}

/// Room for a body.
fn body_room(alloc: Global, len: usize) -> Result<Vec<u8>, AllocError>
    ensures { IfOk result (λ v. length v.items ≡ len) }
{
    let mut room = Vec::new(alloc);
    room.resize(len, 0)?;
    Ok(room)
}

/// Answers a request that breaks a rule of framing.
fn refuse_turn<W: Flush>(alloc: Global, writer: &mut W, fault: FramingFault, bare: bool) -> Turn
    ensures says { RefuseSays result bare fault (W.contents writer.old) (W.contents writer.new) }
    ensures flushed { HandsOn result (W.is_flushed writer.old) (W.is_flushed writer.new) }
{
    let answer = refused(alloc, fault, bare);
    write_answer(writer, &answer, true)
}

/// Fills the room with a body. Returns how that ended.
fn fill<R: Read>(reader: &mut R, room: &mut [u8]) -> BodyEnd
    ensures len { length room.new ≡ length room.old }
    ensures says { FillSays result room.new (R.remaining reader.old) (R.remaining reader.new) }
{
    let (end, _) = read_body(reader, room);
    end
}

/// Reads a body into room for it. Returns how that ended.
fn read_all<R: Read>(reader: &mut R, room: Vec<u8>) -> (BodyEnd, Vec<u8>)
    ensures len { length result.1.items ≡ length room.items }
    ensures says { FillSays result.0 result.1.items
        (R.remaining reader.old) (R.remaining reader.new) }
{
    let mut body = room;
    let end = fill(reader, &mut body);
    (end, body)
}

/// Answers a request whose head was read.
fn answer_turn<K: Tagged, R: Read, W: Flush>(
    alloc: Global,
    keeper: &mut K,
    site: &Site,
    head: RequestHead,
    reader: &mut R,
    writer: &mut W,
) -> Turn
    ensures calls { ByCalls K.model keeper.old keeper.new }
    ensures says { K.model.is_clean keeper.new →
        (bytes : Text) (left : Option Text) (x : Condition) →
        IsHead bytes → Frames bytes (sized (head_value head.entry)) →
        Consumes left (R.remaining reader.old) bytes → IsInCondition K.model keeper.old x →
        TurnComes K.model result (site_value site.now) x
        (around left (R.remaining reader.new) (W.contents writer.old) (W.contents writer.new))
        keeper.old keeper.new }
    ensures flushed { HandsOn result (W.is_flushed writer.old) (W.is_flushed writer.new) }
{
    let Ok(room) = body_room(alloc, head.len) else {
        let bare = is_bare(head.method);
        return write_answer(writer, &fixed(Fault::Memory, bare), true);
    };
    let (end, body) = read_all(reader, room);
    match end {
        BodyEnd::Whole => {}
        BodyEnd::Truncated => return Turn::Truncated,
        BodyEnd::Failed => return Turn::ReadFailed,
    }
    let (answer, closes) = answer_to(alloc, keeper, site, head, body.as_slice());
    write_answer(writer, &answer, closes)
}

/// One turn: a request is read and answered.
fn take_turn<K: Tagged, R: Read, W: Flush>(
    alloc: Global,
    keeper: &mut K,
    site: &Site,
    reader: &mut R,
    writer: &mut W,
    buf: &mut [u8],
) -> Turn
    requires { length buf.old ≡ HEAD_LIMIT }
    ensures calls { ByCalls K.model keeper.old keeper.new }
    ensures says { K.model.is_clean keeper.new → (x : Condition)
        → IsInCondition K.model keeper.old x →
        TurnComes K.model result (site_value site.now) x
        (around (R.remaining reader.old) (R.remaining reader.new)
        (W.contents writer.old) (W.contents writer.new)) keeper.old keeper.new }
    // What was written is handed on before the next request is read.
    ensures flushed { HandsOn result (W.is_flushed writer.old) (W.is_flushed writer.new) }
{
    let (end, len) = read_head(reader, buf);
    match end {
        HeadEnd::Whole => {}
        HeadEnd::Ended => return Turn::Ended,
        HeadEnd::Truncated => return Turn::Truncated,
        HeadEnd::TooLarge => {
            return refuse_turn(alloc, writer, FramingFault::HeadTooLarge, false);
        }
        HeadEnd::Failed => return Turn::ReadFailed,
    }
    let mut headers = [EMPTY_HEADER_SPAN; FIELD_LIMIT];
    match frame_of(&buf[..len], &mut headers) {
        Framed::Broken(bare, fault) => refuse_turn(alloc, writer, fault, bare),
        Framed::Request(head) => answer_turn(alloc, keeper, site, head, reader, writer),
    }
}

/// Serves a stream of requests over a keeper: reads them from the reader, and writes their answers
/// to the writer, in order, up to the first that closes the connection. After each answer the
/// writer is flushed, before the next request is read.
///
/// It ends if an answer closed the connection or the input ended (`Ended`), if the input ended
/// within a request (`Truncated`), or if a read, a write or a flush failed; of a request that did
/// not arrive whole nothing is applied.
pub fn serve<K: Tagged, R: BufRead, W: Flush>(
    alloc: Global,
    keeper: &mut K,
    site: &Site,
    reader: &mut R,
    writer: &mut W,
) -> Served
    // If the store was clean: for the keeper's condition, requests were served in order, with their
    // answers, each of which leaves the connection open, and a last turn. The reader lost exactly
    // the bytes of the requests, the writer got exactly the answers, and the keeper represents the
    // state after their batches. Each batch was answered by the result of `apply`, or the keeper
    // was never called for it. The last turn says how serving ends, and nothing was applied or
    // written in one without an answer; the number of answers returned is the number begun. If the
    // device failed at the last request, a crash leaves the state before it or the one after it;
    // else the keeper represents a state still, and a crash leaves that.
    ensures serves { K.model.is_clean keeper.new → (x : Condition) →
        IsInCondition K.model keeper.old x →
        ServesExchanges K.model (site_value site.now) result.end result.answers x
        (around (R.remaining reader.old) (R.remaining reader.new)
        (W.contents writer.old) (W.contents writer.new)) keeper.old keeper.new }
    // All else that the store has is kept.
    ensures calls { ByCalls K.model keeper.old keeper.new }
    // No byte of an answer waits in the writer, unless a write or a flush failed.
    ensures flushed { IsHandedOn result.end result.answers
        (W.is_flushed writer.old) (W.is_flushed writer.new) }
{
    let mut buf = [0u8; HEAD_LIMIT];
    for answers in 0..u64::MAX {
        let turn = take_turn(alloc, keeper, site, reader, writer, &mut buf);
        match turn {
            Turn::Open => {}
            _ => {
                return Served {
                    answers: count_after(answers, turn),
                    end: end_of(turn),
                };
            }
        }
    }
    Served {
        answers: u64::MAX,
        end: End::ReadFailed,
    }
}
