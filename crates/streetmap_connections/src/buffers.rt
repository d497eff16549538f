//! What a connection holds.
ghost use Rattle.std.specs.Prelude.{◌≡◌, ◌≢◌, ◌<◌, ◌≤◌, ℕ, List, [], length, take, false, IfOk};
ghost use Rattle.std.specs.Prelude.{IfErr, OnErr};
ghost use Rattle.std.specs.Bool.{OnTrue, OnFalse};
ghost use Rattle.std.specs.Io.KnownBytes.{Appends, Consumes, Keeps};

use crate::outgoing::Outgoing;
use crate::service::{Answer, Cut, Service};
use crate::stream::Stream;
use bytes::BytesMut;
use http_server::Log;
use std::alloc::{AllocError, Global};
use std::io;

/// The least and the most room of a read, in bytes.
const LEAST_ROOM: usize = 16_384;

const MOST_ROOM: usize = 262_144;

/// The bytes of memory for input that an idle connection keeps.
const KEPT_ROOM: usize = 65_536;

/// An answer, whether the connection closes after it, and how many bytes its request has.
#[derive(Drop)]
pub(crate) struct Turn {
    pub(crate) answer: Answer,
    pub(crate) closes: bool,
    pub(crate) len: usize,
}

#[derive(Drop)]
pub(crate) struct Buffers {
    pub(crate) alloc: Global,
    pub(crate) input: BytesMut,
    /// Fewer bytes than this hold no whole request.
    pub(crate) needs: usize,
    /// The last answer, as far as it is not sent yet, and whether the connection closes after it.
    pub(crate) outgoing: Outgoing,
    pub(crate) closes: bool,
    pub(crate) ended: bool,
    /// The input after each read, and where the new bytes begin.
    pub(crate) reads: Log<BytesMut, usize>,
    /// The input before each answer, and the answer.
    pub(crate) turns: Log<BytesMut, Turn>,
    /// The answer before each write, and how many bytes of it were sent.
    pub(crate) writes: Log<Outgoing, usize>,
    /// The input that was refused, and the answer.
    pub(crate) refusals: Log<BytesMut, Answer>,
}

impl Buffers {
    ghost use Rattle.streetmap_connections.specs.Buffers.{history_of};
    ghost use Rattle.streetmap_connections.specs.Cuts.{HasNone, HasNoneBefore};
    ghost use Rattle.streetmap_connections.specs.History.{Exchange, MayFollow, new_history};
    ghost use Rattle.streetmap_connections.specs.History.{after_receive, after_answer, after_send};
    ghost use Rattle.streetmap_connections.specs.History.{after_refusal};
    ghost use Rattle.streetmap_connections.specs.Departures.{IsFinal};

    /// Nothing, which allocates no memory.
    pub(crate) fn new(alloc: Global) -> Buffers
        ensures unused { history_of result ≡ new_history }
        ensures awaits { result.needs ≡ 1 }
    {
        Buffers {
            alloc,
            input: BytesMut::new(alloc),
            needs: 1,
            outgoing: Outgoing::nothing(),
            closes: false,
            ended: false,
            reads: Log::new(),
            turns: Log::new(),
            writes: Log::new(),
            refusals: Log::new(),
        }
    }

    /// Reads once, if memory is available for the bytes that the read may return.
    pub(crate) fn receive_from<S: Stream>(
        &mut self,
        stream: &mut S,
    ) -> Result<io::Result<usize>, AllocError>
        ensures ok { IfOk result (λ r. IfOk r (λ n. (more : List ℕ) × (length more ≡ n)
            × Consumes (S.remaining stream.old) (S.remaining stream.new) more
            × (history_of self.new ≡ after_receive (history_of self.old) more))) }
        ensures err { IfOk result (λ r. OnErr r ((history_of self.new ≡ history_of self.old)
            × Keeps (S.remaining stream.old) (S.remaining stream.new))) }
        ensures gone { IfOk result (λ r. IfErr r (λ e. IsFinal e → S.is_gone stream.new)) }
        ensures no_memory { OnErr result ((history_of self.new ≡ history_of self.old)
            × (stream.new ≡ stream.old)) }
        ensures kept { S.contents stream.new ≡ S.contents stream.old }
        ensures awaits { self.new.needs ≡ self.old.needs }
    {
        let len = self.input.len();
        self.input.reserve(room_for(self.needs, len))?;
        Ok(self.read(stream))
    }

    /// Reads once into the present room.
    fn read<S: Stream>(&mut self, stream: &mut S) -> io::Result<usize>
        ensures ok { IfOk result (λ n. (more : List ℕ) × (length more ≡ n)
            × Consumes (S.remaining stream.old) (S.remaining stream.new) more
            × (history_of self.new ≡ after_receive (history_of self.old) more)) }
        ensures err { OnErr result ((history_of self.new ≡ history_of self.old)
            × Keeps (S.remaining stream.old) (S.remaining stream.new)) }
        ensures gone { IfErr result (λ e. IsFinal e → S.is_gone stream.new) }
        ensures kept { S.contents stream.new ≡ S.contents stream.old }
        ensures awaits { self.new.needs ≡ self.old.needs }
    {
        let len = self.input.len();
        let count = stream.receive(&mut self.input)?;
        self.reads = self.reads.and(&self.input, &len);
        self.ended = count == 0;
        Ok(count)
    }

    /// Has the service refuse the input, since memory for it ran out. The input is dropped.
    pub(crate) fn refuse<V: Service>(&mut self, service: &V)
        ensures refused { (text : List ℕ) × V.refuses (history_of self.old).unread text
            × (history_of self.new ≡ after_refusal (history_of self.old) text) }
    {
        let answer = service.refuse(self.input.as_slice());
        self.refusals = self.refusals.and(&self.input, &answer);
        self.input = BytesMut::new(self.alloc);
        self.closes = true;
        self.outgoing = Outgoing::new(answer);
    }

    /// Has the service answer the first request of the input. Returns whether it did.
    pub(crate) fn answer<V: Service>(&mut self, service: &mut V) -> bool
        requires sent { (history_of self.old).unsent ≡ [] }
        requires stays { (history_of self.old).closes ≡ false }
        ensures answered { OnTrue result ((e : Exchange)
            × MayFollow V.is_request (history_of self.old) e
            × V.answers service.old e.request e.text e.closes service.new
            × (history_of self.new ≡ after_answer (history_of self.old) e)) }
        ensures waits { OnFalse result ((history_of self.new ≡ history_of self.old)
            × (service.new ≡ service.old)) }
        ensures begins { OnTrue result (self.new.needs ≡ 1) }
        ensures none { OnFalse result (HasNone V.is_request (history_of self.old).unread) }
        ensures awaits { OnFalse result ((length (history_of self.old).unread < self.new.needs)
            × HasNoneBefore V.is_request (history_of self.old).unread self.new.needs) }
    {
        match service.cut(self.input.as_slice()) {
            Cut::Waits(needs) => {
                self.needs = needs.max(self.input.len() + 1);
                false
            }
            Cut::Whole(len) => {
                self.take_turn(service, len);
                true
            }
        }
    }

    /// Has the service answer the first `len` bytes of the input.
    fn take_turn<V: Service>(&mut self, service: &mut V, len: usize)
        requires fits { len ≤ length self.old.input.items }
        requires request { V.is_request (take len self.old.input.items) }
        ensures answered { (e : Exchange) × (e.request ≡ take len self.old.input.items)
            × V.answers service.old e.request e.text e.closes service.new
            × (history_of self.new ≡ after_answer (history_of self.old) e) }
        ensures begins { self.new.needs ≡ 1 }
    {
        let (answer, closes) = service.answer(&self.input.as_slice()[..len]);
        let turn = Turn {
            answer,
            closes,
            len,
        };
        self.turns = self.turns.and(&self.input, &turn);
        self.input.advance(len);
        shrink(self.alloc, &mut self.input);
        self.needs = 1;
        self.closes = closes;
        self.outgoing = Outgoing::new(turn.answer);
    }

    /// Writes once. An answer that was sent is dropped.
    pub(crate) fn send_to<S: Stream>(&mut self, stream: &mut S) -> io::Result<usize>
        ensures ok { IfOk result (λ n. (history_of self.new ≡ after_send (history_of self.old) n)
            × Appends (S.contents stream.old) (S.contents stream.new)
            (take n (history_of self.old).unsent)) }
        ensures err { OnErr result ((history_of self.new ≡ history_of self.old)
            × Keeps (S.contents stream.old) (S.contents stream.new)) }
        ensures none { IfOk result (λ n. n ≡ 0 → (history_of self.old).unsent ≢ []
            → S.is_gone stream.new) }
        ensures gone { IfErr result (λ e. IsFinal e → S.is_gone stream.new) }
        ensures kept { S.remaining stream.new ≡ S.remaining stream.old }
        ensures awaits { self.new.needs ≡ self.old.needs }
    {
        let len = stream.send(self.outgoing.next())?;
        self.writes = self.writes.and(&self.outgoing, &len);
        self.outgoing.advance(len);
        if self.outgoing.is_sent() {
            self.outgoing = Outgoing::nothing();
        }
        Ok(len)
    }
}

/// Releases memory that an idle connection does not keep.
fn shrink(alloc: Global, input: &mut BytesMut)
    ensures { input.new.items ≡ input.old.items }
{
    if input.is_empty() && input.capacity() > KEPT_ROOM {
        *input = BytesMut::new(alloc);
    }
}

/// The room for a read after which `needs` bytes are to be held.
fn room_for(needs: usize, len: usize) -> usize {
    needs.saturating_sub(len).max(LEAST_ROOM).min(MOST_ROOM)
}
