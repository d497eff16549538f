//! One connection, with no input or output of its own.
ghost use Rattle.std.specs.Prelude.{◌≡◌, ◌≢◌, ◌<◌, ◌↔◌, ℕ, List, [], length, take, false, IfOk};
ghost use Rattle.std.specs.Prelude.{IfErr, OnErr, IsTrue};
ghost use Rattle.std.specs.Bool.{OnTrue, OnFalse};
ghost use Rattle.std.specs.Io.KnownBytes.{Appends, Consumes, Keeps};
ghost use Rattle.streetmap_connections.specs.Buffers.{history_of};
ghost use Rattle.streetmap_connections.specs.History.{Exchange, FitsStream, MayFollow, new_history};
ghost use Rattle.streetmap_connections.specs.History.{after_receive, after_answer, after_send};
ghost use Rattle.streetmap_connections.specs.History.{after_refusal};
ghost use Rattle.streetmap_connections.specs.Departures.{IsFinal};

use crate::buffers::Buffers;
use crate::limits::MOST_INPUT;
use crate::service::Service;
use crate::stream::Stream;
use std::alloc::{AllocError, Global};
use std::io;

/// What was received and not yet answered, and what was answered and not yet sent. One request is
/// answered at a time, and the next after that answer was sent.
#[derive(Drop)]
pub struct Connection {
    buffers: Buffers,
    pub ghost in_order: { ∥ FitsStream (history_of buffers) ∥₁ },
}

impl Connection {
    ghost use Rattle.streetmap_connections.specs.Connections.{history, awaited, MayAnswer, IsOver};
    ghost use Rattle.streetmap_connections.specs.Cuts.{HasNone, HasNoneBefore};

    /// Nothing received and nothing sent, which allocates no memory.
    pub fn new(alloc: Global) -> Connection
        ensures unused { history result ≡ new_history }
        ensures awaits { awaited result ≡ 1 }
    {
        Connection {
            buffers: Buffers::new(alloc),
        }
    }

    /// Whether an answer, or a part of one, is still to be sent.
    pub(crate) fn wants_send(&self) -> bool
        ensures left { OnTrue result ((history self.now).unsent ≢ []) }
        ensures sent { OnFalse result ((history self.now).unsent ≡ []) }
    {
        !self.buffers.outgoing.is_sent()
    }

    /// Whether the input may begin with a whole request.
    pub(crate) fn may_answer(&self) -> bool
        ensures { IsTrue result ↔ MayAnswer self.now }
    {
        !self.wants_send() && !self.buffers.closes && self.buffers.needs <= self.buffers.input.len()
    }

    /// Whether nothing more can be answered: the last answer closes the connection, or the input is
    /// not a whole request and no more of it can arrive.
    pub fn is_over(&self) -> bool
        ensures { IsTrue result ↔ IsOver self.now }
    {
        !self.wants_send()
            && !self.may_answer()
            && (self.buffers.closes || self.buffers.ended || self.buffers.input.len() >= MOST_INPUT)
    }

    /// Whether no byte of a request was received, and nothing is to be sent.
    pub(crate) fn is_idle(&self) -> bool
        ensures { IsTrue result ↔ ((history self.now).unread ≡ [])
            × ((history self.now).unsent ≡ []) }
    {
        !self.wants_send() && self.buffers.input.is_empty()
    }

    /// The bytes of input that wait for an answer.
    pub(crate) fn waiting(&self) -> usize
        ensures { result ≡ length (history self.now).unread }
    {
        self.buffers.input.len()
    }

    /// Whether the end of the input was read.
    pub(crate) fn has_ended(&self) -> bool
        ensures { result ≡ (history self.now).ended }
    {
        self.buffers.ended
    }

    /// Reads once, if no answer waits to be sent. A read of no byte is the end of the input.
    ///
    /// # Errors
    ///
    /// If memory for the bytes that the read may return runs out: then nothing is read.
    pub(crate) fn receive_from<S: Stream>(
        &mut self,
        stream: &mut S,
    ) -> Result<io::Result<usize>, AllocError>
        requires { (history self.old).unsent ≡ [] }
        ensures ok { IfOk result (λ r. IfOk r (λ n. (more : List ℕ) × (length more ≡ n)
            × Consumes (S.remaining stream.old) (S.remaining stream.new) more
            × (history self.new ≡ after_receive (history self.old) more))) }
        ensures err { IfOk result (λ r. OnErr r ((history self.new ≡ history self.old)
            × Keeps (S.remaining stream.old) (S.remaining stream.new))) }
        ensures gone { IfOk result (λ r. IfErr r (λ e. IsFinal e → S.is_gone stream.new)) }
        ensures no_memory { OnErr result ((history self.new ≡ history self.old)
            × (stream.new ≡ stream.old)) }
        ensures kept { S.contents stream.new ≡ S.contents stream.old }
        ensures awaits { awaited self.new ≡ awaited self.old }
    {
        self.buffers.receive_from(stream)
    }

    /// Has the service answer the first request of the input, if the answer before was sent and did
    /// not close the connection. Returns whether it did: otherwise the request is not whole.
    pub fn answer<V: Service>(&mut self, service: &mut V) -> bool
        requires sent { (history self.old).unsent ≡ [] }
        requires stays { (history self.old).closes ≡ false }
        ensures answered { OnTrue result ((e : Exchange)
            × MayFollow V.is_request (history self.old) e
            × V.answers service.old e.request e.text e.closes service.new
            × (history self.new ≡ after_answer (history self.old) e)) }
        ensures waits { OnFalse result ((history self.new ≡ history self.old)
            × (service.new ≡ service.old)) }
        // If it did not, no prefix of the input is a request, and none can be until the input has
        // `awaited` bytes.
        ensures none { OnFalse result (HasNone V.is_request (history self.old).unread) }
        ensures awaits { OnFalse result ((length (history self.old).unread < awaited self.new)
            × HasNoneBefore V.is_request (history self.old).unread (awaited self.new)) }
        ensures begins { OnTrue result (awaited self.new ≡ 1) }
    {
        self.buffers.answer(service)
    }

    /// Has the service refuse a request that was received in part, since memory for it ran out.
    /// The input is dropped, and the connection closes after the answer.
    pub fn refuse<V: Service>(&mut self, service: &V)
        requires sent { (history self.old).unsent ≡ [] }
        requires stays { (history self.old).closes ≡ false }
        ensures refused { (text : List ℕ) × V.refuses (history self.old).unread text
            × (history self.new ≡ after_refusal (history self.old) text) }
    {
        self.buffers.refuse(service);
    }

    /// Writes once, and returns how many bytes the stream took.
    ///
    /// # Errors
    ///
    /// As the stream's; then nothing is sent.
    pub(crate) fn send_to<S: Stream>(&mut self, stream: &mut S) -> io::Result<usize>
        ensures ok { IfOk result (λ n. (history self.new ≡ after_send (history self.old) n)
            × Appends (S.contents stream.old) (S.contents stream.new)
            (take n (history self.old).unsent)) }
        ensures err { OnErr result ((history self.new ≡ history self.old)
            × Keeps (S.contents stream.old) (S.contents stream.new)) }
        ensures none { IfOk result (λ n. n ≡ 0 → (history self.old).unsent ≢ []
            → S.is_gone stream.new) }
        ensures gone { IfErr result (λ e. IsFinal e → S.is_gone stream.new) }
        ensures kept { S.remaining stream.new ≡ S.remaining stream.old }
        ensures awaits { awaited self.new ≡ awaited self.old }
    {
        self.buffers.send_to(stream)
    }
}
