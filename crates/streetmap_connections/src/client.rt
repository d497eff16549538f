//! A connection and its stream.
ghost use Rattle.std.specs.Prelude.{◌≡◌, ◌≢◌, ◌≤◌, ◌↔◌, ◌||◌, [], true, false, length, IsTrue};
ghost use Rattle.std.specs.Prelude.{◌<◌, if◌then◌else◌, IfOk, OnErr, IsErrAnd, MatchResult};
ghost use Rattle.std.specs.Bool.{OnFalse};
ghost use Rattle.streetmap_connections.specs.Connections.{history, IsOver};
ghost use Rattle.streetmap_connections.specs.Departures.{IsFinal};
ghost use Rattle.streetmap_connections.specs.Moves.{Moves};
ghost use Rattle.streetmap_connections.specs.Leads.{Calls};

use crate::connection::Connection;
use crate::limits::{LONGEST_REQUEST, PIECE};
use crate::service::Service;
use crate::stream::Stream;
use std::alloc::Global;
use std::io;
use std::io::ErrorKind;

/// The steps that a client takes before it is the turn of the next one.
const STEPS: usize = 16;

/// The milliseconds that a client may take to end its side after everything was sent.
const LAST_PATIENCE: u64 = 1_000;

/// What a client can do next.
#[derive(Drop, Clone, Copy, PartialEq, Eq)]
pub enum Work {
    /// Nothing, until its stream is ready.
    Rests,
    /// It can continue at once.
    Goes,
    /// The connection is over.
    Ends,
}

/// A client: its stream, its connection, and what is known of them.
#[derive(Drop)]
pub struct Client<S> {
    stream: S,
    connection: Connection,
    readable: bool,
    writable: bool,
    /// Everything was sent, and only the end of what the other side sends is still to be read.
    finishes: bool,
    /// When it was accepted, was last answered, last took a byte of an answer, or sent the last
    /// whole piece of a request, in milliseconds.
    since: u64,
    /// The same, without the pieces of a request.
    request_since: u64,
}

impl<S: Stream> Client<S> {
    ghost use Rattle.streetmap_connections.specs.History.{new_history};
    ghost use Rattle.streetmap_connections.specs.Clients.{place_of, exchanges_of, woken, IsIdle};
    ghost use Rattle.streetmap_connections.specs.Clients.{IsQuiet};
    ghost use Rattle.streetmap_connections.specs.Clients.{refusals_of};
    ghost use Rattle.streetmap_connections.specs.Clients.{IsLate, HasLeft};
    ghost use Rattle.streetmap_connections.specs.RefusedRequests.{AddsRefusals};
    ghost use Rattle.streetmap_connections.specs.Timers.{IsTimedFrom, times_of, pieces_of};
    ghost use Rattle.streetmap_connections.specs.Timers.{restarted, renewed};

    /// A client of this stream, from this time on, in milliseconds.
    pub fn new(alloc: Global, stream: S, now: u64) -> Client<S>
        ensures ready { (result.readable ≡ true) × (result.writable ≡ true) }
        ensures since { (result.since ≡ now) × (result.request_since ≡ now) }
        ensures place { place_of S.remaining S.contents result
            ≡ record {
              history = new_history;
              left = S.remaining stream;
              held = S.contents stream;
              finishes = false;
            } }
    {
        Client {
            stream,
            connection: Connection::new(alloc),
            readable: true,
            writable: true,
            finishes: false,
            since: now,
            request_since: now,
        }
    }

    /// The stream alone, after the client is over.
    pub(crate) fn into_stream(self) -> S
        ensures { result ≡ self.stream }
    {
        let Client { stream, .. } = self;
        stream
    }

    /// Its stream became ready.
    pub(crate) fn wake(&mut self, readable: bool, writable: bool)
        ensures { self.new ≡ woken readable writable self.old }
    {
        self.readable = self.readable || readable;
        self.writable = self.writable || writable;
    }

    /// Whether it took longer than `patience`, in milliseconds, to send the next piece of a request
    /// or the rest of it, or to take a byte of an answer; longer than any request may take; or
    /// longer than a second to end its side after everything was sent.
    pub(crate) fn is_late(&self, now: u64, patience: u64) -> bool
        ensures { IsTrue result ↔ IsLate now patience self.now }
    {
        let patience = if self.finishes {
            LAST_PATIENCE
        } else {
            patience
        };
        now.saturating_sub(self.since) > patience
            || now.saturating_sub(self.request_since) > LONGEST_REQUEST
    }

    /// Whether no byte of a request was received, nothing is to be sent, and its stream had nothing
    /// more to read.
    pub(crate) fn is_idle(&self) -> bool
        ensures { IsTrue result ↔ IsIdle self.now }
    {
        !self.readable && !self.finishes && self.connection.is_idle()
    }

    /// Whether an answer, or a part of one, is still to be sent, or only the end of what the other
    /// side sends is still to be read.
    pub(crate) fn is_busy(&self) -> bool
        ensures { OnFalse result (IsQuiet self.now) }
    {
        self.finishes || self.connection.wants_send()
    }

    /// When it was accepted, was last answered, last took a byte of an answer, or sent the last
    /// whole piece of a request, in milliseconds.
    pub(crate) fn since(&self) -> u64
        ensures { result ≡ self.now.since }
    {
        self.since
    }

    /// The bytes of its input that wait for an answer.
    pub(crate) fn waiting(&self) -> usize
        ensures { result ≡ length (history self.now.connection).unread }
    {
        self.connection.waiting()
    }

    /// Takes some steps. It reads no more when `most_input` bytes of its input wait.
    pub(crate) fn work<V: Service>(&mut self, service: &mut V, now: u64, most_input: usize) -> Work
        ensures moves { Moves most_input (place_of S.remaining S.contents self.old)
            (place_of S.remaining S.contents self.new) }
        ensures calls { Calls V.answers service.old service.new (exchanges_of self.old)
            (exchanges_of self.new) }
        ensures refuses { AddsRefusals V.refuses (refusals_of self.old) (refusals_of self.new) }
        ensures timed { IsTimedFrom now (times_of self.old) (times_of self.new) }
        ensures ends { result ≡ Work.Ends → HasLeft S.is_gone self.new }
    {
        for _step in 0..STEPS {
            match self.step(service, now, most_input) {
                Work::Goes => {}
                work => return work,
            }
        }
        Work::Goes
    }

    fn step<V: Service>(&mut self, service: &mut V, now: u64, most_input: usize) -> Work
        ensures moves { Moves most_input (place_of S.remaining S.contents self.old)
            (place_of S.remaining S.contents self.new) }
        ensures calls { Calls V.answers service.old service.new (exchanges_of self.old)
            (exchanges_of self.new) }
        ensures refuses { AddsRefusals V.refuses (refusals_of self.old) (refusals_of self.new) }
        ensures timed { IsTimedFrom now (times_of self.old) (times_of self.new) }
        ensures ends { result ≡ Work.Ends → HasLeft S.is_gone self.new }
    {
        if self.finishes {
            return self.await_end();
        }
        if self.connection.wants_send() {
            return self.send(now);
        }
        if self.connection.may_answer() {
            return self.answer(service, now);
        }
        if self.connection.is_over() {
            return self.finish(now);
        }
        self.receive(service, now, most_input)
    }

    /// Sets both times to now, since something was done for it.
    fn restart(&mut self, now: u64)
        ensures { self.new ≡ restarted now self.old }
    {
        self.since = now;
        self.request_since = now;
    }

    fn send(&mut self, now: u64) -> Work
        requires { (history self.old.connection).unsent ≢ [] }
        ensures moves { Moves 0 (place_of S.remaining S.contents self.old)
            (place_of S.remaining S.contents self.new) }
        ensures unanswered { exchanges_of self.new ≡ exchanges_of self.old }
        ensures unrefused { refusals_of self.new ≡ refusals_of self.old }
        ensures timed { IsTimedFrom now (times_of self.old) (times_of self.new) }
        ensures ends { result ≡ Work.Ends → S.is_gone self.new.stream }
    {
        if !self.writable {
            return Work::Rests;
        }
        let sent = self.connection.send_to(&mut self.stream);
        self.note_sent(sent, now)
    }

    fn note_sent(&mut self, sent: io::Result<usize>, now: u64) -> Work
        ensures same { place_of S.remaining S.contents self.new
            ≡ place_of S.remaining S.contents self.old }
        ensures stream { self.new.stream ≡ self.old.stream }
        ensures some { IfOk sent (λ n. 0 < n → self.new ≡ restarted now self.old) }
        ensures none { IfOk sent (λ n. n ≡ 0 → times_of self.new ≡ times_of self.old) }
        ensures failed { OnErr sent (times_of self.new ≡ times_of self.old) }
        ensures ends { result ≡ Work.Ends → MatchResult sent (λ n. n ≡ 0) IsFinal }
    {
        match sent {
            Ok(0) => Work::Ends,
            Ok(_) => {
                self.restart(now);
                Work::Goes
            }
            Err(e) => {
                self.writable = !is_blocked(&e);
                after_error(&e)
            }
        }
    }

    fn answer<V: Service>(&mut self, service: &mut V, now: u64) -> Work
        requires sent { (history self.old.connection).unsent ≡ [] }
        requires stays { (history self.old.connection).closes ≡ false }
        ensures moves { Moves 0 (place_of S.remaining S.contents self.old)
            (place_of S.remaining S.contents self.new) }
        ensures calls { Calls V.answers service.old service.new (exchanges_of self.old)
            (exchanges_of self.new) }
        ensures unrefused { refusals_of self.new ≡ refusals_of self.old }
        ensures timed { IsTimedFrom now (times_of self.old) (times_of self.new) }
        ensures goes { result ≡ Work.Goes }
    {
        let answered = self.connection.answer(service);
        self.note_answered(answered, now);
        Work::Goes
    }

    fn note_answered(&mut self, answered: bool, now: u64)
        ensures { self.new ≡ (if answered then restarted now self.old else self.old) }
    {
        if answered {
            self.restart(now);
        }
    }

    /// Reads once, if less than `most_input` bytes of its input wait. If memory for the bytes that
    /// the read may return runs out, the request is refused.
    fn receive<V: Service>(&mut self, service: &V, now: u64, most_input: usize) -> Work
        requires sent { (history self.old.connection).unsent ≡ [] }
        requires stays { (history self.old.connection).closes ≡ false }
        ensures moves { Moves most_input (place_of S.remaining S.contents self.old)
            (place_of S.remaining S.contents self.new) }
        ensures unanswered { exchanges_of self.new ≡ exchanges_of self.old }
        ensures refuses { AddsRefusals V.refuses (refusals_of self.old) (refusals_of self.new) }
        ensures limit { most_input ≤ length (history self.old.connection).unread
            → history self.new.connection ≡ history self.old.connection }
        ensures timed { IsTimedFrom now (times_of self.old) (times_of self.new) }
        ensures ends { result ≡ Work.Ends → S.is_gone self.new.stream }
    {
        if !self.readable || self.connection.waiting() >= most_input {
            return Work::Rests;
        }
        let pieces = self.pieces();
        match self.connection.receive_from(&mut self.stream) {
            Ok(received) => {
                self.renew(pieces, now);
                self.note_received(received)
            }
            Err(_) => self.refuse(service, now),
        }
    }

    /// The whole pieces of its input that wait for an answer.
    fn pieces(&self) -> usize
        ensures { result ≡ pieces_of (history self.now.connection) }
    {
        self.connection.waiting() / PIECE
    }

    /// Renews its patience, if more whole pieces wait than `pieces`.
    fn renew(&mut self, pieces: usize, now: u64)
        ensures { self.new ≡ renewed pieces now self.old }
    {
        if self.pieces() > pieces {
            self.since = now;
        }
    }

    fn note_received(&mut self, received: io::Result<usize>) -> Work
        ensures same { place_of S.remaining S.contents self.new
            ≡ place_of S.remaining S.contents self.old }
        ensures stream { self.new.stream ≡ self.old.stream }
        ensures times { times_of self.new ≡ times_of self.old }
        ensures ends { result ≡ Work.Ends → IsErrAnd received IsFinal }
    {
        match received {
            Ok(_) => Work::Goes,
            Err(e) => {
                self.readable = !is_blocked(&e);
                after_error(&e)
            }
        }
    }

    /// Refuses a request that was received in part, since memory for it ran out.
    fn refuse<V: Service>(&mut self, service: &V, now: u64) -> Work
        requires sent { (history self.old.connection).unsent ≡ [] }
        requires stays { (history self.old.connection).closes ≡ false }
        ensures moves { Moves 0 (place_of S.remaining S.contents self.old)
            (place_of S.remaining S.contents self.new) }
        ensures unanswered { exchanges_of self.new ≡ exchanges_of self.old }
        ensures refuses { AddsRefusals V.refuses (refusals_of self.old) (refusals_of self.new) }
        ensures timed { IsTimedFrom now (times_of self.old) (times_of self.new) }
        ensures goes { result ≡ Work.Goes }
    {
        self.connection.refuse(service);
        self.restart(now);
        Work::Goes
    }

    /// Says that nothing more is sent. Bytes that the other side still sends are read and dropped,
    /// since the other side could lose the last answer because of an unread byte.
    fn finish(&mut self, now: u64) -> Work
        requires over { IsOver self.old.connection }
        requires first { self.old.finishes ≡ false }
        ensures moves { Moves 0 (place_of S.remaining S.contents self.old)
            (place_of S.remaining S.contents self.new) }
        ensures unanswered { exchanges_of self.new ≡ exchanges_of self.old }
        ensures unrefused { refusals_of self.new ≡ refusals_of self.old }
        ensures timed { IsTimedFrom now (times_of self.old) (times_of self.new) }
        ensures ends { result ≡ Work.Ends → HasLeft S.is_gone self.new }
    {
        if self.connection.has_ended() {
            return Work::Ends;
        }
        self.stream.finish();
        self.finishes = true;
        self.restart(now);
        Work::Goes
    }

    fn await_end(&mut self) -> Work
        requires { self.old.finishes ≡ true }
        ensures moves { Moves 0 (place_of S.remaining S.contents self.old)
            (place_of S.remaining S.contents self.new) }
        ensures unanswered { exchanges_of self.new ≡ exchanges_of self.old }
        ensures unrefused { refusals_of self.new ≡ refusals_of self.old }
        ensures times { times_of self.new ≡ times_of self.old }
        ensures ends { result ≡ Work.Ends → S.is_gone self.new.stream }
    {
        if !self.readable {
            return Work::Rests;
        }
        match self.stream.discard() {
            Ok(0) => Work::Ends,
            Ok(_) => Work::Goes,
            Err(e) => {
                self.readable = !is_blocked(&e);
                after_error(&e)
            }
        }
    }
}

fn is_blocked(e: &io::Error) -> bool {
    e.kind() == ErrorKind::WouldBlock
}

/// The client waits for a stream that is not ready, tries an interrupted call again, and ends at
/// any other error.
fn after_error(e: &io::Error) -> Work
    ensures { result ≡ Work.Ends → IsFinal e.now }
{
    match e.kind() {
        ErrorKind::WouldBlock => Work::Rests,
        ErrorKind::Interrupted => Work::Goes,
        _ => Work::Ends,
    }
}
