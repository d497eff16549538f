//! Clients over a listener, in one thread.
ghost use Rattle.std.specs.Prelude.{◌≡◌, ◌≤◌, ◌+◌, ◌↔◌, ◌≢◌, [], true, length, map, IsOk, IsErrOf};
ghost use Rattle.std.specs.Prelude.{IfErr};
ghost use Rattle.streetmap_connections.specs.Over.{IsDrained};
ghost use Rattle.streetmap_connections.specs.Services.{Serves};
ghost use Rattle.streetmap_connections.specs.Served.{all_refusals, clients_of, ended_of, slots_of};
ghost use Rattle.streetmap_connections.specs.Served.{LetsInUpTo};
ghost use Rattle.streetmap_connections.specs.Slots.{exchanges_in, histories_in, GivesWayAt};
ghost use Rattle.streetmap_connections.specs.Timeline.{Timeline};

use crate::clients::Clients;
use crate::service::Service;
use mio::net::TcpStream;
use mio::{Events, Interest, Poll, Token};
use std::alloc::{AllocError, Global};
use std::io;
use std::io::ErrorKind;
use std::net::{Net, TcpListener};
use std::time::{Clock, Duration, Instant};

/// The most events that one wait returns.
const MOST_EVENTS: usize = 256;

/// A wait ends after this many milliseconds, so that late clients are noticed.
const LONGEST_WAIT: u64 = 1_000;

/// Why serving ended early.
#[derive(Drop, Clone, Copy, PartialEq, Eq)]
pub enum ServeFault {
    /// `net`: no client could be accepted, or the wait for the sockets failed.
    Net,
    /// `memory`: memory ran out before a client was accepted or read.
    Memory,
    /// `over`: the service is over, and the answers that had begun were sent.
    Over,
}

impl From<io::Error> for ServeFault {
    ghost use Rattle.std.specs.IoError.{error_kind};
    ghost use Rattle.std.specs.declared.io.ErrorKind.TheVariants.{OutOfMemory};
    ghost use Rattle.streetmap_connections.specs.declared.serve.ServeFault.TheVariants.{Memory};
    ghost use Rattle.streetmap_connections.specs.declared.serve.ServeFault.TheVariants.{Over};

    ghost from_gives = { λ given fault. ((fault ≡ Memory) ↔ (error_kind given ≡ OutOfMemory))
        × (fault ≢ Over) };

    fn from(e: io::Error) -> ServeFault {
        match e.kind() {
            ErrorKind::OutOfMemory => ServeFault::Memory,
            _ => ServeFault::Net,
        }
    }
}

impl From<AllocError> for ServeFault {
    ghost use Rattle.streetmap_connections.specs.declared.serve.ServeFault.TheVariants.{Memory};

    ghost from_gives = { λ _ fault. fault ≡ Memory };

    fn from(_e: AllocError) -> ServeFault {
        ServeFault::Memory
    }
}

/// The listener, and the poll that waits for it and for the clients' sockets.
#[derive(Drop)]
struct Acceptor {
    poll: Poll,
    listener: mio::net::TcpListener,
    /// The token of the listener; a lower one is the place of a client.
    token: usize,
    /// Whether a client may wait to be accepted.
    pending: bool,
    /// When the service became over, in milliseconds.
    over_since: Option<u64>,
}

/// The result of one call of `accept`.
#[derive(Drop)]
enum Accepted {
    Client(TcpStream),
    /// A client that left, or whose socket could not be registered.
    Lost,
    Nobody,
}

impl Acceptor {
    /// Registers `listener`. Afterwards a call of `accept` on it does not block.
    fn new<R: Net>(rt: &R, listener: &TcpListener, token: usize) -> Result<Acceptor, ServeFault>
        ensures { IfErr result (λ fault. fault ≢ ServeFault.Over) }
    {
        let poll = Poll::new(rt)?;
        let listener = listener.try_clone()?;
        listener.set_nonblocking(true)?;
        let mut listener = mio::net::TcpListener::from_std(listener);
        poll.registry()
            .register(&mut listener, Token(token), Interest::READABLE)?;
        Ok(Acceptor {
            poll,
            listener,
            token,
            pending: true,
            over_since: None,
        })
    }

    /// Waits until a socket is ready, and notes whose it is.
    fn wait(
        &mut self,
        events: &mut Events<Global>,
        clients: &mut Clients<TcpStream>,
        longest: u64,
    ) -> Result<(), ServeFault>
        ensures same { histories_in (slots_of clients.new)
            ≡ histories_in (slots_of clients.old) }
        ensures kept { map exchanges_in (slots_of clients.new)
            ≡ map exchanges_in (slots_of clients.old) }
        ensures unrefused { all_refusals clients.new ≡ all_refusals clients.old }
        ensures fault { IfErr result (λ fault. fault ≢ ServeFault.Over) }
    {
        self.poll
            .poll(events, Some(Duration::from_millis(longest)))?;
        for event in events.iter() {
            let Token(place) = event.token();
            if place == self.token {
                self.pending = true;
            }
            clients.wake(
                place,
                event.is_readable() || event.is_error(),
                event.is_writable() || event.is_error(),
            );
        }
        Ok(())
    }

    /// Lets in the clients that wait, as long as places are free, and up to that number in all.
    fn let_in(
        &mut self,
        count: u64,
        clients: &mut Clients<TcpStream>,
        now: u64,
    ) -> Result<(), ServeFault>
        ensures comes { Timeline (histories_in (slots_of clients.old)) []
            (histories_in (slots_of clients.new)) }
        ensures kept { map exchanges_in (slots_of clients.new)
            ≡ map exchanges_in (slots_of clients.old) }
        ensures unrefused { all_refusals clients.new ≡ all_refusals clients.old }
        ensures few { LetsInUpTo count clients.old clients.new }
        ensures fault { IfErr result (λ fault. fault ≢ ServeFault.Over) }
    {
        for _attempt in 0..self.token {
            if !self.pending || self.over_since.is_some() || clients.begun() >= count {
                return Ok(());
            }
            let Some(place) = clients.place_for_next(now) else {
                return Ok(());
            };
            if !self.let_next_in(clients, place, now)? {
                return Ok(());
            }
        }
        Ok(())
    }

    /// Lets in the next client, at a place. Returns whether another may follow at once.
    fn let_next_in(
        &mut self,
        clients: &mut Clients<TcpStream>,
        place: usize,
        now: u64,
    ) -> Result<bool, ServeFault>
        requires { GivesWayAt clients.old.slots.items place }
        ensures comes { Timeline (histories_in (slots_of clients.old)) []
            (histories_in (slots_of clients.new)) }
        ensures kept { map exchanges_in (slots_of clients.new)
            ≡ map exchanges_in (slots_of clients.old) }
        ensures unrefused { all_refusals clients.new ≡ all_refusals clients.old }
        ensures one { length (clients_of clients.new) ≤ length (clients_of clients.old) + 1 }
        ensures fault { IfErr result (λ fault. fault ≢ ServeFault.Over) }
    {
        match self.accept(place) {
            Ok(Accepted::Client(stream)) => {
                clients.let_in(place, stream, now);
                Ok(true)
            }
            Ok(Accepted::Lost) => Ok(true),
            Ok(Accepted::Nobody) => {
                self.pending = false;
                Ok(false)
            }
            // If no socket is left, one is free after a client has ended.
            Err(_) if clients.ended() < clients.begun() => Ok(false),
            Err(e) => Err(e.into()),
        }
    }

    /// Accepts the next client, under the token of its place.
    fn accept(&self, place: usize) -> io::Result<Accepted> {
        match self.listener.accept() {
            Ok((mut stream, _)) => {
                let _ = stream.set_nodelay(true);
                let both = Interest::READABLE | Interest::WRITABLE;
                let registered = self
                    .poll
                    .registry()
                    .register(&mut stream, Token(place), both);
                match registered {
                    Ok(()) => Ok(Accepted::Client(stream)),
                    Err(_) => Ok(Accepted::Lost),
                }
            }
            Err(e) => match e.kind() {
                ErrorKind::WouldBlock => Ok(Accepted::Nobody),
                ErrorKind::Interrupted | ErrorKind::ConnectionAborted => Ok(Accepted::Lost),
                _ => Err(e),
            },
        }
    }

    /// Lets in the clients that wait, and each client takes its turn. Returns whether one can
    /// continue at once.
    fn round<V: Service>(
        &mut self,
        count: u64,
        clients: &mut Clients<TcpStream>,
        service: &mut V,
        now: u64,
    ) -> Result<bool, ServeFault>
        ensures serves { Serves V.answers V.refuses service.old service.new (slots_of clients.old)
            (slots_of clients.new) }
        ensures few { LetsInUpTo count clients.old clients.new }
        ensures fault { IfErr result (λ fault. fault ≢ ServeFault.Over) }
    {
        self.let_in(count, clients, now)?;
        Ok(clients.work(service, now))
    }

    /// Whether no client waits for the rest of an answer, or one has had its time for it. After
    /// this call nobody is let in.
    fn is_drained(&mut self, clients: &Clients<TcpStream>, now: u64) -> bool
        ensures { result ≡ true → IsDrained now self.new.over_since clients.now }
    {
        let since = self.over_since.unwrap_or(now);
        self.over_since = Some(since);
        !clients.is_busy() || now.saturating_sub(since) > clients.limits.patience
    }

    /// Serves clients until `count` of those let in have ended, or the service is over.
    fn serve<R: Clock, V: Service>(
        &mut self,
        rt: &R,
        count: u64,
        events: &mut Events<Global>,
        clients: &mut Clients<TcpStream>,
        service: &mut V,
    ) -> Result<(), ServeFault>
        ensures serves { Serves V.answers V.refuses service.old service.new (slots_of clients.old)
            (slots_of clients.new) }
        ensures counted { IsOk result → count ≤ length (ended_of clients.new) }
        ensures few { LetsInUpTo count clients.old clients.new }
        ensures over { IsErrOf result ServeFault.Over → V.is_over service.new }
    {
        let start = Instant::now(rt)?;
        let mut goes = true;
        for _round in 0..u64::MAX {
            if clients.ended() >= count {
                return Ok(());
            }
            self.wait(events, clients, if goes { 0 } else { LONGEST_WAIT })?;
            let now = millis(start.elapsed(rt)?);
            if service.is_over() && self.is_drained(clients, now) {
                return Err(ServeFault::Over);
            }
            goes = self.round(count, clients, service, now)?;
        }
        Err(ServeFault::Net)
    }
}

/// Serves clients of a listener, many at once, until `count` of those let in have ended. A client
/// that fails or is late ends alone. If memory for the input of a client runs out, the service
/// refuses it, and its connection closes after that answer.
///
/// Afterwards a call of `accept` on the listener does not block.
///
/// # Errors
///
/// `Net` if no client can be accepted while none is served, or the wait for the sockets fails, and
/// `Memory` if memory runs out for that wait. `Over` after the service is over and the answers that
/// had begun were sent, or a client took longer than its patience for that.
pub fn serve_connections<R: Net + Clock, V: Service>(
    rt: &R,
    listener: &TcpListener,
    count: u64,
    clients: &mut Clients<TcpStream>,
    service: &mut V,
) -> Result<(), ServeFault>
    // One list of exchanges led the service, each answered in the state that the one before left;
    // after any interleaving of the clients' own lists before, it continues as an interleaving of
    // their lists after. The clients of a place were answered in turn, each to its end before the
    // next was answered at all.
    ensures serves { Serves V.answers V.refuses service.old service.new (slots_of clients.old)
        (slots_of clients.new) }
    ensures counted { IsOk result → count ≤ length (ended_of clients.new) }
    // No more are let in.
    ensures few { LetsInUpTo count clients.old clients.new }
    ensures over { IsErrOf result ServeFault.Over → V.is_over service.new }
{
    let mut events = Events::with_capacity(clients.alloc, MOST_EVENTS)?;
    let mut acceptor = Acceptor::new(rt, listener, clients.capacity())?;
    acceptor.serve(rt, count, &mut events, clients, service)
}

fn millis(time: Duration) -> u64 {
    u64::try_from(time.as_millis()).unwrap_or(u64::MAX)
}
