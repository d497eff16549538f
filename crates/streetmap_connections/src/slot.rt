//! A place for one client at a time.
ghost use Rattle.std.specs.Prelude.{◌≡◌, ◌⊎◌, ◌<◌, ◌≤◌, ℕ, [], ◌∷◌, ◌++◌, Some, None, length, map};
ghost use Rattle.std.specs.Prelude.{All};
ghost use Rattle.std.specs.Bool.{OnTrue, OnFalse};

use crate::client::{Client, Work};
use crate::limits::MOST_INPUT;
use crate::service::Service;
use crate::stream::Stream;
use http_server::Log;

/// A client, and those that had its place before.
#[derive(Drop)]
pub(crate) struct Slot<S> {
    pub(crate) client: Option<Client<S>>,
    /// Those that ended, and when.
    pub(crate) past: Log<Client<S>, u64>,
}

impl<S: Stream + Drop> Slot<S> {
    ghost use Rattle.streetmap_connections.specs.Clients.{HasLeft, IsLate, IsQuiet};
    ghost use Rattle.streetmap_connections.specs.Slots.{clients_in, past_of, present, refusals_in};
    ghost use Rattle.streetmap_connections.specs.Slots.{client_history, woken_in};
    ghost use Rattle.streetmap_connections.specs.Slots.{GivesWay, IdlesFor, IsTaken};
    ghost use Rattle.streetmap_connections.specs.Services.{TakesTurn};

    pub(crate) fn vacant() -> Slot<S>
        ensures none { clients_in result ≡ [] }
        ensures none_ended { past_of result ≡ [] }
    {
        Slot {
            client: None,
            past: Log::new(),
        }
    }

    pub(crate) fn is_free(&self) -> bool
        ensures free { OnTrue result (self.now.client ≡ None) }
        ensures taken { OnFalse result (IsTaken self.now) }
        ensures gives_way { OnTrue result (GivesWay self.now) }
    {
        self.client.is_none()
    }

    /// Whether its client is busy (`Client::is_busy`).
    pub(crate) fn is_busy(&self) -> bool
        ensures { OnFalse result (All IsQuiet (present self.now.client)) }
    {
        match &self.client {
            Some(client) => client.is_busy(),
            None => false,
        }
    }

    /// How many clients it has: one or none.
    pub(crate) fn count(&self) -> u64
        ensures { result ≡ length (present self.now.client) }
    {
        if self.is_free() { 0 } else { 1 }
    }

    /// The milliseconds for which the client has been idle; 0 if it is not, or if the slot has no
    /// client.
    pub(crate) fn idle_for(&self, now: u64) -> u64
        ensures gives_way { 0 < result → GivesWay self.now }
        ensures idle { 0 < result → IdlesFor now self.now result }
        ensures most { (n : ℕ) → IdlesFor now self.now n → n ≤ result }
    {
        match &self.client {
            Some(client) if client.is_idle() => now.saturating_sub(client.since()),
            _ => 0,
        }
    }

    /// The bytes of the client's input that wait for an answer.
    pub(crate) fn waiting(&self) -> usize {
        match &self.client {
            Some(client) => client.waiting(),
            None => 0,
        }
    }

    /// Notes that the client's stream became ready.
    pub(crate) fn wake(&mut self, readable: bool, writable: bool)
        ensures same { map client_history (clients_in self.new)
            ≡ map client_history (clients_in self.old) }
        ensures unrefused { refusals_in self.new ≡ refusals_in self.old }
        ensures past { past_of self.new ≡ past_of self.old }
        ensures woken { self.new ≡ woken_in readable writable self.old }
    {
        if let Some(client) = &mut self.client {
            client.wake(readable, writable);
        }
    }

    /// Ends the client, if any.
    pub(crate) fn end(&mut self, now: u64)
        ensures same { clients_in self.new ≡ clients_in self.old }
        ensures past { past_of self.new ≡ past_of self.old ++ present self.old.client }
        ensures free { self.new.client ≡ None }
    {
        if let Some(client) = &self.client {
            self.past = self.past.and(client, &now);
        }
        self.client = None;
    }

    /// Lets a client in, and ends the client at this place, if any.
    pub(crate) fn let_in(&mut self, client: Client<S>, now: u64)
        ensures one_more { clients_in self.new ≡ clients_in self.old ++ client ∷ [] }
        ensures past { past_of self.new ≡ past_of self.old ++ present self.old.client }
        ensures here { self.new.client ≡ Some client }
    {
        self.end(now);
        self.client = Some(client);
    }

    /// The client takes its turn, and is ended if it is late.
    pub(crate) fn take_turn<V: Service>(
        &mut self,
        service: &mut V,
        now: u64,
        patience: u64,
        most_input: usize,
    ) -> Work
        requires { most_input ≤ MOST_INPUT }
        ensures turn { TakesTurn S.remaining S.contents V.answers V.refuses service.old service.new
            (clients_in self.old) (clients_in self.new) }
        ensures past { past_of self.new ≡ past_of self.old }
        ensures stays { self.new.client ≡ None → self.old.client ≡ None }
        ensures ends { result ≡ Work.Ends → IsTaken self.new }
        ensures left { result ≡ Work.Ends
            → All (λ c. IsLate now patience c) (present self.old.client)
            ⊎ All (λ c. HasLeft S.is_gone c) (present self.new.client) }
        ensures late { All (λ c. IsLate now patience c → (result ≡ Work.Ends)
            × (self.new ≡ self.old) × (service.new ≡ service.old)) (present self.old.client) }
    {
        match &mut self.client {
            None => Work::Rests,
            Some(client) => {
                if client.is_late(now, patience) {
                    Work::Ends
                } else {
                    client.work(service, now, most_input)
                }
            }
        }
    }
}
