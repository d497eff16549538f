//! The clients of a server.
ghost use Rattle.std.specs.Prelude.{◌≡◌, ◌⊎◌, ◌+◌, [], Some, map, flat_map, length, vec_len};
ghost use Rattle.std.specs.Bool.{OnFalse};
ghost use Rattle.std.specs.Prelude.{slice_get, All, IfOk, IfSome, IfNone};
ghost use Rattle.std.specs.List.{AllZip};
ghost use Rattle.streetmap_connections.specs.Counts.{count_of, CountsOn};
ghost use Rattle.streetmap_connections.specs.Slots.{clients_in, past_of, ended_in, EndsLate};
ghost use Rattle.streetmap_connections.specs.Slots.{EndsOnly};

use crate::client::{Client, Work};
use crate::limits::Limits;
use crate::service::Service;
use crate::slot::Slot;
use crate::stream::Stream;
use std::alloc::{AllocError, Global};

/// The clients that are served at once, each in a place of its own.
#[derive(Drop)]
pub struct Clients<S> {
    pub(crate) alloc: Global,
    pub(crate) slots: Vec<Slot<S>>,
    pub(crate) limits: Limits,
    /// How many were let in, and how many have ended.
    pub(crate) begun: u64,
    pub(crate) ended: u64,
    ghost counts_begun: { begun ≡ count_of (flat_map clients_in slots.items) },
    ghost counts_ended: { ended ≡ count_of (ended_in slots.items) },
}

/// One turn of each client.
#[derive(Drop)]
struct Round {
    limits: Limits,
    now: u64,
    /// The bytes of input that wait for an answer, over all clients.
    waiting: usize,
    ended: u64,
    goes: bool,
}

impl Round {
    ghost use Rattle.streetmap_connections.specs.Services.{EachMoves, Serves, TakesTurn};

    /// The client of the slot takes its turn, and leaves if it is over.
    fn give_turn<S: Stream + Drop, V: Service>(&mut self, slot: &mut Slot<S>, service: &mut V)
        ensures turn { TakesTurn S.remaining S.contents V.answers V.refuses service.old service.new
            (clients_in slot.old) (clients_in slot.new) }
        ensures late { EndsLate self.old.now self.old.limits.patience slot.old slot.new }
        ensures ends { EndsOnly self.old.now self.old.limits.patience S.is_gone slot.old slot.new }
        ensures counted { CountsOn self.old.ended self.new.ended (past_of slot.old)
            (past_of slot.new) }
        ensures same { (self.new.now ≡ self.old.now) × (self.new.limits ≡ self.old.limits) }
    {
        let others = self.waiting.saturating_sub(slot.waiting());
        let most_input = self.limits.most_input(others);
        match slot.take_turn(service, self.now, self.limits.patience, most_input) {
            Work::Rests => {}
            Work::Goes => self.goes = true,
            Work::Ends => {
                slot.end(self.now);
                self.ended = self.ended.saturating_add(1);
                self.goes = true;
            }
        }
        self.waiting = others.saturating_add(slot.waiting());
    }

    /// The client of each slot takes its turn.
    fn give_turns<S: Stream + Drop, V: Service>(&mut self, slots: &mut [Slot<S>], service: &mut V)
        ensures serves { Serves V.answers V.refuses service.old service.new slots.old slots.new }
        ensures moves { EachMoves S.remaining S.contents (flat_map clients_in slots.old)
            (flat_map clients_in slots.new) }
        ensures late { AllZip (EndsLate self.old.now self.old.limits.patience) slots.old slots.new }
        ensures ends { AllZip (EndsOnly self.old.now self.old.limits.patience S.is_gone)
            slots.old slots.new }
        ensures counted { CountsOn self.old.ended self.new.ended (ended_in slots.old)
            (ended_in slots.new) }
    {
        for slot in slots.iter_mut() {
            self.give_turn(slot, service);
        }
    }
}

impl<S: Stream + Drop> Clients<S> {
    ghost use Rattle.streetmap_connections.specs.Services.{EachMoves, Serves};
    ghost use Rattle.streetmap_connections.specs.Served.{all_refusals, clients_of, ended_of};
    ghost use Rattle.streetmap_connections.specs.Served.{slots_of};
    ghost use Rattle.streetmap_connections.specs.Slots.{exchanges_in, histories_in, woken_in};
    ghost use Rattle.streetmap_connections.specs.Slots.{CameAt, GivesWayAt};
    ghost use Rattle.streetmap_connections.specs.Slots.{IsFreeAt, IsLongestIdleAt, IsTaken};
    ghost use Rattle.streetmap_connections.specs.Slots.{AreQuiet, NoneIdlesBeyond};
    ghost use Rattle.streetmap_connections.specs.Timeline.{Timeline};
    ghost use Rattle.streetmap_connections.specs.declared.slot.Slot.{Slot};

    /// No client, and room for as many as the limits allow.
    pub fn new(alloc: Global, limits: Limits) -> Result<Clients<S>, AllocError>
        ensures none { IfOk result (λ clients. clients_of clients ≡ []) }
        ensures room { IfOk result (λ clients. (vec_len clients.slots ≡ limits.clients)
            × (clients.limits ≡ limits)) }
    {
        let mut slots = Vec::with_capacity(alloc, limits.clients)?;
        for _place in 0..limits.clients {
            slots.push(Slot::vacant())?;
        }
        Ok(Clients {
            alloc,
            slots,
            limits,
            begun: 0,
            ended: 0,
        })
    }

    /// How many are served at once.
    pub fn capacity(&self) -> usize
        ensures { result ≡ vec_len self.now.slots }
    {
        self.slots.len()
    }

    /// How many were let in.
    pub fn begun(&self) -> u64
        ensures { result ≡ count_of (clients_of self.now) }
    {
        self.begun
    }

    /// How many of them ended.
    pub fn ended(&self) -> u64
        ensures { result ≡ count_of (ended_of self.now) }
    {
        self.ended
    }

    /// The place for the next client: one that is free, or that of the client that has been idle
    /// the longest, if it was idle for longer than the limits require.
    pub(crate) fn place_for_next(&self, now: u64) -> Option<usize>
        ensures gives_way { IfSome result (λ place. GivesWayAt self.now.slots.items place) }
        ensures free_first { IfSome result (λ place. IsFreeAt self.now.slots.items place
            ⊎ All IsTaken self.now.slots.items) }
        ensures longest { IfSome result (λ place. IsFreeAt self.now.slots.items place
            ⊎ IsLongestIdleAt now self.now.slots.items place) }
        ensures full { IfNone result (All IsTaken self.now.slots.items) }
        ensures none_idle { IfNone result
            (NoneIdlesBeyond now self.now.limits.least_idle self.now.slots.items) }
    {
        match self.first_free() {
            Some(place) => Some(place),
            None => self.longest_idle(now),
        }
    }

    /// The first place without a client.
    fn first_free(&self) -> Option<usize>
        ensures gives_way { IfSome result (λ place. GivesWayAt self.now.slots.items place) }
        ensures free { IfSome result (λ place. IsFreeAt self.now.slots.items place) }
        ensures full { IfNone result (All IsTaken self.now.slots.items) }
    {
        let slots = self.slots.as_slice();
        for (place, slot) in slots.iter().enumerate() {
            if slot.is_free() {
                return Some(place);
            }
        }
        None
    }

    /// The place of the client that has been idle the longest, if that is long enough.
    fn longest_idle(&self, now: u64) -> Option<usize>
        ensures gives_way { IfSome result (λ place. GivesWayAt self.now.slots.items place) }
        ensures longest { IfSome result (λ place. IsLongestIdleAt now self.now.slots.items place) }
        ensures none_idle { IfNone result
            (NoneIdlesBeyond now self.now.limits.least_idle self.now.slots.items) }
    {
        let slots = self.slots.as_slice();
        let mut found = None;
        let mut longest = self.limits.least_idle;
        for (place, slot) in slots.iter().enumerate() {
            let idle = slot.idle_for(now);
            if idle > longest {
                longest = idle;
                found = Some(place);
            }
        }
        found
    }

    /// Lets a client in at a place that gives way: the client at that place ends.
    pub(crate) fn let_in(&mut self, place: usize, stream: S, now: u64)
        requires { GivesWayAt self.old.slots.items place }
        ensures comes { Timeline (histories_in (slots_of self.old)) []
            (histories_in (slots_of self.new)) }
        ensures kept { map exchanges_in (slots_of self.new)
            ≡ map exchanges_in (slots_of self.old) }
        ensures unrefused { all_refusals self.new ≡ all_refusals self.old }
        ensures one_more { length (clients_of self.new) ≡ length (clients_of self.old) + 1 }
        ensures here { CameAt now self.new.slots.items place }
    {
        let client = Client::new(self.alloc, stream, now);
        let slot = &mut self.slots[place];
        self.ended = self.ended.saturating_add(slot.count());
        slot.let_in(client, now);
        self.begun = self.begun.saturating_add(1);
    }

    /// Notes that the stream of the client at a place became ready.
    pub(crate) fn wake(&mut self, place: usize, readable: bool, writable: bool)
        ensures same { histories_in (slots_of self.new) ≡ histories_in (slots_of self.old) }
        ensures kept { map exchanges_in (slots_of self.new)
            ≡ map exchanges_in (slots_of self.old) }
        ensures unrefused { all_refusals self.new ≡ all_refusals self.old }
        ensures woken { (s : Slot S) → slice_get self.old.slots.items place ≡ Some s
            → slice_get self.new.slots.items place ≡ Some (woken_in readable writable s) }
    {
        if place < self.slots.len() {
            self.slots[place].wake(readable, writable);
        }
    }

    /// Whether a client is busy (`Client::is_busy`).
    pub(crate) fn is_busy(&self) -> bool
        ensures { OnFalse result (All AreQuiet self.now.slots.items) }
    {
        let slots = self.slots.as_slice();
        for slot in slots {
            if slot.is_busy() {
                return true;
            }
        }
        false
    }

    /// The bytes of input that wait for an answer, over all clients.
    fn waiting(&self) -> usize {
        let mut waiting: usize = 0;
        for slot in self.slots.iter() {
            waiting = waiting.saturating_add(slot.waiting());
        }
        waiting
    }

    /// Each client takes its turn, and those that are late, or over, leave. Returns whether one can
    /// continue at once.
    pub(crate) fn work<V: Service>(&mut self, service: &mut V, now: u64) -> bool
        ensures serves { Serves V.answers V.refuses service.old service.new (slots_of self.old)
            (slots_of self.new) }
        ensures moves { EachMoves S.remaining S.contents (clients_of self.old)
            (clients_of self.new) }
        ensures late { AllZip (EndsLate now self.old.limits.patience) self.old.slots.items
            self.new.slots.items }
        ensures ends { AllZip (EndsOnly now self.old.limits.patience S.is_gone)
            self.old.slots.items self.new.slots.items }
    {
        let mut round = Round {
            limits: self.limits,
            now,
            waiting: self.waiting(),
            ended: 0,
            goes: false,
        };
        round.give_turns(self.slots.as_mut_slice(), service);
        self.ended = self.ended.saturating_add(round.ended);
        round.goes
    }
}
