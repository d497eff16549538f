//! A keeper as the service of many clients.
ghost use Rattle.std.specs.Prelude.{◌≡◌, ◌≤◌, length, take};
ghost use Rattle.streetmap_connections.specs.Cuts.{IfWhole, IfWaits, HasNone, HasNoneBefore};
ghost use Rattle.streetmap_http.specs.Arrivals.{IsAnswered};
ghost use Rattle.streetmap_web.specs.Site.{site_value};
ghost use Rattle.streetmap_web.specs.Response.{sent_so};
ghost use Rattle.streetmap_web.specs.AnsweredRequests.{AnswersOne};
ghost use Rattle.streetmap_web.specs.Refusals.{IsFrontBare, IsRefusal};
ghost use Rattle.streetmap_web.specs.StoreWatch.{IsOver};

use crate::answer::fixed;
use crate::log::log_request;
use crate::requests::answer_request;
use crate::site::Site;
use crate::watch::Watch;
use httparse::spans::EMPTY_HEADER_SPAN;
use std::alloc::Global;
use std::io::Write;
use streetmap_connections::{Answer, Cut, Service};
use streetmap_http::{Arrival, FIELD_LIMIT, Framed, HeadScan, arrival_of, frame_of, is_bare};
use streetmap_ledger::Fault;
use streetmap_tags::Tagged;

/// A keeper, what its service is on the web, the writer of a line for each answer, if any,
/// and what is done once the keeper's store has failed.
#[derive(Drop)]
pub struct KeeperService<K, W> {
    pub alloc: Global,
    pub keeper: K,
    pub site: Site,
    pub log: Option<W>,
    pub watch: Watch<W>,
}

/// Where the first request of some bytes ends.
fn cut_of(input: &[u8]) -> Cut
    ensures fits { IfWhole result (λ len. len ≤ length input.now) }
    ensures request { IfWhole result (λ len. IsAnswered (take len input.now)) }
    ensures none { IfWaits result (λ needs. HasNone IsAnswered input.now) }
    ensures not_before { IfWaits result (λ needs. HasNoneBefore IsAnswered input.now needs) }
{
    match arrival_of(input) {
        Arrival::Request(len) => Cut::Whole(len),
        Arrival::Head => Cut::Waits(input.len().saturating_add(1)),
        Arrival::Body(missing) => Cut::Waits(input.len().saturating_add(missing)),
    }
}

/// Whether the answer to a request has no body, given the bytes received of it.
fn is_front_bare(input: &[u8]) -> bool
    ensures { IsFrontBare input.now result }
{
    let Some(len) = HeadScan::new().find_head(input) else {
        return false;
    };
    let mut headers = [EMPTY_HEADER_SPAN; FIELD_LIMIT];
    match frame_of(&input[..len], &mut headers) {
        Framed::Broken(bare, _) => bare,
        Framed::Request(head) => is_bare(head.method),
    }
}

impl<K: Tagged, W: Write> Service for KeeperService<K, W> {
    ghost is_request = { IsAnswered };

    ghost answers = { λ old request text closes new. (new.site ≡ old.site)
        × AnswersOne K.model (site_value old.site) old.keeper request (sent_so text closes)
        new.keeper };

    ghost refuses = { IsRefusal };

    ghost is_over = { λ k. IsOver k.watch };

    fn cut(&self, input: &[u8]) -> Cut {
        cut_of(input)
    }

    fn answer(&mut self, request: &[u8]) -> (Answer, bool) {
        let (answer, closes) = answer_request(self.alloc, &mut self.keeper, &self.site, request);
        log_request(self.alloc, &mut self.log, request, &answer);
        self.watch.note(&answer);
        (answer, closes)
    }

    fn refuse(&self, input: &[u8]) -> Answer {
        fixed(Fault::Memory, is_front_bare(input))
    }

    fn is_over(&self) -> bool {
        self.watch.is_over()
    }
}
