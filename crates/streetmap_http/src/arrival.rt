//! What received bytes hold of a request, for an edge that reads many connections.
ghost use Rattle.std.specs.Prelude.{◌≡◌, ◌≤◌, ℕ, List, IfSome, IfNone, length, take};
ghost use Rattle.streetmap_http.specs.Head.{IsHead, HasNoHead};
ghost use Rattle.streetmap_http.specs.Arrivals.{HasScanned, HoldsOf, IsAnswered, SplitsAs};
ghost use Rattle.streetmap_http.specs.FramingView.{framing_value};
ghost use Rattle.streetmap_http.specs.declared.arrival.Arrival.{Arrival};

use crate::fault::FramingFault;
use crate::framing::{Framed, frame_of};
use crate::head::{HeadProgress, next_progress};
use crate::limits::{FIELD_LIMIT, HEAD_LIMIT};
use httparse::spans::{EMPTY_HEADER_SPAN, HeaderSpan};

/// What received bytes hold of a request.
#[derive(Clone, Copy, PartialEq, Eq)]
pub enum Arrival {
    /// The first N bytes are answered as one: they are a whole request, or break a rule of framing
    /// (the head alone, or `HEAD_LIMIT` bytes in which no head ends).
    Request(usize),
    /// They are the start of a head, or nothing.
    Head,
    /// The head is whole, and N bytes of the body are missing.
    Body(usize),
}

/// How far bytes were scanned for the end of a head, so that none is scanned again when more arrive
/// after them. Once a request was taken off their front, a new scan begins.
#[derive(Clone, Copy, PartialEq, Eq)]
pub struct HeadScan {
    scanned: usize,
    progress: HeadProgress,
}

impl HeadScan {
    /// No byte is scanned yet.
    pub fn new() -> HeadScan
        ensures { (bytes : List ℕ) → HasScanned result bytes }
    {
        HeadScan {
            scanned: 0,
            progress: HeadProgress::Blank,
        }
    }

    /// How many bytes at the front are a head, or `None` if no head ends in them or within
    /// `HEAD_LIMIT` bytes.
    pub fn find_head(&mut self, bytes: &[u8]) -> Option<usize>
        requires { HasScanned self.old bytes.now }
        ensures scanned { HasScanned self.new bytes.now }
        ensures found { IfSome result (λ len. (len ≤ length bytes.now)
            × IsHead (take len bytes.now)) }
        ensures none { IfNone result (HasNoHead (take HEAD_LIMIT bytes.now)) }
    {
        let end = bytes.len().min(HEAD_LIMIT);
        for at in self.scanned..end {
            let progress = next_progress(self.progress, bytes[at]);
            if progress == HeadProgress::Done {
                return Some(at + 1);
            }
            self.progress = progress;
            self.scanned = at + 1;
        }
        None
    }
}

/// What bytes hold of a request whose head is this number of bytes at their front.
fn arrival_past_head(bytes: &[u8], head: usize) -> Arrival
    requires within { head ≤ length bytes.now }
    requires cut { IsHead (take head bytes.now) }
    ensures { HoldsOf result bytes.now }
{
    let mut headers = [EMPTY_HEADER_SPAN; FIELD_LIMIT];
    match frame_of(&bytes[..head], &mut headers) {
        Framed::Broken(_, _) => Arrival::Request(head),
        Framed::Request(request) => {
            let came = bytes.len() - head;
            if came < request.len {
                Arrival::Body(request.len - came)
            } else {
                Arrival::Request(head + request.len)
            }
        }
    }
}

/// What bytes hold of a request, given how many bytes at their front are a head.
fn arrival_by(bytes: &[u8], head: Option<usize>) -> Arrival
    requires found { IfSome head (λ len. (len ≤ length bytes.now)
        × IsHead (take len bytes.now)) }
    requires none { IfNone head (HasNoHead (take HEAD_LIMIT bytes.now)) }
    ensures { HoldsOf result bytes.now }
{
    match head {
        Some(len) => arrival_past_head(bytes, len),
        None => {
            if bytes.len() < HEAD_LIMIT {
                Arrival::Head
            } else {
                Arrival::Request(HEAD_LIMIT)
            }
        }
    }
}

/// What bytes hold of a request, if their front was scanned before. While bytes of the body are
/// missing, each call reads the head again, so it is best called when that many have arrived.
pub fn arrival_after(scan: &mut HeadScan, bytes: &[u8]) -> Arrival
    requires { HasScanned scan.old bytes.now }
    ensures holds { HoldsOf result bytes.now }
    ensures only { (other : Arrival) → HoldsOf other bytes.now → other ≡ result }
    ensures scanned { HasScanned scan.new bytes.now }
{
    let head = scan.find_head(bytes);
    arrival_by(bytes, head)
}

/// What bytes hold of a request; no other `Arrival` is true of them.
pub fn arrival_of(bytes: &[u8]) -> Arrival
    ensures holds { HoldsOf result bytes.now }
    ensures only { (other : Arrival) → HoldsOf other bytes.now → other ≡ result }
{
    arrival_after(&mut HeadScan::new(), bytes)
}

/// What the bytes of one request say, as `arrival_of` finds them, and its body (nothing if they
/// break a rule of framing). The spans are working memory, as for `frame_of`.
pub fn split_request<'a>(bytes: &'a [u8], headers: &'a mut [HeaderSpan]) -> (Framed<'a>, &'a [u8])
    requires room { length headers.old ≡ FIELD_LIMIT }
    requires answered { IsAnswered bytes.now }
    ensures { SplitsAs (framing_value result.0) result.1.now bytes.now }
{
    match HeadScan::new().find_head(bytes) {
        Some(head) => (frame_of(&bytes[..head], headers), &bytes[head..]),
        None => (Framed::Broken(false, FramingFault::HeadTooLarge), &[]),
    }
}
