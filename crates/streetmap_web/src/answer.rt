//! Answers to requests, over any keeper.
ghost use Rattle.std.specs.Prelude.{◌≡◌, ◌≤◌, ◌||◌, ◌==◌, [], true, IfOk};
ghost use Rattle.std.specs.Prelude.{string_bytes, string_len, string_capacity};
ghost use Rattle.streetmap_connections.specs.Answers.{answer_text};
ghost use Rattle.streetmap_http.specs.AnswerHead.{head_text};
ghost use Rattle.streetmap_routes.specs.BaseView.{root_of};
ghost use Rattle.streetmap_http.specs.FramingView.{head_value};
ghost use Rattle.streetmap_web.specs.Site.{site_value};
ghost use Rattle.streetmap_web.specs.Response.{response_text, head_of, fault_response};
ghost use Rattle.streetmap_web.specs.Response.{request_of, sent_so, body_of};
ghost use Rattle.streetmap_web.specs.Responds.{response_value, Sends, Answers, RefusesBy};
ghost use Rattle.streetmap_bodies.specs.declared.request_fault.RequestFault.TheVariants.{Framing};
ghost use Rattle.streetmap_bodies.specs.declared.request_fault.RequestFault.TheVariants as faults;

use crate::guard::guarded;
use crate::respond::faulty;
use crate::response::Response;
use crate::site::Site;
use crate::wanted::{respond, wanted_of};
use http::StatusCode;
use std::alloc::{AllocError, Global};
use streetmap_bodies::RequestFault;
use streetmap_connections::Answer;
use streetmap_http::{AnswerHead, FramingFault, RequestHead, is_bare, push_head};
use streetmap_ledger::Fault;
use streetmap_tags::Tagged;

/// The room that is allocated for the head of an answer.
const HEAD_ROOM: usize = 288;

/// The body that is sent: none if the answer is bare.
fn sent_body(body: String, bare: bool) -> String
    ensures { string_bytes result ≡ body_of bare (string_bytes body) }
{
    let mut body = body;
    if bare {
        body.clear();
    }
    body
}

/// Puts the head before a body, in room that was allocated before.
fn finish(room: String, response: Response, closes: bool, bare: bool) -> Answer
    requires room { 288 ≤ string_capacity room }
    requires blank { string_bytes room ≡ [] }
    requires blank_len { string_len room ≡ 0 }
    ensures { answer_text result ≡ response_text closes bare (response_value response) }
{
    let mut head = room;
    let Response {
        status,
        kind,
        tag,
        serial,
        allow,
        body,
    } = response;
    push_head(
        &mut head,
        AnswerHead {
            status,
            kind,
            len: body.len() as u64,
            tag,
            serial,
            allow,
            closes,
        },
    );
    Answer::Made(head, sent_body(body, bare))
}

/// The head of the answer with a keeper's fault.
pub(crate) fn fixed_head(fault: Fault) -> &'static str
    ensures { result.now ≡ head_text (head_of true (fault_response (faults.Keeper fault))) }
{
    match fault {
        Fault::Memory =>
            "HTTP/1.1 503 Service Unavailable\r\nContent-Type: application/json\r\nContent-Length: 81\r\nConnection: close\r\n\r\n",
        Fault::Device =>
            "HTTP/1.1 500 Internal Server Error\r\nContent-Type: application/json\r\nContent-Length: 76\r\nConnection: close\r\n\r\n",
        Fault::Damaged =>
            "HTTP/1.1 500 Internal Server Error\r\nContent-Type: application/json\r\nContent-Length: 77\r\nConnection: close\r\n\r\n",
        Fault::Reopen =>
            "HTTP/1.1 500 Internal Server Error\r\nContent-Type: application/json\r\nContent-Length: 77\r\nConnection: close\r\n\r\n",
    }
}

/// The body of the answer with a keeper's fault.
fn fixed_body(fault: Fault) -> &'static str
    ensures { result.now ≡ (fault_response (faults.Keeper fault)).body }
{
    match fault {
        Fault::Memory =>
            "{\"code\":\"memory\",\"description\":\"Memory was refused; the call may be made again.\"}",
        Fault::Device =>
            "{\"code\":\"device\",\"description\":\"The store failed and must be opened again.\"}",
        Fault::Damaged =>
            "{\"code\":\"damaged\",\"description\":\"The store holds a row that cannot be read.\"}",
        Fault::Reopen =>
            "{\"code\":\"reopen\",\"description\":\"The store is shut and must be opened again.\"}",
    }
}

/// The answer with a keeper's fault. It allocates no memory.
#[tactic(auto, unfolding(crate::specs::Response::response_text))]
pub(crate) fn fixed(fault: Fault, bare: bool) -> Answer
    ensures { answer_text result
        ≡ response_text true bare (fault_response (faults.Keeper fault)) }
{
    let body = if bare { "" } else { fixed_body(fault) };
    Answer::Fixed(fixed_head(fault), body)
}

/// Whether a status closes the connection.
fn is_closing(status: StatusCode) -> bool
    ensures { result ≡ (status == 500 || status == 503) }
{
    status.as_u16() == 500 || status.as_u16() == 503
}

/// Whether the connection closes after an answer, by what the request wants and by the status.
fn closes(requested: bool, status: StatusCode) -> bool
    ensures { result ≡ (requested || (status == 500 || status == 503)) }
{
    requested || is_closing(status)
}

/// Answers a request, unless a fault prevents it.
fn try_answer<K: Tagged>(
    alloc: Global,
    keeper: &mut K,
    site: &Site,
    request: RequestHead,
    body: &[u8],
) -> Result<(Answer, bool), Fault>
    ensures { Sends K.model (root_of site.now.base)
        (request_of (site_value site.now) (head_value request.entry) body.now)
        keeper.old keeper.new result }
{
    let Ok(room) = String::with_capacity(alloc, HEAD_ROOM) else {
        return Err(Fault::Memory);
    };
    let base = &site.base;
    let (method, target) = (request.method, request.target);
    let Ok(operation) = base.operation(alloc, site.offers, method, target, body) else {
        return Err(Fault::Memory);
    };
    let operation = guarded(&site.guard, request.token, operation);
    let numbered = site.offers.status;
    let wanted = wanted_of(site.tags, numbered, request.preconditions, operation);
    match respond(alloc, keeper, base.root(), &wanted) {
        Ok(response) => {
            let closing = closes(request.closes, response.status);
            let bare = is_bare(request.method);
            Ok((finish(room, response, closing, bare), closing))
        }
        Err(fault) => Err(fault),
    }
}

/// Answers a request. Returns the bytes, and whether the connection closes.
pub(crate) fn answer_to<K: Tagged>(
    alloc: Global,
    keeper: &mut K,
    site: &Site,
    request: RequestHead,
    body: &[u8],
) -> (Answer, bool)
    ensures { Answers K.model (site_value site.now)
        (request_of (site_value site.now) (head_value request.entry) body.now)
        (sent_so (answer_text result.0) result.1) keeper.old keeper.new }
{
    match try_answer(alloc, keeper, site, request, body) {
        Ok(answer) => answer,
        Err(fault) => (fixed(fault, is_bare(request.method)), true),
    }
}

/// The answer to a request that breaks a rule of framing, unless memory runs out for it.
fn framing_answer(alloc: Global, fault: FramingFault, bare: bool) -> Result<Answer, AllocError>
    ensures { IfOk result (λ a. answer_text a ≡
        response_text true bare (fault_response (Framing fault))) }
{
    let room = String::with_capacity(alloc, HEAD_ROOM)?;
    let response = faulty(alloc, RequestFault::Framing(fault))?;
    Ok(finish(room, response, true, bare))
}

/// The answer to a request that breaks a rule of framing. The connection closes after it.
pub(crate) fn refused(alloc: Global, fault: FramingFault, bare: bool) -> Answer
    ensures { RefusesBy (answer_text result) bare fault }
{
    match framing_answer(alloc, fault, bare) {
        Ok(answer) => answer,
        Err(_) => fixed(Fault::Memory, bare),
    }
}
