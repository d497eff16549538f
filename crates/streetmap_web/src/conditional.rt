//! The answer to a request by a verdict on the tag of the state (RFC 9110, section 13).
ghost use Rattle.std.specs.Prelude.{◌≡◌, true, false, IfOk};
ghost use Rattle.streetmap_batch.specs.Text.{Text};
ghost use Rattle.streetmap_batch.specs.BatchView.{batch_value};
ghost use Rattle.streetmap_routes.specs.Operations as routes;
ghost use Rattle.streetmap_routes.specs.OperationView.{operation_value};
ghost use Rattle.streetmap_web.specs.Response as spec;
ghost use Rattle.streetmap_web.specs.Response.{plainly};
ghost use Rattle.streetmap_web.specs.Judging as judging;
ghost use Rattle.streetmap_web.specs.Judging.{RespondsBy};
ghost use Rattle.streetmap_web.specs.Responds.{response_value, IsResponse, Responds};
ghost use Rattle.streetmap_web.specs.declared.verdict.Verdict.TheVariants as verdicts;

use crate::respond::{
    BODY_ROOM, faulty, or_starved, replied, respond_changes, respond_collection, respond_to,
};
use crate::response::Response;
use crate::verdict::Verdict;
use http::StatusCode;
use std::alloc::{AllocError, Global};
use streetmap_batch::Batch;
use streetmap_bodies::RequestFault;
use streetmap_http::MediaType;
use streetmap_ledger::{Fault, Keeper, Reply};
use streetmap_routes::Operation;
use streetmap_tags::Tagged;

/// The response with a tag, if its status is 200.
fn tagged(tag: u64, response: Response) -> Response
    ensures { response_value result ≡ spec.tagged tag (response_value response) }
{
    if response.status.as_u16() != 200 {
        return response;
    }
    let Response {
        status,
        kind,
        tag: _,
        serial,
        allow,
        body,
    } = response;
    Response {
        status,
        kind,
        tag: Some(tag),
        serial,
        allow,
        body,
    }
}

/// The tag after a batch, from the one before.
fn tag_after(tag: u64, reply: Reply) -> u64
    ensures { result ≡ judging.tag_after tag reply }
{
    match reply {
        Reply::Accepted(_, serial) => serial,
        Reply::Repeated(_, _) | Reply::Refused(_, _) => tag,
    }
}

/// Applies a batch, whose answer has the tag of the state after it.
fn apply_tagged<K: Keeper>(
    alloc: Global,
    keeper: &mut K,
    batch: &Batch,
    tag: u64,
) -> Result<Response, Fault>
    ensures { (root : Text) → RespondsBy K.model root (routes.batch (batch_value batch.now))
        verdicts.Holds tag IsResponse keeper.old keeper.new result }
{
    let Ok(body) = String::with_capacity(alloc, BODY_ROOM) else {
        return Err(Fault::Memory);
    };
    match keeper.apply(batch) {
        Ok(reply) => Ok(tagged(tag_after(tag, reply), replied(body, batch, reply))),
        Err(fault) => Err(fault),
    }
}

/// Answers a batch whose conditions do not hold: it is not acted on, but one whose key is used is
/// answered as ever, since it changes nothing.
fn hold_back<K: Tagged>(
    alloc: Global,
    keeper: &mut K,
    batch: &Batch,
    tag: u64,
) -> Result<Response, Fault>
    ensures { (root : Text) → RespondsBy K.model root (routes.batch (batch_value batch.now))
        verdicts.Changed tag IsResponse keeper.old keeper.new result }
{
    match keeper.has_key(batch.key()) {
        Ok(used) => {
            if used {
                apply_tagged(alloc, keeper, batch, tag)
            } else {
                or_starved(faulty(alloc, RequestFault::Changed))
            }
        }
        Err(fault) => Err(fault),
    }
}

/// Answers a batch by a verdict.
fn judge_batch<K: Tagged>(
    alloc: Global,
    keeper: &mut K,
    verdict: Verdict,
    tag: u64,
    batch: &Batch,
) -> Result<Response, Fault>
    ensures { (root : Text) → RespondsBy K.model root (routes.batch (batch_value batch.now))
        verdict tag IsResponse keeper.old keeper.new result }
{
    match verdict {
        Verdict::Holds => apply_tagged(alloc, keeper, batch, tag),
        Verdict::NotModified | Verdict::Changed => hold_back(alloc, keeper, batch, tag),
    }
}

/// A read that has the same status, and takes less.
fn respond_probe<K: Tagged>(
    alloc: Global,
    keeper: &mut K,
    root: &str,
    operation: &Operation,
) -> Result<Response, Fault>
    ensures { Responds K.model root.now (plainly (judging.probe (operation_value operation.now)))
        IsResponse keeper.old keeper.new result }
{
    match operation {
        Operation::Page(name, _) => respond_collection(alloc, keeper, root, name.as_str()),
        Operation::Changes(after, _) => respond_changes(alloc, keeper, *after, 0),
        _ => respond_to(alloc, keeper, root, operation),
    }
}

/// The answer that the client has what would be answered.
fn not_modified(alloc: Global, tag: u64) -> Response
    ensures { response_value result ≡ spec.not_modified tag }
{
    Response {
        status: StatusCode::NOT_MODIFIED,
        kind: MediaType::Json,
        tag: Some(tag),
        serial: None,
        allow: None,
        body: String::new(alloc),
    }
}

/// What is answered in place of status 200 if the conditions do not hold.
fn in_place_by(alloc: Global, tag: u64, verdict: Verdict) -> Result<Response, AllocError>
    ensures { IfOk result (λ r. response_value r ≡ judging.in_place_by tag verdict) }
{
    match verdict {
        Verdict::NotModified => Ok(not_modified(alloc, tag)),
        Verdict::Holds | Verdict::Changed => faulty(alloc, RequestFault::Changed),
    }
}

/// The same, but a response of another status stays.
fn instead(
    alloc: Global,
    tag: u64,
    verdict: Verdict,
    response: Response,
) -> Result<Response, AllocError>
    ensures { IfOk result (λ r. response_value r
        ≡ spec.instead (judging.in_place_by tag verdict) (response_value response)) }
{
    if response.status.as_u16() == 200 {
        in_place_by(alloc, tag, verdict)
    } else {
        Ok(response)
    }
}

/// Answers a read by a verdict.
fn judge_read<K: Tagged>(
    alloc: Global,
    keeper: &mut K,
    root: &str,
    verdict: Verdict,
    tag: u64,
    operation: &Operation,
) -> Result<Response, Fault>
    requires reads { spec.is_batch (operation_value operation.now) ≡ false }
    requires needed { spec.needs_state (operation_value operation.now) ≡ true }
    ensures { RespondsBy K.model root.now (operation_value operation.now) verdict tag IsResponse
        keeper.old keeper.new result }
{
    match verdict {
        Verdict::Holds => match respond_to(alloc, keeper, root, operation) {
            Ok(response) => Ok(tagged(tag, response)),
            Err(fault) => Err(fault),
        },
        _ => match respond_probe(alloc, keeper, root, operation) {
            Ok(response) => or_starved(instead(alloc, tag, verdict, response)),
            Err(fault) => Err(fault),
        },
    }
}

/// Answers a request that needs the state by a verdict on its tag.
pub(crate) fn judge<K: Tagged>(
    alloc: Global,
    keeper: &mut K,
    root: &str,
    verdict: Verdict,
    tag: u64,
    operation: &Operation,
) -> Result<Response, Fault>
    requires { spec.needs_state (operation_value operation.now) ≡ true }
    ensures { RespondsBy K.model root.now (operation_value operation.now) verdict tag IsResponse
        keeper.old keeper.new result }
{
    match operation {
        Operation::Batch(batch) => judge_batch(alloc, keeper, verdict, tag, batch),
        _ => judge_read(alloc, keeper, root, verdict, tag, operation),
    }
}
