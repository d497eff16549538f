//! What a request wants, and the answer to it.
ghost use Rattle.std.specs.Prelude.{◌≡◌, ◌&&◌, true};
ghost use Rattle.streetmap_http.specs.PreconditionsView.{preconditions_value};
ghost use Rattle.streetmap_routes.specs.OperationView.{operation_value};
ghost use Rattle.streetmap_web.specs.Response as spec;
ghost use Rattle.streetmap_web.specs.Judging as judging;
ghost use Rattle.streetmap_web.specs.Responds.{response_value, IsResponse, Responds, reads_tag};
ghost use Rattle.streetmap_web.specs.Wants.{wanted_value};

use crate::conditional::judge;
use crate::respond::respond_to;
use crate::response::Response;
use crate::verdict::{Verdict, needs_state, verdict_on};
use std::alloc::Global;
use streetmap_bodies::RequestFault;
use streetmap_http::Preconditions;
use streetmap_ledger::Fault;
use streetmap_routes::Operation;
use streetmap_tags::Tagged;

/// What a request wants.
#[derive(Drop)]
pub(crate) struct Wanted<'a> {
    operation: Operation,
    /// Its conditions, if the service gives tags.
    conditions: Option<Preconditions<'a>>,
    /// Whether its answer shows the serial of the state, if it needs the state.
    numbered: bool,
}

/// What a request wants, of a service that gives tags or not, and shows serials or not.
pub(crate) fn wanted_of<'a>(
    tags: bool,
    numbered: bool,
    preconditions: Preconditions<'a>,
    operation: Operation,
) -> Wanted<'a>
    ensures { wanted_value result ≡ spec.wanted_of tags numbered
        (preconditions_value preconditions.entry) (operation_value operation) }
{
    if !tags {
        return Wanted {
            operation,
            conditions: None,
            numbered,
        };
    }
    if needs_state(&operation) && !preconditions.are_readable() {
        return Wanted {
            operation: Operation::Faulty(RequestFault::BadCondition),
            conditions: None,
            numbered: false,
        };
    }
    Wanted {
        operation,
        conditions: Some(preconditions),
        numbered,
    }
}

/// Whether the tag of the state is read first.
fn needs_tag(wanted: &Wanted) -> bool
    ensures { result ≡ (reads_tag (wanted_value wanted.now)
        && spec.needs_state (wanted_value wanted.now).operation) }
{
    (wanted.conditions.is_some() || wanted.numbered) && needs_state(&wanted.operation)
}

/// The verdict on a state of this tag. Without conditions it is that they hold.
fn verdict_under(tag: u64, wanted: &Wanted) -> Verdict
    ensures { result ≡ judging.verdict_under tag (wanted_value wanted.now).operation
        (wanted_value wanted.now).conditions }
{
    match &wanted.conditions {
        Some(conditions) => verdict_on(tag, conditions, &wanted.operation),
        None => Verdict::Holds,
    }
}

/// The response as it is shown, if the state before had this tag: with the serial of the state
/// afterwards if the request wants it, and without its tag if the service gives none.
fn shown(wanted: &Wanted, before: u64, response: Response) -> Response
    ensures { response_value result
        ≡ judging.shown (wanted_value wanted.now) before (response_value response) }
{
    let Response {
        status,
        kind,
        tag,
        serial,
        allow,
        body,
    } = response;
    let after = tag.unwrap_or(before);
    Response {
        status,
        kind,
        tag: if wanted.conditions.is_some() {
            tag
        } else {
            None
        },
        serial: if wanted.numbered { Some(after) } else { serial },
        allow,
        body,
    }
}

/// Answers a request that needs the state by its tag, which is read first: a fault of that read
/// comes before a batch acts, so a batch that was applied is always answered.
fn respond_by_tag<K: Tagged>(
    alloc: Global,
    keeper: &mut K,
    root: &str,
    wanted: &Wanted,
) -> Result<Response, Fault>
    requires reads { reads_tag (wanted_value wanted.now) ≡ true }
    requires needed { spec.needs_state (wanted_value wanted.now).operation ≡ true }
    ensures { Responds K.model root.now (wanted_value wanted.now) IsResponse
        keeper.old keeper.new result }
{
    let tag = match keeper.tag() {
        Ok(tag) => tag,
        Err(fault) => return Err(fault),
    };
    let verdict = verdict_under(tag, wanted);
    match judge(alloc, keeper, root, verdict, tag, &wanted.operation) {
        Ok(response) => Ok(shown(wanted, tag, response)),
        Err(fault) => Err(fault),
    }
}

/// Answers what is wanted.
pub(crate) fn respond<K: Tagged>(
    alloc: Global,
    keeper: &mut K,
    root: &str,
    wanted: &Wanted,
) -> Result<Response, Fault>
    ensures { Responds K.model root.now (wanted_value wanted.now) IsResponse
        keeper.old keeper.new result }
{
    if needs_tag(wanted) {
        respond_by_tag(alloc, keeper, root, wanted)
    } else {
        respond_to(alloc, keeper, root, &wanted.operation)
    }
}
