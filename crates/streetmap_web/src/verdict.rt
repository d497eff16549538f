//! What the conditions of a request say of the state (RFC 9110, section 13.2).
ghost use Rattle.std.specs.Prelude.{◌≡◌};
ghost use Rattle.streetmap_http.specs.PreconditionsView.{preconditions_value};
ghost use Rattle.streetmap_routes.specs.OperationView.{operation_value};
ghost use Rattle.streetmap_web.specs.Response as spec;

use streetmap_http::{Matching, Preconditions};
use streetmap_routes::Operation;

/// What the conditions of a request say of the state.
#[derive(Drop, Clone, Copy, PartialEq, Eq)]
pub enum Verdict {
    /// They hold.
    Holds,
    /// The client has what would be answered.
    NotModified,
    /// One does not hold.
    Changed,
}

/// Whether an operation needs the state.
pub(crate) fn needs_state(operation: &Operation) -> bool
    ensures { result ≡ spec.needs_state (operation_value operation.now) }
{
    match operation {
        Operation::Faulty(_)
        | Operation::LandingPage
        | Operation::ApiText
        | Operation::ConformanceClasses => false,
        Operation::AllCollections
        | Operation::OneCollection(_)
        | Operation::Page(_, _)
        | Operation::Feature(_, _)
        | Operation::Changes(_, _)
        | Operation::ServiceStatus
        | Operation::Batch(_) => true,
    }
}

/// Whether an operation is a batch.
fn is_batch(operation: &Operation) -> bool
    ensures { result ≡ spec.is_batch (operation_value operation.now) }
{
    match operation {
        Operation::Batch(_) => true,
        _ => false,
    }
}

/// By what `If-Match` and then `If-None-Match` say of the state's tag.
fn verdict_by(one: Matching, other: Matching, acts: bool) -> Verdict
    ensures { result ≡ spec.verdict_by one other acts }
{
    match (one, other) {
        (Matching::Differs, _) => Verdict::Changed,
        (_, Matching::Matches) if acts => Verdict::Changed,
        (_, Matching::Matches) => Verdict::NotModified,
        _ => Verdict::Holds,
    }
}

/// The verdict on a state of this tag.
pub(crate) fn verdict_on(tag: u64, preconditions: &Preconditions, operation: &Operation) -> Verdict
    ensures { result ≡ spec.verdict_on tag (preconditions_value preconditions.now)
        (operation_value operation.now) }
{
    verdict_by(
        preconditions.if_match(tag),
        preconditions.if_none_match(tag),
        is_batch(operation),
    )
}
