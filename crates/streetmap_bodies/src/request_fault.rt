//! Why a request is answered by an error.
ghost use Rattle.std.specs.Prelude.{◌≡◌, ◌≤◌, ◌+◌, ◌++◌, string_bytes, string_len};
ghost use Rattle.std.specs.Prelude.{string_capacity};
ghost use Rattle.std.specs.Option.{option_copied};
ghost use Rattle.serde_json.specs.Written.{compact_text};
ghost use Rattle.streetmap_bodies.specs.RequestFaults as spec;
ghost use Rattle.streetmap_bodies.specs.RequestFaults.{fault_body};

use crate::error_body::push_error;
use http::StatusCode;
use streetmap_batch::BatchFault;
use streetmap_http::{FramingFault, Methods};
use streetmap_ledger::{Fault, Refusal};
use streetmap_query::QueryFault;

/// Why a request is answered by an error.
#[derive(Clone, Copy, PartialEq)]
pub enum RequestFault {
    /// It breaks a rule of framing.
    Framing(FramingFault),
    /// The target does not begin with a slash.
    BadTarget,
    /// The path has no resource.
    NotFound,
    /// The path has these methods, and the request another.
    MethodNotAllowed(Methods),
    /// The query cannot be read.
    Query(QueryFault),
    /// The serial after which changes are requested is not one.
    BadSerial,
    /// The batch cannot be read.
    Batch(BatchFault),
    /// The batch is refused, with the place of the edit at fault, if any.
    Refused(Refusal, Option<u64>),
    /// A condition of it is neither `*` nor a list of tags.
    BadCondition,
    /// A condition of it does not hold.
    Changed,
    /// The server takes no batches, and it is one.
    Fenced,
    /// The server takes batches from its follower script only, and it is another's.
    Follower,
    /// The keeper did not answer.
    Keeper(Fault),
}

impl RequestFault {
    /// The name in the answer.
    #[tactic(auto, unfolding(crate::specs::RequestFaults::code_of))]
    pub fn code(&self) -> &'static str
        ensures { result.now ≡ spec.code_of self.now }
    {
        match self {
            RequestFault::Framing(fault) => fault.code(),
            RequestFault::BadTarget => "bad_target",
            RequestFault::NotFound => "not_found",
            RequestFault::MethodNotAllowed(_) => "method_not_allowed",
            RequestFault::Query(fault) => fault.code(),
            RequestFault::BadSerial => "bad_serial",
            RequestFault::Batch(fault) => fault.code(),
            RequestFault::Refused(refusal, _) => refusal.code(),
            RequestFault::BadCondition => "bad_condition",
            RequestFault::Changed => "changed",
            RequestFault::Fenced => "fenced",
            RequestFault::Follower => "follower",
            RequestFault::Keeper(fault) => fault.code(),
        }
    }

    /// The sentence in the answer.
    #[tactic(auto, unfolding(crate::specs::RequestFaults::description_of))]
    pub fn description(&self) -> &'static str
        ensures { result.now ≡ spec.description_of self.now }
    {
        match self {
            RequestFault::Framing(fault) => fault.description(),
            RequestFault::BadTarget => "The target must begin with a slash.",
            RequestFault::NotFound => "There is nothing at this path.",
            RequestFault::MethodNotAllowed(_) => "The method is not allowed here.",
            RequestFault::Query(fault) => fault.description(),
            RequestFault::BadSerial => "The value of after is no serial.",
            RequestFault::Batch(fault) => fault.description(),
            RequestFault::Refused(refusal, _) => refusal.description(),
            RequestFault::BadCondition => "A condition cannot be read.",
            RequestFault::Changed => "The state is not as a condition requires.",
            RequestFault::Fenced => "This server takes no batches.",
            RequestFault::Follower => "This server takes batches from its follower script only.",
            RequestFault::Keeper(fault) => fault.description(),
        }
    }

    /// The status of the answer.
    pub fn status(&self) -> StatusCode
        ensures { result ≡ spec.status_of self.now }
    {
        match self {
            RequestFault::Framing(fault) => fault.status(),
            RequestFault::BadTarget => StatusCode::BAD_REQUEST,
            RequestFault::NotFound => StatusCode::NOT_FOUND,
            RequestFault::MethodNotAllowed(_) => StatusCode::METHOD_NOT_ALLOWED,
            RequestFault::Query(QueryFault::Memory)
            | RequestFault::Batch(BatchFault::Memory)
            | RequestFault::Keeper(Fault::Memory) => StatusCode::SERVICE_UNAVAILABLE,
            RequestFault::Query(_) | RequestFault::Batch(_) => StatusCode::BAD_REQUEST,
            RequestFault::BadSerial => StatusCode::BAD_REQUEST,
            RequestFault::Refused(_, _) => StatusCode::CONFLICT,
            RequestFault::BadCondition => StatusCode::BAD_REQUEST,
            RequestFault::Changed => StatusCode::PRECONDITION_FAILED,
            RequestFault::Fenced | RequestFault::Follower => StatusCode::FORBIDDEN,
            RequestFault::Keeper(_) => StatusCode::INTERNAL_SERVER_ERROR,
        }
    }

    /// The place of the edit at fault, counted from 1.
    fn place(&self) -> Option<u64>
        ensures { result ≡ spec.place_of self.now }
    {
        match self {
            RequestFault::Batch(fault) => fault.place(),
            RequestFault::Refused(_, place) => *place,
            _ => None,
        }
    }

    /// The name of the fault within a feature.
    fn cause(&self) -> Option<&'static str>
        ensures { option_copied result ≡ spec.cause_of self.now }
    {
        match self {
            RequestFault::Batch(fault) => match fault.cause() {
                Some(cause) => Some(cause.code()),
                None => None,
            },
            _ => None,
        }
    }

    /// The methods that are allowed.
    pub fn allow(&self) -> Option<Methods>
        ensures { result ≡ spec.allow_of self.now }
    {
        match self {
            RequestFault::MethodNotAllowed(methods) => Some(*methods),
            _ => None,
        }
    }
}

/// Appends the body of the answer. `out` must have room for 320 bytes, so that no memory is
/// allocated.
#[tactic(auto, unfolding(crate::specs::RequestFaults::fault_body))]
pub fn push_fault(out: &mut String, fault: &RequestFault)
    requires room { string_len out.old + 320 ≤ string_capacity out.old }
    ensures bytes { string_bytes out.new
        ≡ string_bytes out.old ++ compact_text (fault_body fault.now) }
    ensures capacity { string_capacity out.old ≤ string_capacity out.new }
{
    let cause = fault.cause();
    push_error(out, fault.code(), fault.description(), fault.place(), cause);
}
