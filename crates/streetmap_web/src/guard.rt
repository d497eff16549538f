//! Which batches a service refuses.
ghost use Rattle.std.specs.Prelude.{◌≡◌, option_map};
ghost use Rattle.streetmap_routes.specs.OperationView.{operation_value};
ghost use Rattle.streetmap_web.specs.Guards as spec;
ghost use Rattle.streetmap_web.specs.Site.{guard_value};

use streetmap_bodies::RequestFault;
use streetmap_routes::Operation;

/// Which batches a service refuses.
#[derive(Drop)]
pub enum Guard {
    /// None.
    Free,
    /// Each.
    Fenced,
    /// Each of a request without this token (RFC 6750, section 2.1).
    Follower(String),
}

/// Whether an operation is a batch, or one that cannot be read.
fn is_of_batch(operation: &Operation) -> bool
    ensures { result ≡ spec.is_of_batch (operation_value operation.now) }
{
    matches!(
        operation,
        Operation::Batch(_) | Operation::Faulty(RequestFault::Batch(_))
    )
}

/// Whether a request has this token.
fn has_token(its: &str, token: Option<&[u8]>) -> bool
    ensures { result ≡ spec.has_token its.now (option_map (λ t. t.now) token.entry) }
{
    match token {
        Some(token) => token == its.as_bytes(),
        None => false,
    }
}

/// Why the batches of a request with this token are refused, if they are.
fn refusal_by(guard: &Guard, token: Option<&[u8]>) -> Option<RequestFault>
    ensures { result
        ≡ spec.refusal_by (guard_value guard.now) (option_map (λ t. t.now) token.entry) }
{
    match guard {
        Guard::Free => None,
        Guard::Fenced => Some(RequestFault::Fenced),
        Guard::Follower(its) if has_token(its.as_str(), token) => None,
        Guard::Follower(_) => Some(RequestFault::Follower),
    }
}

/// What is wanted of a service with this guard, by a request with this token.
#[tactic(auto, unfolding(crate::specs::Guards::guarded))]
pub(crate) fn guarded(guard: &Guard, token: Option<&[u8]>, operation: Operation) -> Operation
    ensures { operation_value result ≡ spec.guarded (guard_value guard.now)
        (option_map (λ t. t.now) token.entry) (operation_value operation) }
{
    match refusal_by(guard, token) {
        Some(fault) if is_of_batch(&operation) => Operation::Faulty(fault),
        _ => operation,
    }
}
