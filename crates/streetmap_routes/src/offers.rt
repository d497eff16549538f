//! The paths that a service may offer beside the eight.
ghost use Rattle.std.specs.Prelude.{◌≡◌, IfOk, option_copied};
ghost use Rattle.streetmap_routes.specs.Operations as operations;
ghost use Rattle.streetmap_routes.specs.OperationView.{operation_value};
ghost use Rattle.streetmap_routes.specs.Routes.{the_rows};

use crate::changes::changes_operation;
use crate::operations::{Operation, allows, operation_for, split_target};
use crate::routes::Route;
use matchit::Router;
use std::alloc::{AllocError, Global};
use streetmap_bodies::RequestFault;
use streetmap_http::Methods;
use streetmap_query::{QueryFault, has_parameter};

/// Which of the paths beside the eight a service offers. A path that it does not offer is not
/// found.
#[derive(Drop, Clone, Copy, PartialEq, Eq)]
pub struct Offers {
    /// `/changes`: the accepted batches.
    pub changes: bool,
    /// `/status`: how many batches and collections there are.
    pub status: bool,
}

/// What a request for the status wants: by the method, and then by the query.
fn status_operation(method: &[u8], query: Option<&str>) -> Operation
    ensures { operation_value result
        ≡ operations.status_wanted method.now (option_copied query.entry) }
{
    if !allows(Methods::Reads, method) {
        return Operation::Faulty(RequestFault::MethodNotAllowed(Methods::Reads));
    }
    if has_parameter(query) {
        return Operation::Faulty(RequestFault::Query(QueryFault::UnknownParameter));
    }
    Operation::ServiceStatus
}

/// What a request wants of a service that offers these paths.
#[tactic(auto, unfolding(crate::specs::Operations::operation_with))]
pub(crate) fn operation_with(
    alloc: Global,
    router: &Router<Route>,
    offers: Offers,
    method: &[u8],
    target: &str,
    body: &[u8],
) -> Result<Operation, AllocError>
    requires { router.now ≡ the_rows }
    ensures { IfOk result (λ a. operation_value a
        ≡ operations.operation_with offers method.now target.now body.now) }
{
    let (path, query) = split_target(target);
    if offers.changes && path == "/changes" {
        return changes_operation(alloc, method, query);
    }
    if offers.status && path == "/status" {
        return Ok(status_operation(method, query));
    }
    operation_for(alloc, router, method, target, body)
}
