//! What a request wants, before the state is read.
ghost use Rattle.std.specs.Prelude.{◌≡◌, IfOk, string_bytes};
ghost use Rattle.std.specs.Option.{option_copied};
ghost use Rattle.streetmap_batch.specs.ParsedBatches.{batch_of};
ghost use Rattle.streetmap_query.specs.Query.{query_of};
ghost use Rattle.streetmap_routes.specs.Operations as spec;
ghost use Rattle.streetmap_routes.specs.OperationView.{resource_value, operation_value};
ghost use Rattle.streetmap_routes.specs.Routes.{the_rows};

use crate::routes::{Resource, Route, find_resource};
use matchit::Router;
use std::alloc::{AllocError, Global};
use streetmap_batch::{Batch, BatchFault, read_batch};
use streetmap_bodies::RequestFault;
use streetmap_http::Methods;
use streetmap_query::{Query, QueryFault, has_parameter, read_query};

/// What a request wants.
#[derive(Drop)]
pub enum Operation {
    /// It is answered by an error, whatever the state is.
    Faulty(RequestFault),
    /// The landing page.
    LandingPage,
    /// The description of the service.
    ApiText,
    /// The conformance classes.
    ConformanceClasses,
    /// All collections.
    AllCollections,
    /// The collection with this id.
    OneCollection(String),
    /// A page of this collection.
    Page(String, Query),
    /// The feature of this collection with this id.
    Feature(String, String),
    /// The batches that were accepted after this serial, at most this number of them.
    Changes(u64, u32),
    /// The status of the service.
    ServiceStatus,
    /// A batch that is to be applied.
    Batch(Batch),
}

/// The methods of a resource.
fn methods_of(resource: &Resource) -> Methods
    ensures { result ≡ spec.methods_of (resource_value resource.now) }
{
    match resource {
        Resource::Batches => Methods::Posts,
        _ => Methods::Reads,
    }
}

/// Whether a method is one of these.
pub(crate) fn allows(methods: Methods, method: &[u8]) -> bool
    ensures { result ≡ spec.allows methods method.now }
{
    match methods {
        Methods::Reads => method == b"GET".as_slice() || method == b"HEAD".as_slice(),
        Methods::Posts => method == b"POST".as_slice(),
    }
}

/// The path of a target, and the query after it, if any.
#[tactic(auto, unfolding(crate::specs::Operations::path_part, crate::specs::Operations::query_part))]
pub(crate) fn split_target(target: &str) -> (&str, Option<&str>)
    ensures path { result.0.now ≡ spec.path_part target.now }
    ensures query { option_copied result.1 ≡ spec.query_part target.now }
{
    match target.split_once('?') {
        Some((path, query)) => (path, Some(query)),
        None => (target, None),
    }
}

/// Whether a target begins with a slash.
#[tactic(auto, unfolding(crate::specs::Operations::begins_with_slash))]
fn is_rooted(target: &str) -> bool
    ensures { result ≡ spec.begins_with_slash target.now }
{
    target.starts_with('/')
}

/// What a body wants.
fn batch_operation(alloc: Global, body: &[u8]) -> Result<Operation, AllocError>
    ensures { IfOk result (λ a. operation_value a ≡ spec.batch_operation (batch_of body.now)) }
{
    match read_batch(alloc, body) {
        Ok(batch) => Ok(Operation::Batch(batch)),
        Err(BatchFault::Memory) => Err(AllocError),
        Err(fault) => Ok(Operation::Faulty(RequestFault::Batch(fault))),
    }
}

/// What a query wants.
fn page_operation(alloc: Global, name: String, query: Option<&str>) -> Result<Operation, AllocError>
    ensures { IfOk result (λ a. operation_value a ≡
        spec.page_operation (string_bytes name) (query_of (option_copied query.entry))) }
{
    match read_query(alloc, query) {
        Ok(query) => Ok(Operation::Page(name, query)),
        Err(QueryFault::Memory) => Err(AllocError),
        Err(fault) => Ok(Operation::Faulty(RequestFault::Query(fault))),
    }
}

/// What a request for a resource that takes no parameter wants.
fn plain_operation(alloc: Global, resource: Resource, body: &[u8]) -> Result<Operation, AllocError>
    ensures { IfOk result (λ a. operation_value a
        ≡ spec.unqueried (resource_value resource) body.now) }
{
    match resource {
        Resource::Landing => Ok(Operation::LandingPage),
        Resource::Api => Ok(Operation::ApiText),
        Resource::Conformance => Ok(Operation::ConformanceClasses),
        Resource::Collections => Ok(Operation::AllCollections),
        Resource::Collection { name } => Ok(Operation::OneCollection(name)),
        Resource::Items { name } => page_operation(alloc, name, None),
        Resource::Item { name, id } => Ok(Operation::Feature(name, id)),
        Resource::Batches => batch_operation(alloc, body),
    }
}

/// By the query, and then by the body.
fn resource_operation(
    alloc: Global,
    resource: Resource,
    query: Option<&str>,
    body: &[u8],
) -> Result<Operation, AllocError>
    ensures { IfOk result (λ a. operation_value a ≡
        spec.queried (resource_value resource) (option_copied query.entry) body.now) }
{
    if let Resource::Items { name } = resource {
        return page_operation(alloc, name, query);
    }
    if has_parameter(query) {
        return Ok(Operation::Faulty(RequestFault::Query(QueryFault::UnknownParameter)));
    }
    plain_operation(alloc, resource, body)
}

/// By the path, and then by the method.
fn path_operation(
    alloc: Global,
    router: &Router<Route>,
    path: &str,
    method: &[u8],
    query: Option<&str>,
    body: &[u8],
) -> Result<Operation, AllocError>
    requires { router.now ≡ the_rows }
    ensures { IfOk result (λ a. operation_value a
        ≡ spec.placed (spec.resource_at path.now) method.now
        (option_copied query.entry) body.now) }
{
    let Some(resource) = find_resource(alloc, router, path)? else {
        return Ok(Operation::Faulty(RequestFault::NotFound));
    };
    let methods = methods_of(&resource);
    if !allows(methods, method) {
        return Ok(Operation::Faulty(RequestFault::MethodNotAllowed(methods)));
    }
    resource_operation(alloc, resource, query, body)
}

/// What a request wants, by its target first.
#[tactic(auto, unfolding(crate::specs::Operations::operation_of))]
pub(crate) fn operation_for(
    alloc: Global,
    router: &Router<Route>,
    method: &[u8],
    target: &str,
    body: &[u8],
) -> Result<Operation, AllocError>
    requires { router.now ≡ the_rows }
    ensures { IfOk result (λ a. operation_value a
        ≡ spec.operation_of method.now target.now body.now) }
{
    if !is_rooted(target) {
        return Ok(Operation::Faulty(RequestFault::BadTarget));
    }
    let (path, query) = split_target(target);
    path_operation(alloc, router, path, method, query, body)
}
