//! The answer to a request, over any keeper.
ghost use Rattle.std.specs.Prelude.{◌≡◌, ◌≤◌, Some, None, IfOk, OnErr, []};
ghost use Rattle.std.specs.Prelude.{string_bytes, string_len, string_capacity};
ghost use Rattle.std.specs.Option.{option_map};
ghost use Rattle.serde_json.specs.Written.{compact_text};
ghost use Rattle.streetmap_query.specs.Views.{query_value};
ghost use Rattle.streetmap_batch.specs.Text.{Text};
ghost use Rattle.streetmap_batch.specs.BatchView.{batch_value};
ghost use Rattle.streetmap_ledger.specs.KeptView.{keyed_batches};
ghost use Rattle.streetmap_ledger.specs.PageView.{page_value};
ghost use Rattle.streetmap_ledger.specs.SummaryView.{summary_value, summary_values};
ghost use Rattle.streetmap_routes.specs.Operations as spec;
ghost use Rattle.streetmap_web.specs.Response as spec_response;
ghost use Rattle.streetmap_web.specs.Response.{fault_response, found, plainly};
ghost use Rattle.streetmap_bodies.specs.Bodies as spec_bodies;
ghost use Rattle.streetmap_bodies.specs.Changes as spec_changes;
ghost use Rattle.streetmap_routes.specs.OperationView.{operation_value};
ghost use Rattle.streetmap_web.specs.Responds.{response_value, IsResponse, Responds};
ghost use Rattle.streetmap_http.specs.declared.answer_head.MediaType.TheVariants.{Json, GeoJson};
ghost use Rattle.streetmap_http.specs.declared.answer_head.MediaType.TheVariants.{Html, Journal};

use crate::response::Response;
use crate::status::respond_status;
use http::StatusCode;
use std::alloc::{AllocError, Global};
use streetmap_batch::Batch;
use streetmap_bodies::{
    RequestFault, api_text, changes_text, collection_text, collections_text, conformance_text,
    feature_text, landing_text, page_text, push_fault, push_reply_body,
};
use streetmap_feature_text::PackedFeature;
use streetmap_http::MediaType;
use streetmap_ledger::{Fault, Keeper, KeptBatch, Page, Reply, Summary};
use streetmap_query::Query;
use streetmap_routes::Operation;
use streetmap_tags::{Tagged, changes};

/// The room that is allocated for the body of the answer to a batch before the batch is applied.
/// With that of the head, 288 bytes, it is 1,024.
pub(crate) const BODY_ROOM: usize = 736;

/// An answer with a body.
pub(crate) fn found(kind: MediaType, body: String) -> Response
    ensures { response_value result ≡ spec_response.found kind (string_bytes body) }
{
    Response {
        status: StatusCode::OK,
        kind,
        tag: None,
        serial: None,
        allow: None,
        body,
    }
}

/// An answer that names a fault, in room that was allocated before.
#[tactic(auto, unfolding(crate::specs::Response::fault_response))]
fn faulty_in(body: String, fault: RequestFault) -> Response
    requires room { 320 ≤ string_capacity body }
    requires blank { string_bytes body ≡ [] }
    requires blank_len { string_len body ≡ 0 }
    ensures { response_value result ≡ fault_response fault }
{
    let mut body = body;
    push_fault(&mut body, &fault);
    Response {
        status: fault.status(),
        kind: MediaType::Json,
        tag: None,
        serial: None,
        allow: fault.allow(),
        body,
    }
}

/// An answer that names a fault.
pub(crate) fn faulty(alloc: Global, fault: RequestFault) -> Result<Response, AllocError>
    ensures { IfOk result (λ b. response_value b ≡ fault_response fault) }
{
    let body = String::with_capacity(alloc, 320)?;
    Ok(faulty_in(body, fault))
}

/// The same, with lack of memory as the fault that is to be answered.
pub(crate) fn or_starved(response: Result<Response, AllocError>) -> Result<Response, Fault>
    ensures ok { IfOk response (λ b. result ≡ Ok b) }
    ensures err { OnErr response (result ≡ Err Fault.Memory) }
{
    match response {
        Ok(response) => Ok(response),
        Err(_) => Err(Fault::Memory),
    }
}

/// The status of the answer to a batch.
fn reply_status(reply: Reply) -> StatusCode
    ensures { result ≡ spec_response.reply_status reply }
{
    match reply {
        Reply::Accepted(_, _) | Reply::Repeated(_, _) => StatusCode::OK,
        Reply::Refused(_, _) => StatusCode::CONFLICT,
    }
}

/// The answer to a batch that the keeper answered without a fault, in room that was allocated
/// before: every reply has an answer, and no memory is allocated for it.
pub(crate) fn replied(body: String, batch: &Batch, reply: Reply) -> Response
    requires room { 320 ≤ string_capacity body }
    requires blank { string_bytes body ≡ [] }
    requires blank_len { string_len body ≡ 0 }
    ensures { response_value result ≡ spec_response.replied (batch_value batch.now).key reply }
{
    let mut body = body;
    push_reply_body(&mut body, batch, reply);
    Response {
        status: reply_status(reply),
        kind: MediaType::Json,
        tag: None,
        serial: None,
        allow: None,
        body,
    }
}

/// Applies a batch. Once it was applied no memory is allocated: the keeper's reply is the answer.
fn respond_batch<K: Keeper>(alloc: Global, keeper: &mut K, batch: &Batch) -> Result<Response, Fault>
    ensures { (root : Text) → Responds K.model root
        (plainly (spec.batch (batch_value batch.now))) IsResponse
        keeper.old keeper.new result }
{
    let Ok(body) = String::with_capacity(alloc, BODY_ROOM) else {
        return Err(Fault::Memory);
    };
    match keeper.apply(batch) {
        Ok(reply) => Ok(replied(body, batch, reply)),
        Err(fault) => Err(fault),
    }
}

/// The answer with a page, if its collection exists.
fn found_page(
    alloc: Global,
    root: &str,
    name: &str,
    query: &Query,
    page: &Option<Page>,
) -> Result<Response, AllocError>
    ensures { IfOk result (λ b. response_value b ≡ spec_response.found_page root.now name.now
        (query_value query.now) (option_map page_value page.now)) }
{
    match page {
        Some(page) => Ok(found(
            MediaType::GeoJson,
            page_text(alloc, root, name, query, page)?,
        )),
        None => faulty(alloc, RequestFault::NotFound),
    }
}

/// Reads a page.
fn respond_page<K: Keeper>(
    alloc: Global,
    keeper: &mut K,
    root: &str,
    name: &str,
    query: &Query,
) -> Result<Response, Fault>
    ensures { Responds K.model root.now (plainly (spec.page name.now (query_value query.now)))
        IsResponse keeper.old keeper.new result }
{
    match keeper.page(name, query) {
        Ok(page) => or_starved(found_page(alloc, root, name, query, &page)),
        Err(fault) => Err(fault),
    }
}

/// The answer with a feature, if it exists.
fn found_feature(
    alloc: Global,
    root: &str,
    name: &str,
    feature: &Option<PackedFeature>,
) -> Result<Response, AllocError>
    ensures { IfOk result (λ b. response_value b ≡
        spec_response.found_feature root.now name.now feature.now) }
{
    match feature {
        Some(feature) => Ok(found(
            MediaType::GeoJson,
            feature_text(alloc, root, name, feature)?,
        )),
        None => faulty(alloc, RequestFault::NotFound),
    }
}

/// Reads a feature.
fn respond_feature<K: Keeper>(
    alloc: Global,
    keeper: &mut K,
    root: &str,
    name: &str,
    id: &str,
) -> Result<Response, Fault>
    ensures { Responds K.model root.now (plainly (spec.feature name.now id.now)) IsResponse
        keeper.old keeper.new result }
{
    match keeper.feature(name, id) {
        Ok(feature) => or_starved(found_feature(alloc, root, name, &feature)),
        Err(fault) => Err(fault),
    }
}

/// The answer with a collection, if it exists.
fn found_collection(
    alloc: Global,
    root: &str,
    summary: &Option<Summary>,
) -> Result<Response, AllocError>
    ensures { IfOk result (λ b. response_value b ≡
        spec_response.found_collection root.now (option_map summary_value summary.now)) }
{
    match summary {
        Some(summary) => Ok(found(MediaType::Json, collection_text(alloc, root, summary)?)),
        None => faulty(alloc, RequestFault::NotFound),
    }
}

/// Reads a collection.
pub(crate) fn respond_collection<K: Keeper>(
    alloc: Global,
    keeper: &mut K,
    root: &str,
    name: &str,
) -> Result<Response, Fault>
    ensures { Responds K.model root.now (plainly (spec.one_collection name.now)) IsResponse
        keeper.old keeper.new result }
{
    match keeper.collection(name) {
        Ok(summary) => or_starved(found_collection(alloc, root, &summary)),
        Err(fault) => Err(fault),
    }
}

/// The answer with all collections.
fn found_collections(
    alloc: Global,
    root: &str,
    summaries: &[Summary],
) -> Result<Response, AllocError>
    ensures { IfOk result (λ b. response_value b ≡ spec_response.found Json
        (compact_text (spec_bodies.collections_data root.now (summary_values summaries.now)))) }
{
    let body = collections_text(alloc, root, summaries)?;
    Ok(found(MediaType::Json, body))
}

/// Reads all collections.
fn respond_collections<K: Keeper>(
    alloc: Global,
    keeper: &mut K,
    root: &str,
) -> Result<Response, Fault>
    ensures { Responds K.model root.now (plainly spec.all_collections) IsResponse
        keeper.old keeper.new result }
{
    match keeper.collections() {
        Ok(summaries) => or_starved(found_collections(alloc, root, summaries.as_slice())),
        Err(fault) => Err(fault),
    }
}

/// The answer with batches.
fn found_changes(alloc: Global, batches: &[KeptBatch]) -> Result<Response, AllocError>
    ensures { IfOk result (λ b. response_value b ≡ spec_response.found Journal
        (spec_changes.changes_text (keyed_batches batches.now))) }
{
    let body = changes_text(alloc, batches)?;
    Ok(found(MediaType::Journal, body))
}

/// Reads the batches after a serial.
pub(crate) fn respond_changes<K: Tagged>(
    alloc: Global,
    keeper: &mut K,
    after: u64,
    limit: u32,
) -> Result<Response, Fault>
    ensures { (root : Text) → Responds K.model root (plainly (spec.changes after limit)) IsResponse
        keeper.old keeper.new result }
{
    match changes(alloc, keeper, after, limit) {
        Ok(batches) => or_starved(found_changes(alloc, batches.as_slice())),
        Err(fault) => Err(fault),
    }
}

/// The answer with the landing page.
fn found_landing(alloc: Global, root: &str) -> Result<Response, AllocError>
    ensures { IfOk result (λ b. response_value b ≡
        spec_response.found Json (compact_text (spec_bodies.landing_data root.now))) }
{
    let body = landing_text(alloc, root)?;
    Ok(found(MediaType::Json, body))
}

/// The answer with a text that is always the same.
fn found_text(alloc: Global, kind: MediaType, text: &str) -> Result<Response, AllocError>
    ensures { IfOk result (λ b. response_value b ≡ spec_response.found kind text.now) }
{
    let mut body = String::new(alloc);
    body.push_str(text)?;
    Ok(found(kind, body))
}

/// The answer with the description of the service.
fn found_api(alloc: Global) -> Result<Response, AllocError>
    ensures { IfOk result (λ b. response_value b ≡
        spec_response.found Html spec_bodies.api_document) }
{
    found_text(alloc, MediaType::Html, api_text())
}

/// The answer with the conformance classes.
fn found_conformance(alloc: Global) -> Result<Response, AllocError>
    ensures { IfOk result (λ b. response_value b ≡
        spec_response.found Json (compact_text spec_bodies.conformance_data)) }
{
    found_text(alloc, MediaType::Json, conformance_text())
}

/// Answers a request.
pub(crate) fn respond_to<K: Tagged>(
    alloc: Global,
    keeper: &mut K,
    root: &str,
    operation: &Operation,
) -> Result<Response, Fault>
    ensures { Responds K.model root.now (plainly (operation_value operation.now)) IsResponse
        keeper.old keeper.new result }
{
    match operation {
        Operation::Faulty(fault) => or_starved(faulty(alloc, *fault)),
        Operation::LandingPage => or_starved(found_landing(alloc, root)),
        Operation::ApiText => or_starved(found_api(alloc)),
        Operation::ConformanceClasses => or_starved(found_conformance(alloc)),
        Operation::AllCollections => respond_collections(alloc, keeper, root),
        Operation::OneCollection(name) => respond_collection(alloc, keeper, root, name.as_str()),
        Operation::Page(name, query) => respond_page(alloc, keeper, root, name.as_str(), query),
        Operation::Feature(name, id) => {
            respond_feature(alloc, keeper, root, name.as_str(), id.as_str())
        }
        Operation::Changes(after, limit) => respond_changes(alloc, keeper, *after, *limit),
        Operation::ServiceStatus => respond_status(alloc, keeper),
        Operation::Batch(batch) => respond_batch(alloc, keeper, batch),
    }
}
