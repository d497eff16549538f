//! The answer with the status of the service.
ghost use Rattle.std.specs.Prelude.{◌≡◌, IfOk};
ghost use Rattle.serde_json.specs.Written.{compact_text};
ghost use Rattle.streetmap_batch.specs.Text.{Text};
ghost use Rattle.streetmap_http.specs.declared.answer_head.MediaType.TheVariants.{Json};
ghost use Rattle.streetmap_ledger.specs.Keep.{IsRead};
ghost use Rattle.streetmap_routes.specs.Operations as routes;
ghost use Rattle.streetmap_web.specs.Response as spec;
ghost use Rattle.streetmap_web.specs.Response.{plainly};
ghost use Rattle.streetmap_web.specs.Responds.{response_value, IsResponse, Responds};
ghost use Rattle.streetmap_web.specs.StatusView.{IsStatusOf, status_value};

use crate::respond::{found, or_starved};
use crate::response::Response;
use std::alloc::{AllocError, Global};
use streetmap_bodies::status_text;
use streetmap_http::MediaType;
use streetmap_ledger::{Fault, KeptBatch};
use streetmap_tags::Tagged;

/// What the status of a service shows.
#[derive(Drop)]
pub(crate) struct Status {
    /// The serial of the state.
    batches: u64,
    /// How many collections there are.
    collections: u64,
    /// The batch with that serial.
    last: Option<KeptBatch>,
}

/// Reads what the status shows.
fn read_status<K: Tagged>(keeper: &mut K) -> Result<Status, Fault>
    ensures { IsRead K.model keeper.old keeper.new result IsStatusOf }
{
    let batches = match keeper.tag() {
        Ok(count) => count,
        Err(fault) => return Err(fault),
    };
    let last = match keeper.accepted(batches) {
        Ok(last) => last,
        Err(fault) => return Err(fault),
    };
    match keeper.collections() {
        Ok(summaries) => Ok(Status {
            batches,
            collections: summaries.len() as u64,
            last,
        }),
        Err(fault) => Err(fault),
    }
}

/// The answer with the status.
fn found_status(alloc: Global, status: &Status) -> Result<Response, AllocError>
    ensures { IfOk result (λ b. response_value b ≡ spec.found Json
        (compact_text (status_value status.now))) }
{
    let key = match &status.last {
        Some(last) => Some(last.key.as_str()),
        None => None,
    };
    let body = status_text(alloc, status.batches, status.collections, key)?;
    Ok(found(MediaType::Json, body))
}

/// Reads the status of the service.
pub(crate) fn respond_status<K: Tagged>(alloc: Global, keeper: &mut K) -> Result<Response, Fault>
    ensures { (root : Text) → Responds K.model root (plainly routes.service_status) IsResponse
        keeper.old keeper.new result }
{
    match read_status(keeper) {
        Ok(status) => or_starved(found_status(alloc, &status)),
        Err(fault) => Err(fault),
    }
}
