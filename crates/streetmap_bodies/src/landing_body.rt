//! The landing page, the description of the service and the conformance classes.
ghost use Rattle.std.specs.Prelude.{◌≡◌, ◌++◌, IfOk, string_bytes};
ghost use Rattle.serde_json.specs.View.{view};
ghost use Rattle.serde_json.specs.Written.{compact_text};
ghost use Rattle.streetmap_bodies.specs.Bodies as spec;

use crate::links::{joined, link};
use serde_json::{Value, json};
use std::alloc::{AllocError, Global};

/// The links of the landing page.
fn landing_links(
    alloc: Global,
    here: &str,
    api: &str,
    conformance: &str,
    collections: &str,
) -> Result<Value, AllocError>
    ensures { IfOk result (λ v. view v
        ≡ spec.landing_links here.now api.now conformance.now collections.now) }
{
    let here = link(alloc, here, "self", "application/json")?;
    let api = link(alloc, api, "service-doc", "text/html")?;
    let conformance = link(alloc, conformance, "conformance", "application/json")?;
    let collections = link(alloc, collections, "data", "application/json")?;
    json!(in alloc; [here, api, conformance, collections])
}

/// The value of the landing page with these links.
fn landing_by(alloc: Global, links: Value) -> Result<Value, AllocError>
    ensures { IfOk result (λ v. view v ≡ spec.landing_by (view links)) }
{
    json!(in alloc; {
        "description": "Street assets on a local grid of whole millimetres.",
        "links": links,
        "title": "Street map"
    })
}

/// The links of the landing page under a base.
fn links_under(alloc: Global, root: &str) -> Result<Value, AllocError>
    ensures { IfOk result (λ v. view v ≡ spec.landing_links_of root.now) }
{
    let here = joined(alloc, root, "/")?;
    let api = joined(alloc, root, "/api")?;
    let conformance = joined(alloc, root, "/conformance")?;
    let collections = joined(alloc, root, "/collections")?;
    landing_links(
        alloc,
        here.as_str(),
        api.as_str(),
        conformance.as_str(),
        collections.as_str(),
    )
}

/// The body of the landing page (OGC 17-069, section 7.2); `root` is the base of links without its
/// last slash.
///
/// # Errors
///
/// Only that memory runs out.
#[tactic(auto, unfolding(crate::specs::Bodies::landing_data))]
pub fn landing_text(alloc: Global, root: &str) -> Result<String, AllocError>
    ensures { IfOk result (λ text. string_bytes text
        ≡ compact_text (spec.landing_data root.now)) }
{
    let links = links_under(alloc, root)?;
    let value = landing_by(alloc, links)?;
    value.to_string(alloc)
}

/// The description of the service (OGC 17-069, section 7.3): a short HTML text.
pub fn api_text() -> &'static str
    ensures { result.now ≡ spec.api_document }
{
    "<!DOCTYPE html><title>Street map</title><p>Features are at /collections, batches go to /batches.</p>"
}

/// The body of the conformance classes (OGC 17-069, section 7.4).
#[tactic(auto, unfolding(json::specs::Print::escape_byte))]
pub fn conformance_text() -> &'static str
    ensures { result.now ≡ compact_text spec.conformance_data }
{
    "{\"conformsTo\":[\"tag:streetmap.invalid,2024:conf/grid-features\"]}"
}
