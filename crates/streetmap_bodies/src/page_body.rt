//! The body of a page, feature by feature.
ghost use Rattle.std.specs.Prelude.{◌≡◌, ◌++◌, IfOk, OnOk, IsTrue, option_map};
ghost use Rattle.std.specs.Prelude.{string_bytes};
ghost use Rattle.std.specs.Option.{ForSome, option_copied};
ghost use Rattle.serde_json.specs.View.{view};
ghost use Rattle.serde_json.specs.Written.{compact_text};
ghost use Rattle.streetmap_geojson.specs.Id.{is_id};
ghost use Rattle.streetmap_query.specs.Views.{query_value};
ghost use Rattle.streetmap_ledger.specs.PageView.{page_value};
ghost use Rattle.streetmap_bodies.specs.Bodies as spec;
ghost use Rattle.streetmap_bodies.specs.Bodies.{page_data, page_links};

use crate::links::{add, add_number, link, page_href};
use serde_json::{Value, json};
use std::alloc::{AllocError, Global};
use streetmap_feature_text::push_features;
use streetmap_ledger::Page;
use streetmap_query::{Query, next_query, self_query};

/// The links of a page.
fn links_value(alloc: Global, here: &str, next: Option<&str>) -> Result<Value, AllocError>
    ensures { IfOk result (λ v. view v ≡ page_links here.now (option_copied next.entry)) }
{
    let here = link(alloc, here, "self", "application/geo+json")?;
    match next {
        None => json!(in alloc; [here]),
        Some(next) => {
            let next = link(alloc, next, "next", "application/geo+json")?;
            json!(in alloc; [here, next])
        }
    }
}

/// Appends the links of a page.
fn add_links(
    alloc: Global,
    out: &mut String,
    here: &str,
    next: Option<&str>,
) -> Result<(), AllocError>
    ensures { OnOk result (string_bytes out.new
        ≡ string_bytes out.old ++ compact_text (page_links here.now (option_copied next.entry))) }
{
    let links = links_value(alloc, here, next)?;
    let text = links.to_string(alloc)?;
    out.push_str(text.as_str())
}

/// The address of a page itself.
fn self_href(alloc: Global, root: &str, name: &str, query: &Query) -> Result<String, AllocError>
    ensures { IfOk result (λ text. string_bytes text
        ≡ spec.self_href root.now name.now (query_value query.now)) }
{
    let text = self_query(alloc, query)?;
    page_href(alloc, root, name, text.as_str())
}

/// The address of the page after an id.
fn next_href(
    alloc: Global,
    root: &str,
    name: &str,
    query: &Query,
    last: &str,
) -> Result<String, AllocError>
    requires { IsTrue (is_id last.now) }
    ensures { IfOk result (λ text. string_bytes text
        ≡ spec.next_href root.now name.now (query_value query.now) last.now) }
{
    let text = next_query(alloc, query, last)?;
    page_href(alloc, root, name, text.as_str())
}

/// Appends the links of a page.
fn add_page_links(
    alloc: Global,
    out: &mut String,
    root: &str,
    name: &str,
    query: &Query,
    next: &Option<String>,
) -> Result<(), AllocError>
    requires { ForSome (option_map string_bytes next.now) (λ id. IsTrue (is_id id)) }
    ensures { OnOk result (string_bytes out.new
        ≡ string_bytes out.old ++ compact_text
        (page_links (spec.self_href root.now name.now (query_value query.now))
        (option_map (spec.next_href root.now name.now (query_value query.now))
        (option_map string_bytes next.now)))) }
{
    let here = self_href(alloc, root, name, query)?;
    match next {
        None => add_links(alloc, out, here.as_str(), None),
        Some(last) => {
            let next = next_href(alloc, root, name, query, last.as_str())?;
            add_links(alloc, out, here.as_str(), Some(next.as_str()))
        }
    }
}

/// The body of a page (OGC 17-069, section 7.15): its features are appended one by one, without a
/// value of the whole. `root` is the base of links without its last slash, and `name` the
/// collection.
///
/// # Errors
///
/// Only that memory runs out.
#[tactic(auto, unfolding(crate::specs::Bodies::page_data))]
pub fn page_text(
    alloc: Global,
    root: &str,
    name: &str,
    query: &Query,
    page: &Page,
) -> Result<String, AllocError>
    ensures { IfOk result (λ text. string_bytes text
        ≡ compact_text (page_data root.now name.now (query_value query.now)
        (page_value page.now))) }
{
    let features = page.features.as_slice();
    let mut out = String::new(alloc);
    add(&mut out, "{\"features\":")?;
    push_features(&mut out, features)?;
    add(&mut out, ",\"links\":")?;
    add_page_links(alloc, &mut out, root, name, query, &page.next)?;
    add(&mut out, ",\"numberMatched\":")?;
    add_number(&mut out, page.matched)?;
    add(&mut out, ",\"numberReturned\":")?;
    add_number(&mut out, features.len() as u64)?;
    add(&mut out, ",\"type\":\"FeatureCollection\"}")?;
    Ok(out)
}
