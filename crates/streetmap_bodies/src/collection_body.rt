//! The bodies of collections.
ghost use Rattle.std.specs.Prelude.{◌≡◌, ◌++◌, IfOk, OnOk, option_map, string_bytes, codes};
ghost use Rattle.serde_json.specs.View.{view};
ghost use Rattle.serde_json.specs.Written.{compact_text};
ghost use Rattle.streetmap_feature_text.specs.Written.{array_of};
ghost use Rattle.streetmap_grid.specs.Views.{box_value};
ghost use Rattle.streetmap_ledger.specs.SummaryView.{summary_value, summary_values};
ghost use Rattle.streetmap_bodies.specs.Bodies as spec;

use crate::links::{add, collection_href, items_href, joined, link};
use serde_json::{Value, json};
use std::alloc::{AllocError, Global};
use streetmap_feature_text::{push_comma, push_quoted};
use streetmap_grid::GridBox;
use streetmap_ledger::Summary;

/// The value of an extent.
fn extent_value(alloc: Global, area: GridBox) -> Result<Value, AllocError>
    ensures { IfOk result (λ v. view v ≡ spec.extent_data (box_value area)) }
{
    json!(in alloc; {"spatial": {"bbox": [[area.x0, area.y0, area.x1, area.y1]], "crs":
        "tag:streetmap.invalid,2024:crs/grid-mm"}})
}

/// The member `extent` and a comma, if the collection has a box.
fn extent_text(alloc: Global, extent: Option<GridBox>) -> Result<String, AllocError>
    ensures { IfOk result (λ text. string_bytes text
        ≡ spec.extent_text (option_map box_value extent)) }
{
    let mut out = String::new(alloc);
    if let Some(area) = extent {
        let value = extent_value(alloc, area)?;
        let text = value.to_string(alloc)?;
        out.push_str("\"extent\":")?;
        out.push_str(text.as_str())?;
        out.push_str(",")?;
    }
    Ok(out)
}

/// The links of a collection.
fn links_of_collection(alloc: Global, here: &str, items: &str) -> Result<Value, AllocError>
    ensures { IfOk result (λ v. view v ≡ spec.links_of_collection here.now items.now) }
{
    let here = link(alloc, here, "self", "application/json")?;
    let items = link(alloc, items, "items", "application/geo+json")?;
    json!(in alloc; [here, items])
}

/// Appends the links of a collection.
fn add_links(alloc: Global, out: &mut String, root: &str, name: &str) -> Result<(), AllocError>
    ensures { OnOk result (string_bytes out.new
        ≡ string_bytes out.old ++ compact_text (spec.collection_links root.now name.now)) }
{
    let here = collection_href(alloc, root, name)?;
    let items = items_href(alloc, root, name)?;
    let links = links_of_collection(alloc, here.as_str(), items.as_str())?;
    let text = links.to_string(alloc)?;
    out.push_str(text.as_str())
}

/// Appends a collection.
fn add_collection(
    alloc: Global,
    out: &mut String,
    root: &str,
    summary: &Summary,
) -> Result<(), AllocError>
    ensures { OnOk result (string_bytes out.new
        ≡ string_bytes out.old ++ compact_text
        (spec.collection_data root.now (summary_value summary.now))) }
{
    let extent = extent_text(alloc, summary.extent)?;
    add(
        out,
        "{\"crs\":[\"tag:streetmap.invalid,2024:crs/grid-mm\"],",
    )?;
    add(out, extent.as_str())?;
    add(out, "\"id\":")?;
    push_quoted(alloc, out, summary.id.as_str())?;
    add(out, ",\"links\":")?;
    add_links(alloc, out, root, summary.id.as_str())?;
    add(out, ",\"title\":")?;
    push_quoted(alloc, out, summary.title.as_str())?;
    add(out, "}")?;
    Ok(())
}

/// The body of a collection (OGC 17-069, section 7.14). Its time property is not shown.
///
/// # Errors
///
/// Only that memory runs out.
pub fn collection_text(alloc: Global, root: &str, summary: &Summary) -> Result<String, AllocError>
    ensures { IfOk result (λ text. string_bytes text
        ≡ compact_text (spec.collection_data root.now (summary_value summary.now))) }
{
    let mut out = String::new(alloc);
    add_collection(alloc, &mut out, root, summary)?;
    Ok(out)
}

/// Appends the collections and the bracket after them.
fn add_collections(
    alloc: Global,
    out: &mut String,
    root: &str,
    summaries: &[Summary],
) -> Result<(), AllocError>
    ensures { OnOk result (string_bytes out.new
        ≡ string_bytes out.old ++ compact_text
        (array_of (spec.collection_data root.now) (summary_values summaries.now))) }
{
    out.push_str("[")?;
    let mut later = false;
    for summary in summaries {
        push_comma(out, later)?;
        add_collection(alloc, out, root, summary)?;
        later = true;
    }
    out.push_str("]")
}

/// A link to the resource itself.
fn self_link(alloc: Global, here: &str) -> Result<Value, AllocError>
    ensures { IfOk result (λ v. view v ≡ spec.self_link here.now) }
{
    let here = link(alloc, here, "self", "application/json")?;
    json!(in alloc; [here])
}

/// Appends the links of the collections.
fn add_collections_link(alloc: Global, out: &mut String, root: &str) -> Result<(), AllocError>
    ensures { OnOk result (string_bytes out.new
        ≡ string_bytes out.old ++ compact_text
        (spec.self_link (root.now ++ codes "/collections"))) }
{
    let here = joined(alloc, root, "/collections")?;
    let links = self_link(alloc, here.as_str())?;
    let text = links.to_string(alloc)?;
    out.push_str(text.as_str())
}

/// The body of all collections (OGC 17-069, section 7.13), in the order in which they are given.
///
/// # Errors
///
/// Only that memory runs out.
pub fn collections_text(
    alloc: Global,
    root: &str,
    summaries: &[Summary],
) -> Result<String, AllocError>
    ensures { IfOk result (λ text. string_bytes text
        ≡ compact_text (spec.collections_data root.now (summary_values summaries.now))) }
{
    let mut out = String::new(alloc);
    add(&mut out, "{\"collections\":")?;
    add_collections(alloc, &mut out, root, summaries)?;
    add(&mut out, ",\"links\":")?;
    add_collections_link(alloc, &mut out, root)?;
    add(&mut out, "}")?;
    Ok(out)
}
