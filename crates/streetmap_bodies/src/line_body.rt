//! The bodies of lines: pages and features without links.
ghost use Rattle.std.specs.Prelude.{◌≡◌, ◌++◌, IfOk, OnOk, option_map, string_bytes};
ghost use Rattle.serde_json.specs.Written.{compact_text};
ghost use Rattle.streetmap_feature_text.specs.Written.{feature_data};
ghost use Rattle.streetmap_ledger.specs.PageView.{page_value};
ghost use Rattle.streetmap_bodies.specs.Bodies.{line_page_data};
ghost use Rattle.streetmap_bodies.specs.LineTexts.{next_text};

use crate::links::add_number;
use std::alloc::{AllocError, Global};
use streetmap_feature_text::{PackedFeature, push_features, push_quoted};
use streetmap_ledger::Page;

/// The text of a feature, as a line shows it: without links.
///
/// # Errors
///
/// Only that memory runs out.
pub fn line_feature_text(alloc: Global, feature: &PackedFeature) -> Result<String, AllocError>
    ensures { IfOk result (λ text. string_bytes text ≡ compact_text (feature_data feature.now)) }
{
    String::from_str(alloc, feature.text())
}

/// Appends the member `next`, if any.
fn add_next(alloc: Global, out: &mut String, next: &Option<String>) -> Result<(), AllocError>
    ensures { OnOk result (string_bytes out.new
        ≡ string_bytes out.old ++ next_text (option_map string_bytes next.now)) }
{
    match next {
        Some(id) => {
            out.push_str(",\"next\":")?;
            push_quoted(alloc, out, id.as_str())
        }
        None => Ok(()),
    }
}

/// The text of a page, as a line shows it: its features, the last id shown if more follow, and how
/// many features are selected and shown.
///
/// # Errors
///
/// Only that memory runs out.
#[tactic(auto, unfolding(crate::specs::Bodies::line_page_data))]
pub fn line_page_text(alloc: Global, page: &Page) -> Result<String, AllocError>
    ensures { IfOk result (λ text. string_bytes text
        ≡ compact_text (line_page_data (page_value page.now))) }
{
    let features = page.features.as_slice();
    let mut out = String::new(alloc);
    out.push_str("{\"features\":")?;
    push_features(&mut out, features)?;
    add_next(alloc, &mut out, &page.next)?;
    out.push_str(",\"numberMatched\":")?;
    add_number(&mut out, page.matched)?;
    out.push_str(",\"numberReturned\":")?;
    add_number(&mut out, features.len() as u64)?;
    out.push_str("}")?;
    Ok(out)
}
