//! Texts that are appended with memory allocated as needed, and the addresses in links.
ghost use Rattle.std.specs.Prelude.{◌≡◌, ◌++◌, IfOk, OnOk, decimal, string_bytes};
ghost use Rattle.percent_encoding.specs.Percent.{percent_encode};
ghost use Rattle.serde_json.specs.View.{view};
ghost use Rattle.streetmap_bodies.specs.Bodies as spec;

use percent_encoding::{AsciiSet, NON_ALPHANUMERIC, utf8_percent_encode};
use serde_json::{Value, json};
use std::alloc::{AllocError, Global};

/// Appends a text.
pub(crate) fn add(out: &mut String, text: &str) -> Result<(), AllocError>
    ensures { OnOk result (string_bytes out.new ≡ string_bytes out.old ++ text.now) }
{
    out.push_str(text)
}

/// Appends a number.
pub(crate) fn add_number(out: &mut String, number: u64) -> Result<(), AllocError>
    ensures { OnOk result (string_bytes out.new ≡ string_bytes out.old ++ decimal number) }
{
    let mut digits = itoa::Buffer::new();
    out.push_str(digits.format(number))
}

/// The base without its last slash, and a path.
pub(crate) fn joined(alloc: Global, root: &str, path: &str) -> Result<String, AllocError>
    ensures { IfOk result (λ text. string_bytes text ≡ root.now ++ path.now) }
{
    let mut out = String::new(alloc);
    out.push_str(root)?;
    out.push_str(path)?;
    Ok(out)
}

/// A link: its address, its relation, and the media type of the resource there.
pub(crate) fn link(
    alloc: Global,
    href: &str,
    relation: &str,
    media: &str,
) -> Result<Value, AllocError>
    ensures { IfOk result (λ v. view v ≡ spec.link href.now relation.now media.now) }
{
    json!(in alloc; {"href": href, "rel": relation, "type": media})
}

/// The address of a collection.
pub(crate) fn collection_href(alloc: Global, root: &str, name: &str) -> Result<String, AllocError>
    ensures { IfOk result (λ text. string_bytes text ≡ spec.collection_href root.now name.now) }
{
    let mut out = joined(alloc, root, "/collections/")?;
    out.push_str(name)?;
    Ok(out)
}

/// The address of the features of a collection.
pub(crate) fn items_href(alloc: Global, root: &str, name: &str) -> Result<String, AllocError>
    ensures { IfOk result (λ text. string_bytes text ≡ spec.items_href root.now name.now) }
{
    let mut out = collection_href(alloc, root, name)?;
    out.push_str("/items")?;
    Ok(out)
}

/// The address of a page.
pub(crate) fn page_href(
    alloc: Global,
    root: &str,
    name: &str,
    query: &str,
) -> Result<String, AllocError>
    ensures { IfOk result (λ text. string_bytes text
        ≡ spec.page_href root.now name.now query.now) }
{
    let mut out = items_href(alloc, root, name)?;
    out.push_str("?")?;
    out.push_str(query)?;
    Ok(out)
}

/// The bytes of an id that are percent-encoded in a path (RFC 3986, section 2.3).
const ENCODED: AsciiSet = percent_encoding::ascii_set!(
    NON_ALPHANUMERIC
        .remove(b'-')
        .remove(b'_')
        .remove(b'~')
        .remove(b'.')
);

/// Appends the id of a feature as it is written in a path.
fn add_id(out: &mut String, id: &str) -> Result<(), AllocError>
    ensures { OnOk result (string_bytes out.new
        ≡ string_bytes out.old ++ percent_encode spec.encoded_bytes id.now) }
{
    utf8_percent_encode(id, ENCODED).append_to(out)
}

/// The address of a feature.
pub(crate) fn feature_href(
    alloc: Global,
    root: &str,
    name: &str,
    id: &str,
) -> Result<String, AllocError>
    ensures { IfOk result (λ text. string_bytes text
        ≡ spec.feature_href root.now name.now id.now) }
{
    let mut out = items_href(alloc, root, name)?;
    out.push_str("/")?;
    add_id(&mut out, id)?;
    Ok(out)
}
