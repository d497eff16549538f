//! Texts in quotes (RFC 8259, section 7).
ghost use Rattle.std.specs.Prelude.{◌≡◌, ◌++◌, ◌∷◌, [], OnErr, OnOk, string_bytes};
ghost use Rattle.std.specs.List.{list_all};
ghost use Rattle.json.specs.Ascii as ascii;
ghost use Rattle.serde_json.specs.Data.{string};
ghost use Rattle.serde_json.specs.Written.{compact_text};
ghost use Rattle.streetmap_feature_text.specs.Plain.{is_plain};

use serde_json::Value;
use std::alloc::{AllocError, Global};

/// Whether a byte represents itself in a JSON string.
fn is_plain(byte: u8) -> bool
    ensures { result ≡ is_plain byte }
{
    byte >= 32 && byte != b'"' && byte != b'\\'
}

fn are_plain(text: &[u8]) -> bool
    ensures { result ≡ list_all is_plain text.now }
{
    text.iter().all(|byte| is_plain(*byte))
}

/// Appends a text as it is, in quotes. If memory runs out, nothing is appended.
fn push_in_quotes(out: &mut String, text: &str) -> Result<(), AllocError>
    ensures bytes { OnOk result (string_bytes out.new
        ≡ string_bytes out.old ++ ascii.quote ∷ (text.now ++ ascii.quote ∷ [])) }
    ensures kept { OnErr result (string_bytes out.new ≡ string_bytes out.old) }
{
    out.reserve(text.len().saturating_add(2))?;
    out.push_str("\"")?;
    out.push_str(text)?;
    out.push_str("\"")
}

/// Appends a text as a JSON string, with its escapes. If memory runs out, nothing is appended.
fn push_escaped(alloc: Global, out: &mut String, text: &str) -> Result<(), AllocError>
    ensures bytes { OnOk result (string_bytes out.new
        ≡ string_bytes out.old ++ compact_text (string text.now)) }
    ensures kept { OnErr result (string_bytes out.new ≡ string_bytes out.old) }
{
    let value = Value::String(String::from_str(alloc, text)?);
    let quoted = value.to_string(alloc)?;
    out.push_str(quoted.as_str())
}

/// Appends a text as a JSON string, in quotes and with its escapes (RFC 8259, section 7). If memory
/// runs out, nothing is appended.
pub fn push_quoted(alloc: Global, out: &mut String, text: &str) -> Result<(), AllocError>
    ensures bytes { OnOk result (string_bytes out.new
        ≡ string_bytes out.old ++ compact_text (string text.now)) }
    ensures kept { OnErr result (string_bytes out.new ≡ string_bytes out.old) }
{
    if are_plain(text.as_bytes()) {
        push_in_quotes(out, text)
    } else {
        push_escaped(alloc, out, text)
    }
}
