//! Texts without escapes (RFC 8259, section 7).
ghost use Rattle.std.specs.Prelude.{◌≡◌, ◌++◌, ◌∷◌, ◌≤◌, IfSome, IsTrue, take, length};
ghost use Rattle.std.specs.List.{list_all};
ghost use Rattle.std.specs.Str.{is_utf8};
ghost use Rattle.serde_json.specs.Data.{string};
ghost use Rattle.serde_json.specs.Written.{compact_text};
ghost use Rattle.streetmap_feature_text.specs.Plain.{is_plain};

use crate::fronts::after_byte;

/// Whether a byte represents itself in a JSON string.
#[inline]
fn is_plain(byte: u8) -> bool
    ensures { result ≡ is_plain byte }
{
    byte >= 32 && byte != b'"' && byte != b'\\'
}

/// The number of bytes at the front that represent themselves.
fn plain_len(bytes: &[u8]) -> usize
    ensures within { result ≤ length bytes.now }
    ensures plain { IsTrue (list_all is_plain (take result bytes.now)) }
{
    let mut end = 0;
    while end < bytes.len() && is_plain(bytes[end]) {
        end += 1;
    }
    end
}

/// The text up to the closing quote, if it has no escape, and what follows the quote.
fn take_unquoted(rest: &str) -> Option<(&str, &str)>
    ensures text { IfSome result (λ r. rest.now ≡ r.0.now ++ 34 ∷ r.1.now) }
    ensures plain { IfSome result (λ r. IsTrue (list_all is_plain r.0.now)) }
    ensures utf8 { IfSome result (λ r. IsTrue (is_utf8 r.0.now)) }
{
    let bytes = rest.as_bytes();
    let end = plain_len(bytes);
    if end < bytes.len() && bytes[end] == b'"' {
        Some((&rest[..end], &rest[end + 1..]))
    } else {
        None
    }
}

/// A text in quotes, if it has no escape, and what follows it.
pub(crate) fn take_text(rest: &str) -> Option<(&str, &str)>
    ensures text { IfSome result (λ r. rest.now ≡ compact_text (string r.0.now) ++ r.1.now) }
    ensures utf8 { IfSome result (λ r. IsTrue (is_utf8 r.0.now)) }
{
    let (text, rest) = take_unquoted(after_byte(rest, b'"')?)?;
    Some((text, rest))
}
