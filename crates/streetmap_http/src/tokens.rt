//! The token of a request (RFC 9110, section 11.6.2; RFC 6750, section 2.1).
ghost use Rattle.std.specs.Prelude.{◌≡◌, ◌<◌, ◌==◌, not, length, All, IfSome, option_map, position};
ghost use Rattle.httparse.specs.Spans.{IsHeaderWithin};
ghost use Rattle.streetmap_http.specs.Fields.{pairs};
ghost use Rattle.streetmap_http.specs.Tokens as spec;

use crate::fields::{count_named, first_value, same_letters};
use httparse::spans::HeaderSpan;

/// How many bytes the name of the scheme has.
const SCHEME_LEN: usize = 6;

/// The index of the first byte that is no space.
fn spaces_end(text: &[u8]) -> Option<usize>
    ensures value { result ≡ position (λ b. not (b == 32)) text.now }
    ensures bound { IfSome result (λ at. at < length text.now) }
{
    text.iter().position(|byte| *byte != b' ')
}

/// The text after one or more spaces.
fn after_spaces(text: &[u8]) -> Option<&[u8]>
    ensures { option_map (λ t. t.now) result ≡ spec.after_spaces text.now }
{
    match spaces_end(text) {
        Some(at) if at > 0 => Some(&text[at..]),
        _ => None,
    }
}

/// The token of credentials, if their scheme is `Bearer`.
#[tactic(auto, unfolding(crate::specs::Tokens::bearer_token))]
fn bearer_token(credentials: &[u8]) -> Option<&[u8]>
    ensures { option_map (λ t. t.now) result ≡ spec.bearer_token credentials.now }
{
    if credentials.len() < SCHEME_LEN {
        return None;
    }
    if same_letters(&credentials[..SCHEME_LEN], b"bearer") {
        after_spaces(&credentials[SCHEME_LEN..])
    } else {
        None
    }
}

/// The token of a request, if one field `Authorization` has it. It is a part of the head.
#[tactic(auto, unfolding(crate::specs::Tokens::token_in))]
pub(crate) fn token_of<'a>(head: &'a [u8], headers: &[HeaderSpan]) -> Option<&'a [u8]>
    requires { All (IsHeaderWithin (length head.now)) headers.now }
    ensures { option_map (λ t. t.now) result ≡ spec.token_in (pairs head.now headers.now) }
{
    if count_named(head, headers, b"authorization") != 1 {
        return None;
    }
    bearer_token(first_value(head, headers, b"authorization")?)
}
