// Number texts whose fraction is only zeros, in the bytes of a JSON text.
ghost use Rattle.std.specs.Prelude.{◌≡◌, ◌∷◌, ℕ, IfOk, MatchOption, ◌<◌, ◌≤◌, ◌-◌, length};
ghost use Rattle.std.specs.Prelude.{take, drop};
ghost use Rattle.std.specs.List.{prefix_len, position_or_len, onto_first};
ghost use Rattle.streetmap_json.specs.NumberText.{is_in_number, is_dot, are_digits};
ghost use Rattle.streetmap_json.specs.NumberText.{are_signed_digits, are_zeros, without_fraction};
ghost use Rattle.streetmap_json.specs.NumberText.{whole_text, outside, within, tokens_from};
ghost use Rattle.streetmap_json.specs.NumberText.{is_changing_zero, may_change, with_whole_numbers};

use std::alloc::{AllocError, Global};

fn is_in_number(byte: u8) -> bool
    ensures { result ≡ is_in_number byte }
{
    matches!(byte, b'0'..=b'9' | b'+' | b'-' | b'.' | b'e' | b'E')
}

fn are_digits(text: &[u8]) -> bool
    ensures { result ≡ are_digits text.now }
{
    for byte in text {
        if !byte.is_ascii_digit() {
            return false;
        }
    }
    !text.is_empty()
}

fn are_signed_digits(text: &[u8]) -> bool
    ensures { result ≡ are_signed_digits text.now }
{
    match text {
        [b'-', digits @ ..] => are_digits(digits),
        _ => are_digits(text),
    }
}

fn are_zeros(text: &[u8]) -> bool
    ensures { result ≡ are_zeros text.now }
{
    for byte in text {
        if *byte != b'0' {
            return false;
        }
    }
    !text.is_empty()
}

// The place of the first point, or the length.
fn dot_or_len(token: &[u8]) -> usize
    ensures { result ≡ position_or_len is_dot token.now }
{
    for (i, byte) in token.iter().enumerate() {
        if *byte == b'.' {
            return i;
        }
    }
    token.len()
}

fn without_fraction(token: &[u8]) -> &[u8]
    ensures { result.now ≡ without_fraction token.now }
{
    let dot = dot_or_len(token);
    if dot < token.len() && are_signed_digits(&token[..dot]) && are_zeros(&token[dot + 1..]) {
        &token[..dot]
    } else {
        token
    }
}

// What a token is read as: each token that changes ends with a zero, and becomes shorter.
#[tactic(auto, unfolding(crate::specs::NumberText::whole_text))]
fn whole_text(token: &[u8]) -> &[u8]
    ensures { result.now ≡ whole_text token.now }
{
    let [.., b'0'] = token else {
        return token;
    };
    let whole = without_fraction(token);
    if whole == b"-0".as_slice() {
        &whole[1..]
    } else {
        whole
    }
}

// The length of the longest run of number bytes at the front.
fn number_len(text: &[u8]) -> usize
    ensures { result ≡ prefix_len is_in_number text.now }
{
    for (i, byte) in text.iter().enumerate() {
        if !is_in_number(*byte) {
            return i;
        }
    }
    text.len()
}

// The length of the rest of a string, with its closing quote.
fn string_rest(rest: &[u8]) -> usize
    ensures within { result ≤ length rest.now }
    ensures first { (quote : ℕ) → onto_first quote (tokens_from within rest.now)
        ≡ (quote ∷ take result rest.now) ∷ tokens_from outside (drop result rest.now) }
{
    let mut escaped = false;
    for (i, byte) in rest.iter().enumerate() {
        if escaped {
            escaped = false;
        } else if *byte == b'"' {
            return i + 1;
        } else {
            escaped = *byte == b'\\';
        }
    }
    rest.len()
}

// The length of the first token.
fn token_len(text: &[u8]) -> usize
    requires { 0 < length text.now }
    ensures some { 0 < result }
    ensures within { result ≤ length text.now }
    ensures first { tokens_from outside text.now
        ≡ take result text.now ∷ tokens_from outside (drop result text.now) }
{
    let first = text[0];
    if first == b'"' {
        1 + string_rest(&text[1..])
    } else if is_in_number(first) {
        number_len(text)
    } else {
        1
    }
}

// Whether a byte is a zero after a point, or one after a minus with no digit after it. It uses no
// `&&`, and so no branch, so that a loop over it takes many bytes at a time.
fn is_changing_zero(before: u8, byte: u8, digit_after: bool) -> bool
    ensures { result ≡ is_changing_zero before byte digit_after }
{
    (byte == b'0') & ((before == b'.') | ((before == b'-') & !digit_after))
}

// Whether the text ends with such a zero.
fn may_change_at_end(text: &[u8]) -> bool
    ensures { result ≡ may_change (drop (length text.now - 2) text.now) }
{
    match text {
        [.., before, byte] => is_changing_zero(*before, *byte, false),
        _ => false,
    }
}

// Whether the text has such a zero anywhere: a quick check, since without one no number text
// changes. The loop does not end when it finds one, so that it takes many bytes at a time.
fn may_change(text: &[u8]) -> bool
    ensures { result ≡ may_change text.now }
{
    let mut found = false;
    for i in 2..text.len() {
        found |= is_changing_zero(text[i - 2], text[i - 1], text[i].is_ascii_digit());
    }
    found || may_change_at_end(text)
}

/// The text with its number texts as [`crate::read_json`] reads them, or `None` if that is the text
/// itself. Digits, with or without a minus before them, a point and only zeros, as `1200.0`, become
/// the digits, and `-0` becomes `0`. Strings and all other bytes stay as they are. Any bytes are
/// taken, JSON or not.
///
/// # Errors
///
/// `AllocError` if memory runs out; the caller may try again.
pub fn with_whole_numbers(alloc: Global, text: &[u8]) -> Result<Option<Vec<u8>>, AllocError>
    ensures { IfOk result (λ o. MatchOption o (with_whole_numbers text.now ≡ text.now)
        (λ v. v.items ≡ with_whole_numbers text.now)) }
{
    if !may_change(text) {
        return Ok(None);
    }
    let mut plain = Vec::new(alloc);
    let mut copied = 0;
    let mut at = 0;
    while at < text.len() {
        let end = at + token_len(&text[at..]);
        let whole = whole_text(&text[at..end]);
        if whole.len() < end - at {
            plain.extend_from_slice(&text[copied..at])?;
            plain.extend_from_slice(whole)?;
            copied = end;
        }
        at = end;
    }
    if copied == 0 {
        return Ok(None);
    }
    plain.extend_from_slice(&text[copied..])?;
    Ok(Some(plain))
}
