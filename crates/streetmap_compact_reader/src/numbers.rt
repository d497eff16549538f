//! Whole numbers (RFC 8259, section 6).
ghost use Rattle.std.specs.Prelude.{◌≡◌, ◌++◌, ◌∷◌, ◌<◌, ◌+◌, ◌^◌, IfSome, decimal};
ghost use Rattle.serde_json.specs.Written.{compact_text};
ghost use Rattle.streetmap_feature_text.specs.Written.{number_data};

use crate::fronts::{after_byte, first_byte};

/// A decimal digit, from 0 to 9, and what follows it.
#[inline]
fn take_digit(rest: &str) -> Option<(u64, &str)>
    ensures text { IfSome result (λ r. rest.now ≡ (48 + r.0) ∷ r.1.now) }
    ensures bound { IfSome result (λ r. r.0 < 10) }
{
    let (first, rest) = first_byte(rest)?;
    if first.is_ascii_digit() {
        Some(((first - b'0') as u64, rest))
    } else {
        None
    }
}

/// A whole number of at most 15 digits, without leading zeros, and what follows it.
fn take_whole(rest: &str) -> Option<(u64, &str)>
    ensures text { IfSome result (λ r. rest.now ≡ decimal r.0 ++ r.1.now) }
    ensures bound { IfSome result (λ r. r.0 < 10 ^ 15) }
{
    let (first, after) = take_digit(rest)?;
    let mut number = first;
    let mut after = after;
    while let Some((digit, following)) = take_digit(after) {
        if number == 0 || number >= 100_000_000_000_000 {
            return None;
        }
        number = 10 * number + digit;
        after = following;
    }
    Some((number, after))
}

/// A whole number, perhaps with a minus sign, and what follows it. There is no minus zero.
pub(crate) fn take_number(rest: &str) -> Option<(i64, &str)>
    ensures { IfSome result (λ r. rest.now ≡ compact_text (number_data r.0) ++ r.1.now) }
{
    match after_byte(rest, b'-') {
        Some(rest) => {
            let (number, rest) = take_whole(rest)?;
            if number == 0 {
                return None;
            }
            Some((-(number as i64), rest))
        }
        None => {
            let (number, rest) = take_whole(rest)?;
            Some((number as i64, rest))
        }
    }
}
