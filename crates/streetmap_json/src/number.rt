//! Numbers from their texts.
ghost use Rattle.std.specs.Prelude.{◌≡◌, ◌==◌, ◌<◌, option_map, true, false, length, slice_index};
ghost use Rattle.std.specs.Prelude.{IsTrue};
ghost use Rattle.json.specs.Ascii as ascii;
ghost use Rattle.serde_json.specs.Read.{number_of, number_from, float_of};
ghost use Rattle.serde_json.specs.View.{number_view};

use fast_float::Numeral;
use serde_json::Number;

/// The nearest float, if it is finite.
fn float(is_negative: bool, numeral: &Numeral<'_>) -> Option<Number>
    ensures { option_map number_view result ≡ float_of is_negative numeral.now }
{
    Number::from_f64(numeral.to_float::<f64>(is_negative))
}

/// The negative number of these digits after a minus; `-0` is a float.
fn below_zero(numeral: &Numeral<'_>) -> Option<Number>
    ensures { option_map number_view result ≡ number_from true numeral.now }
{
    match numeral.to_i64(true) {
        Some(whole) if whole < 0 => Some(Number::from(whole)),
        _ => float(true, numeral),
    }
}

fn from_zero(numeral: &Numeral<'_>) -> Option<Number>
    ensures { option_map number_view result ≡ number_from false numeral.now }
{
    match numeral.to_u64() {
        Some(whole) => Some(Number::from(whole)),
        None => float(false, numeral),
    }
}

fn has_minus(text: &[u8]) -> bool
    ensures value { result ≡ (slice_index text.now 0 == ascii.minus) }
    ensures some { IsTrue result → 0 < length text.now }
{
    !text.is_empty() && text[0] == b'-'
}

/// The number of a number text, if it is not too large for a float.
pub(crate) fn read_number(text: &str) -> Option<Number>
    ensures { option_map number_view result ≡ number_of text.now }
{
    let bytes = text.as_bytes();
    if has_minus(bytes) {
        below_zero(&Numeral::scan(&bytes[1..]))
    } else {
        from_zero(&Numeral::scan(bytes))
    }
}
