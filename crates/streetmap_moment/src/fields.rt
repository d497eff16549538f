//! The fields of a date-time (RFC 3339 section 5.6), each read at the front of the rest of a text.
ghost use Rattle.std.specs.Prelude.{◌≡◌, ◌*◌, ◌+◌, ◌-◌, ◌<◌, ◌≤◌, ◌^◌, ◌↔◌, IfSome};
ghost use Rattle.std.specs.Prelude.{option_copied, ◌≤ℤ◌, ◌-ℤ◌};
ghost use Rattle.streetmap_moment.specs.DateTimeParts.{read_view, digit_at, two_digits_at};
ghost use Rattle.streetmap_moment.specs.DateTimeParts.{four_digits_at, below_at, mark_at, date_at};
ghost use Rattle.streetmap_moment.specs.DateTimeParts.{day_of, clock_at, digits_at, fraction_at};
ghost use Rattle.streetmap_moment.specs.DateTimeParts.{hours_of, offset_of};
ghost use Rattle.streetmap_moment.specs.Range.{IsDayNumber, IsOffsetSeconds};

use jiff_core::civil::Date;

/// A decimal digit.
#[tactic(auto, unfolding(crate::specs::DateTimeParts::digit_at))]
fn digit(text: &[u8]) -> Option<(u32, &[u8])>
    ensures value { read_view result ≡ digit_at text.now }
    ensures bound { IfSome result (λ x. x.0 < 10) }
{
    let (&first, rest) = text.split_first()?;
    if first.is_ascii_digit() {
        Some(((first - b'0') as u32, rest))
    } else {
        None
    }
}

/// The number of two digits.
#[tactic(auto, unfolding(crate::specs::DateTimeParts::two_digits_at))]
fn two_digits(text: &[u8]) -> Option<(u32, &[u8])>
    ensures value { read_view result ≡ two_digits_at text.now }
    ensures bound { IfSome result (λ x. x.0 < 100) }
{
    let (tens, rest) = digit(text)?;
    let (ones, rest) = digit(rest)?;
    Some((10 * tens + ones, rest))
}

/// The number of four digits.
#[tactic(auto, unfolding(crate::specs::DateTimeParts::four_digits_at))]
fn four_digits(text: &[u8]) -> Option<(u32, &[u8])>
    ensures value { read_view result ≡ four_digits_at text.now }
    ensures bound { IfSome result (λ x. x.0 < 10_000) }
{
    let (high, rest) = two_digits(text)?;
    let (low, rest) = two_digits(rest)?;
    Some((100 * high + low, rest))
}

/// Two digits whose number is below the limit.
#[tactic(auto, unfolding(crate::specs::DateTimeParts::below_at))]
fn below(limit: u32, text: &[u8]) -> Option<(u32, &[u8])>
    ensures value { read_view result ≡ below_at limit text.now }
    ensures bound { IfSome result (λ x. x.0 < limit) }
{
    let (number, rest) = two_digits(text)?;
    if number < limit {
        Some((number, rest))
    } else {
        None
    }
}

/// What follows one of the two marks.
#[tactic(auto, unfolding(crate::specs::DateTimeParts::mark_at))]
pub(crate) fn after_mark(mark: u8, other: u8, text: &[u8]) -> Option<&[u8]>
    ensures { option_copied result ≡ mark_at mark other text.now }
{
    let (&first, rest) = text.split_first()?;
    if first == mark || first == other {
        Some(rest)
    } else {
        None
    }
}

/// The day number of a date, from 1970-01-01.
#[tactic(auto, unfolding(crate::specs::DateTimeParts::date_at))]
pub(crate) fn date(text: &[u8]) -> Option<(i32, &[u8])>
    ensures value { read_view result ≡ date_at text.now }
    ensures bound { IfSome result (λ x. IsDayNumber x.0) }
{
    let (year, rest) = four_digits(text)?;
    let rest = after_mark(b'-', b'-', rest)?;
    let (month, rest) = two_digits(rest)?;
    let rest = after_mark(b'-', b'-', rest)?;
    let (day, rest) = two_digits(rest)?;
    Some((day_number(year, month, day)?, rest))
}

/// The day number of a day that the calendar has.
#[tactic(auto, unfolding(crate::specs::DateTimeParts::day_of))]
fn day_number(year: u32, month: u32, day: u32) -> Option<i32>
    requires year_in { year < 10_000 }
    requires month_in { month < 100 }
    requires day_in { day < 100 }
    ensures value { result ≡ day_of year month day }
    ensures bound { IfSome result IsDayNumber }
{
    let Ok(date) = Date::new(year as i16, month as i8, day as i8) else {
        return None;
    };
    Some(date.to_unix_epoch_day())
}

/// The seconds of a time of day.
#[tactic(auto, unfolding(crate::specs::DateTimeParts::clock_at))]
pub(crate) fn clock(text: &[u8]) -> Option<(u32, &[u8])>
    ensures value { read_view result ≡ clock_at text.now }
    ensures bound { IfSome result (λ x. x.0 < 86_400) }
{
    let (hour, rest) = below(24, text)?;
    let rest = after_mark(b':', b':', rest)?;
    let (minute, rest) = below(60, rest)?;
    let rest = after_mark(b':', b':', rest)?;
    let (second, rest) = below(60, rest)?;
    Some((hour * 3600 + minute * 60 + second, rest))
}

/// The nanoseconds of at most eight digits, of which the first counts ten million.
fn nanoseconds(text: &[u8]) -> Option<(u32, &[u8])>
    ensures value { read_view result ≡ digits_at 10_000_000 text.now }
    ensures bound { IfSome result (λ x. x.0 < 100_000_000) }
{
    let mut unit = 10_000_000;
    let mut total = 0;
    let mut rest = text;
    while let Some((number, following)) = digit(rest) {
        if unit == 0 {
            return None;
        }
        total += number * unit;
        unit /= 10;
        rest = following;
    }
    Some((total, rest))
}

/// The nanoseconds of a point and one to nine digits, or 0 without a point.
#[tactic(auto, unfolding(crate::specs::DateTimeParts::fraction_at))]
pub(crate) fn fraction(text: &[u8]) -> Option<(u32, &[u8])>
    ensures value { read_view result ≡ fraction_at text.now }
    ensures bound { IfSome result (λ x. x.0 < 1_000_000_000) }
{
    match text.split_first() {
        Some((&b'.', rest)) => {
            let (first, rest) = digit(rest)?;
            let (more, rest) = nanoseconds(rest)?;
            Some((first * 100_000_000 + more, rest))
        }
        _ => Some((0, text)),
    }
}

/// The seconds of hours and minutes, after which the text ends.
#[tactic(auto, unfolding(crate::specs::DateTimeParts::hours_of))]
fn hours(text: &[u8]) -> Option<u32>
    ensures value { result ≡ hours_of text.now }
    ensures bound { IfSome result (λ n. n ≤ 86_340) }
{
    let (hour, rest) = below(24, text)?;
    let rest = after_mark(b':', b':', rest)?;
    let (minute, rest) = below(60, rest)?;
    if !rest.is_empty() {
        return None;
    }
    Some(hour * 3600 + minute * 60)
}

/// The seconds of the offset that ends a text.
#[tactic(auto, unfolding(crate::specs::DateTimeParts::offset_of))]
pub(crate) fn offset(text: &[u8]) -> Option<i32>
    ensures value { result ≡ offset_of text.now }
    ensures bound { IfSome result (IsOffsetSeconds) }
{
    let (&first, rest) = text.split_first()?;
    match first {
        b'Z' | b'z' => {
            if !rest.is_empty() {
                return None;
            }
            Some(0)
        }
        b'+' | b' ' => Some(hours(rest)? as i32),
        b'-' => Some(-(hours(rest)? as i32)),
        _ => None,
    }
}
