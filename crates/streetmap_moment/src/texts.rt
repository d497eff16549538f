//! Moments and intervals, read from their texts.
ghost use Rattle.std.specs.Prelude.{◌≡◌, ◌||◌, ℤ, Ok, IfOk, IfErr, IfSome, IsTrue, is_some};
ghost use Rattle.std.specs.Prelude.{ok_or, option_map};
ghost use Rattle.streetmap_moment.specs.DateTime.{IsMomentText};
ghost use Rattle.streetmap_moment.specs.IntervalText.{day_interval, IsIntervalText, IsPropertyText};
ghost use Rattle.streetmap_moment.specs.IntervalText.{IsFaultOf};
ghost use Rattle.streetmap_moment.specs.IntervalValue.{IntervalValue, IsInOrder};
ghost use Rattle.streetmap_moment.specs.Intervals.{end_of, ends_of, full_date_of, interval_of};
ghost use Rattle.streetmap_moment.specs.Intervals.{property_of};
ghost use Rattle.streetmap_moment.specs.Range.{IsDayNumber};
ghost use Rattle.streetmap_moment.specs.DateTimeParts.{moment_of};
ghost use Rattle.streetmap_moment.specs.Views.{moment_value, moment_result, ends_value};
ghost use Rattle.streetmap_moment.specs.Views.{interval_value, interval_result};

use crate::faults::TimeFault;
use crate::fields;
use crate::intervals::Interval;
use crate::moments::Moment;

// The moment of a whole text, if it is a date-time.
#[tactic(auto, unfolding(crate::specs::DateTimeParts::moment_of))]
fn date_time(text: &str) -> Option<Moment>
    ensures { option_map moment_value result ≡ moment_of text.now }
{
    let (day, rest) = fields::date(text.as_bytes())?;
    let rest = fields::after_mark(b'T', b't', rest)?;
    let (clock, rest) = fields::clock(rest)?;
    let (fraction, rest) = fields::fraction(rest)?;
    let offset = fields::offset(rest)?;
    Some(Moment::at(day, clock, fraction, offset))
}

// An end of an interval text: open if it is empty or two points.
fn end_at(text: &str) -> Option<Option<Moment>>
    ensures { option_map (option_map moment_value) result ≡ end_of text.now }
{
    if text.is_empty() || text == ".." {
        return Some(None);
    }
    Some(Some(date_time(text)?))
}

// The ends of an interval text, at least one of which must be given.
#[tactic(auto, unfolding(crate::specs::Intervals::ends_of))]
fn ends_at(text: &str) -> Option<(Option<Moment>, Option<Moment>)>
    ensures value { option_map (λ ends. ends_value ends.0 ends.1) result ≡ ends_of text.now }
    ensures bounded { IfSome result (λ ends. IsTrue (is_some ends.0 || is_some ends.1)) }
{
    match text.split_once('/') {
        None => {
            let moment = date_time(text)?;
            Some((Some(moment), Some(moment)))
        }
        Some((before, after)) => {
            let start = end_at(before)?;
            let end = end_at(after)?;
            if start.is_none() && end.is_none() {
                return None;
            }
            Some((start, end))
        }
    }
}

// The day number of a whole text that is a full date.
#[tactic(auto, unfolding(crate::specs::Intervals::full_date_of))]
fn full_date(text: &str) -> Option<i32>
    ensures value { result ≡ full_date_of text.now }
    ensures bound { IfSome result IsDayNumber }
{
    let (day, rest) = fields::date(text.as_bytes())?;
    if !rest.is_empty() {
        return None;
    }
    Some(day)
}

// The UTC day of a day number.
fn day(number: i32) -> Interval
    requires { IsDayNumber number }
    ensures { interval_value result ≡ day_interval number }
{
    let start = Moment::at(number, 0, 0, 0);
    let end = Moment::at(number, 86_399, 999_999_999, 0);
    Interval {
        start: Some(start),
        end: Some(end),
    }
}

/// The moment of a date-time, in nanoseconds since 1970-01-01T00:00:00Z.
///
/// A date-time (RFC 3339 section 5.6) is `YYYY-MM-DD`, `T` or `t`, `hh:mm:ss`, optionally a point
/// and one to nine digits, and then `Z`, `z` or a sign and `hh:mm`. The day exists in the Gregorian
/// calendar (section 5.7), in the years 0000 to 9999; hours go to 23, minutes and seconds to 59, in
/// the offset too. Second 60 is refused: leap seconds are not kept. A space is read as the sign
/// `+`, since `+` in the text of a query decodes to a space.
///
/// # Errors
///
/// [`TimeFault::BadTime`] if the text is not a date-time.
pub fn read_moment(text: &str) -> Result<Moment, TimeFault>
    // What is read is a date-time that means this moment.
    ensures found { IfOk result (λ m. IsMomentText text.now m.nanoseconds) }
    // A text that is a date-time is read.
    ensures only { (n : ℤ) → IsMomentText text.now n → moment_result result ≡ Ok n }
    ensures fault { IfErr result (λ e. e ≡ TimeFault.BadTime) }
    ensures one_meaning { (n k : ℤ) → IsMomentText text.now n → IsMomentText text.now k
        → n ≡ k }
    // The result, as a function of the text.
    ensures value { moment_result result ≡ ok_or (moment_of text.now) TimeFault.BadTime }
{
    date_time(text).ok_or(TimeFault::BadTime)
}

/// The interval of an interval text, both ends included.
///
/// With date-times `a` and `b` as [`read_moment`] takes them, an interval text (OGC 17-069 section
/// 7.15.4) is `a`, whose two ends are that moment, `a/b`, `a/..` or `a/`, whose end is open, or
/// `../b` or `/b`, whose start is open.
///
/// # Errors
///
/// [`TimeFault::BadTime`] if the text is none of these, such as `../..`, and
/// [`TimeFault::EmptyInterval`] if the start is after the end.
pub fn read_interval(text: &str) -> Result<Interval, TimeFault>
    // What is read is an interval text that means this interval.
    ensures found { IfOk result (λ i. IsIntervalText text.now (interval_value i)) }
    // An interval text whose start is not after its end is read.
    ensures only { (i : IntervalValue) → IsIntervalText text.now i → IsInOrder i.start i.end
        → interval_result result ≡ Ok i }
    ensures fault { IfErr result (IsFaultOf IsIntervalText text.now) }
    ensures one_meaning { (i j : IntervalValue) → IsIntervalText text.now i
        → IsIntervalText text.now j → i ≡ j }
    // The result, as a function of the text.
    ensures value { interval_result result ≡ interval_of text.now }
{
    let (start, end) = ends_at(text).ok_or(TimeFault::BadTime)?;
    Interval::between(start, end)
}

/// The interval of the text of a time property.
///
/// The text is a full date `YYYY-MM-DD` (RFC 3339 section 5.6), which represents the UTC day from
/// its first to its last nanosecond, or an interval text as [`read_interval`] takes it.
///
/// # Errors
///
/// [`TimeFault::BadTime`] if the text is neither, and [`TimeFault::EmptyInterval`] if the start of
/// the interval is after its end.
pub fn read_property(text: &str) -> Result<Interval, TimeFault>
    // What is read is a full date or an interval text that means this interval.
    ensures found { IfOk result (λ i. IsPropertyText text.now (interval_value i)) }
    // A full date is read, and an interval text whose start is not after its end.
    ensures only { (i : IntervalValue) → IsPropertyText text.now i → IsInOrder i.start i.end
        → interval_result result ≡ Ok i }
    ensures fault { IfErr result (IsFaultOf IsPropertyText text.now) }
    ensures one_meaning { (i j : IntervalValue) → IsPropertyText text.now i
        → IsPropertyText text.now j → i ≡ j }
    // The result, as a function of the text.
    ensures value { interval_result result ≡ property_of text.now }
{
    match full_date(text) {
        Some(number) => Ok(day(number)),
        None => read_interval(text),
    }
}
