//! Times in few bytes.
ghost use Rattle.std.specs.Prelude.{◌≡◌, ◌≤ℤ◌, option_map};
ghost use Rattle.std.specs.Option.{ForSome};
ghost use Rattle.streetmap_moment.specs.Range.{IsMoment};
ghost use Rattle.streetmap_moment.specs.Views.{moment_value, interval_value};
ghost use Rattle.streetmap_feature_text.specs.Ends.{end_at};

use streetmap_moment::{Interval, Moment};

/// How many nanoseconds a second has. An end with this number beside its second is absent.
const SECOND: u32 = 1_000_000_000;

/// A time or none, by its two ends: of each the whole seconds since 1970-01-01T00:00:00Z, and the
/// nanoseconds of the second. An end that is open has `SECOND` nanoseconds; no time has no end.
#[derive(Clone, Copy)]
pub(crate) struct PackedInterval {
    start: i64,
    end: i64,
    start_nanoseconds: u32,
    end_nanoseconds: u32,
    ghost start_in: { ForSome (end_at start start_nanoseconds) IsMoment },
    ghost end_in: { ForSome (end_at end end_nanoseconds) IsMoment },
    ghost ordered: { ForSome (end_at start start_nanoseconds) (λ s.
        ForSome (end_at end end_nanoseconds) (λ e. s ≤ℤ e)) },
}

/// The second and the nanoseconds of an end.
fn parts(end: Option<Moment>) -> (i64, u32)
    ensures { end_at result.0 result.1 ≡ option_map moment_value end }
{
    match end {
        Some(moment) => {
            let second = moment.nanoseconds.div_euclid(SECOND as i128);
            let rest = moment.nanoseconds - second * SECOND as i128;
            (second as i64, rest as u32)
        }
        None => (0, SECOND),
    }
}

/// The end with this second and these nanoseconds.
fn end_of(second: i64, nanoseconds: u32) -> Option<Moment>
    requires { ForSome (end_at second nanoseconds) IsMoment }
    ensures { option_map moment_value result ≡ end_at second nanoseconds }
{
    if nanoseconds < SECOND {
        Some(Moment {
            nanoseconds: second as i128 * SECOND as i128 + nanoseconds as i128,
        })
    } else {
        None
    }
}

impl PackedInterval {
    ghost use Rattle.streetmap_feature_text.specs.PackedIntervalView.{packed_interval_value};

    /// The span of a time.
    pub(crate) fn new(time: Option<Interval>) -> PackedInterval
        ensures { packed_interval_value result ≡ option_map interval_value time }
    {
        let (first, last) = match time {
            Some(interval) => (interval.start, interval.end),
            None => (None, None),
        };
        let (start, start_nanoseconds) = parts(first);
        let (end, end_nanoseconds) = parts(last);
        PackedInterval {
            start,
            end,
            start_nanoseconds,
            end_nanoseconds,
        }
    }

    /// The time.
    pub(crate) fn time(&self) -> Option<Interval>
        ensures { option_map interval_value result ≡ packed_interval_value self.now }
    {
        let start = end_of(self.start, self.start_nanoseconds);
        let end = end_of(self.end, self.end_nanoseconds);
        if start.is_none() && end.is_none() {
            None
        } else {
            Some(Interval { start, end })
        }
    }
}
