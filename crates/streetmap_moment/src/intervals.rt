//! Intervals of time.
ghost use Rattle.std.specs.Prelude.{◌≡◌, ◌||◌, ℤ, ℕ, IfOk, IfErr, IsTrue, ◌↔◌, is_some};
ghost use Rattle.std.specs.Prelude.{◌≤ℤ◌, true, false};
ghost use Rattle.std.specs.Option.{ForSome};

use crate::faults::TimeFault;
use crate::moments::Moment;

/// An interval of time, both ends included, as in the parameter `datetime` of OGC 17-069 section
/// 7.15.4. One of its two ends may be open.
///
/// The start is not after the end, and the two are not both open.
#[derive(Clone, Copy, PartialEq, Eq)]
pub struct Interval {
    /// The first moment, or none if the start is open.
    pub start: Option<Moment>,
    /// The last moment, or none if the end is open.
    pub end: Option<Moment>,
    pub ghost bounded: { IsTrue (is_some start || is_some end) },
    pub ghost ordered: { ForSome start (λ s. ForSome end (λ e. s.nanoseconds ≤ℤ e.nanoseconds)) },
}

impl Interval {
    ghost use Rattle.std.specs.Prelude.{◌≡◌, ◌||◌, ◌↔◌, IfSome, IfOk, IfErr, IsTrue, is_some};
    ghost use Rattle.std.specs.Prelude.{option_map, true, false};
    ghost use Rattle.streetmap_moment.specs.IntervalValue.{starts_after};
    ghost use Rattle.streetmap_moment.specs.Meeting.{Meets, HaveCommonMoment, IsSecondOf, IsSecond};
    ghost use Rattle.streetmap_moment.specs.Meeting.{meets, seconds_of, seconds_overlap};
    ghost use Rattle.streetmap_moment.specs.Views.{moment_value, interval_value};

    // Whether the start is after the end, if both are given.
    fn starts_after(start: Option<Moment>, end: Option<Moment>) -> bool
        ensures { result ≡ starts_after (option_map moment_value start)
            (option_map moment_value end) }
    {
        match (start, end) {
            (Some(start), Some(end)) => end.nanoseconds < start.nanoseconds,
            _ => false,
        }
    }

    // The interval between two ends, at least one of which must be given.
    pub(crate) fn between(start: Option<Moment>, end: Option<Moment>) -> Result<Interval, TimeFault>
        requires { IsTrue (is_some start || is_some end) }
        ensures ok { IfOk result (λ i. (i.start ≡ start) × (i.end ≡ end)
            × (starts_after (option_map moment_value start) (option_map moment_value end)
            ≡ false)) }
        ensures err { IfErr result (λ e. (e ≡ TimeFault.EmptyInterval)
            × (starts_after (option_map moment_value start) (option_map moment_value end) ≡ true)) }
    {
        match (start, end) {
            (Some(first), Some(last)) => {
                if last.nanoseconds < first.nanoseconds {
                    return Err(TimeFault::EmptyInterval);
                }
                Ok(Interval {
                    start: Some(first),
                    end: Some(last),
                })
            }
            (Some(first), None) => Ok(Interval {
                start: Some(first),
                end: None,
            }),
            (None, Some(last)) => Ok(Interval {
                start: None,
                end: Some(last),
            }),
            (None, None) => unreachable!(),
        }
    }

    /// Whether the two intervals meet: neither ends before the other starts, so that some moment
    /// lies in both. An open end is never over, and an open start has always begun.
    pub fn meets(&self, other: &Interval) -> bool
        ensures meeting { IsTrue result ↔ Meets (interval_value self.now)
            (interval_value other.now) }
        ensures common { IsTrue result ↔ HaveCommonMoment (interval_value self.now)
            (interval_value other.now) }
        // Intervals that meet have a second in common.
        ensures seconds { IsTrue result
            → IsTrue (seconds_overlap (interval_value self.now) (interval_value other.now)) }
        ensures value { result ≡ meets (interval_value self.now) (interval_value other.now) }
    {
        !Interval::starts_after(other.start, self.end)
            && !Interval::starts_after(self.start, other.end)
    }

    /// Whether the two intervals have a second in common, if each end between two seconds is
    /// rounded down and both ends belong to the interval.
    pub fn overlaps_seconds(&self, other: &Interval) -> bool
        ensures { result ≡ seconds_overlap (interval_value self.now) (interval_value other.now) }
    {
        let (start, end) = self.seconds();
        let (other_start, other_end) = other.seconds();
        start <= other_end && other_start <= end
    }

    /// The first and the last second of the interval: its ends in whole seconds since
    /// 1970-01-01T00:00:00Z, rounded down.
    ///
    /// An open start is -1,000,000,000,000 and an open end 1,000,000,000,000, beyond every date of
    /// the calendar.
    pub fn seconds(&self) -> (i64, i64)
        ensures value { result ≡ seconds_of (interval_value self.now) }
        ensures start { IfSome (interval_value self.now).start (λ n. IsSecondOf n result.0) }
        ensures end { IfSome (interval_value self.now).end (λ n. IsSecondOf n result.1) }
        ensures bound { IsSecond result.0 × IsSecond result.1 }
    {
        let first = match self.start {
            Some(moment) => moment.second(),
            None => -1_000_000_000_000,
        };
        let last = match self.end {
            Some(moment) => moment.second(),
            None => 1_000_000_000_000,
        };
        (first, last)
    }
}
