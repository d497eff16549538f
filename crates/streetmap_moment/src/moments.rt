//! Moments of time.
ghost use Rattle.std.specs.Prelude.{◌≡◌, ℤ, ◌<◌, pos, ◌*ℤ◌, ◌+ℤ◌, ◌-ℤ◌, neg_ℤ};
ghost use Rattle.jiff_core.specs.Calendar.{IsBetween};
ghost use Rattle.streetmap_moment.specs.DateTime.{nanoseconds};
ghost use Rattle.streetmap_moment.specs.Meeting.{second_of, IsSecond};
ghost use Rattle.streetmap_moment.specs.Range.{IsMoment, IsDayNumber, IsOffsetSeconds};

/// A moment, in nanoseconds since 1970-01-01T00:00:00Z.
///
/// It lies within what the date-times of RFC 3339 section 5.6 can mean: from
/// 0000-01-01T00:00:00+23:59 to 9999-12-31T23:59:59.999999999-23:59, which is from
/// -62,167,305,540,000,000,000 to 253,402,387,139,999,999,999. Later moments are greater.
#[derive(Clone, Copy, PartialEq, Eq, PartialOrd, Ord)]
pub struct Moment {
    /// The nanoseconds since 1970-01-01T00:00:00Z.
    pub nanoseconds: i128,
    pub ghost in_range: { IsMoment nanoseconds },
}

impl Moment {
    // The whole seconds since 1970-01-01T00:00:00Z, rounded down.
    pub(crate) fn second(self) -> i64
        ensures value { result ≡ second_of self.nanoseconds }
        ensures bound { IsSecond result }
    {
        self.nanoseconds.div_euclid(1_000_000_000) as i64
    }

    // The moment of a day number, the seconds of the day, the nanoseconds of the second, and an
    // offset in seconds.
    pub(crate) fn at(day: i32, clock: u32, fraction: u32, offset: i32) -> Moment
        requires day_in { IsDayNumber day }
        requires clock_in { clock < 86_400 }
        requires fraction_in { fraction < 1_000_000_000 }
        requires offset_in { IsOffsetSeconds offset }
        ensures { result.nanoseconds ≡ nanoseconds day clock fraction offset }
    {
        let seconds = seconds(day, clock, offset);
        Moment {
            nanoseconds: seconds as i128 * 1_000_000_000 + fraction as i128,
        }
    }
}

// The seconds since 1970-01-01T00:00:00Z.
fn seconds(day: i32, clock: u32, offset: i32) -> i64
    requires day_in { IsDayNumber day }
    requires clock_in { clock < 86_400 }
    requires offset_in { IsOffsetSeconds offset }
    ensures value { result ≡ day *ℤ pos 86_400 +ℤ pos clock -ℤ offset }
    ensures bound { IsBetween (neg_ℤ (pos 62_167_305_540)) (pos 253_402_387_139) result }
{
    day as i64 * 86_400 + clock as i64 - offset as i64
}
