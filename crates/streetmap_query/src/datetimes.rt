//! Intervals of time with their texts.
ghost use Rattle.std.specs.Prelude.{◌≡◌, Ok};
ghost use Rattle.std.specs.String.{string_bytes};
ghost use Rattle.streetmap_moment.specs.Intervals.{interval_of};
ghost use Rattle.streetmap_moment.specs.Views.{interval_value};

use streetmap_moment::Interval;

/// The value of `datetime` (OGC 17-069, 7.15.4): a moment or an interval of time, in nanoseconds,
/// beside the decoded text that it was read from.
#[derive(Drop)]
pub struct Datetime {
    /// The text, decoded. It reads as the interval.
    pub text: String,
    /// What the text means.
    pub interval: Interval,
    pub ghost reads: { interval_of (string_bytes text) ≡ Ok (interval_value interval) },
}
