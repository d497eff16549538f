//! Why a text of time is refused.

/// Why a text gives no moment or no interval.
#[derive(Clone, Copy, PartialEq, Eq)]
pub enum TimeFault {
    /// `bad_time`: the text has none of the forms, or the calendar has no such day.
    BadTime,
    /// `empty_interval`: the start of the interval is after its end.
    EmptyInterval,
}
