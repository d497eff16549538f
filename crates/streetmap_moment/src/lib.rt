//! Moments and intervals of time, read from their texts.
//!
//! A moment is a whole number of nanoseconds since 1970-01-01T00:00:00Z. [`read_moment`] reads the
//! date-times of RFC 3339 section 5.6, [`read_interval`] the intervals of OGC 17-069 section
//! 7.15.4, and [`read_property`] the texts of a collection's time property, which may be full dates
//! too. Each is exact both ways against a grammar of its texts: what is read has this spelling and
//! this meaning, what has this spelling is read, and a text has one meaning. [`Interval::meets`]
//! says whether some moment lies in both of two intervals, and [`Interval::seconds`] gives the
//! whole seconds by which a store can search for them: intervals that meet have a second in common.
//!
//! No call of this crate allocates memory, and none fails except with a [`TimeFault`].
//!
//! In the order of reading:
//!
//! - `faults`: why a text is refused.
//! - `moments`: [`Moment`], with the range that the calendar gives it.
//! - `intervals`: [`Interval`], its meeting and its seconds.
//! - `fields`: the fields of a date-time, each read at the front of the rest of a text.
//! - `texts`: the three readers.
//! - [`laws`]: laws of the definitions, over plain values.
#![tactic(auto)]

mod faults;
mod fields;
mod intervals;
pub mod laws;
mod moments;
mod texts;

pub use faults::TimeFault;
pub use intervals::Interval;
pub use moments::Moment;
pub use texts::{read_interval, read_moment, read_property};
