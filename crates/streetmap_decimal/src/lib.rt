//! Coordinates of a map as decimal texts, and the whole millimetres of the grid that they result
//! in, by whole-number arithmetic alone.
//!
//! Maps come in metres, feet or another unit and far from zero, with fractions. A [`Placement`] has
//! a [`Scale`] and a [`Shift`], both read from texts of the command line, and gives the number of
//! the grid for a coordinate of the map: (n - shift) * scale, a height by the scale alone
//! ([`Axis`]). A result between two whole numbers is rounded, half away from zero, or refused
//! ([`Rounding`]).
//!
//! A number text (RFC 8259, section 6) has at most 38 characters. The shift is a whole multiple of
//! 10^-18 below 10^18, the scale one of 10^-9 below 10^27, and a coordinate may be as large as the
//! grid takes. Anything beyond that is a fault, and nothing is dropped: digits of a coordinate
//! after its 18th decimal place are taken if it is rounded, and the result is the same at both ends
//! of the gap that they lie in.
//!
//! No call of this crate allocates memory.
//!
//! Modules, in the order of reading: `fault`, `rounding`, `arithmetic`, `number`, `decimal`,
//! `scale`, `shift`, `axis`, `placement`, `laws`.
#![tactic(auto)]

mod arithmetic;
mod axis;
mod decimal;
mod fault;
pub mod laws;
mod number;
mod placement;
mod rounding;
mod scale;
mod shift;

pub use axis::Axis;
pub use fault::DecimalFault;
pub use placement::Placement;
pub use rounding::Rounding;
pub use scale::Scale;
pub use shift::Shift;
