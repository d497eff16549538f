//! The scale of a map.
ghost use Rattle.std.specs.Prelude.{◌<◌, ◌≤◌, ◌^◌, pos, ◌<ℤ◌, unsigned_abs};

use crate::decimal::Decimal;

/// The decimal places that are kept of the scale.
const SCALE_PLACES: u8 = 9;

/// One, in 10^-9.
const ONE: i128 = 1_000_000_000;

/// The smallest scale, in 10^-9.
const LEAST: i128 = 1;

/// How many millimetres of the grid one unit of a map is: a number above 0, counted in 10^-9.
#[derive(Clone, Copy, PartialEq, Eq)]
pub struct Scale {
    /// The scale, counted in 10^-9.
    pub count: i128,
    pub ghost count_in: { unsigned_abs count < 10 ^ 36 },
    pub ghost above_zero: { pos 0 <ℤ count },
}

impl Scale {
    ghost use Rattle.std.specs.Prelude.{◌≡◌, ◌<◌, ◌^◌, pos};
    ghost use Rattle.streetmap_decimal.specs.DecimalViews.{ReadsScale};

    /// The scale of a map in millimetres.
    pub fn one() -> Scale
        ensures { result.count ≡ pos (10 ^ 9) }
    {
        Scale { count: ONE }
    }

    /// The scale of a text, such as `1000` for a map in metres and `304.8` for one in feet.
    ///
    /// None if the text is not a number (RFC 8259, section 6), has more than 38 characters, or the
    /// number is 0 or less, not a whole multiple of 10^-9, or 10^27 or more.
    pub fn read(text: &[u8]) -> Option<Scale>
        ensures { ReadsScale text.now result }
    {
        match Decimal::count_of_option(text, SCALE_PLACES) {
            Some(count) if count >= LEAST => Some(Scale { count }),
            _ => None,
        }
    }
}
