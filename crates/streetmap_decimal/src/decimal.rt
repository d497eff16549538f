//! Decimal numbers.
ghost use Rattle.std.specs.Prelude.{◌≡◌, ◌<◌, ◌≤◌, ◌^◌, unsigned_abs};

use crate::arithmetic::{COUNT_LIMIT, digits_value, divided, multiplied, sides, signed};
use crate::fault::DecimalFault;
use crate::number::{Number, read_number};

/// The most characters that a text may have.
const MAX_LEN: usize = 38;

/// The decimal places that are kept of coordinates and of the shift.
pub(crate) const COORDINATE_PLACES: u8 = 18;

/// The bound of the count of an option, a scale or a shift: each is smaller.
const OPTION_LIMIT: u128 = 1_000_000_000_000_000_000_000_000_000_000_000_000;

/// The number m * 10^e, for a whole mantissa m and a whole exponent e.
#[derive(Clone, Copy, PartialEq, Eq)]
pub(crate) struct Decimal {
    pub mantissa: i128,
    pub exponent: i128,
    pub ghost mantissa_in: { unsigned_abs mantissa < 10 ^ 38 },
    pub ghost exponent_in: { unsigned_abs exponent < 10 ^ 38 },
}

impl Decimal {
    ghost use Rattle.std.specs.Prelude.{◌<◌, ◌^◌, IfSome};
    ghost use Rattle.streetmap_decimal.specs.Decimal.{Counts, Encloses, Shifts, Sides};
    ghost use Rattle.streetmap_decimal.specs.Decimal.{ReadsDecimal, ReadsCount};
    ghost use Rattle.streetmap_decimal.specs.DecimalViews.{decimal_view};
    ghost use Rattle.streetmap_decimal.specs.NumberText.{mantissa, exponent};
    ghost use Rattle.streetmap_decimal.specs.Options.{ReadsOption};
    ghost use Rattle.streetmap_decimal.specs.Readable.{IsReadable};
    ghost use Rattle.streetmap_decimal.specs.Views.{components_view};

    /// The number of a text (RFC 8259, section 6), such as `-500000.125` or `1.5e3`.
    ///
    /// # Errors
    ///
    /// `TooManyDigits` if the text has more than 38 characters, otherwise `NotANumber` if it is not
    /// a number.
    pub fn read(text: &[u8]) -> Result<Decimal, DecimalFault>
        ensures { ReadsDecimal text.now (decimal_view result) }
    {
        if text.len() > MAX_LEN {
            return Err(DecimalFault::TooManyDigits);
        }
        match read_number(text) {
            Some(number) => Ok(Decimal {
                mantissa: Decimal::mantissa_of(&number),
                exponent: Decimal::exponent_of(&number),
            }),
            None => Err(DecimalFault::NotANumber),
        }
    }

    // The digits before the exponent, as one whole number.
    fn mantissa_of(number: &Number<'_>) -> i128
        requires { IsReadable (components_view number.now) }
        ensures value { result ≡ mantissa (components_view number.now) }
        ensures bound { unsigned_abs result < 10 ^ 38 }
    {
        let whole = digits_value(0, number.whole);
        signed(number.is_negative, digits_value(whole, number.fraction))
    }

    // The exponent, one less for each digit of the fraction.
    fn exponent_of(number: &Number<'_>) -> i128
        requires { IsReadable (components_view number.now) }
        ensures value { result ≡ exponent (components_view number.now) }
        ensures bound { unsigned_abs result < 10 ^ 38 }
    {
        let magnitude = digits_value(0, number.exponent);
        signed(number.is_exponent_negative, magnitude) - number.fraction.len() as i128
    }

    /// The number as a count of 10^-places.
    ///
    /// # Errors
    ///
    /// `TooManyDigits` if that is not a whole number, `OutOfGrid` if it is 10^37 or more.
    pub fn count(&self, places: u8) -> Result<i128, DecimalFault>
        ensures { Counts places self.now.mantissa self.now.exponent result }
    {
        let power = self.exponent + places as i128;
        let magnitude = Decimal::shifted(self.mantissa.unsigned_abs(), power)?;
        Ok(signed(self.mantissa < 0, magnitude))
    }

    // The number of a text as a count of 10^-places.
    fn count_of_text(text: &[u8], places: u8) -> Result<i128, DecimalFault>
        ensures { ReadsCount places text.now result }
    {
        let decimal = Decimal::read(text)?;
        decimal.count(places)
    }

    /// The number of an option's text as a count of 10^-places, if that is a whole number below
    /// 10^36.
    pub(crate) fn count_of_option(text: &[u8], places: u8) -> Option<i128>
        ensures reads { ReadsOption places text.now result }
        ensures bound { IfSome result (λ u. unsigned_abs u < 10 ^ 36) }
    {
        match Decimal::count_of_text(text, places) {
            Ok(count) if count.unsigned_abs() < OPTION_LIMIT => Some(count),
            _ => None,
        }
    }

    /// The whole counts of 10^-places on both sides of the number, of which the first is nearer to
    /// zero: both are its count, if that is whole.
    ///
    /// # Errors
    ///
    /// `OutOfGrid` if the count is 10^37 or more.
    pub(crate) fn enclosing(&self, places: u8) -> Result<(i128, i128), DecimalFault>
        ensures { Encloses places self.now.mantissa self.now.exponent result }
    {
        let power = self.exponent + places as i128;
        let (lower, upper) = Decimal::sides(self.mantissa.unsigned_abs(), power)?;
        let is_negative = self.mantissa < 0;
        Ok((signed(is_negative, lower), signed(is_negative, upper)))
    }

    // The number times 10^power.
    fn shifted(number: u128, power: i128) -> Result<u128, DecimalFault>
        requires { number < 10 ^ 38 }
        ensures { Shifts number power result }
    {
        if power >= 0 {
            return multiplied(number, power as u128).ok_or(DecimalFault::OutOfGrid);
        }
        match divided(number, power.unsigned_abs()) {
            Some(count) if count < COUNT_LIMIT => Ok(count),
            Some(_) => Err(DecimalFault::OutOfGrid),
            None => Err(DecimalFault::TooManyDigits),
        }
    }

    // The whole numbers on both sides of the number times 10^power, the lower first.
    fn sides(number: u128, power: i128) -> Result<(u128, u128), DecimalFault>
        requires { number < 10 ^ 38 }
        ensures { Sides number power result }
    {
        if power >= 0 {
            return match multiplied(number, power as u128) {
                Some(count) => Ok((count, count)),
                None => Err(DecimalFault::OutOfGrid),
            };
        }
        let (lower, upper) = sides(number, power.unsigned_abs());
        if lower < COUNT_LIMIT {
            Ok((lower, upper))
        } else {
            Err(DecimalFault::OutOfGrid)
        }
    }
}
