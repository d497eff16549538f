//! From a map's coordinates to the whole numbers of the grid.
ghost use Rattle.std.specs.Prelude.{◌≡◌, ◌<◌, ◌≤◌, ◌^◌, IfOk, IfSome, IfNone, pos, ◌<ℤ◌, Err};
ghost use Rattle.std.specs.Prelude.{unsigned_abs};
ghost use Rattle.streetmap_decimal.specs.Grid.{placed, RoundsTo, IsExactCoordinate};

use crate::arithmetic::signed;
use crate::axis::Axis;
use crate::decimal::{COORDINATE_PLACES, Decimal};
use crate::fault::DecimalFault;
use crate::rounding::Rounding;
use crate::scale::Scale;
use crate::shift::Shift;

/// One, in the unit of a coordinate times a scale.
const ONE: u128 = 1_000_000_000_000_000_000_000_000_000;

/// The greatest coordinate of the grid, in millimetres.
const GREATEST_COORDINATE: u128 = 1_000_000_000;

/// The position of a map in the grid: a coordinate n of the map is (n - shift) * scale there.
#[derive(Clone, Copy, PartialEq, Eq)]
pub struct Placement {
    /// Which position of the map is the grid's 0,0.
    pub shift: Shift,
    /// How many millimetres one unit of the map is.
    pub scale: Scale,
    /// What a result becomes if it is not whole.
    pub rounding: Rounding,
}

impl Placement {
    ghost use Rattle.streetmap_decimal.specs.Axes.{shift_of};
    ghost use Rattle.streetmap_decimal.specs.Grid.{PlacesText};
    ghost use Rattle.streetmap_decimal.specs.Nearest.{IsNearestToText, IsOffGrid};
    ghost use Rattle.streetmap_decimal.specs.declared.fault.DecimalFault.TheVariants.{OutOfGrid};

    /// The number of the grid, in millimetres, of a coordinate of the map from its text: (n -
    /// shift) * scale, and a height times the scale alone.
    ///
    /// # Errors
    ///
    /// `TooManyDigits` if the text has more than 38 characters, otherwise `NotANumber` if it is not
    /// a number (RFC 8259, section 6). Then, if the result must be whole: `TooManyDigits` if the
    /// number has digits after the 18th decimal place, `OutOfGrid` if the nearest whole number is
    /// not a coordinate, and `Fraction` if the result is not whole. If it is rounded: `OutOfGrid`
    /// if the result is beyond the grid on both sides of the gap after the 18th place, and
    /// `TooManyDigits` if the two sides differ.
    pub fn grid_of_text(&self, axis: Axis, text: &[u8]) -> Result<i64, DecimalFault>
        ensures places { PlacesText (shift_of axis self.now.shift) self.now.scale.count
            self.now.rounding text.now result }
        // The result is the nearest whole number to the exact value, half away from zero.
        ensures nearest { IfOk result (λ g. IsNearestToText (shift_of axis self.now.shift)
            self.now.scale.count text.now g) }
        // A text that is refused as out of the grid has no coordinate there, by its exact value.
        ensures off_grid { result ≡ Err OutOfGrid → IsOffGrid (shift_of axis self.now.shift)
            self.now.scale.count text.now }
    {
        let coordinate = Decimal::read(text)?;
        self.axis(axis).grid(&coordinate, self.rounding)
    }

    // The shift and the scale of one coordinate.
    fn axis(&self, axis: Axis) -> AxisPlacement
        ensures shift { result.shift ≡ shift_of axis self.now.shift }
        ensures scale { result.scale ≡ self.now.scale.count }
    {
        let shift = match axis {
            Axis::Easting => self.shift.easting,
            Axis::Northing => self.shift.northing,
            Axis::Height => 0,
        };
        AxisPlacement {
            shift,
            scale: self.scale.count,
        }
    }
}

/// The shift and the scale of one coordinate.
#[derive(Clone, Copy, PartialEq, Eq)]
pub(crate) struct AxisPlacement {
    /// The shift, counted in 10^-18.
    pub shift: i128,
    /// The scale, counted in 10^-9.
    pub scale: i128,
    pub ghost shift_in: { unsigned_abs shift < 10 ^ 36 },
    pub ghost scale_in: { unsigned_abs scale < 10 ^ 36 },
    pub ghost above_zero: { pos 0 <ℤ scale },
}

impl AxisPlacement {
    ghost use Rattle.streetmap_decimal.specs.Grid.{Agrees, Places};

    /// The number of the grid of a coordinate of the map.
    pub fn grid(&self, coordinate: &Decimal, rounding: Rounding) -> Result<i64, DecimalFault>
        ensures { Places self.now.shift self.now.scale rounding
            coordinate.now.mantissa coordinate.now.exponent result }
    {
        match rounding {
            Rounding::Exact => {
                let count = coordinate.count(COORDINATE_PLACES)?;
                self.exact_coordinate(count)
            }
            Rounding::Nearest => {
                let (near, far) = coordinate.enclosing(COORDINATE_PLACES)?;
                self.agreed(near, far)
            }
        }
    }

    // The number of the grid of a count that must give a whole number.
    fn exact_coordinate(&self, count: i128) -> Result<i64, DecimalFault>
        requires { unsigned_abs count ≤ 10 ^ 37 }
        ensures { IsExactCoordinate (placed self.now.shift self.now.scale count) result }
    {
        match self.placed(count) {
            Some(placed) => whole_number(placed),
            None => Err(DecimalFault::OutOfGrid),
        }
    }

    // The number of the grid that two counts both give.
    fn agreed(&self, near: i128, far: i128) -> Result<i64, DecimalFault>
        requires near { unsigned_abs near ≤ 10 ^ 37 }
        requires far { unsigned_abs far ≤ 10 ^ 37 }
        ensures { Agrees (placed self.now.shift self.now.scale near)
            (placed self.now.shift self.now.scale far) result }
    {
        let number = self.nearest(near);
        if self.nearest(far) != number {
            return Err(DecimalFault::TooManyDigits);
        }
        number.ok_or(DecimalFault::OutOfGrid)
    }

    // The coordinate that a count is nearest to.
    fn nearest(&self, count: i128) -> Option<i64>
        requires { unsigned_abs count ≤ 10 ^ 37 }
        ensures { RoundsTo (placed self.now.shift self.now.scale count) result }
    {
        match self.placed(count) {
            Some(placed) => nearest_coordinate(placed),
            None => None,
        }
    }

    // (count - shift) * scale, if that is below 2^127.
    fn placed(&self, count: i128) -> Option<i128>
        requires { unsigned_abs count ≤ 10 ^ 37 }
        ensures some { IfSome result (λ z. z ≡ placed self.now.shift self.now.scale count) }
        ensures none { IfNone result
            (2 ^ 127 ≤ unsigned_abs (placed self.now.shift self.now.scale count)) }
    {
        (count - self.shift).checked_mul(self.scale)
    }
}

/// The nearest coordinate to a count of 10^-27, half away from zero.
fn nearest_coordinate(placed: i128) -> Option<i64>
    ensures { RoundsTo placed result }
{
    let nearest = (placed.unsigned_abs() + ONE / 2) / ONE;
    if nearest > GREATEST_COORDINATE {
        return None;
    }
    Some(signed(placed < 0, nearest) as i64)
}

/// The coordinate that a count of 10^-27 is.
fn whole_number(placed: i128) -> Result<i64, DecimalFault>
    ensures { IsExactCoordinate placed result }
{
    match nearest_coordinate(placed) {
        None => Err(DecimalFault::OutOfGrid),
        Some(_) if placed.unsigned_abs() % ONE != 0 => Err(DecimalFault::Fraction),
        Some(number) => Ok(number),
    }
}
