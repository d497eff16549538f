//! Whole numbers with a sign, and powers of ten.
ghost use Rattle.std.specs.Prelude.{◌≡◌, ◌≢◌, ◌<◌, ◌≤◌, ◌+◌, ◌*◌, ◌^◌, ℕ, IfSome, IfNone, length};
ghost use Rattle.std.specs.Prelude.{IsTrue};
ghost use Rattle.std.specs.Char.{is_ascii_digit};
ghost use Rattle.std.specs.List.{list_all};
ghost use Rattle.std.specs.Str.Parse.{digits_value_after};
ghost use Rattle.streetmap_decimal.specs.NumberText.{signed};

/// The bound of a count: each is smaller. A coordinate whose count is not smaller lies outside of
/// the grid, whatever the options: it is at least 9 * 10^18 away from any shift, and a scale is at
/// least 10^-9.
pub(crate) const COUNT_LIMIT: u128 = 10_000_000_000_000_000_000_000_000_000_000_000_000;

/// A number, or its negation.
pub(crate) fn signed(is_negative: bool, magnitude: u128) -> i128
    requires { magnitude < 2 ^ 127 }
    ensures { result ≡ signed is_negative magnitude }
{
    let value = magnitude as i128;
    if is_negative { -value } else { value }
}

/// The number that digits write when they follow the digits of `before`.
pub(crate) fn digits_value(before: u128, digits: &[u8]) -> u128
    requires digits { IsTrue (list_all is_ascii_digit digits.now) }
    requires room { (before + 1) * 10 ^ length digits.now ≤ 10 ^ 38 }
    ensures value { result ≡ digits_value_after 10 before digits.now }
    ensures bound { result < (before + 1) * 10 ^ length digits.now }
{
    let mut value = before;
    for digit in digits {
        value = value * 10 + (*digit - b'0') as u128;
    }
    value
}

/// The number times 10^power, if that is below the limit.
pub(crate) fn multiplied(number: u128, power: u128) -> Option<u128>
    ensures some { IfSome result (λ n. (n ≡ number * 10 ^ power) × (n < 10 ^ 37)) }
    ensures none { IfNone result (10 ^ 37 ≤ number * 10 ^ power) }
{
    if number == 0 {
        return Some(0);
    }
    if power >= 37 {
        return None;
    }
    let product = number.checked_mul(10u128.pow(power as u32))?;
    if product < COUNT_LIMIT {
        Some(product)
    } else {
        None
    }
}

/// The number divided by 10^power, if that is whole.
pub(crate) fn divided(number: u128, power: u128) -> Option<u128>
    requires { number < 10 ^ 38 }
    ensures some { IfSome result (λ n. number ≡ n * 10 ^ power) }
    ensures none { IfNone result ((n : ℕ) → number ≢ n * 10 ^ power) }
{
    if number == 0 {
        return Some(0);
    }
    if power >= 38 {
        return None;
    }
    let divisor = 10u128.pow(power as u32);
    if number % divisor == 0 {
        Some(number / divisor)
    } else {
        None
    }
}

/// The whole numbers on both sides of the number divided by 10^power, the lower first: both are the
/// quotient, if that is whole.
pub(crate) fn sides(number: u128, power: u128) -> (u128, u128)
    requires { number < 10 ^ 38 }
    ensures lower { (result.0 * 10 ^ power ≤ number) × (number < (result.0 + 1) * 10 ^ power) }
    ensures upper { (number ≤ result.1 * 10 ^ power)
        × (result.1 * 10 ^ power < number + 10 ^ power) }
{
    if number == 0 {
        return (0, 0);
    }
    if power >= 38 {
        return (0, 1);
    }
    let divisor = 10u128.pow(power as u32);
    let lower = number / divisor;
    let rest = number % divisor;
    if rest == 0 {
        (lower, lower)
    } else {
        (lower, lower + 1)
    }
}
