//! Why a text is refused.

/// Why the text of a coordinate gives no number of the grid.
#[derive(Clone, Copy, PartialEq, Eq, Drop)]
pub enum DecimalFault {
    /// The text is not a number of RFC 8259, section 6.
    NotANumber,
    /// The text has more than 38 characters, or the number has a digit other than zero after its
    /// 18th decimal place, and is not rounded or gives different results with it and without.
    TooManyDigits,
    /// The number gives no coordinate of the grid.
    OutOfGrid,
    /// The number does not give a whole number, and is not to be rounded.
    Fraction,
}
