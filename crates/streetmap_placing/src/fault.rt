//! Why the text of a feature was not read.
ghost use Rattle.std.specs.Prelude.{◌≡◌};

use std::alloc::{AllocError, AllocFailed};
use streetmap_decimal::DecimalFault;
use streetmap_json::ParseFault;

/// Why the text of a feature was not read.
#[derive(Clone, Copy, PartialEq, Eq, Drop)]
pub enum PlacingFault {
    /// Out of memory; the caller may try again.
    Memory,
    /// The text is not JSON (RFC 8259) in UTF-8, nests deeper than 127 levels, or has a number too
    /// large for a float that stays a number.
    NotJson,
    /// A coordinate has more than 38 characters, or digits after its 18th decimal place that are
    /// not rounded off.
    TooManyDigits,
    /// A coordinate lies outside of the grid.
    OutOfGrid,
    /// A coordinate does not result in a whole millimetre, and is not to be rounded.
    Fraction,
}

impl PlacingFault {
    ghost use Rattle.streetmap_placing.specs.Faults.{fault_of, parse_fault};

    // The fault of a text with a coordinate at fault.
    pub(crate) fn of_decimal(fault: DecimalFault) -> PlacingFault
        ensures { result ≡ fault_of fault }
    {
        match fault {
            DecimalFault::NotANumber => PlacingFault::NotJson,
            DecimalFault::TooManyDigits => PlacingFault::TooManyDigits,
            DecimalFault::OutOfGrid => PlacingFault::OutOfGrid,
            DecimalFault::Fraction => PlacingFault::Fraction,
        }
    }

    // The fault of a text that was not parsed.
    pub(crate) fn of_parse(fault: ParseFault) -> PlacingFault
        ensures { result ≡ parse_fault fault }
    {
        match fault {
            ParseFault::Memory => PlacingFault::Memory,
            ParseFault::NotJson => PlacingFault::NotJson,
        }
    }
}

impl From<AllocError> for PlacingFault {
    ghost use Rattle.streetmap_placing.specs.declared.fault.PlacingFault.TheVariants.{Memory};

    ghost from_gives = { λ _ e. e ≡ Memory };

    fn from(_: AllocError) -> PlacingFault {
        PlacingFault::Memory
    }
}

impl<T: Drop> From<AllocFailed<T>> for PlacingFault {
    ghost use Rattle.streetmap_placing.specs.declared.fault.PlacingFault.TheVariants.{Memory};

    ghost from_gives = { λ _ e. e ≡ Memory };

    fn from(_: AllocFailed<T>) -> PlacingFault {
        PlacingFault::Memory
    }
}
