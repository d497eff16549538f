//! Why bytes were not read.
ghost use Rattle.std.specs.Prelude.{◌≡◌};

use json::Invalid;
use std::alloc::{AllocError, AllocFailed};

/// Why no value was returned for the bytes of a JSON text.
#[derive(Clone, Copy, PartialEq, Eq, Drop)]
pub enum ParseFault {
    /// Out of memory; the caller may try again.
    Memory,
    /// The bytes have no value as a JSON text.
    NotJson,
}

impl From<AllocError> for ParseFault {
    ghost use Rattle.streetmap_json.specs.declared.fault.ParseFault.TheVariants.{Memory};

    ghost from_gives = { λ _ e. e ≡ Memory };

    fn from(_: AllocError) -> ParseFault {
        ParseFault::Memory
    }
}

impl<T: Drop> From<AllocFailed<T>> for ParseFault {
    ghost use Rattle.streetmap_json.specs.declared.fault.ParseFault.TheVariants.{Memory};

    ghost from_gives = { λ _ e. e ≡ Memory };

    fn from(_: AllocFailed<T>) -> ParseFault {
        ParseFault::Memory
    }
}

impl From<Invalid> for ParseFault {
    ghost use Rattle.streetmap_json.specs.declared.fault.ParseFault.TheVariants.{NotJson};

    ghost from_gives = { λ _ e. e ≡ NotJson };

    fn from(_: Invalid) -> ParseFault {
        ParseFault::NotJson
    }
}
