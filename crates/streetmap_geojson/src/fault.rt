//! What is wrong with a value.
ghost use Rattle.std.specs.Prelude.{◌≡◌};

use std::alloc::{AllocError, AllocFailed};
use streetmap_moment::TimeFault;

/// What is wrong with a value that should be a feature. Of several faults the result is the first
/// in the reading order of `read_feature`.
#[derive(Clone, Copy, Debug, PartialEq, Eq, Drop)]
pub enum Fault {
    /// A text is not JSON.
    NotJson,
    /// A value is not a Feature or a FeatureCollection (RFC 7946, sections 3.2 and 3.3).
    WrongType,
    /// An id is missing, neither text nor a number, or a text of 0 or more than 128 bytes or with
    /// a control character.
    BadId,
    /// A geometry is neither an object nor null, its type is unknown, its array is missing, or an
    /// array is missing in its coordinates.
    BadGeometry,
    /// A position is not an array of two or three numbers (RFC 7946, section 3.1.1).
    BadPosition,
    /// A number is not whole.
    Fraction,
    /// A GeometryCollection contains another (RFC 7946, section 3.1.8).
    NestedCollection,
    /// Properties are neither an object nor null (RFC 7946, section 3.2).
    BadProperties,
    /// A feature has more than 64 levels of nesting.
    TooDeep,
    /// A feature has more than 100,000 positions.
    TooManyPositions,
    /// A coordinate or height is below -1,000,000,000 or above 1,000,000,000 millimetres.
    OutOfGrid,
    /// A line has fewer than two positions (RFC 7946, section 3.1.4).
    ShortLine,
    /// A ring has fewer than four positions (RFC 7946, section 3.1.6).
    ShortRing,
    /// The first and last positions of a ring differ, perhaps only in height (RFC 7946, section
    /// 3.1.6).
    OpenRing,
    /// The time property is neither null nor a text that can be read.
    BadTime,
    /// The interval of the time property starts after its end.
    EmptyInterval,
}

impl Fault {
    ghost use Rattle.streetmap_geojson.specs.Times.{time_fault};
    ghost use Rattle.streetmap_geojson.specs.FaultCodes.{fault_code};

    /// The fault of a feature whose time property has this one.
    pub fn of_time(fault: TimeFault) -> Fault
        ensures { result ≡ time_fault fault }
    {
        match fault {
            TimeFault::BadTime => Fault::BadTime,
            TimeFault::EmptyInterval => Fault::EmptyInterval,
        }
    }

    /// The name of the fault in answers.
    pub fn code(&self) -> &'static str
        ensures { result.now ≡ fault_code self.now }
    {
        match self {
            Fault::NotJson => "not_json",
            Fault::WrongType => "wrong_type",
            Fault::BadId => "bad_id",
            Fault::BadGeometry => "bad_geometry",
            Fault::BadPosition => "bad_position",
            Fault::Fraction => "fraction",
            Fault::NestedCollection => "nested_collection",
            Fault::BadProperties => "bad_properties",
            Fault::TooDeep => "too_deep",
            Fault::TooManyPositions => "too_many_positions",
            Fault::OutOfGrid => "out_of_grid",
            Fault::ShortLine => "short_line",
            Fault::ShortRing => "short_ring",
            Fault::OpenRing => "open_ring",
            Fault::BadTime => "bad_time",
            Fault::EmptyInterval => "empty_interval",
        }
    }
}

/// Why a value was not read as a feature.
#[derive(Clone, Copy, Debug, PartialEq, Eq, Drop)]
pub enum JsonFault {
    /// Out of memory; the caller may try again.
    Memory,
    /// The first fault of the value.
    Fault(Fault),
}

impl From<AllocError> for JsonFault {
    ghost use Rattle.streetmap_geojson.specs.declared.fault.JsonFault.TheVariants.{Memory};

    ghost from_gives = { λ _ e. e ≡ Memory };

    fn from(_: AllocError) -> JsonFault {
        JsonFault::Memory
    }
}

impl<T: Drop> From<AllocFailed<T>> for JsonFault {
    ghost use Rattle.streetmap_geojson.specs.declared.fault.JsonFault.TheVariants.{Memory};

    ghost from_gives = { λ _ e. e ≡ Memory };

    fn from(_: AllocFailed<T>) -> JsonFault {
        JsonFault::Memory
    }
}

/// Why a value was not read as a collection of features.
#[derive(Clone, Copy, PartialEq, Eq, Drop)]
pub enum CollectionFault {
    /// Out of memory; the caller may try again.
    Memory,
    /// What is wrong with the collection as a whole.
    Fault(Fault),
    /// What is wrong with the feature at that place, counted from 1.
    At(u64, Fault),
}

impl From<AllocError> for CollectionFault {
    ghost use Rattle.streetmap_geojson.specs.declared.fault.CollectionFault.TheVariants.{Memory};

    ghost from_gives = { λ _ e. e ≡ Memory };

    fn from(_: AllocError) -> CollectionFault {
        CollectionFault::Memory
    }
}

impl<T: Drop> From<AllocFailed<T>> for CollectionFault {
    ghost use Rattle.streetmap_geojson.specs.declared.fault.CollectionFault.TheVariants.{Memory};

    ghost from_gives = { λ _ e. e ≡ Memory };

    fn from(_: AllocFailed<T>) -> CollectionFault {
        CollectionFault::Memory
    }
}
