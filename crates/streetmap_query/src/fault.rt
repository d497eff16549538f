//! What is wrong with a query.
ghost use Rattle.std.specs.Prelude.{◌≡◌};
ghost use Rattle.streetmap_query.specs.declared.fault.QueryFault.TheVariants.{Memory};

use std::alloc::AllocError;

/// Why a text is not the text of a query.
#[derive(Clone, Copy, Debug, PartialEq, Eq)]
pub enum QueryFault {
    /// The name of a parameter is not one of `bbox`, `datetime`, `limit` and `after` (OGC 17-069,
    /// 7.6).
    UnknownParameter,
    /// A parameter occurs twice.
    RepeatedParameter,
    /// The value of `limit` is not a whole number from 1.
    BadLimit,
    /// The value of `bbox` is not four whole numbers in range and in order.
    BadBbox,
    /// The value of `datetime` is neither a date-time (RFC 3339) nor an interval.
    BadDatetime,
    /// The value of `after` is not an id.
    BadAfter,
    /// Out of memory. The caller may try again.
    Memory,
}

impl From<AllocError> for QueryFault {
    ghost from_gives = { λ _ e. e ≡ Memory };

    fn from(_e: AllocError) -> QueryFault {
        QueryFault::Memory
    }
}

impl QueryFault {
    ghost use Rattle.streetmap_query.specs.Faults.{code_of, description_of};

    /// The name of the fault in answers.
    pub fn code(&self) -> &'static str
        ensures { result.now ≡ code_of self.now }
    {
        match self {
            QueryFault::UnknownParameter => "unknown_parameter",
            QueryFault::RepeatedParameter => "repeated_parameter",
            QueryFault::BadLimit => "bad_limit",
            QueryFault::BadBbox => "bad_bbox",
            QueryFault::BadDatetime => "bad_datetime",
            QueryFault::BadAfter => "bad_after",
            QueryFault::Memory => "memory",
        }
    }

    /// The sentence of the fault in answers.
    pub fn description(&self) -> &'static str
        ensures { result.now ≡ description_of self.now }
    {
        match self {
            QueryFault::UnknownParameter => "A parameter is not known here.",
            QueryFault::RepeatedParameter => "A parameter stands twice.",
            QueryFault::BadLimit => "The limit must be a whole number from 1.",
            QueryFault::BadBbox => "The box must be four whole numbers in order.",
            QueryFault::BadDatetime => "The date-time or interval cannot be read.",
            QueryFault::BadAfter => "The value of after is no id.",
            QueryFault::Memory => "Memory was refused; the call may be made again.",
        }
    }
}
