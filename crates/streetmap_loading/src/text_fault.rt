//! What is wrong with a text of features.
use streetmap_geojson::Fault;

/// What is wrong with a text of features, if a load ends at it. Places are those of features in the
/// text, counted from 1.
#[derive(Clone, Copy, PartialEq, Eq, Drop)]
pub enum TextFault {
    /// The first line is not a whole JSON text, or is a FeatureCollection (RFC 7946, section 3.3).
    NotASequence,
    /// The line of the feature at that place has more than 8,388,608 bytes, its line feed not
    /// counted.
    LineTooLong(u64),
    /// A coordinate of the feature at that place has more digits than are kept: more than 38
    /// characters, or places after its 18th that are not rounded off.
    TooManyDigits(u64),
    /// The feature at that place is at fault, as a reader of features finds (RFC 7946).
    BadFeature(u64, Fault),
    /// The edit of the feature at that place has more than 8,388,480 bytes of batch text.
    TooLarge(u64),
}
