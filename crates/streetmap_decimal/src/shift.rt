//! The shift of a map.
ghost use Rattle.std.specs.Prelude.{◌≡◌, ◌<◌, ◌≤◌, ◌^◌, unsigned_abs};
ghost use Rattle.std.specs.List.{position_or_len};
ghost use Rattle.streetmap_decimal.specs.Options.{is_comma};

use crate::decimal::{COORDINATE_PLACES, Decimal};

/// Which position of a map is the grid's 0,0, counted in 10^-18 of the map's unit.
#[derive(Clone, Copy, PartialEq, Eq)]
pub struct Shift {
    /// The easting, counted in 10^-18.
    pub easting: i128,
    /// The northing, counted in 10^-18.
    pub northing: i128,
    pub ghost easting_in: { unsigned_abs easting < 10 ^ 36 },
    pub ghost northing_in: { unsigned_abs northing < 10 ^ 36 },
}

impl Shift {
    ghost use Rattle.std.specs.Prelude.{◌≡◌, pos};
    ghost use Rattle.streetmap_decimal.specs.DecimalViews.{ReadsShift};

    /// No shift: the map's 0,0 is the grid's.
    pub fn none() -> Shift
        ensures easting { result.easting ≡ pos 0 }
        ensures northing { result.northing ≡ pos 0 }
    {
        Shift {
            easting: 0,
            northing: 0,
        }
    }

    /// The shift of a text: an easting and a northing with a comma between them, such as
    /// `412000,5811000.5`.
    ///
    /// None if the text has no comma, the part before its first comma or after it is not a number
    /// (RFC 8259, section 6) or has more than 38 characters, or a number is not a whole multiple of
    /// 10^-18, or is 10^18 or more.
    pub fn read(text: &[u8]) -> Option<Shift>
        ensures { ReadsShift text.now result }
    {
        let comma = comma_or_len(text);
        if comma == text.len() {
            return None;
        }
        let easting = Decimal::count_of_option(&text[..comma], COORDINATE_PLACES);
        let northing = Decimal::count_of_option(&text[comma + 1..], COORDINATE_PLACES);
        match (easting, northing) {
            (Some(easting), Some(northing)) => Some(Shift { easting, northing }),
            _ => None,
        }
    }
}

// The place of the first comma, or the length.
fn comma_or_len(text: &[u8]) -> usize
    ensures { result ≡ position_or_len is_comma text.now }
{
    for (i, byte) in text.iter().enumerate() {
        if *byte == b',' {
            return i;
        }
    }
    text.len()
}
