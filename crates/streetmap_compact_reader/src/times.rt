//! The time of a feature, by the value of its time property.
ghost use Rattle.std.specs.Prelude.{◌≡◌, Ok, IfSome, option_map};
ghost use Rattle.serde_json.specs.Data.{Data};
ghost use Rattle.serde_json.specs.Find.{get};
ghost use Rattle.streetmap_moment.specs.Views.{interval_value};
ghost use Rattle.streetmap_geojson.specs.Times.{time_from, time_of};
ghost use Rattle.streetmap_compact_reader.specs.Flat.{flat_data};

use crate::flat::Flat;
use streetmap_moment::{Interval, read_property};

/// The time that a value says, if it may be that of a time property.
fn time_from(found: Option<Flat<'_>>) -> Option<Option<Interval>>
    ensures { IfSome result (λ t. time_from (option_map flat_data found.entry)
        ≡ Ok (option_map interval_value t)) }
{
    match found {
        None | Some(Flat::Null) => Some(None),
        Some(Flat::Text(text)) => match read_property(text) {
            Ok(interval) => Some(Some(interval)),
            Err(_) => None,
        },
        Some(_) => None,
    }
}

/// The time under the property of that name, whose value was found: none without a name.
pub(crate) fn time_under(
    property: Option<&str>,
    found: Option<Flat<'_>>,
) -> Option<Option<Interval>>
    ensures { IfSome result (λ t. (properties : Data)
        → IfSome (option_map (λ s. s.now) property.entry)
        (λ n. get n properties ≡ option_map flat_data found.entry)
        → time_of (option_map (λ s. s.now) property.entry) properties
        ≡ Ok (option_map interval_value t)) }
{
    match property {
        Some(_) => time_from(found),
        None => Some(None),
    }
}
