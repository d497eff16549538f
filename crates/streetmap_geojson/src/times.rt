//! Times of features, read from their properties.
ghost use Rattle.std.specs.Prelude.{◌≡◌, Ok, Err, IfOk, IfErr, Result, option_map};
ghost use Rattle.serde_json.specs.View.{view};
ghost use Rattle.streetmap_moment.specs.Views.{interval_value};
ghost use Rattle.streetmap_geojson.specs.Times.{time_of, time_from};

use serde_json::Value;
use streetmap_moment::{Interval, TimeFault, read_property};

// The time that a property says.
fn read_time_from(property: Option<&Value>) -> Result<Option<Interval>, TimeFault>
    ensures ok { IfOk result (λ t. time_from (option_map (λ v. view v.now) property.entry)
        ≡ Ok (option_map interval_value t)) }
    ensures err { IfErr result (λ e. time_from (option_map (λ v. view v.now) property.entry)
        ≡ Err e) }
{
    match property {
        None | Some(Value::Null) => Ok(None),
        Some(Value::String(text)) => Ok(Some(read_property(text)?)),
        Some(_) => Err(TimeFault::BadTime),
    }
}

/// The time that the property of that name says; none without a name.
pub(crate) fn read_time(
    properties: &Value,
    time_property: Option<&str>,
) -> Result<Option<Interval>, TimeFault>
    ensures ok { IfOk result (λ t.
        time_of (option_map (λ s. s.now) time_property.entry) (view properties.now)
        ≡ Ok (option_map interval_value t)) }
    ensures err { IfErr result (λ e.
        time_of (option_map (λ s. s.now) time_property.entry) (view properties.now) ≡ Err e) }
{
    match time_property {
        Some(name) => read_time_from(properties.get(name)),
        None => Ok(None),
    }
}
