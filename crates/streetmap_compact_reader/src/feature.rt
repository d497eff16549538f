//! Features, read from their compact texts (RFC 7946, section 3.2).
ghost use Rattle.std.specs.Prelude.{◌≡◌, IfSome, IsTrue, codes, option_map};
ghost use Rattle.streetmap_grid.specs.Views.{box_value};
ghost use Rattle.streetmap_moment.specs.Views.{interval_value};
ghost use Rattle.streetmap_compact_reader.specs.Compact.{IsCompactOf};

use crate::fronts::after;
use crate::geometries::take_geometry;
use crate::properties::take_properties;
use crate::texts::take_text;
use crate::times::time_under;
use streetmap_geojson::is_id;
use streetmap_grid::GridBox;
use streetmap_moment::Interval;

/// What the compact text of a feature says of it.
#[derive(Clone, Copy)]
pub struct CompactFeature<'a> {
    /// The id, of 1 to 128 bytes, a part of the text.
    pub id: &'a str,
    /// The extent of the geometry, in millimetres; none without a geometry.
    pub extent: Option<GridBox>,
    /// The time under the time property, in nanoseconds since 1970-01-01T00:00:00Z, if the feature
    /// has one.
    pub time: Option<Interval>,
}

/// Whether this is the last member of a feature, and nothing follows it.
fn is_end(typed: &str) -> bool
    ensures { IsTrue result → typed.now ≡ codes ",\"type\":\"Feature\"}" }
{
    typed == ",\"type\":\"Feature\"}"
}

/// The feature whose compact text this is, with its time by the property of that name, or without
/// a time if no name is given. None says nothing of the text. No memory is taken.
///
/// What is read is compact JSON (RFC 8259) of a Feature (RFC 7946, section 3.2) with exactly the
/// members `geometry`, `id`, `properties` and `type`, in this order. The geometry is null, a Point,
/// a MultiPoint, a LineString or a Polygon of at most 100,000 positions. The properties are null or
/// an object with its names in byte order, whose values are texts, whole numbers of at most 15
/// digits, true, false or null. No text has an escape, and the time property, if the feature has
/// it, is null or the text of a time (`streetmap_moment::read_property`).
pub fn read_compact<'a>(text: &'a str, time_property: Option<&str>) -> Option<CompactFeature<'a>>
    ensures { IfSome result (λ c. IsCompactOf (option_map (λ s. s.now) time_property.entry)
        text.now c.id.now (option_map box_value c.extent) (option_map interval_value c.time)) }
{
    let opened = after(text, "{\"geometry\":")?;
    let (extent, placed) = take_geometry(opened)?;
    let (id, named) = take_text(after(placed, ",\"id\":")?)?;
    let described = after(named, ",\"properties\":")?;
    let (found, typed) = take_properties(described, time_property)?;
    if !is_end(typed) || !is_id(id) {
        return None;
    }
    let time = time_under(time_property, found)?;
    Some(CompactFeature { id, extent, time })
}
