//! The value of a feature's member `geometry` (RFC 7946, section 3.2).
ghost use Rattle.std.specs.Prelude.{◌≤◌, ◌↔◌, IfOk, IsTrue, option_map};
ghost use Rattle.serde_json.specs.Data.{depth};
ghost use Rattle.serde_json.specs.View.{view};
ghost use Rattle.streetmap_grid.specs.Views.{geometry_value};
ghost use Rattle.streetmap_geojson.specs.Fault.{Gives};
ghost use Rattle.streetmap_geojson.specs.FeatureInvariant.{is_oriented_if};
ghost use Rattle.streetmap_geojson.specs.FeatureMembers.{geometry_data, simple_object};
ghost use Rattle.streetmap_geojson.specs.Meaning.{count_if, position_count};
ghost use Rattle.streetmap_geojson.specs.ParsedGeometries.{geometry, max_positions, value_of};

use crate::fault::JsonFault;
use crate::feature_parser::read_counted;
use crate::geometry::read_simple_object;
use crate::kind::SimpleKind;
use crate::levels::nests_within;
use serde_json::Value;
use std::alloc::Global;
use streetmap_grid::Geometry;

/// The value of a feature's member `geometry`.
#[derive(Drop)]
pub enum GeometryMember {
    /// An object with a type that has coordinates and the value of its `coordinates`, and no other
    /// member.
    Simple(SimpleKind, Value),
    /// Any value.
    Other(Value),
}

/// The geometry of the object of a kind and its `coordinates`, or none.
fn read_counted_simple(
    alloc: Global,
    kind: SimpleKind,
    coordinates: &Value,
) -> Result<Option<Geometry>, JsonFault>
    ensures reads { Gives (λ o. option_map geometry_value o) result
        (value_of (geometry (simple_object kind (view coordinates.now)) 0)) }
    ensures few { IfOk result (λ o. count_if position_count (option_map geometry_value o)
        ≤ max_positions) }
    ensures oriented { IfOk result (λ o. IsTrue (is_oriented_if (option_map geometry_value o))) }
{
    let mut seen = 0;
    read_simple_object(alloc, kind, coordinates, &mut seen)
}

impl GeometryMember {
    /// Whether its arrays and objects nest at most 63 levels, one fewer than those of a feature
    /// may.
    pub(crate) fn is_flat(&self) -> bool
        ensures { IsTrue result ↔ depth (geometry_data self.now) ≤ 63 }
    {
        match self {
            GeometryMember::Simple(_, coordinates) => nests_within(coordinates, 62),
            GeometryMember::Other(value) => nests_within(value, 63),
        }
    }

    /// The geometry that it is, or none.
    pub(crate) fn read(&self, alloc: Global) -> Result<Option<Geometry>, JsonFault>
        ensures reads { Gives (λ o. option_map geometry_value o) result
            (value_of (geometry (geometry_data self.now) 0)) }
        ensures few { IfOk result (λ o. count_if position_count (option_map geometry_value o)
            ≤ max_positions) }
        ensures oriented { IfOk result (λ o.
            IsTrue (is_oriented_if (option_map geometry_value o))) }
    {
        match self {
            GeometryMember::Simple(kind, coordinates) => {
                read_counted_simple(alloc, *kind, coordinates)
            }
            GeometryMember::Other(value) => read_counted(alloc, value),
        }
    }
}
