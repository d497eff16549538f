//! The role of a value within a feature.
ghost use Rattle.std.specs.Prelude.{◌≡◌};
ghost use Rattle.streetmap_placing.specs.Roles.{member_role, element_role, role_in_array};
ghost use Rattle.streetmap_placing.specs.declared.role.Role.TheVariants.{Feature, Geometry};

use streetmap_decimal::Axis;

/// The role of a value within a feature (RFC 7946, sections 3.1 and 3.2).
#[derive(Clone, Copy, PartialEq, Eq, Drop)]
pub enum Role {
    /// The feature.
    Feature,
    /// A geometry.
    Geometry,
    /// The geometries of a GeometryCollection.
    Geometries,
    /// The coordinates of a geometry, or an array within them.
    Coordinates,
    /// A coordinate of a position, if it is a number.
    Coordinate(Axis),
    /// The properties, or a value within them.
    Properties,
    /// Anything else.
    Other,
}

impl Role {
    /// The role of the member of that name.
    pub(crate) fn of_member(self, name: &str) -> Role
        ensures { result ≡ member_role self name.now }
    {
        match self {
            Role::Feature => Role::in_feature(name),
            Role::Geometry => Role::in_geometry(name),
            Role::Properties => Role::Properties,
            Role::Geometries | Role::Coordinates | Role::Coordinate(_) | Role::Other => Role::Other,
        }
    }

    /// The role of the element at that index of an array of `count` elements.
    pub(crate) fn of_element(self, count: usize, index: usize) -> Role
        ensures { result ≡ element_role self count index }
    {
        match self {
            Role::Geometries => Role::Geometry,
            Role::Coordinates | Role::Coordinate(_) => Role::in_array(count, index),
            Role::Properties => Role::Properties,
            Role::Feature | Role::Geometry | Role::Other => Role::Other,
        }
    }

    fn in_feature(name: &str) -> Role
        ensures { result ≡ member_role Feature name.now }
    {
        match name {
            "geometry" => Role::Geometry,
            "properties" => Role::Properties,
            _ => Role::Other,
        }
    }

    fn in_geometry(name: &str) -> Role
        ensures { result ≡ member_role Geometry name.now }
    {
        match name {
            "coordinates" => Role::Coordinates,
            "geometries" => Role::Geometries,
            _ => Role::Other,
        }
    }

    // A position has two or three coordinates (RFC 7946, section 3.1.1).
    fn in_array(count: usize, index: usize) -> Role
        ensures { result ≡ role_in_array count index }
    {
        match (count, index) {
            (2 | 3, 0) => Role::Coordinate(Axis::Easting),
            (2 | 3, 1) => Role::Coordinate(Axis::Northing),
            (3, 2) => Role::Coordinate(Axis::Height),
            _ => Role::Coordinates,
        }
    }
}
