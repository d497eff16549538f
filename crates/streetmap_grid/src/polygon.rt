ghost use Rattle.std.specs.Prelude.{◌≡◌, ◌≤◌, IsTrue, vec_len};

use crate::ring::Ring;

/// A polygon of one or more rings (RFC 7946, section 3.1.6): the first is the exterior ring, the
/// others are its holes.
///
/// # Semantics
///
/// The even-odd rule says what is inside: a point whose crossings, counted over all rings together,
/// are an odd number.
///
/// # What is not checked
///
/// Rings may cross themselves and each other, and a hole may lie outside of the exterior ring.
#[derive(Drop)]
pub struct Polygon {
    rings: Vec<Ring>,
    ghost some: { 1 ≤ vec_len rings },
}

impl Polygon {
    ghost use Rattle.streetmap_grid.specs.Views.{rings_value, polygon_value};
    ghost use Rattle.streetmap_grid.specs.Ring.{oriented, is_oriented_polygon};

    /// The polygon of rings in their order, of which there must be at least one.
    pub fn new(rings: Vec<Ring>) -> Polygon
        requires { 1 ≤ vec_len rings }
        ensures { polygon_value result ≡ rings_value rings.items }
    {
        Self { rings }
    }

    /// The rings, in their order: the exterior ring first.
    pub fn rings(&self) -> &[Ring]
        ensures { rings_value result.now ≡ polygon_value self.now }
    {
        &self.rings
    }

    /// The polygon with its exterior ring counterclockwise and its holes clockwise: each ring of
    /// the wrong sign is reversed; every other one, and one of area zero, stays as it is.
    pub fn oriented(self) -> Polygon
        ensures value { polygon_value result ≡ oriented (polygon_value self) }
        ensures right { IsTrue (is_oriented_polygon (polygon_value result)) }
    {
        let mut rings = self.rings;
        for i in 0..rings.len() {
            rings[i].turn(i > 0);
        }
        Polygon { rings }
    }
}
