//! The kinds of geometry, by their names.
ghost use Rattle.std.specs.Prelude.{◌≡◌, IfSome, Some};

/// The geometry types that have coordinates (RFC 7946, sections 3.1.2 to 3.1.7).
#[derive(Clone, Copy, PartialEq, Eq, Drop)]
pub enum SimpleKind {
    Point,
    MultiPoint,
    LineString,
    MultiLineString,
    Polygon,
    MultiPolygon,
}

/// The geometry types (RFC 7946, section 1.4).
#[derive(Clone, Copy, PartialEq, Eq, Drop)]
pub enum Kind {
    /// A type that has coordinates.
    Simple(SimpleKind),
    /// GeometryCollection.
    Collection,
}

impl SimpleKind {
    ghost use Rattle.streetmap_geojson.specs.Kind.{kind_name};

    /// The kind of that name.
    pub fn of(name: &str) -> Option<SimpleKind>
        ensures found { IfSome result (λ k. name.now ≡ kind_name k) }
        ensures only { (k : SimpleKind) → name.now ≡ kind_name k → result ≡ Some k }
    {
        match Kind::of(name) {
            Some(Kind::Simple(kind)) => Some(kind),
            Some(Kind::Collection) | None => None,
        }
    }
}

impl Kind {
    ghost use Rattle.streetmap_geojson.specs.Kind.{kind};

    /// The kind of that name.
    pub(crate) fn of(name: &str) -> Option<Kind>
        ensures { result ≡ kind name.now }
    {
        match name {
            "Point" => Some(Kind::Simple(SimpleKind::Point)),
            "MultiPoint" => Some(Kind::Simple(SimpleKind::MultiPoint)),
            "LineString" => Some(Kind::Simple(SimpleKind::LineString)),
            "MultiLineString" => Some(Kind::Simple(SimpleKind::MultiLineString)),
            "Polygon" => Some(Kind::Simple(SimpleKind::Polygon)),
            "MultiPolygon" => Some(Kind::Simple(SimpleKind::MultiPolygon)),
            "GeometryCollection" => Some(Kind::Collection),
            _ => None,
        }
    }
}
