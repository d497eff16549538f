//! Queries, and the parameters of a query that were read so far.
ghost use Rattle.std.specs.Prelude.{IsTrue};
ghost use Rattle.std.specs.Option.{ForSome};
ghost use Rattle.streetmap_geojson.specs.Id.{is_id};
ghost use Rattle.streetmap_query.specs.Limit.{IsLimit};

use crate::datetimes::Datetime;
use streetmap_geojson::Id;
use streetmap_grid::GridBox;

/// The parameters that were read so far, each absent until it occurs in the text.
#[derive(Drop)]
pub(crate) struct Parameters {
    pub(crate) bbox: Option<GridBox>,
    pub(crate) datetime: Option<Datetime>,
    pub(crate) limit: Option<u32>,
    pub(crate) after: Option<Id>,
    pub ghost limited: { ForSome limit IsLimit },
    pub ghost named: { ForSome after (λ id. IsTrue (is_id id)) },
}

/// A query for a page of features (OGC 17-069, 7.15).
#[derive(Drop)]
pub struct Query {
    /// Only features that meet this box, in millimetres.
    pub bbox: Option<GridBox>,
    /// Only features whose time meets this interval.
    pub datetime: Option<Datetime>,
    /// At most this number of features on the page, 1 to 1000.
    pub limit: u32,
    /// Only features whose id comes after this one, in the order of bytes.
    pub after: Option<Id>,
    pub ghost limited: { IsLimit limit },
    pub ghost named: { ForSome after (λ id. IsTrue (is_id id)) },
}
