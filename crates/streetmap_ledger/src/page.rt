//! Pages.
ghost use Rattle.std.specs.Prelude.{IsTrue, string_bytes};
ghost use Rattle.std.specs.Option.{ForSome};
ghost use Rattle.streetmap_geojson.specs.Id.{is_id};

use streetmap_feature_text::PackedFeature;

/// A page of a collection.
#[derive(Drop)]
pub struct Page {
    /// The features shown, as their texts, in byte order of ids.
    pub features: Vec<PackedFeature>,
    /// How many features of the collection are selected, whatever `after` and `limit` are; 2^64 - 1
    /// if the number is larger.
    pub matched: u64,
    /// The last id shown, if more selected features follow it.
    pub next: Option<String>,
    /// How many features have an extent and seconds that overlap those of the query; 2^64 - 1 if
    /// the number is larger.
    pub examined: u64,
    pub ghost named: { ForSome next (λ id. IsTrue (is_id (string_bytes id))) },
}
