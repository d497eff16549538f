//! Where the features of a text go.
ghost use Rattle.std.specs.Prelude.{IsTrue, string_bytes};
ghost use Rattle.streetmap_batch.specs.Names.{is_collection_id};

use streetmap_placing::Numbers;

/// The property that the times of features must be readable from; none if they have no times.
#[derive(Drop)]
pub struct HeldTimes {
    pub property: Option<String>,
}

/// Where the features of a text go.
#[derive(Drop)]
pub struct FeatureRules {
    /// The id of their collection.
    pub collection: String,
    /// Each replaces the feature with its id.
    pub replace: bool,
    /// How their numbers are read.
    pub numbers: Numbers,
    /// Features at fault are skipped; then times must be readable from a property too.
    pub skip: Option<HeldTimes>,
    pub ghost placed: { IsTrue (is_collection_id (string_bytes collection)) },
}
