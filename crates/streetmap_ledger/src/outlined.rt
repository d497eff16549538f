//! What an index needs of a keeper.
ghost use Rattle.std.specs.Prelude.{string_bytes};
ghost use Rattle.streetmap_ledger.specs.Keep.{IsRead, IsFeatureOf, IsRunOf, AreOutlinesOf};

use crate::{Fault, FeatureOutline, Keeper};
use streetmap_feature_text::PackedFeature;

/// A keeper that an index can be kept of: it returns the outlines of features without reading the
/// features, and reads together those whose ids are next to each other.
pub trait Outlined: Keeper {
    /// The feature of an outline; none if the collection does not exist, or has no feature with its
    /// id. The search may start at the place that the outline names, if it names one.
    fn feature_outlined(
        &mut self,
        collection: &str,
        outline: &FeatureOutline,
    ) -> Result<Option<PackedFeature>, Fault>
        ensures { IsRead Self.model self.old self.new result
            (IsFeatureOf collection.now (string_bytes outline.now.id)) }
    {
        self.feature(collection, outline.id.as_str())
    }

    /// The features of a collection whose ids lie between two in byte order, both included, in byte
    /// order of ids; none if the collection does not exist.
    fn features(
        &mut self,
        collection: &str,
        first: &str,
        last: &str,
    ) -> Result<Option<Vec<PackedFeature>>, Fault>
        ensures { IsRead Self.model self.old self.new result
            (IsRunOf collection.now first.now last.now) };

    /// The outlines of a collection's features, in byte order of ids; none if the collection does
    /// not exist.
    fn outlines(&mut self, collection: &str) -> Result<Option<Vec<FeatureOutline>>, Fault>
        ensures { IsRead Self.model self.old self.new result (AreOutlinesOf collection.now) };
}
