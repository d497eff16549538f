//! How many bytes the text of an edit has.
ghost use Rattle.std.specs.Prelude.{◌≡◌, ◌+◌, ◌<◌, ◌^◌, IfOk, IsTrue, length};
ghost use Rattle.serde_json.specs.Written.{compact_text};
ghost use Rattle.streetmap_feature_text.specs.Written.{feature_data};
ghost use Rattle.streetmap_batch.specs.BatchText.{edit_data};
ghost use Rattle.streetmap_batch.specs.BatchView.{edit_value};
ghost use Rattle.streetmap_batch.specs.Names.{is_collection_id};

use std::alloc::{AllocError, Global};
use streetmap_batch::{CollectionId, Edit};
use streetmap_feature_text::WrittenFeature;

/// The text of an edit that inserts a feature, without its collection and its feature.
const INSERTION: &str = "{\"collection\":\"\",\"feature\":,\"op\":\"insert\"}";

/// The text of an edit that replaces a feature, without its collection and its feature.
const REPLACEMENT: &str = "{\"collection\":\"\",\"feature\":,\"op\":\"replace\"}";

/// How many bytes the collection and the feature take in the text of an edit. The id of a
/// collection has no byte that must be escaped.
fn parts_len(collection: &CollectionId, feature: &WrittenFeature) -> usize
    ensures sum { result ≡ length collection.now
        + length (compact_text (feature_data feature.now)) }
    ensures named { IsTrue (is_collection_id collection.now) }
    ensures room { result + 64 < 2 ^ 64 }
{
    collection.as_str().len() + feature.text().len()
}

/// How many bytes the text of an edit has within the text of a batch. The text of a feature's edit
/// is not built for this.
pub(crate) fn text_len(alloc: Global, edit: &Edit) -> Result<usize, AllocError>
    ensures { IfOk result (λ n. n ≡ length (compact_text (edit_data (edit_value edit.now)))) }
{
    match edit {
        Edit::Insert {
            collection,
            feature,
        } => Ok(INSERTION.len() + parts_len(collection, feature)),
        Edit::Replace {
            collection,
            feature,
        } => Ok(REPLACEMENT.len() + parts_len(collection, feature)),
        Edit::Open { .. } | Edit::Delete { .. } => Ok(edit.text(alloc)?.len()),
    }
}
