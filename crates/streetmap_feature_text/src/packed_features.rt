//! The texts of several features.
ghost use Rattle.std.specs.Prelude.{◌≡◌, ◌++◌, IfOk, OnOk, string_bytes};
ghost use Rattle.serde_json.specs.Written.{compact_text};
ghost use Rattle.streetmap_feature_text.specs.Written.{array_of, feature_data, collection_data};

use crate::feature_json::push_comma;
use crate::packed::PackedFeature;
use std::alloc::{AllocError, Global};

/// Appends the array of features, in their order: the text of each is copied. If memory runs out, a
/// prefix of it may have been appended.
pub fn push_features(out: &mut String, features: &[PackedFeature]) -> Result<(), AllocError>
    ensures { OnOk result (string_bytes out.new
        ≡ string_bytes out.old ++ compact_text (array_of feature_data features.now)) }
{
    out.push_str("[")?;
    let mut later = false;
    for feature in features {
        push_comma(out, later)?;
        out.push_str(feature.text())?;
        later = true;
    }
    out.push_str("]")
}

/// The compact JSON text of a collection, as `write_collection` writes its value.
///
/// # Errors
///
/// `AllocError` if memory runs out.
pub fn collection_text(alloc: Global, features: &[PackedFeature]) -> Result<String, AllocError>
    ensures { IfOk result (λ text. string_bytes text
        ≡ compact_text (collection_data features.now)) }
{
    let mut out = String::new(alloc);
    out.push_str("{\"features\":")?;
    push_features(&mut out, features)?;
    out.push_str(",\"type\":\"FeatureCollection\"}")?;
    Ok(out)
}
