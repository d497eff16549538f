//! The text that is kept of a feature, parsed again.
ghost use Rattle.std.specs.Prelude.{◌≡◌, IfOk, IfSome, Ok, option_map};
ghost use Rattle.std.specs.Option.{option_copied};
ghost use Rattle.streetmap_feature_reader.specs.UsualTexts.{feature_of_text};
ghost use Rattle.streetmap_geojson.specs.FeatureValue.{FeatureValue};
ghost use Rattle.streetmap_geojson.specs.Fault.{Gives};
ghost use Rattle.streetmap_rows.specs.Rows.{feature_text};
ghost use Rattle.streetmap_rows.specs.Stored.{IsStored, TextReadsAs};

use json::Scratch;
use std::alloc::{AllocError, Global};
use streetmap_compact_reader::read_compact;
use streetmap_feature_reader::read_feature_text;
use streetmap_feature_text::PackedFeature;
use streetmap_geojson::JsonFault;

/// The feature of a text that is kept in its usual form, read without its values; none says nothing
/// of the text.
fn read_usual(
    alloc: Global,
    body: &[u8],
    property: Option<&str>,
) -> Result<Option<PackedFeature>, AllocError>
    ensures { IfOk result (λ found. IfSome found (λ p.
        feature_of_text (option_map (λ s. s.now) property.entry) body.now ≡ Ok p)) }
{
    let Ok(text) = simdutf8::basic::from_utf8(body) else {
        return Ok(None);
    };
    let Some(found) = read_compact(text, property) else {
        return Ok(None);
    };
    let feature = PackedFeature::from_text(alloc, text, found.id, found.extent, found.time)?;
    Ok(Some(feature))
}

/// The feature of any text, usual or not.
fn read_any(
    alloc: Global,
    scratch: &mut Scratch,
    body: &[u8],
    property: Option<&str>,
) -> Result<PackedFeature, JsonFault>
    ensures { Gives (λ p. p) result
        (feature_of_text (option_map (λ s. s.now) property.entry) body.now) }
{
    if let Some(feature) = read_usual(alloc, body, property)? {
        return Ok(feature);
    }
    let feature = read_feature_text(alloc, scratch, body, property)?;
    Ok(PackedFeature::of(alloc, &feature)?)
}

/// The feature of the text that is kept, under a collection's time property. One `scratch` serves
/// any number of reads, one after the other.
///
/// The text is JSON (RFC 8259) of a GeoJSON Feature (RFC 7946), as `push_feature` writes it. A text
/// in that form is kept as it is; any other is read into values and written again.
///
/// # Errors
///
/// `Memory` if memory runs out; `Fault` if the text does not read as a feature, which never happens
/// with a text that is kept.
pub fn read_body(
    alloc: Global,
    scratch: &mut Scratch,
    body: &[u8],
    property: Option<&str>,
) -> Result<PackedFeature, JsonFault>
    ensures reads { IfOk result (TextReadsAs (option_copied property.entry) body.now) }
    ensures again { (f : FeatureValue) → body.now ≡ feature_text f →
        IsStored (option_copied property.entry) f → Gives (λ p. p) result (Ok f) }
{
    read_any(alloc, scratch, body, property)
}
