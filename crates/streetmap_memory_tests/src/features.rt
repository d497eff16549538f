//! Ids of features that are known without reading them.
use bytes::Bytes;
use std::alloc::Global;
use std::test::Fail;
use streetmap_feature_text::{PackedFeature, WrittenFeature};
use streetmap_geojson::{Feature, JsonFault, read_feature, read_json};

/// The feature that a JSON text reads as, with the time of its property `when`.
fn feature(alloc: Global, text: &str) -> Result<Feature, JsonFault> {
    let value = read_json(alloc, text.as_bytes())?;
    read_feature(alloc, &value, Some("when"))
}

/// A text of a feature, and its id if that is in the feature's text without escapes.
const IDS: &[(&str, Option<&str>)] = &[
    (r#"{"type":"Feature","id":"way/7"}"#, Some("way/7")),
    (r#"{"type":"Feature","id":17}"#, Some("17")),
    (
        r#"{"type":"Feature","id":"\u00e9\ud83d\ude80"}"#,
        Some("é🚀"),
    ),
    (
        r#"{"type":"Feature","id":"a","geometry":{"type":"Point","coordinates":[1,2]},"properties":{"id":"b","when":"2024-05-01"}}"#,
        Some("a"),
    ),
    (r#"{"type":"Feature","id":"a\"b"}"#, None),
    (r#"{"type":"Feature","id":"a\\b"}"#, None),
];

/// The feature packed as its text.
fn packed(alloc: Global, feature: &Feature) -> Result<PackedFeature, Fail> {
    let written = WrittenFeature::new(alloc, feature.copy(alloc)?)?;
    let text = Bytes::copy_from_slice(alloc, written.text().as_bytes())?;
    Ok(PackedFeature::new(alloc, text, &written, feature.time())?)
}

/// Whether this is known of a feature's id without reading it.
fn is_known(alloc: Global, feature: &Feature, id: Option<&str>) -> Result<bool, Fail> {
    let packed = packed(alloc, feature)?;
    Ok(packed.unescaped_id() == id.map(str::as_bytes))
}

#[test]
fn ids_without_escapes_are_known_unread(rt: HostRuntime) -> Result<(), Fail> {
    for (text, id) in IDS {
        let feature = feature(rt.alloc(), text)?;
        assert!(rt; is_known(rt.alloc(), &feature, *id)?, "at {text}");
    }
    Ok(())
}
