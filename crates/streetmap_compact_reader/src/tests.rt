use crate::{CompactFeature, read_compact};
use std::alloc::{AllocError, Global};

/// A lamp, as a follower stores it.
const LAMP: &str =
    "{\"geometry\":{\"coordinates\":[14182,54770],\"type\":\"Point\"},\"id\":\"L001\",\
    \"properties\":{\"height\":6,\"kind\":\"lamp\",\"since\":\"2019-05-01\"},\"type\":\"Feature\"}";

/// The easting and northing of the south-western corner, and those of the north-eastern one.
fn corners(feature: &CompactFeature<'_>) -> Option<(i64, i64, i64, i64)> {
    match feature.extent {
        Some(extent) => Some((extent.x0, extent.y0, extent.x1, extent.y1)),
        None => None,
    }
}

/// The first and the last second of the time.
fn seconds(feature: &CompactFeature<'_>) -> Option<(i64, i64)> {
    match feature.time {
        Some(time) => Some(time.seconds()),
        None => None,
    }
}

#[test]
fn usual_texts_are_read(rt: HostRuntime) {
    let lamp = read_compact(LAMP, Some("since")).expect(&rt, "the lamp");
    assert!(rt; lamp.id == "L001");
    assert!(rt; corners(&lamp) == Some((14182, 54770, 14182, 54770)));
    assert!(rt; seconds(&lamp) == Some((1_556_668_800, 1_556_755_199)));
    let lamp = read_compact(LAMP, None).expect(&rt, "the lamp without a time");
    assert!(rt; seconds(&lamp).is_none());
    let line = "{\"geometry\":{\"coordinates\":[[0,-5,1],[-20,7,2],[3,0]],\"type\":\"LineString\"},\
        \"id\":\"w é\",\"properties\":null,\"type\":\"Feature\"}";
    let line = read_compact(line, Some("since")).expect(&rt, "the line");
    assert!(rt; line.id == "w é");
    assert!(rt; corners(&line) == Some((-20, -5, 3, 7)));
    let hall =
        "{\"geometry\":{\"coordinates\":[[[0,0],[9,0],[9,9],[0,0]],[[2,1],[3,2],[3,1],[2,1]]],\
        \"type\":\"Polygon\"},\"id\":\"H\",\"properties\":{},\"type\":\"Feature\"}";
    let hall = read_compact(hall, None).expect(&rt, "the hall");
    assert!(rt; corners(&hall) == Some((0, 0, 9, 9)));
    let nowhere = "{\"geometry\":null,\"id\":\"n\",\"properties\":{\"a\":true,\"b\":null,\"c\":-1},\
        \"type\":\"Feature\"}";
    let nowhere = read_compact(nowhere, Some("b")).expect(&rt, "the feature without a geometry");
    assert!(rt; corners(&nowhere).is_none());
    assert!(rt; seconds(&nowhere).is_none());
}

/// The text of a feature with this geometry, id and properties.
fn text_of(
    alloc: Global,
    geometry: &str,
    id: &str,
    properties: &str,
) -> Result<String, AllocError> {
    format!(in alloc;
        "{{\"geometry\":{geometry},\"id\":{id},\"properties\":{properties},\"type\":\"Feature\"}}"
    )
}

#[test]
fn geometries_of_another_form_are_left(rt: HostRuntime) -> Result<(), AllocError> {
    for (geometry, read) in [
        ("{\"coordinates\":[[1,2]],\"type\":\"MultiPoint\"}", true),
        ("{\"coordinates\":[[1,2]],\"type\":\"LineString\"}", false),
        ("{\"coordinates\":[],\"type\":\"MultiPoint\"}", false),
        ("{\"coordinates\":[0,-7],\"type\":\"Point\"}", true),
        ("{\"coordinates\":[00,7],\"type\":\"Point\"}", false),
        ("{\"coordinates\":[-0,7],\"type\":\"Point\"}", false),
        ("{\"coordinates\":[1.0,7],\"type\":\"Point\"}", false),
        ("{\"coordinates\":[1, 7],\"type\":\"Point\"}", false),
        ("{\"coordinates\":[1,7,3,4],\"type\":\"Point\"}", false),
        ("{\"coordinates\":[1000000000,7],\"type\":\"Point\"}", true),
        ("{\"coordinates\":[1000000001,7],\"type\":\"Point\"}", false),
        (
            "{\"coordinates\":[[[0,0],[9,0],[9,9],[0,0]]],\"type\":\"Polygon\"}",
            true,
        ),
        (
            "{\"coordinates\":[[[0,0],[9,9],[9,0],[0,0]]],\"type\":\"Polygon\"}",
            false,
        ),
        (
            "{\"coordinates\":[[[0,0],[9,0],[9,9],[0,1]]],\"type\":\"Polygon\"}",
            false,
        ),
        (
            "{\"coordinates\":[[[0,0],[9,0],[0,0]]],\"type\":\"Polygon\"}",
            false,
        ),
    ] {
        let text = text_of(rt.alloc(), geometry, "\"a\"", "null")?;
        assert!(rt;
            read_compact(text.as_str(), None).is_some() == read,
            "{geometry}"
        );
    }
    Ok(())
}

#[test]
fn properties_of_another_form_are_left(rt: HostRuntime) -> Result<(), AllocError> {
    for (id, properties, read) in [
        (
            "\"a\"",
            "{\"a\":false,\"b\":123456789012345,\"t\":\"../2020-01-01T00:00:00Z\"}",
            true,
        ),
        ("\"a\"", "{\"b\":1,\"a\":1}", false),
        ("\"a\"", "{\"a\":1,\"a\":1}", false),
        ("\"a\"", "{\"a\":1234567890123456}", false),
        ("\"a\"", "{\"a\":1e3}", false),
        ("\"a\"", "{\"a\":[1]}", false),
        ("\"a\"", "{\"a\":\"\\n\"}", false),
        ("\"a\"", "{\"t\":6}", false),
        ("\"a\"", "{\"t\":\"yesterday\"}", false),
        ("\"a\"", "{},\"type\":\"Feature\"} ", false),
        ("\"\"", "{}", false),
        ("7", "{}", false),
    ] {
        let text = text_of(rt.alloc(), "null", id, properties)?;
        assert!(rt;
            read_compact(text.as_str(), Some("t")).is_some() == read,
            "{id} {properties}"
        );
    }
    Ok(())
}
