//! How many features a page examines, which no answer shows, and runs of features.
use std::alloc::Global;
use std::test::Fail;
use streetmap_ledger::{Keeper, Outlined, read_batch};
use streetmap_memory::PlainKeeper;
use streetmap_query::read_query;

/// Features with a geometry and a time: D has no time, and E and F no geometry.
const STREET: &str = r#"{"key":"street","edits":[
    {"op":"open","collection":"street","time":"when"},
    {"op":"insert","collection":"street","feature":{"type":"Feature","id":"A","geometry":{"type":"LineString","coordinates":[[0,0],[10,10]]},"properties":{"when":"2024-05-01"}}},
    {"op":"insert","collection":"street","feature":{"type":"Feature","id":"B","geometry":{"type":"Point","coordinates":[1,7]},"properties":{"when":"2024-05-01"}}},
    {"op":"insert","collection":"street","feature":{"type":"Feature","id":"C","geometry":{"type":"Point","coordinates":[2,8]},"properties":{"when":"2024-05-02"}}},
    {"op":"insert","collection":"street","feature":{"type":"Feature","id":"D","geometry":{"type":"Point","coordinates":[1,7]}}},
    {"op":"insert","collection":"street","feature":{"type":"Feature","id":"E","properties":{"when":"2024-05-01"}}},
    {"op":"insert","collection":"street","feature":{"type":"Feature","id":"F","properties":{"when":"2024-05-01T12:00:00.5Z"}}}]}"#;

/// A query, and how many features its page examines: those whose extent overlaps the box, and whose
/// seconds overlap those of the interval.
const EXAMINED: &[(&str, u64)] = &[
    ("", 6),
    ("limit=1&after=D", 6),
    ("bbox=0,6,3,9", 4),
    ("bbox=0,6,3,9&limit=1&after=B", 4),
    ("bbox=4,5,5,6", 1),
    ("bbox=11,0,12,9", 0),
    ("bbox=-2000000000,-2000000000,2000000000,2000000000", 4),
    ("datetime=2024-05-01T12:00:00Z", 4),
    ("datetime=2024-05-03T00:00:00Z/..", 0),
    ("bbox=0,6,3,9&datetime=2024-05-01T12:00:00Z", 2),
];

/// The ids that bound a run of the street, and those of its features.
const RUNS: &[(&str, &str, &str)] = &[
    ("B", "D", "BCD"),
    ("A", "F", "ABCDEF"),
    ("C", "C", "C"),
    ("BB", "DD", "CD"),
    ("", "a", "ABCDEF"),
    ("D", "B", ""),
    ("BB", "BC", ""),
];

/// How many features a page of the street examines; none if it is not open.
fn examined(alloc: Global, keeper: &mut PlainKeeper, query: &str) -> Result<Option<u64>, Fail> {
    let query = read_query(alloc, Some(query))?;
    let page = keeper.page("street", &query)?;
    Ok(page.map(|page| page.examined))
}

/// The ids of the features of a run, one after the other; none if the collection is not open.
fn run_ids(
    alloc: Global,
    keeper: &mut PlainKeeper,
    collection: &str,
    first: &str,
    last: &str,
) -> Result<Option<String>, Fail> {
    let Some(features) = keeper.features(collection, first, last)? else {
        return Ok(None);
    };
    let mut ids = String::new(alloc);
    for feature in &features {
        ids.push_str(feature.id(alloc)?.as_str())?;
    }
    Ok(Some(ids))
}

/// Applies the batch of the street.
fn fill(alloc: Global, keeper: &mut PlainKeeper) -> Result<(), Fail> {
    let batch = read_batch(alloc, STREET.as_bytes())?;
    keeper.apply(&batch)?;
    Ok(())
}

#[test]
fn pages_report_how_many_they_examined(rt: HostRuntime) -> Result<(), Fail> {
    let mut keeper = PlainKeeper::new(rt.alloc());
    fill(rt.alloc(), &mut keeper)?;
    for (query, count) in EXAMINED {
        let reported = examined(rt.alloc(), &mut keeper, query)?;
        assert!(rt; reported == Some(*count), "at {query}");
    }
    Ok(())
}

#[test]
fn runs_have_the_first_and_the_last_feature(rt: HostRuntime) -> Result<(), Fail> {
    let mut keeper = PlainKeeper::new(rt.alloc());
    fill(rt.alloc(), &mut keeper)?;
    for (first, last, ids) in RUNS {
        let reported = run_ids(rt.alloc(), &mut keeper, "street", first, last)?;
        assert!(rt; reported.as_deref() == Some(*ids), "from {first} to {last}");
    }
    Ok(())
}

#[test]
fn a_collection_that_is_not_open_has_no_run(rt: HostRuntime) -> Result<(), Fail> {
    let mut keeper = PlainKeeper::new(rt.alloc());
    fill(rt.alloc(), &mut keeper)?;
    let reported = run_ids(rt.alloc(), &mut keeper, "square", "A", "F")?;
    assert!(rt; reported.is_none());
    Ok(())
}
