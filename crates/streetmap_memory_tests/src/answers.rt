//! Running out of memory, which no clause excludes: the ledger is as it was, and the line is
//! answered when it is sent again. The group `refusals` makes each allocation fail in turn.
use std::alloc::{AllocError, Global};
use std::test::Fail;
use streetmap_lines::answer_line;
use streetmap_memory::PlainKeeper;

/// A line over the ledger that the lines before it left, and its answer; and a line that reads the
/// ledger, with its answer before.
struct Row {
    line: &'static str,
    answer: &'static str,
    lookup: &'static str,
    seen: &'static str,
}

/// Batches that are accepted, repeated and refused, features with a geometry of each kind, pages
/// and lookups.
const ROWS: &[Row] = &[
    Row {
        line: r#"batch {"key":"b1","edits":[{"op":"open","collection":"lamps","time":"set"},{"op":"insert","collection":"lamps","feature":{"type":"Feature","id":"L1","geometry":{"type":"Point","coordinates":[1000,2000]},"properties":{"set":"2024-05-01"}}}]}"#,
        answer: r#"{"deleted":0,"inserted":1,"key":"b1","opened":1,"replaced":0,"serial":1}"#,
        lookup: "page lamps",
        seen: r#"{"code":"not_found","description":"There is nothing at this path."}"#,
    },
    Row {
        line: "page lamps bbox=0,0,3000,3000&datetime=2024-05-01T12:00:00Z&limit=1",
        answer: r#"{"features":[{"geometry":{"coordinates":[1000,2000],"type":"Point"},"id":"L1","properties":{"set":"2024-05-01"},"type":"Feature"}],"numberMatched":1,"numberReturned":1}"#,
        lookup: "page lamps",
        seen: r#"{"features":[{"geometry":{"coordinates":[1000,2000],"type":"Point"},"id":"L1","properties":{"set":"2024-05-01"},"type":"Feature"}],"numberMatched":1,"numberReturned":1}"#,
    },
    Row {
        line: "feature lamps L1",
        answer: r#"{"geometry":{"coordinates":[1000,2000],"type":"Point"},"id":"L1","properties":{"set":"2024-05-01"},"type":"Feature"}"#,
        lookup: "page lamps",
        seen: r#"{"features":[{"geometry":{"coordinates":[1000,2000],"type":"Point"},"id":"L1","properties":{"set":"2024-05-01"},"type":"Feature"}],"numberMatched":1,"numberReturned":1}"#,
    },
    Row {
        line: r#"batch {"key":"b2","edits":[{"op":"replace","collection":"lamps","feature":{"type":"Feature","id":"L1","properties":null}},{"op":"delete","collection":"lamps","id":"L1"},{"op":"insert","collection":"lamps","feature":{"type":"Feature","id":"L2"}}]}"#,
        answer: r#"{"deleted":1,"inserted":1,"key":"b2","opened":0,"replaced":1,"serial":2}"#,
        lookup: "page lamps",
        seen: r#"{"features":[{"geometry":{"coordinates":[1000,2000],"type":"Point"},"id":"L1","properties":{"set":"2024-05-01"},"type":"Feature"}],"numberMatched":1,"numberReturned":1}"#,
    },
    Row {
        line: "feature lamps L1",
        answer: r#"{"code":"not_found","description":"There is nothing at this path."}"#,
        lookup: "page lamps",
        seen: r#"{"features":[{"geometry":null,"id":"L2","properties":null,"type":"Feature"}],"numberMatched":1,"numberReturned":1}"#,
    },
    Row {
        line: r#"batch {"key":"b3","edits":[{"op":"open","collection":"street","title":"Street","time":"when"},{"op":"insert","collection":"street","feature":{"type":"Feature","id":"a","geometry":{"type":"Point","coordinates":[1,2,3]},"properties":{"name":"lamp","when":"2024-05-01"}}},{"op":"insert","collection":"street","feature":{"type":"Feature","id":"b","geometry":{"type":"MultiPoint","coordinates":[[1,2],[3,4]]},"properties":{"when":"2024-05-01T00:00:00Z/.."}}},{"op":"insert","collection":"street","feature":{"type":"Feature","id":"c","geometry":{"type":"LineString","coordinates":[[1,2],[3,4]]},"properties":null}},{"op":"insert","collection":"street","feature":{"type":"Feature","id":"d","geometry":{"type":"MultiLineString","coordinates":[[[1,2],[3,4]],[[5,6],[7,8]]]},"properties":{}}},{"op":"insert","collection":"street","feature":{"type":"Feature","id":"e","geometry":{"type":"Polygon","coordinates":[[[0,0],[9,0],[9,9],[0,0]],[[5,2],[7,4],[7,2],[5,2]]]},"properties":{"a":[1.0,2,[3]]}}},{"op":"insert","collection":"street","feature":{"type":"Feature","id":"f","geometry":{"type":"MultiPolygon","coordinates":[[[[0,0],[9,9],[9,0],[0,0]]],[[[20,0],[29,0],[29,9],[20,0]]]]},"properties":{"a":{"b":{"c":null}}}}},{"op":"insert","collection":"street","feature":{"type":"Feature","id":"g\"","geometry":{"type":"GeometryCollection","geometries":[{"type":"Point","coordinates":[5,6]},{"type":"LineString","coordinates":[[1,2],[3,4]]}]},"properties":{"when":null}}},{"op":"insert","collection":"street","feature":{"type":"Feature","id":9,"geometry":null}}]}"#,
        answer: r#"{"deleted":0,"inserted":8,"key":"b3","opened":1,"replaced":0,"serial":3}"#,
        lookup: "page street",
        seen: r#"{"code":"not_found","description":"There is nothing at this path."}"#,
    },
    Row {
        line: r#"batch {"edits" : [ {"collection":"lamps","op":"\u006fpen","time":"set"}, {"op":"insert","feature":{"id":"L1","properties":{"set":"2024-05-01"},"type":"Feature","geometry":{"type":"Point","coordinates":[1000.0, 2000.0]}},"collection":"lam\u0070s"} ] , "key" : "b1" }"#,
        answer: r#"{"deleted":0,"inserted":1,"key":"b1","opened":1,"replaced":0,"serial":1}"#,
        lookup: "page lamps",
        seen: r#"{"features":[{"geometry":null,"id":"L2","properties":null,"type":"Feature"}],"numberMatched":1,"numberReturned":1}"#,
    },
    Row {
        line: r#"batch {"key":"b1","edits":[]}"#,
        answer: r#"{"code":"key_used","description":"The key was used for another batch."}"#,
        lookup: "page lamps",
        seen: r#"{"features":[{"geometry":null,"id":"L2","properties":null,"type":"Feature"}],"numberMatched":1,"numberReturned":1}"#,
    },
    Row {
        line: "page street after=a&bbox=0%2C0%2C3%2C9&datetime=..%2F2024-06-01T02:00:00+02:00&limit=%37",
        answer: r#"{"features":[{"geometry":{"coordinates":[[1,2],[3,4]],"type":"MultiPoint"},"id":"b","properties":{"when":"2024-05-01T00:00:00Z/.."},"type":"Feature"}],"numberMatched":2,"numberReturned":1}"#,
        lookup: "feature street c",
        seen: r#"{"geometry":{"coordinates":[[1,2],[3,4]],"type":"LineString"},"id":"c","properties":null,"type":"Feature"}"#,
    },
    Row {
        line: "page street limit=2&after=f",
        answer: r#"{"features":[{"geometry":{"geometries":[{"coordinates":[5,6],"type":"Point"},{"coordinates":[[1,2],[3,4]],"type":"LineString"}],"type":"GeometryCollection"},"id":"g\"","properties":{"when":null},"type":"Feature"}],"numberMatched":8,"numberReturned":1}"#,
        lookup: "feature street c",
        seen: r#"{"geometry":{"coordinates":[[1,2],[3,4]],"type":"LineString"},"id":"c","properties":null,"type":"Feature"}"#,
    },
    Row {
        line: r#"feature street g""#,
        answer: r#"{"geometry":{"geometries":[{"coordinates":[5,6],"type":"Point"},{"coordinates":[[1,2],[3,4]],"type":"LineString"}],"type":"GeometryCollection"},"id":"g\"","properties":{"when":null},"type":"Feature"}"#,
        lookup: "feature street c",
        seen: r#"{"geometry":{"coordinates":[[1,2],[3,4]],"type":"LineString"},"id":"c","properties":null,"type":"Feature"}"#,
    },
    Row {
        line: r#"batch {"key":"b4","edits":[{"op":"delete","collection":"street","id":"c"},{"op":"replace","collection":"street","feature":{"type":"Feature","id":"b","geometry":{"type":"Point","coordinates":[1,7]},"properties":{"when":"2024-05-02"}}},{"op":"insert","collection":"street","feature":{"type":"Feature","id":"h"}},{"op":"open","collection":"lamps"}]}"#,
        answer: r#"{"code":"collection_exists","description":"The collection is there already.","place":4}"#,
        lookup: "feature street c",
        seen: r#"{"geometry":{"coordinates":[[1,2],[3,4]],"type":"LineString"},"id":"c","properties":null,"type":"Feature"}"#,
    },
    Row {
        line: r#"batch {"key":"b4","edits":[{"op":"insert","collection":"street","feature":{"type":"Feature","id":"h","geometry":{"type":"Polygon","coordinates":[[[0,0],[9,0],[0,0]]]}}}]}"#,
        answer: r#"{"cause":"short_ring","code":"bad_feature","description":"A feature of the batch cannot be read.","place":1}"#,
        lookup: "feature street h",
        seen: r#"{"code":"not_found","description":"There is nothing at this path."}"#,
    },
    Row {
        line: r#"batch {"key":"b4","edits":[{"op":"delete","collection":"lamps","id":1.5}]}"#,
        answer: r#"{"code":"bad_batch","description":"The batch cannot be read.","place":1}"#,
        lookup: "feature lamps L2",
        seen: r#"{"geometry":null,"id":"L2","properties":null,"type":"Feature"}"#,
    },
    Row {
        line: "page street l%69mit=1&after=a&lim%69t=2",
        answer: r#"{"code":"repeated_parameter","description":"A parameter stands twice."}"#,
        lookup: "feature street c",
        seen: r#"{"geometry":{"coordinates":[[1,2],[3,4]],"type":"LineString"},"id":"c","properties":null,"type":"Feature"}"#,
    },
];

/// The rows.
fn rows() -> &'static [Row] {
    ROWS
}

/// Whether a line has this answer.
fn is_answered(
    alloc: Global,
    keeper: &mut PlainKeeper,
    line: &str,
    wanted: &str,
) -> Result<bool, AllocError> {
    let answer = answer_line(alloc, keeper, line.as_bytes())?;
    Ok(answer.is_some_and(|text| text.as_str() == wanted))
}

/// Whether a line that failed for lack of memory changed nothing, and is answered when it is sent
/// again.
fn is_answered_again(
    alloc: Global,
    keeper: &mut PlainKeeper,
    row: &Row,
) -> Result<bool, AllocError> {
    Ok(
        is_answered(alloc, keeper, row.lookup, row.seen)?
            && is_answered(alloc, keeper, row.line, row.answer)?,
    )
}

#[test]
fn a_line_refused_for_memory_is_answered_again(rt: HostRuntime) -> Result<(), Fail> {
    let mut keeper = PlainKeeper::new(rt.alloc());
    for row in rows() {
        let is_as_wanted = match is_answered(rt.alloc(), &mut keeper, row.line, row.answer) {
            Ok(is_as_wanted) => is_as_wanted,
            Err(_) => is_answered_again(rt.alloc(), &mut keeper, row)?,
        };
        assert!(rt; is_as_wanted, "at {}", row.line);
    }
    Ok(())
}
