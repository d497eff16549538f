//! The rows of HTTP over a keeper in memory, over tables, and with an index over each: the answers
//! are the same bytes.
use crate::answers::answers;
use crate::files::{Visit, output_of_new};
use crate::keepers::{Outcome, OverNew, Task};
use crate::rows::{COUNT, OPTIONS_COUNT, OPTIONS_ROWS, ROWS};
use serde_json::Value;
use sqlite::{Alter, Connection};
use std::alloc::{AllocError, Global};
use std::test::Fail;
use streetmap_index::IndexedKeeper;
use streetmap_memory::PlainKeeper;
use streetmap_store::TableKeeper;
use streetmap_tags::Tagged;

/// The rows of a service with tags and changes or without both, a line each.
fn rows(tags: bool) -> &'static str {
    if tags { OPTIONS_ROWS } else { ROWS }
}

/// What is sent to a new keeper: first what makes the state, and then the requests with their
/// answers, of a service with tags and changes or without both.
#[derive(Clone, Copy)]
struct Row<'a> {
    tags: bool,
    first: &'a str,
    sent: &'a str,
    written: &'a str,
}

/// A text of a row.
fn text<'a>(row: &'a Value, name: &str) -> &'a str {
    row.get(name).and_then(Value::as_str).unwrap_or("")
}

/// Appends the request that posts a batch.
fn push_post(alloc: Global, requests: &mut String, body: &str) -> Result<(), AllocError> {
    let len = body.len();
    let head = format!(in alloc;
        "POST /batches HTTP/1.1\r\nHost: localhost\r\nContent-Length: {len}\r\n\r\n"
    )?;
    requests.push_str(head.as_str())?;
    requests.push_str(body)
}

/// Appends the requests that post the batches applied before.
fn push_before(alloc: Global, requests: &mut String, row: &Value) -> Result<(), AllocError> {
    if let Some(batches) = row.get("before").and_then(Value::as_array) {
        for batch in batches {
            push_post(alloc, requests, batch.as_str().unwrap_or(""))?;
        }
    }
    Ok(())
}

/// Whether a new keeper gives these answers to the requests of a row.
fn is_answered_so<K: Tagged>(alloc: Global, keeper: &mut K, row: Row<'_>) -> bool {
    answers(alloc, keeper, row.tags, row.first).is_some()
        && answers(alloc, keeper, row.tags, row.sent).is_some_and(|text| text.as_slice()
            == row.written.as_bytes())
}

impl Task for Row<'_> {
    type Output = bool;

    /// Whether a new keeper gives these answers to the requests of the row.
    fn run<K: Tagged>(self, alloc: Global, keeper: &mut K) -> bool {
        is_answered_so(alloc, keeper, self)
    }
}

/// A row is sent to an index over a keeper over new tables: whether it has these answers.
#[derive(Clone, Copy)]
struct OverIndexedTables<'a>(Row<'a>);

impl Visit for OverIndexedTables<'_> {
    type Output = bool;

    fn visit<S: Alter + Drop>(self, alloc: Global, conn: Connection<S>) -> (bool, Option<S>) {
        match TableKeeper::make(alloc, conn) {
            Ok(keeper) => {
                let mut indexed = IndexedKeeper::new(alloc, keeper);
                (is_answered_so(alloc, &mut indexed, self.0), None)
            }
            Err(_) => (false, None),
        }
    }
}

/// Which keeper answers differently to the requests of a row; none if no keeper does.
fn differing(alloc: Global, row: Row<'_>) -> Option<&'static str> {
    if !is_answered_so(alloc, &mut PlainKeeper::new(alloc), row) {
        return Some("in memory");
    }
    let mut indexed = IndexedKeeper::new(alloc, PlainKeeper::new(alloc));
    if !is_answered_so(alloc, &mut indexed, row) {
        return Some("with an index over memory");
    }
    if output_of_new(alloc, OverNew(row)) != Some(Outcome::Done(true)) {
        return Some("over tables");
    }
    if output_of_new(alloc, OverIndexedTables(row)) != Some(true) {
        return Some("with an index over tables");
    }
    None
}

/// The same for the row of a line.
fn differing_at(alloc: Global, tags: bool, line: &str) -> Result<Option<&'static str>, Fail> {
    let row = Value::from_str(alloc, line)?;
    let mut first = String::new(alloc);
    push_before(alloc, &mut first, &row)?;
    let row = Row {
        tags,
        first: first.as_str(),
        sent: text(&row, "sent"),
        written: text(&row, "written"),
    };
    Ok(differing(alloc, row))
}

#[test]
fn each_keeper_answers_the_rows(rt: HostRuntime) -> Result<(), Fail> {
    let mut count = 0u64;
    for line in rows(false).lines() {
        let differing = differing_at(rt.alloc(), false, line)?;
        assert_eq!(rt; differing, None, "{line}");
        count = count.saturating_add(1);
    }
    assert_eq!(rt; count, COUNT);
    Ok(())
}

#[test]
fn each_keeper_answers_the_rows_with_tags_and_changes(rt: HostRuntime) -> Result<(), Fail> {
    let mut count = 0u64;
    for line in rows(true).lines() {
        let differing = differing_at(rt.alloc(), true, line)?;
        assert_eq!(rt; differing, None, "{line}");
        count = count.saturating_add(1);
    }
    assert_eq!(rt; count, OPTIONS_COUNT);
    Ok(())
}
