//! Batches, the states that they lead to one by one, and which of these is seen in files that are
//! opened again.
use crate::answers::{answers, is_answered};
use crate::files::{ALL_CALLS, Fused, visit_again};
use crate::keepers::{Outcome, OverOpened, Task};
use sqlite_disk::{Crash, Files};
use std::alloc::Global;
use std::test::Fail;
use streetmap_ledger::Keeper;
use streetmap_memory::PlainKeeper;
use streetmap_tags::Tagged;

/// Points, features without a geometry, and features with a time.
const BATCHES: [&str; COUNT] = [
    r#"{"key":"b1","edits":[{"op":"open","collection":"lamps"},{"op":"insert","collection":"lamps","feature":{"type":"Feature","id":"L1","geometry":{"type":"Point","coordinates":[1000,2000]},"properties":null}}]}"#,
    r#"{"key":"b2","edits":[{"op":"insert","collection":"lamps","feature":{"type":"Feature","id":"L2","geometry":null,"properties":{"height":12}}}]}"#,
    r#"{"key":"b3","edits":[{"op":"replace","collection":"lamps","feature":{"type":"Feature","id":"L1","geometry":{"type":"Point","coordinates":[5,6]},"properties":null}}]}"#,
    r#"{"key":"b4","edits":[{"op":"open","collection":"works","time":"when"},{"op":"insert","collection":"works","feature":{"type":"Feature","id":"K1","geometry":{"type":"LineString","coordinates":[[9,-9],[0,4]]},"properties":{"when":"1969-12-31T23:59:00Z/1970-01-01T00:01:00Z"}}},{"op":"insert","collection":"works","feature":{"type":"Feature","id":"K2","geometry":{"type":"Point","coordinates":[30,30]},"properties":{"when":"1970-01-01"}}},{"op":"insert","collection":"lamps","feature":{"type":"Feature","id":"L3","geometry":null,"properties":null}},{"op":"delete","collection":"lamps","id":"L2"}]}"#,
    r#"{"key":"b5","edits":[{"op":"delete","collection":"works","id":"K2"}]}"#,
];

/// The number of batches.
pub(crate) const COUNT: usize = 5;

/// The requests that read a state.
const LOOKS: &str =
    "GET /collections/lamps/items HTTP/1.1\r\nHost: localhost\r\n\r\nGET /collections/works/items?datetime=1970-01-01T00:00:00Z HTTP/1.1\r\nHost: localhost\r\n\r\nGET /collections HTTP/1.1\r\nHost: localhost\r\n\r\n";

/// Applies the batches up to the first that is not answered. Returns how many were.
pub(crate) fn act<K: Keeper>(alloc: Global, keeper: &mut K) -> usize {
    let mut acknowledged: usize = 0;
    for text in BATCHES {
        if !is_answered(alloc, keeper, text) {
            break;
        }
        acknowledged = acknowledged.saturating_add(1);
    }
    acknowledged
}

/// Appends what is seen of a keeper.
fn push_state<K: Tagged>(
    alloc: Global,
    keeper: &mut K,
    states: &mut Vec<Vec<u8>>,
) -> Result<(), Fail> {
    match answers(alloc, keeper, false, LOOKS) {
        Some(text) => Ok(states.push(text)?),
        None => Err(Fail::from("nothing was answered")),
    }
}

/// What is seen before the first of the batches, and after each of them.
pub(crate) fn states(alloc: Global) -> Result<Vec<Vec<u8>>, Fail> {
    let mut keeper = PlainKeeper::new(alloc);
    let mut states = Vec::new(alloc);
    push_state(alloc, &mut keeper, &mut states)?;
    for text in BATCHES {
        let _is_answered = is_answered(alloc, &mut keeper, text);
        push_state(alloc, &mut keeper, &mut states)?;
    }
    Ok(states)
}

/// What is seen of files that are opened again.
#[derive(Clone, Copy, PartialEq, Eq)]
pub(crate) enum Seen {
    /// The tables are not this product's.
    NotOurs,
    /// The state after this number of batches; and if all act again, then that after all.
    After(usize),
    /// Anything else.
    Other,
}

/// How many batches a keeper's state is after; none if it is in no such state.
fn place<K: Tagged>(alloc: Global, keeper: &mut K, states: &[Vec<u8>]) -> Option<usize> {
    let text = answers(alloc, keeper, false, LOOKS)?;
    states.iter().position(|state| *state == text)
}

/// Whether a keeper is after all batches once all have acted again.
fn acts_again<K: Tagged>(alloc: Global, keeper: &mut K, states: &[Vec<u8>]) -> bool {
    act(alloc, keeper) == COUNT && place(alloc, keeper, states) == Some(COUNT)
}

/// Tables are opened and read, and all batches act again if requested.
#[derive(Clone, Copy)]
pub(crate) struct Lookup<'a> {
    pub(crate) states: &'a [Vec<u8>],
    pub(crate) acts_again: bool,
}

impl Task for Lookup<'_> {
    type Output = Seen;

    /// What is seen of a keeper.
    fn run<K: Tagged>(self, alloc: Global, keeper: &mut K) -> Seen {
        match place(alloc, keeper, self.states) {
            Some(count) if !self.acts_again || acts_again(alloc, keeper, self.states) => {
                Seen::After(count)
            }
            _ => Seen::Other,
        }
    }
}

/// What is seen of files that are opened again.
fn reopened(alloc: Global, files: &Files<Fused>, lookup: Lookup<'_>) -> Result<Seen, Fail> {
    match visit_again(alloc, files, ALL_CALLS, OverOpened(lookup))?.0 {
        Some(Outcome::Done(seen)) => Ok(seen),
        Some(Outcome::NotOurs) => Ok(Seen::NotOurs),
        Some(Outcome::Refused) | None => Ok(Seen::Other),
    }
}

/// What is seen of all that was written, and then of only what was synchronised.
pub(crate) fn seen_twice(
    alloc: Global,
    files: &mut Files<Fused>,
    lookup: Lookup<'_>,
) -> Result<(Seen, Seen), Fail> {
    let written = reopened(alloc, files, lookup)?;
    files.log.crash();
    files.db.crash();
    Ok((written, reopened(alloc, files, lookup)?))
}
