//! A crash at each call of the files in turn. For batches, what opens again is the state of a
//! prefix of them, with each acknowledged one; for the migration of format 1, it is the state that
//! was there.
use crate::files::{ALL_CALLS, Calls, Fused, Visit, visit_again, visit_new};
use crate::keepers::{Outcome, OverNew, OverOpened, Task};
use crate::states::{COUNT, Lookup, Seen, act, seen_twice, states};
use sqlite::{Alter, Connection};
use sqlite_disk::Files;
use std::alloc::Global;
use std::test::Fail;
use streetmap_tags::Tagged;

/// More calls than any run makes.
const MOST_CALLS: u64 = 10_000;

/// This number of calls of the log, or of the database, and all of the other.
fn calls(of_log: bool, count: u64) -> Calls {
    if of_log {
        Calls {
            log: count,
            db: u64::MAX,
        }
    } else {
        Calls {
            log: u64::MAX,
            db: count,
        }
    }
}

/// The batches are applied: how many were answered.
#[derive(Clone, Copy)]
struct ActOnAll;

impl Task for ActOnAll {
    type Output = usize;

    fn run<K: Tagged>(self, alloc: Global, keeper: &mut K) -> usize {
        act(alloc, keeper)
    }
}

/// Creates tables in new files that take this number of calls, and applies the batches. Returns how
/// many were answered, none if the tables were not created; and what is left of the files.
fn acted(alloc: Global, calls: Calls) -> Result<(Option<usize>, Files<Fused>), Fail> {
    match visit_new(alloc, calls, OverNew(ActOnAll)) {
        (Some(Outcome::Done(acknowledged)), Some(files)) => Ok((Some(acknowledged), files)),
        (_, Some(files)) => Ok((None, files)),
        (_, None) => Err(Fail::from("the files were dropped")),
    }
}

/// Whether this may be seen if this number of batches were acknowledged, or no tables created.
fn may_be_left(seen: Seen, acknowledged: Option<usize>) -> bool {
    match seen {
        Seen::NotOurs => acknowledged.is_none(),
        Seen::After(count) => {
            let least = acknowledged.unwrap_or(0);
            count == least || count == least.saturating_add(1)
        }
        Seen::Other => false,
    }
}

/// Applies the batches in new files that take this number of calls. Returns whether all were
/// acknowledged; none if what is left is not allowed.
fn crashed(alloc: Global, calls: Calls, states: &[Vec<u8>]) -> Result<Option<bool>, Fail> {
    let (acknowledged, mut files) = acted(alloc, calls)?;
    let lookup = Lookup {
        states,
        acts_again: true,
    };
    let (written, synchronised) = seen_twice(alloc, &mut files, lookup)?;
    let is_right = may_be_left(written, acknowledged) && may_be_left(synchronised, acknowledged);
    Ok(is_right.then_some(acknowledged == Some(COUNT)))
}

/// After how many calls all batches were acknowledged, if each crash before left what it may.
fn calls_of_batches(alloc: Global, of_log: bool, states: &[Vec<u8>]) -> Result<Option<u64>, Fail> {
    for count in 0..MOST_CALLS {
        match crashed(alloc, calls(of_log, count), states)? {
            Some(false) => {}
            Some(true) => return Ok(Some(count)),
            None => return Ok(None),
        }
    }
    Ok(None)
}

#[test]
fn a_crash_at_each_call_leaves_a_prefix(rt: HostRuntime) -> Result<(), Fail> {
    let states = states(rt.alloc())?;
    for of_log in [true, false] {
        let calls = calls_of_batches(rt.alloc(), of_log, &states)?;
        assert!(rt; calls.is_some_and(|count| count > 10), "{of_log} {calls:?}");
    }
    Ok(())
}

/// Turns the tables of format 2 into those of format 1.
const TO_FORMAT_1: &str =
    "CREATE TABLE old (collection TEXT, id TEXT, body TEXT); INSERT INTO old SELECT collection, id, body FROM streetmap_features; DROP TABLE streetmap_features; CREATE TABLE streetmap_features (collection TEXT NOT NULL REFERENCES streetmap_collections(id), id TEXT NOT NULL, body TEXT NOT NULL, PRIMARY KEY (collection, id)) STRICT; INSERT INTO streetmap_features SELECT collection, id, body FROM old; DROP TABLE old; UPDATE streetmap_meta SET value = 1";

/// The tables are turned into those of format 1: whether they were.
#[derive(Clone, Copy)]
struct ToFormat1;

impl Visit for ToFormat1 {
    type Output = bool;

    fn visit<S: Alter + Drop>(self, _: Global, conn: Connection<S>) -> (bool, Option<S>) {
        let mut conn = conn;
        let is_old = conn.execute_batch(TO_FORMAT_1).is_ok();
        (is_old, Some(conn.into_store()))
    }
}

/// Files with tables of format 1 and the batches.
fn old_files(alloc: Global) -> Result<Files<Fused>, Fail> {
    let (acknowledged, new) = acted(alloc, ALL_CALLS)?;
    match visit_again(alloc, &new, ALL_CALLS, ToFormat1)? {
        (Some(true), Some(old)) if acknowledged == Some(COUNT) => Ok(old),
        _ => Err(Fail::from("the tables of format 1 were not made")),
    }
}

/// Nothing is done.
#[derive(Clone, Copy)]
struct Nothing;

impl Task for Nothing {
    type Output = ();

    fn run<K: Tagged>(self, _: Global, _: &mut K) {}
}

/// Opens copies of files of format 1 that take this number of calls. Returns whether they were
/// opened; none if what is left is another state.
fn migrated(
    alloc: Global,
    old: &Files<Fused>,
    calls: Calls,
    states: &[Vec<u8>],
) -> Result<Option<bool>, Fail> {
    let (opened, left) = visit_again(alloc, old, calls, OverOpened(Nothing))?;
    let Some(mut files) = left else {
        return Err(Fail::from("the files were dropped"));
    };
    let lookup = Lookup {
        states,
        acts_again: false,
    };
    let seen = seen_twice(alloc, &mut files, lookup)?;
    let is_right = seen == (Seen::After(COUNT), Seen::After(COUNT));
    Ok(is_right.then_some(opened == Some(Outcome::Done(()))))
}

/// After how many calls the files were opened, if each crash before left their state.
fn calls_of_migration(
    alloc: Global,
    old: &Files<Fused>,
    of_log: bool,
    states: &[Vec<u8>],
) -> Result<Option<u64>, Fail> {
    for count in 0..MOST_CALLS {
        match migrated(alloc, old, calls(of_log, count), states)? {
            Some(false) => {}
            Some(true) => return Ok(Some(count)),
            None => return Ok(None),
        }
    }
    Ok(None)
}

#[test]
fn a_crash_at_each_call_of_the_migration_leaves_the_state(rt: HostRuntime) -> Result<(), Fail> {
    let states = states(rt.alloc())?;
    let old = old_files(rt.alloc())?;
    for of_log in [true, false] {
        let calls = calls_of_migration(rt.alloc(), &old, of_log, &states)?;
        assert!(rt; calls.is_some_and(|count| count > 0), "{of_log} {calls:?}");
    }
    Ok(())
}
