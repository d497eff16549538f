//! What is done over a keeper of tables, which are created or opened for it.
ghost use Rattle.std.specs.Prelude.{◌≡◌};

use crate::files::Visit;
use sqlite::{Alter, Connection};
use std::alloc::Global;
use streetmap_store::TableKeeper;
use streetmap_tables::OpenFault;
use streetmap_tags::Tagged;

/// What is done over a keeper, whatever it is.
pub(crate) trait Task {
    /// Its result.
    type Output;

    /// Does it.
    fn run<K: Tagged>(self, alloc: Global, keeper: &mut K) -> Self::Output;
}

/// The result of a task over tables.
#[derive(Clone, Copy, PartialEq)]
pub(crate) enum Outcome<T> {
    /// There was a keeper, and this is the result.
    Done(T),
    /// The tables are not this product's.
    NotOurs,
    /// There was no keeper, for another reason.
    Refused,
}

/// A task over the keeper of new tables.
#[derive(Clone, Copy)]
pub(crate) struct OverNew<T>(pub(crate) T);

impl<T: Task + Drop> Visit for OverNew<T> {
    type Output = Outcome<T::Output>;

    fn visit<S: Alter + Drop>(
        self,
        alloc: Global,
        conn: Connection<S>,
    ) -> (Outcome<T::Output>, Option<S>) {
        let OverNew(task) = self;
        match TableKeeper::make(alloc, conn) {
            Ok(mut keeper) => {
                let output = task.run(alloc, &mut keeper);
                (Outcome::Done(output), Some(keeper.release().into_store()))
            }
            Err((_, conn)) => (Outcome::Refused, Some(conn.into_store())),
        }
    }
}

/// A task over the keeper of the existing tables.
#[derive(Clone, Copy)]
pub(crate) struct OverOpened<T>(pub(crate) T);

impl<T: Task + Drop> Visit for OverOpened<T> {
    type Output = Outcome<T::Output>;

    fn visit<S: Alter + Drop>(
        self,
        alloc: Global,
        conn: Connection<S>,
    ) -> (Outcome<T::Output>, Option<S>) {
        let OverOpened(task) = self;
        match TableKeeper::adopt(alloc, conn) {
            Ok(mut keeper) => {
                let output = task.run(alloc, &mut keeper);
                (Outcome::Done(output), Some(keeper.release().into_store()))
            }
            Err((OpenFault::NotOurs, conn)) => (Outcome::NotOurs, Some(conn.into_store())),
            Err((_, conn)) => (Outcome::Refused, Some(conn.into_store())),
        }
    }
}
