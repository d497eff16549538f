//! A keeper whose accepted batches are written to a journal, a line each, after their commit and
//! before their answer; and the lines of an existing journal, compared with a keeper's batches.
//!
//! `JournaledKeeper` works over any keeper. As long as it represents a state, the bytes that its
//! writer took are the lines of that state's journal after the serial at which it began; or, if a
//! write failed, all bytes of them up to there (`specs/Written`). The line of a batch is made
//! before the batch is applied, so that a batch that acted is answered. Lines that are missing are
//! written before the next batch, after the bytes that are written, or when the journal is begun.
//!
//! `start_journal` begins a journal where it is kept, over any `JournalPlace` (`specs/Starting`):
//! its bytes must be lines of the batches that a keeper keeps, except for the cut of a last line
//! that a crash leaves (`match_lines`, `specs/Matching`). All else is refused, and nothing is
//! written.
//!
//! Modules, in the order of reading: `journal` (lines), `completion`, `keeper`, `front` (bytes of a
//! reader compared with those expected), `comparison`, `place`, `starts`.
#![tactic(auto)]

mod comparison;
mod completion;
mod front;
mod journal;
mod keeper;
mod place;
mod starts;

pub use comparison::{MatchEnd, Matched, match_lines};
pub use journal::{Journal, JournalWriter};
pub use keeper::JournaledKeeper;
pub use place::JournalPlace;
pub use starts::{StartFault, start_journal};
