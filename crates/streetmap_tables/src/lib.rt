//! The tables of a ledger in a connection: how they are made and opened, and how a batch changes
//! them.
//!
//! `make_tables` makes the four tables with the opening state, in one transaction: after `Ok` the
//! connection rests at that state and a crash can leave no other, and after a refusal it holds what
//! it held. `adopt_tables` opens tables of format 2 that have the rows of a state as that state,
//! and returns how many batches it has accepted; it writes nothing. `carry_tables` migrates tables
//! of format 1 to format 2, with the same state, in one transaction; `open_tables` opens tables of
//! either format.
//!
//! `apply_batch` returns the result of the batch in the state whose rows the tables hold, and the
//! tables then hold the rows of the state after it. A batch acts whole or not at all: it commits
//! once, with the row of its key beside its edits, and a crash leaves what it could leave before,
//! or the state after the batch. If it gives up, memory ran out and nothing changed, or the store
//! failed, and it returns the error that named the cause.
//!
//! In the order of reading: `kept` (what is kept for a key), `times` and `stored_features` (what is
//! written of a feature), `insertions` (several features by one statement), `edits`, `actions` (a
//! batch inside its transaction), `batch`; `creation`, `adoption`, `recreation` (the tables of
//! format 2 in the place of those of format 1), `features` (the rows of format 1, read and put
//! back), `migration`, `openings`.
#![tactic(auto)]

mod actions;
mod adoption;
mod batch;
mod creation;
mod edits;
mod features;
mod insertions;
mod kept;
mod migration;
mod openings;
mod recreation;
mod stored_features;
mod times;

pub use adoption::adopt_tables;
pub use batch::apply_batch;
pub use creation::{CreateFault, make_tables};
pub use migration::carry_tables;
pub use openings::{OpenFault, open_tables};
pub use streetmap_rows::{Shut, Stop};
