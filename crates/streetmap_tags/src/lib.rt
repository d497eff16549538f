//! The tags of the states of a keeper.
//!
//! A state is tagged by the number of batches that it has accepted. `Tagged` is a keeper that
//! returns it, says whether a key was used, and returns the batch that has a serial. From it
//! `changes` reads the batches after a serial, in order.
#![tactic(auto)]

mod batches;
mod tagged;

pub use batches::{changes, changes_go_on};
pub use tagged::Tagged;
