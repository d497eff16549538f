//! What the program guarantees, over any keeper whose store can be opened again.
//!
//! `serve_town` serves the clients of a listener, `pipe` a stream of requests, and `run_batches` a
//! list of batches. They say one thing (`specs/Guarantee`): what was answered is a history of a
//! server that handles one request at a time (`specs/Histories`), and whatever a crash leaves holds
//! the state that this server has kept.
//!
//! The program's keepers are such ones (`streetmap_ledger::Durable`): what a crash leaves of two
//! files is said for `streetmap_store::TableKeeper`, and an index in memory and a journal change
//! nothing of it. `warm` has an index learn before the first request.
//!
//! Modules, in the order of reading: `town`, `stream`, `batches`; `warm_up`.
#![tactic(auto)]

mod batches;
pub mod laws;
mod stream;
mod town;
mod warm_up;

pub use batches::run_batches;
pub use stream::pipe;
pub use town::serve_town;
pub use warm_up::warm;
