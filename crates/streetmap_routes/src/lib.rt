//! What a request wants, by its method, its target and its body, before any state is read.
//!
//! A target is split at its first question mark; the path is looked up undecoded in the router of
//! the eight paths of OGC API - Features, and its captured segments are then percent-decoded. The
//! whole order (the target, the path, the method, the query, the body) is `specs/Operations`,
//! `operation_of`. A service may offer the paths `/changes` and `/status` too (`Offers`): then they
//! are looked at before (`operation_with`).
//!
//! `Base` is the base of links, a web URL without anything after its host and port; it holds the
//! router, and `Base::operation` returns what a request wants.
//!
//! Modules, in the order of reading: `routes`, `operations`, `changes`, `offers`, `base`,
//! `laws`.
#![tactic(auto)]

mod base;
mod changes;
mod laws;
mod offers;
mod operations;
mod routes;

pub use base::Base;
pub use laws::each_path_finds_its_route;
pub use offers::Offers;
pub use operations::Operation;
