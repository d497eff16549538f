//! Many HTTP clients at once, in one thread.
//!
//! A `Connection` has no input or output of its own: it holds what was received and not yet
//! answered, and what was answered and not yet sent. A `Client` is a connection and its stream, and
//! `Clients` are the clients of a server. `serve_connections` waits for their sockets and lets each
//! client take its turn.
#![tactic(auto)]

mod buffers;
mod client;
mod clients;
mod connection;
mod limits;
mod outgoing;
mod serve;
mod service;
mod slot;
mod stream;

pub use client::{Client, Work};
pub use clients::Clients;
pub use connection::Connection;
pub use limits::{Limits, MOST_INPUT};
pub use serve::{ServeFault, serve_connections};
pub use service::{Answer, Cut, Service};
pub use stream::Stream;
