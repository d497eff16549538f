//! HTTP from bytes to bytes, over any keeper.
//!
//! One request in a state has one of three outcomes: the answer of that state with the state of the
//! batch; the fixed 503 with the state as it was, if memory ran out; or the 500 of the fault that
//! shut the keeper. `serve` reads requests one after the other and writes their answers, in order,
//! up to the first that closes the connection. Its contract says so for any keeper, reader and
//! writer that show their bytes (`specs/ServedStream`, `ServesExchanges`). Of each request it says
//! what a crash may leave after it, and of each batch that it was answered as the keeper answered
//! it (`specs/Responds`, `ComesOut`).
//!
//! An edge with many connections uses the two halves of a turn: `streetmap_http` says what
//! received bytes hold of a request, and `answer_request` answers the bytes of one. `serve_clients`
//! serves the clients of a listener in this way: many at once, or one after the other, as
//! `serve_count` does.
//!
//! A service may give tags (`Site`): then an answer that needs the state has the tag of it, and a
//! request may have conditions on the tag (`specs/Response`, `response_to`).
//!
//! A service may refuse batches (`Guard`): each, or each of a request without its follower script's
//! token (`specs/Guards`).
//!
//! A service may offer its status (`Site`): then an answer that needs the state shows the serial of
//! it too.
//!
//! Modules, in the order of reading: `guard` and `site`, `response`, `respond` and `status` (the
//! answer in a state), `verdict` and `conditional` (the same by a verdict on its tag), `wanted`
//! (under conditions, and with the serial), `answer` (with its head),
//! `requests` (the bytes of one), `turns` (a stream); `log`, `watch`, `keeper_service` (a request
//! of a client), `clients`.
#![tactic(auto)]

mod answer;
mod clients;
mod conditional;
mod guard;
mod keeper_service;
mod log;
mod requests;
mod respond;
mod response;
mod site;
mod status;
mod turns;
mod verdict;
mod wanted;
mod watch;

pub use clients::{serve_clients, serve_count};
pub use guard::Guard;
pub use keeper_service::KeeperService;
pub use requests::answer_request;
pub use site::Site;
pub use turns::{End, Served, serve};
pub use watch::Watch;
