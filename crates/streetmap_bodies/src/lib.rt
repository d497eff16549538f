//! The bodies of answers as JSON texts, for lines and for HTTP.
//!
//! Each text is exactly the compact JSON text of the value that `specs/Bodies` (pages, collections,
//! features, the landing page), `specs/Replies` and `specs/Errors` define. A page is written
//! feature by feature, without a value of the whole, so its length is known before its first byte
//! is sent.
//!
//! An answer to a batch must not fail because memory runs out once the batch was applied. So
//! replies and errors are appended to room that was allocated before (`push_reply_body`,
//! `push_fault`), and are proved to fit.
//!
//! `RequestFault` is one enum over the faults of all layers: its code, its sentence and its status.
//!
//! Modules, in the order of reading: `error_body`, `request_fault`, `reply_body`; `links`;
//! `landing_body`, `collection_body`, `feature_body`, `page_body`, `line_body`; `changes_body`,
//! `status_body`.
#![tactic(auto)]

mod changes_body;
mod collection_body;
mod error_body;
mod feature_body;
mod landing_body;
mod line_body;
mod links;
mod page_body;
mod reply_body;
mod request_fault;
mod status_body;

pub use changes_body::changes_text;
pub use collection_body::{collection_text, collections_text};
pub use error_body::push_error;
pub use feature_body::feature_text;
pub use landing_body::{api_text, conformance_text, landing_text};
pub use line_body::{line_feature_text, line_page_text};
pub use page_body::page_text;
pub use reply_body::{push_reply, push_reply_body};
pub use request_fault::{RequestFault, push_fault};
pub use status_body::{VERSION, status_text};
